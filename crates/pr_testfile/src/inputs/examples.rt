//! What the definitions say of small texts of values.
ghost use Rattle.std.specs.Prelude.{◌≡◌, pos, negsuc, [], ◌∷◌, Some, None, codes};
ghost use Rattle.pr_num.specs.declared.value.Num.TheVariants.{Finite, NaN, PosInf, NegInf};
ghost use Rattle.pr_num.specs.declared.value.Point.TheVariants.{Value, Stale};
ghost use Rattle.pr_num.specs.Arithmetic.{whole_of};
ghost use Rattle.pr_testfile.specs.declared.inputs.stretch.Stretch.TheVariants.{Steps, Missing, Marker};
ghost use Rattle.pr_testfile.specs.declared.inputs.values.Values.TheVariants.{Stretches, TooMany, Bad};
ghost use Rattle.pr_testfile.specs.Steps.{zero_value};
ghost use Rattle.pr_testfile.specs.Items.{stretch_of};
ghost use Rattle.pr_testfile.specs.Points.{points};
ghost use Rattle.pr_testfile.specs.Values.{values_of};
ghost use Rattle.pr_testfile.specs.private.Worked.{some_value, from_by};

/// Items: a number, a number so many more times, a number that rises or falls, a gap, a marker.
#[tactic(auto, unfolding(crate::proofs::Computing::computing))]
pub fn items_are_read_so()
    ensures number { stretch_of (codes "-2.5") ≡ Some (Steps (Finite (negsuc 2499999999)) zero_value 0) }
    ensures same { stretch_of (codes "0x14") ≡ Some (Steps zero_value zero_value 14) }
    ensures rising { stretch_of (codes "1+0x6") ≡ Some (from_by (pos 1) (pos 0) 6) }
    ensures falling { stretch_of (codes "1000-60x30") ≡ Some (from_by (pos 1000) (negsuc 59) 30) }
    ensures negative { stretch_of (codes "-2x3") ≡ Some (from_by (negsuc 1) (pos 0) 3) }
    ensures gap { stretch_of (codes "_") ≡ Some (Missing 1) }
    ensures gaps { stretch_of (codes "_x0") ≡ Some (Missing 0) }
    ensures marker { stretch_of (codes "stale") ≡ Some Marker }
    ensures exponent { stretch_of (codes "1e+1+2e-1x2") ≡ Some (Steps (whole_of (pos 10)) (Finite (pos 200000000)) 2) }
    ensures special { stretch_of (codes "-inf+NaNx1") ≡ Some (Steps NegInf NaN 1) }
{}

/// What is no item: a sign too many, no count, a zero before a count, a count of a marker, a step
/// without a count, a value that is too wide.
#[tactic(auto, unfolding(crate::proofs::Computing::computing))]
pub fn no_items_are_read_so()
    ensures signed { stretch_of (codes "1+-1x3") ≡ None }
    ensures no_count { stretch_of (codes "1x") ≡ None }
    ensures led_by_zero { stretch_of (codes "0x04") ≡ None }
    ensures marker { stretch_of (codes "stalex2") ≡ None }
    ensures bare { stretch_of (codes "1+1") ≡ None }
    ensures wide { stretch_of (codes "9e19+1e19x1") ≡ None }
    ensures fit { stretch_of (codes "-9e19+1e19x18") ≡ Some (from_by (negsuc 89999999999999999999) (pos 10000000000000000000) 18) }
    ensures never { stretch_of (codes "1+1x999999999999999999999999999999") ≡ None }
{}

/// Texts of items, with blanks around them and between them; the points that stretches stand for;
/// and values that are too many, or too late.
#[tactic(auto, unfolding(crate::proofs::Computing::computing))]
pub fn texts_are_read_so()
    ensures worked { values_of None (codes "1+0x6 0 _ stale") ≡ Stretches (from_by (pos 1) (pos 0) 6 ∷ from_by (pos 0) (pos 0) 0 ∷ Missing 1 ∷ Marker ∷ []) }
    ensures nothing { values_of None (codes "  ") ≡ Stretches [] }
    ensures blanks { values_of None (codes " 1  2 ") ≡ Stretches (from_by (pos 1) (pos 0) 0 ∷ from_by (pos 2) (pos 0) 0 ∷ []) }
    ensures empty { values_of None (codes "_x0 1") ≡ Stretches (from_by (pos 1) (pos 0) 0 ∷ []) }
    ensures bad { values_of None (codes "1 2 x") ≡ Bad }
    ensures points { points (from_by (pos 10) (negsuc 2) 2 ∷ Missing 2 ∷ Marker ∷ []) ≡ some_value (pos 10) ∷ some_value (pos 7) ∷ some_value (pos 4) ∷ None ∷ None ∷ Some Stale ∷ [] }
    ensures infinite { points (Steps (whole_of (pos 1)) NegInf 2 ∷ []) ≡ some_value (pos 1) ∷ Some (Value NegInf) ∷ Some (Value NegInf) ∷ [] }
    ensures undone { points (Steps PosInf NegInf 1 ∷ []) ≡ Some (Value PosInf) ∷ Some (Value NaN) ∷ [] }
    ensures most { values_of None (codes "_x1048575 1") ≡ Stretches (Missing 1048575 ∷ from_by (pos 1) (pos 0) 0 ∷ []) }
    ensures many { values_of None (codes "_x1048576 1") ≡ TooMany }
    ensures worse { values_of None (codes "_x1048576 1 x") ≡ Bad }
    ensures last { values_of (Some 1099511627775) (codes "1x4") ≡ Stretches (from_by (pos 1) (pos 0) 4 ∷ []) }
    ensures late { values_of (Some 1099511627776) (codes "1x4") ≡ TooMany }
{}
