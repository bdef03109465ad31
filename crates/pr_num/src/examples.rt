//! Worked examples of the definitions that contracts of this crate cite. Each is a function that
//! does nothing, and its contract says what the definitions give, so that none of them changes with
//! its code unseen.
ghost use Rattle.std.specs.Prelude.{◌≡◌, [], ◌∷◌, Some, codes, pos, negsuc};
ghost use Rattle.std.specs.declared.cmp.Ordering.TheVariants.{Less};
ghost use Rattle.pr_num.specs.Half.{half};
ghost use Rattle.pr_num.specs.Order.{compared, order_of};
ghost use Rattle.pr_num.specs.private.Worked.{read_again, plus, minus, times, over, modulo, scaled, floor, ceil, rounded, quantile, sum, mean};
ghost use Rattle.pr_num.specs.declared.value.Num.TheVariants.{Finite, PosInf, NegInf};

/// A fraction is rounded to the next whole number, and half way between two to the even one, below
/// zero too.
#[tactic(auto, unfolding(crate::proofs::Computing::computing))]
pub fn rounding_by_example()
    ensures below { half (pos 7) (pos 3) ≡ pos 2 }
    ensures above { half (pos 8) (pos 3) ≡ pos 3 }
    ensures even { half (pos 5) (pos 2) ≡ pos 2 }
    ensures odd { half (pos 7) (pos 2) ≡ pos 4 }
    ensures negative { half (negsuc 4) (pos 2) ≡ negsuc 1 }
    ensures divisor { half (pos 7) (negsuc 1) ≡ negsuc 3 }
{}

/// Which texts read as which values, and what is printed for these.
#[tactic(auto, unfolding(crate::proofs::Computing::computing))]
pub fn texts_by_example()
    ensures plain { read_again (codes "007.500") ≡ codes "7.5" }
    ensures negative { read_again (codes "-12") ≡ codes "-12" }
    ensures exponent { read_again (codes "+.5E1") ≡ codes "5" }
    ensures divided { read_again (codes "5.e-1") ≡ codes "0.5" }
    ensures places { read_again (codes "0.0000000015") ≡ codes "0.000000002" }
    ensures no_sign { read_again (codes "-0.0000000005") ≡ codes "0" }
    ensures widest { read_again (codes "99999999999999999999.9999999994") ≡ codes "99999999999999999999.999999999" }
    ensures too_wide { read_again (codes "99999999999999999999.9999999995") ≡ codes "wide" }
    ensures word { read_again (codes "-Infinity") ≡ codes "-Inf" }
    ensures nan { read_again (codes "nan") ≡ codes "NaN" }
    ensures signed_nan { read_again (codes "+nan") ≡ codes "none" }
    ensures hexadecimal { read_again (codes "0x10") ≡ codes "none" }
    ensures point { read_again (codes ".") ≡ codes "none" }
{}

/// Sums and differences.
#[tactic(auto, unfolding(crate::proofs::Computing::computing))]
pub fn sums_by_example()
    ensures exact { plus (codes "0.1") (codes "0.2") ≡ codes "0.3" }
    ensures wide { plus (codes "99999999999999999999.999999999") (codes "1e-9") ≡ codes "wide" }
    ensures opposite { plus (codes "+Inf") (codes "-Inf") ≡ codes "NaN" }
    ensures less { minus (codes "1") (codes "2.5") ≡ codes "-1.5" }
    ensures infinite { minus (codes "1") (codes "+Inf") ≡ codes "-Inf" }
{}

/// Products.
#[tactic(auto, unfolding(crate::proofs::Computing::computing))]
pub fn products_by_example()
    ensures exact { times (codes "-1.5") (codes "2.5") ≡ codes "-3.75" }
    ensures to_zero { times (codes "1e-9") (codes "0.5") ≡ codes "0" }
    ensures to_even { times (codes "3e-9") (codes "0.5") ≡ codes "0.000000002" }
    ensures wide { times (codes "1e10") (codes "1e10") ≡ codes "wide" }
    ensures zero { times (codes "0") (codes "+Inf") ≡ codes "NaN" }
    ensures sign { times (codes "-2") (codes "+Inf") ≡ codes "-Inf" }
    ensures whole { scaled (codes "10") 2 3 ≡ codes "6.666666667" }
{}

/// Quotients and remainders.
#[tactic(auto, unfolding(crate::proofs::Computing::computing))]
pub fn quotients_by_example()
    ensures rounded { over (codes "2") (codes "3") ≡ codes "0.666666667" }
    ensures over_zero { over (codes "1") (codes "0") ≡ codes "+Inf" }
    ensures negative_over_zero { over (codes "-1") (codes "-0") ≡ codes "-Inf" }
    ensures zero_over_zero { over (codes "0") (codes "0") ≡ codes "NaN" }
    ensures over_infinity { over (codes "5") (codes "-Inf") ≡ codes "0" }
    ensures infinity_over { over (codes "+Inf") (codes "-5") ≡ codes "-Inf" }
    ensures rest { modulo (codes "-7") (codes "3") ≡ codes "-1" }
    ensures rest_of_negative { modulo (codes "7") (codes "-3") ≡ codes "1" }
    ensures rest_by_zero { modulo (codes "1") (codes "0") ≡ codes "NaN" }
    ensures rest_by_infinity { modulo (codes "7") (codes "-Inf") ≡ codes "7" }
{}

/// Floors, ceils and rounding to a step.
#[tactic(auto, unfolding(crate::proofs::Computing::computing))]
pub fn multiples_by_example()
    ensures floor { floor (codes "-0.5") ≡ codes "-1" }
    ensures ceil { ceil (codes "0.5") ≡ codes "1" }
    ensures tie { rounded (codes "-2.5") (codes "1") ≡ codes "-2" }
    ensures tie_of_negative { rounded (codes "-2.5") (codes "-1") ≡ codes "-3" }
    ensures step { rounded (codes "2.6") (codes "0.5") ≡ codes "2.5" }
    ensures wide { rounded (codes "99999999999999999999.5") (codes "1") ≡ codes "wide" }
    ensures no_step { rounded (codes "+Inf") (codes "0") ≡ codes "NaN" }
{}

/// Quantiles, sums and means of lists.
#[tactic(auto, unfolding(crate::proofs::Computing::computing))]
pub fn lists_by_example()
    ensures quarter { quantile (codes "0.25") (codes "0" ∷ codes "4" ∷ []) ≡ codes "1" }
    ensures between { quantile (codes "0.75") (codes "1" ∷ codes "2" ∷ codes "4" ∷ []) ≡ codes "3" }
    ensures last { quantile (codes "1") (codes "1" ∷ codes "2" ∷ codes "4" ∷ []) ≡ codes "4" }
    ensures below { quantile (codes "-0.1") (codes "1" ∷ []) ≡ codes "-Inf" }
    ensures none { quantile (codes "0.5") [] ≡ codes "NaN" }
    ensures sum { sum (codes "1e-9" ∷ codes "2e-9" ∷ []) ≡ codes "0.000000003" }
    ensures mean { mean (codes "1e-9" ∷ codes "2e-9" ∷ []) ≡ codes "0.000000002" }
    ensures infinite { mean (codes "1" ∷ codes "-Inf" ∷ []) ≡ codes "-Inf" }
{}

/// Which of two values is the less, as numbers and in order.
#[tactic(auto, unfolding(crate::specs::Order::compared, crate::specs::Order::order_of))]
pub fn order_by_example()
    ensures finite { compared (Finite (pos 1)) (Finite (pos 2)) ≡ Some Less }
    ensures infinite { compared (Finite (pos 1)) PosInf ≡ Some Less }
    ensures negative { order_of (Finite (negsuc 0)) (Finite (pos 0)) ≡ Less }
    ensures below { order_of NegInf (Finite (negsuc 0)) ≡ Less }
{}
