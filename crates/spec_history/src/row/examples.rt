//! Small rows to try the definitions on.
ghost use Rattle.std.specs.Prelude.{◌≡◌, [], ◌∷◌, codes, Some, None, Ok, Err};
ghost use Rattle.pr_num.specs.declared.value.Point.TheVariants.{Stale};
ghost use Rattle.spec_history.specs.Rows.{encoded, decoded, point_in, time_in};
ghost use Rattle.spec_history.specs.Histories.{history_of};
ghost use Rattle.spec_history.specs.private.RowExamples.{row, sample, marker, row_at, entry_at, one_at};

/// An entry and its row; what is the text of no point, and a time of no
/// entry.
pub fn small_rows()
    ensures sample { encoded sample ≡ row (codes "a{b=\"c\"}") 7 (codes "1.5") }
    ensures marker { encoded marker ≡ row (codes "{}") 0 (codes "stale") }
    ensures back { decoded (row (codes "a{b=\"c\"}") 7 (codes "1.5")) ≡ Some sample }
    ensures zeros { point_in (codes "1.50") ≡ None }
    ensures word { point_in (codes "Stale") ≡ None }
    ensures late { time_in 4398046511104 ≡ None }
{}

/// Rows tell their history; or the first one that is the row of no entry, or that is not added to
/// those before it.
pub fn small_histories()
    ensures good { history_of (row_at 0 (codes "1") ∷ row_at 1 (codes "1") ∷ []) ≡ Ok (one_at 0 ∷ one_at 1 ∷ []) }
    ensures marked { history_of (row_at 0 (codes "1") ∷ row_at 60000 (codes "stale") ∷ []) ≡ Ok (one_at 0 ∷ entry_at 60000 Stale ∷ []) }
    ensures none { history_of [] ≡ Ok [] }
    ensures no_row { history_of (row_at 0 (codes "1") ∷ row_at 1 (codes "01") ∷ row_at 0 (codes "1") ∷ []) ≡ Err 1 }
    ensures same { history_of (row_at 0 (codes "1") ∷ row_at 60000 (codes "stale") ∷ row_at 60000 (codes "stale") ∷ []) ≡ Err 2 }
    ensures conflict { history_of (row_at 1 (codes "1") ∷ row_at 1 (codes "stale") ∷ []) ≡ Err 1 }
    ensures older { history_of (row_at 1 (codes "1") ∷ row_at 0 (codes "1") ∷ row_at 2 (codes "01") ∷ []) ≡ Err 1 }
{}
