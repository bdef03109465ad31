//! What a run begins with.
ghost use Rattle.std.specs.Prelude.{◌≡◌, List, codes, [], ◌∷◌, None, Some};
ghost use Rattle.pr_outside.specs.spec_history.declared.row.Row.{Row};
ghost use Rattle.pr_outside.specs.Stores.{AreFirst};
ghost use Rattle.pr_top.specs.pr_text.BadRows.{bad_row_text};

/// A bad row is told by its index.
pub fn a_bad_row_is_told_by_its_index()
    ensures { bad_row_text 1 ≡ codes "bad row 1\n" }
{}

/// A store that tells its rows at the end alone began with the first of these; one that told them before
/// began with those.
pub fn rows_that_are_told_late_are_the_first_ones()
    ensures late { (r s : Row) → AreFirst (r ∷ []) None (r ∷ s ∷ []) }
    ensures no_other { (r s t : Row) → AreFirst (t ∷ []) None (r ∷ s ∷ []) → t ∷ [] ≡ r ∷ [] }
    ensures told { (r s : Row) (rows : List Row) → AreFirst rows (Some (r ∷ [])) (r ∷ s ∷ []) → rows ≡ r ∷ [] }
{}
