//! Small runs that are cut short, one for each place where they may stop, and some that are no
//! such runs.
ghost use Rattle.std.specs.Prelude.{◌≡◌, codes, [], ◌∷◌, ℕ, List, Some, true};
ghost use Rattle.spec_history.specs.declared.entry.Entry.{Entry};
ghost use Rattle.pr_outside.specs.spec_history.declared.row.Row.{Row};
ghost use Rattle.spec_history.specs.Rows.{encoded};
ghost use Rattle.pr_outside.specs.Ends.{at_file, at_output, at_row, at_store, anywhere};
ghost use Rattle.pr_top.specs.pr_text.BadRows.{IsBadStart, TellsRow};
ghost use Rattle.pr_top.specs.pr_run.Front.{IsFront};
ghost use Rattle.laws_runs.specs.private.Examples.{added, outside_of, reloaded};

/// A store that refuses the third order's rows leaves the rows and the texts of the two before.
pub fn a_run_stops_at_its_store()
    ensures { (e f g : Entry) → IsFront [] at_store [] (added e ∷ added f ∷ added g ∷ []) (outside_of [] [] 0)
        (outside_of (codes "opened 0\nadded\nadded\n") (encoded e ∷ encoded f ∷ []) 0) }
{}

/// A file that can't be loaded leaves the orders before its reload.
pub fn a_run_stops_at_a_file()
    ensures { (e : Entry) (file : List ℕ) → IsFront [] at_file [] (added e ∷ reloaded file ∷ []) (outside_of [] [] 0)
        (outside_of (codes "opened 0\nadded\n") (encoded e ∷ []) 1) }
{}

/// An output that refuses leaves the rows of the order that it was told in part.
pub fn a_run_stops_at_its_output()
    ensures { (e f g : Entry) → IsFront [] at_output [] (added e ∷ added f ∷ added g ∷ []) (outside_of [] [] 0)
        (outside_of (codes "opened 0\nadded\nad") (encoded e ∷ encoded f ∷ []) 0) }
{}

/// A row that stops a run is told by the last line, behind the answers before it; no other line tells
/// it.
pub fn a_row_is_told_by_the_last_line()
    ensures behind { TellsRow 7 (Some []) (Some (codes "opened 0\nadded\nbad row 7\n")) }
    ensures alone { TellsRow 7 (Some []) (Some (codes "bad row 7\n")) }
    ensures not_told { TellsRow 7 (Some []) (Some (codes "opened 0\n")) → ⊥ }
{}

/// Want of memory may come when an order's rows are kept and none of its text is written.
pub fn a_run_stops_for_memory()
    ensures { (e f : Entry) → IsFront [] anywhere [] (added e ∷ added f ∷ []) (outside_of [] [] 0) (outside_of (codes "opened 0\n") (encoded e ∷ []) 0) }
{}

/// Over rows of which one is bad, the line that tells so is written in part where the output
/// refuses, and whole where the run stops for the row.
pub fn a_bad_row_is_told_alone()
    ensures part { (r : Row) → IsBadStart 0 at_output (r ∷ []) (outside_of [] (r ∷ []) 0) (outside_of (codes "bad r") (r ∷ []) 0) }
    ensures whole { (r : Row) → IsBadStart 0 (at_row 0) (r ∷ []) (outside_of [] (r ∷ []) 0) (outside_of (codes "bad row 0\n") (r ∷ []) 0) }
    ensures other { (r : Row) → IsBadStart 0 (at_row 1) (r ∷ []) (outside_of [] (r ∷ []) 0) (outside_of (codes "bad row 1\n") (r ∷ []) 0) → ⊥ }
{}

/// The rows of no order are kept but those of orders that were told, the last of them maybe in part:
/// where none of the first one was told, not those of two.
pub fn no_more_is_kept_than_told()
    ensures { (e f : Entry) → IsFront [] anywhere [] (added e ∷ added f ∷ []) (outside_of [] [] 0) (outside_of (codes "opened 0\n") (encoded e ∷ encoded f ∷ []) 0) → ⊥ }
{}

/// No order is answered whose file could not be loaded.
pub fn no_order_is_answered_without_its_file()
    ensures { (e : Entry) (file : List ℕ) → IsFront [] at_file [] (reloaded file ∷ added e ∷ []) (outside_of [] [] 0) (outside_of (codes "opened 0\nreloaded\n") [] 1) → ⊥ }
{}
