// What windows that are true of a history tell.
ghost use Rattle.std.specs.Prelude.{◌≡◌, ◌≤◌, ℕ, List, Some, slice_get};
ghost use Rattle.pr_head.specs.pr_labels.declared.pair.Pair.{Pair};
ghost use Rattle.pr_head.specs.spec_history.declared.entry.Entry.{Entry};
ghost use Rattle.pr_head.specs.spec_history.private.Laws.{entries_until};
ghost use Rattle.pr_head.specs.private.Holds.{arrivals};
ghost use Rattle.pr_range.specs.private.Asks.{LastAsk};
ghost use Rattle.pr_slide.specs.private.Windows.{AreWindowsOf, Nodes, last_asks, passed_of};

/// No more samples of a series were passed than it has until the end of the last range, so that the
/// number does not fall where the next range ends no earlier.
#[tactic(auto, using(crate::proofs::Bounds::passed_within))]
pub fn what_was_passed_is_no_more_than_the_range()
    ensures { (nodes : Nodes) (history : List Entry) (node series : ℕ) (labels : List Pair) (last : LastAsk) → AreWindowsOf nodes history → slice_get (arrivals history) series ≡ Some labels
        → last_asks nodes node series ≡ Some last → passed_of nodes node series ≤ entries_until history labels last.to }
{}
