// The series that a selector chooses.
ghost use Rattle.std.specs.Prelude.{◌≡◌, ◌<◌, length, map, List, IfOk};
ghost use Rattle.std.specs.List.{All};
ghost use Rattle.pr_labels.specs.Rising.{IsRising};
ghost use Rattle.spec_history.specs.declared.entry.Entry.{Entry};
ghost use Rattle.spec_history.specs.Series.{chosen};
ghost use Rattle.spec_history.specs.private.Laws.{has_values};
ghost use Rattle.pr_head.specs.private.Holds.{arrivals, chosen_of, labels_at, sets_of, Holds};

use crate::head::Head;
use pr_labels::Pair;
use std::alloc::AllocError;

impl Head {
    /// The series that have all these labels, in label order, no two with the same labels. An empty
    /// value asks for series without the label. (Prometheus: Querying, Basics, Instant vector
    /// selectors.) Asked are the series that have one of the labels, the one that the fewest have,
    /// or all where no value is given; nothing is sorted. The series of one label that is asked for
    /// alone are answered as they are listed.
    pub fn select(&self, equal: &[Pair]) -> Result<Vec<usize>, AllocError>
        ensures known { IfOk result (λ v. All (λ i. i < length self.now) v.items) }
        ensures in_order { IfOk result (λ v. IsRising (map (labels_at (sets_of self.now)) v.items)) }
        ensures sets { IfOk result (λ v. map (labels_at (sets_of self.now)) v.items ≡ chosen_of (has_values equal.now) (sets_of self.now)) }
        ensures chosen { (history : List Entry) → Holds self.now history
            → IfOk result (λ v. map (labels_at (arrivals history)) v.items ≡ chosen (has_values equal.now) history) }
    {
        self.index.select(equal)
    }
}
