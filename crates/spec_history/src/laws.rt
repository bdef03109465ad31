// Laws of the history.
ghost use Rattle.std.specs.Prelude.{◌≡◌, ℤ, ◌&&◌, ◌++◌, Bool, List, map};
ghost use Rattle.std.specs.List.Sorted.{IsStrictlyIncreasing};
ghost use Rattle.pr_labels.specs.declared.pair.Pair.{Pair};
ghost use Rattle.spec_history.specs.Admission.{put, put_all};
ghost use Rattle.spec_history.specs.private.Laws.{times_of, IsLawful, IsLawfulAfter, values_shown};
ghost use Rattle.pr_labels.specs.Rising.{IsRising, is_among};
ghost use Rattle.spec_history.specs.Series.{chosen};
ghost use Rattle.spec_history.specs.declared.entry.Entry.{Entry};

/// What `put` leaves of a lawful history is lawful.
pub fn put_keeps_lawful()
    ensures { (history : List Entry) (e : Entry) → IsLawful history → IsLawful (put history e) }
{}

/// Entries that come one after another, each admitted or refused, leave a lawful history lawful; so
/// do entries of which each is added to those before it.
pub fn more_entries_keep_lawful()
    ensures put { (history entries : List Entry) → IsLawful history → IsLawful (put_all history entries) }
    ensures added { (history entries : List Entry) → IsLawful history → IsLawfulAfter history entries → IsLawful (history ++ entries) }
    ensures parts { (history entries : List Entry) → IsLawful (history ++ entries) → IsLawful history × IsLawfulAfter history entries }
{}

/// In a lawful history the times of each series rise, none of them twice.
pub fn times_of_a_series_rise()
    ensures { (history : List Entry) (labels : List Pair) → IsLawful history → IsStrictlyIncreasing (times_of labels history) }
{}

/// The chosen series rise in label order, and so each comes once. A label set is among them exactly
/// where it passes the test and an entry of the history has it.
pub fn chosen_are_those_that_pass()
    ensures rising { (test : List Pair → Bool) (history : List Entry) → IsRising (chosen test history) }
    ensures exactly { (test : List Pair → Bool) (history : List Entry) (labels : List Pair)
        → is_among labels (chosen test history) ≡ (test labels && is_among labels (map (λ e. e.labels) history)) }
{}

/// What a selector shows is in label order, each label set once.
pub fn selected_series_rise()
    ensures { (history : List Entry) (equal : List Pair) (x : ℤ) → IsRising (map (λ i. i.labels) (values_shown history equal x)) }
{}
