// What reads of a head tell of the history that it stands for.
ghost use Rattle.std.specs.Prelude.{◌≡◌, ◌≤◌, ℕ, ℤ, List, Some, length, slice_get};
ghost use Rattle.pr_labels.specs.declared.pair.Pair.{Pair};
ghost use Rattle.spec_history.specs.declared.entry.Entry.{Entry};
ghost use Rattle.spec_history.specs.private.Laws.{entries_of, IsLawful};
ghost use Rattle.spec_history.specs.Lookback.{spot_at};
ghost use Rattle.pr_head.specs.private.Stored.{Stored, count_of, newest_at, sample_at};
ghost use Rattle.pr_head.specs.private.Holds.{samples_of, Holds, IsWhole};
ghost use Rattle.pr_head.specs.private.Reads.{spot_shown, IsPast};

/// The count of a series is that of its entries, and the sample at a place that is not forgotten is
/// the one that arrived there.
pub fn places_are_those_of_the_history()
    ensures count { (head : List (List Pair × Stored)) (history : List Entry) (i : ℕ) (e : List Pair × Stored) → Holds head history → slice_get head i ≡ Some e
        → count_of e.1 ≡ length (entries_of e.0 history) }
    ensures sample { (head : List (List Pair × Stored)) (history : List Entry) (i place : ℕ) (e : List Pair × Stored) → Holds head history → slice_get head i ≡ Some e
        → e.1.first ≤ place → sample_at e.1 place ≡ slice_get (samples_of history e.0) place }
{}

/// What a series shows at a moment is told by its newest sample until then, with the time of that
/// sample: where nothing is forgotten but what is not seen any more, one read a series is enough.
pub fn the_newest_sample_is_what_is_shown()
    ensures { (head : List (List Pair × Stored)) (history : List Entry) (x y : ℤ) (i : ℕ) (e : List Pair × Stored) → IsLawful history → Holds head history
        → IsWhole head history y → IsPast y x → slice_get head i ≡ Some e → spot_at history x e.0 ≡ spot_shown x (newest_at e.1 x) }
{}
