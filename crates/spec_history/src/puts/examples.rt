// What the definitions say of small lists of entries.
ghost use Rattle.std.specs.Prelude.{◌≡◌, [], ◌∷◌};
ghost use Rattle.pr_num.specs.declared.value.Point.TheVariants.{Stale};
ghost use Rattle.spec_history.specs.private.Examples.{entry_at, m, marked, one, whole};
ghost use Rattle.spec_history.specs.Puts.{added_count, admitted, shown_entries, markers, refused_count, label_sets_of};

/// An equal entry is not added again, but its series shows it; another one at its time is refused.
pub fn entries_are_admitted_in_their_turn()
    ensures admitted { admitted [] (entry_at 0 (whole 1) ∷ entry_at 0 (whole 1) ∷ entry_at 60000 Stale ∷ []) ≡ marked }
    ensures shown { label_sets_of (shown_entries one (entry_at 0 (whole 1) ∷ entry_at 0 (whole 2) ∷ [])) ≡ m ∷ [] }
    ensures added { added_count one (entry_at 0 (whole 1) ∷ entry_at 60000 (whole 2) ∷ []) ≡ 1 }
    ensures refused { refused_count one (entry_at 0 (whole 2) ∷ entry_at 60000 (whole 2) ∷ []) ≡ 1 }
{}

/// A marker follows for a series that is gone, and none for one that is still there.
pub fn a_series_that_is_gone_is_marked()
    ensures gone { markers 60000 (m ∷ []) [] ≡ entry_at 60000 Stale ∷ [] }
    ensures there { markers 60000 (m ∷ []) (m ∷ []) ≡ [] }
{}
