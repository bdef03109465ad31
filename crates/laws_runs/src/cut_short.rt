//! What the program promises where something cuts it short, in its own words.
ghost use Rattle.std.specs.Prelude.{◌≡◌, ◌≢◌, ◌⊎◌, ℕ, ◌+◌, ◌<◌, ◌≤◌, ◌^◌, List, [], ◌++◌, length, take, Some, None, IsSome, IsTrue};
ghost use Rattle.pr_outside.specs.Causes.{IsCalm};
ghost use Rattle.pr_outside.specs.FileChecks.{all_asks, all_told, texts};
ghost use Rattle.pr_outside.specs.Outside.{AreCalm, AreTold, Held, Outside, StoreRose};
ghost use Rattle.pr_outside.specs.spec_history.declared.row.Row.{Row};
ghost use Rattle.pr_outside.specs.declared.status.status.Status.{Status};
ghost use Rattle.pr_outside.specs.declared.status.status.Status.TheVariants.{Memory, ReadFault, StoreFault, TooLong};
ghost use Rattle.spec_history.specs.Histories.{history_of};
ghost use Rattle.pr_outside.specs.Stores.{IsBadIn};
ghost use Rattle.spec_rules.specs.Settings.{of_a_run};
ghost use Rattle.spec_world.specs.Step.{rows_of as entries_of};
ghost use Rattle.spec_world.specs.World.{start};
ghost use Rattle.pr_top.specs.Command.{backfills, checks_metrics, checks_rules, exercises, runs, tests_rules};
ghost use Rattle.pr_top.specs.Follows.{Promises};
ghost use Rattle.pr_top.specs.Usage.{usage_text};
ghost use Rattle.pr_top.specs.pr_backfill.Filled.{filled, rows_filled};
ghost use Rattle.pr_top.specs.pr_backfill.Text.{begun_text, fill_text};
ghost use Rattle.pr_top.specs.pr_backfill.pr_checks.Metrics.{metrics_told};
ghost use Rattle.pr_top.specs.pr_backfill.pr_checks.RuleFiles.{rules_told};
ghost use Rattle.pr_top.specs.pr_backfill.pr_checks.RulesLoaded.{all_rules};
ghost use Rattle.pr_top.specs.pr_exercise.Exercise.{exercise_events};
ghost use Rattle.pr_top.specs.pr_exercise.Summary.{summary};
ghost use Rattle.pr_top.specs.pr_test.TestsTold.{tests_told};
ghost use Rattle.pr_top.specs.pr_text.BadRows.{TellsRow, bad_row_text};
ghost use Rattle.laws_runs.specs.private.Headline.{ByStart, FromRows, TellsBadRow, Writes, rows_of};

/// However a call of the program ends, be it that a call of the outside was refused or that memory
/// ran out: `before` and `now` are what the four objects mean before and after it. What is said of a
/// run stands in `the_headline`.
pub fn the_headline_cut_short()
    // `exercise N` kept the rows of k of its events, and wrote a front of its summary: nothing while an
    // event is not answered.
    ensures exercise { (rounds : ℕ) (before now : Outside) (result : Status) → Promises (Some (exercises rounds)) before now result
        → FromRows before now (λ rows all. ByStart (history_of rows) (λ history. (k : ℕ) × (n : ℕ) × (k ≤ length (exercise_events rounds)) × Writes before now (take n (summary history rounds)) × (all ≡ rows ++ rows_of (entries_of of_a_run (start history) (take k (exercise_events rounds))))
        × (k < length (exercise_events rounds) → n ≡ 0)) (TellsBadRow rows all before now result)) }
    // `test rules` wrote a front of what is told of k files, with all that is told of those before the
    // last of them,
    ensures tests { (names : List (List ℕ)) (held : Held) (before now : Outside) (result : Status) → Promises (Some (tests_rules names)) before now result → AreTold before.files.content held (all_asks (all_told tests_told held names))
        → (k : ℕ) × (n : ℕ) × (k ≤ length names) × Writes before now (take n (texts (take k (all_told tests_told held names)))) × ((j : ℕ) → j + 1 ≡ k → length (texts (take j (all_told tests_told held names))) ≤ n) }
    // and so did `check rules`.
    ensures rules { (names : List (List ℕ)) (held : Held) (before now : Outside) (result : Status) → Promises (Some (checks_rules names)) before now result → AreTold before.files.content held (all_asks (all_told rules_told held names))
        → (k : ℕ) × (n : ℕ) × (k ≤ length names) × Writes before now (take n (texts (take k (all_told rules_told held names)))) × ((j : ℕ) → j + 1 ≡ k → length (texts (take j (all_told rules_told held names))) ≤ n) }
    // `check metrics` wrote a front of its text,
    ensures metrics { (bytes : List ℕ) (before now : Outside) (result : Status) → Promises (Some checks_metrics) before now result → before.input.left ≡ Some bytes
        → (n : ℕ) × Writes before now (take n (metrics_told bytes).text) }
    // and nothing where it ended with 8, or with 4, over files that refused nothing: it asks for none.
    ensures silent { (before now : Outside) (result : Status) → Promises (Some checks_metrics) before now result
        → (result ≡ TooLong) ⊎ ((result ≡ ReadFault) × IsCalm before.files.faults now.files.faults) → Writes before now [] }
    // It ends with 8 where 2^32 bytes come.
    ensures long { (bytes : List ℕ) (before now : Outside) (result : Status) → Promises (Some checks_metrics) before now result → before.input.left ≡ Some bytes → AreCalm before now → result ≢ Memory → 2 ^ 32 ≤ length bytes → result ≡ TooLong }
    // `backfill` kept the rows of k of its evaluations, and wrote a front of its text: all that is told
    // of those before the last of them, and of the others nothing.
    ensures backfill { (path times : List ℕ) (names : List (List ℕ)) (held : Held) (before now : Outside) (result : Status) → Promises (Some (backfills path times names)) before now result
        → AreTold before.files.content held names → (all_rules held names).wrong ≡ []
        → FromRows before now (λ rows all. ByStart (history_of rows) (λ history. (k : ℕ) × (n : ℕ) × (k ≤ length (filled history (all_rules held names).files times)) × Writes before now (take n (fill_text (length history) (filled history (all_rules held names).files times)))
        × (all ≡ rows ++ rows_of (rows_filled (take k (filled history (all_rules held names).files times))))
        × ((j : ℕ) → j + 1 ≡ k → length (begun_text (length history) (take j (filled history (all_rules held names).files times))) ≤ n)
        × (k < length (filled history (all_rules held names).files times) → n ≤ length (begun_text (length history) (take k (filled history (all_rules held names).files times)))))
        (TellsBadRow rows all before now result)) }
    // Over files of which one is wrong it wrote a front of what tells that, and left the store as it was.
    ensures refused { (path times : List ℕ) (names : List (List ℕ)) (held : Held) (before now : Outside) (result : Status) → Promises (Some (backfills path times names)) before now result → AreTold before.files.content held names
        → (all_rules held names).wrong ≢ [] → ((n : ℕ) × Writes before now (take n (all_rules held names).wrong)) × (now.store ≡ before.store) }
    // It leaves the rows of a store that it did not open, whatever the files hold.
    ensures unopened { (path times : List ℕ) (names : List (List ℕ)) (all : List Row) (before now : Outside) (result : Status) → Promises (Some (backfills path times names)) before now result
        → now.store.paths ≡ before.store.paths → now.store.rows ≡ Some all → before.store.rows ≡ Some all }
    // And a backfill that opened its store, and that no refused call and no want of memory stopped, leaves
    // the rows told, as long as what the store stands on has kept its word.
    ensures told_rows { (path times : List ℕ) (names : List (List ℕ)) (before now : Outside) (result : Status) → Promises (Some (backfills path times names)) before now result
        → now.store.paths ≢ before.store.paths → IsCalm before.store.faults now.store.faults → result ≢ Memory → IsTrue now.store.sound → IsSome now.store.rows }
    // Over any store, one that never tells its rows too: a run that ended with 6 had a call of the store
    // refused, or its last line tells a bad row, which is the first such where the rows are told.
    ensures row { (path : List ℕ) (before now : Outside) (result : Status) → Promises (Some (runs path)) before now result → result ≡ StoreFault
        → StoreRose before now ⊎ ((index : ℕ) × IsBadIn now.store index × TellsRow index before.out.taken now.out.taken) }
    // And `exercise` and `backfill` wrote that line alone.
    ensures lone_row { (path times : List ℕ) (names : List (List ℕ)) (rounds : ℕ) (before now : Outside) (result : Status)
        → Promises (Some (exercises rounds)) before now result ⊎ Promises (Some (backfills path times names)) before now result → result ≡ StoreFault
        → StoreRose before now ⊎ ((index : ℕ) × IsBadIn now.store index × Writes before now (bad_row_text index)) }
    // Words that ask for no command are told a front of what there is.
    ensures usage { (before now : Outside) (result : Status) → Promises None before now result → (n : ℕ) × Writes before now (take n usage_text) }
{}
