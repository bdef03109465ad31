//! What the program promises, in its own words, over an outside that tells what it holds.
ghost use Rattle.std.specs.Prelude.{◌≡◌, ◌≢◌, ◌⊎◌, ℕ, ◌+◌, ◌<◌, ◌≤◌, ◌^◌, false, List, [], ◌++◌, length, take, Option, Some, None, IsSome, IsTrue};
ghost use Rattle.pr_outside.specs.Checks.{ends};
ghost use Rattle.pr_outside.specs.FileChecks.{all_asks, all_told, any_refused, texts};
ghost use Rattle.pr_outside.specs.Causes.{IsCalm};
ghost use Rattle.pr_outside.specs.Outside.{AreCalm, AreTold, Held, Outside};
ghost use Rattle.pr_outside.specs.Paths.{Opens};
ghost use Rattle.pr_outside.specs.Status.{HasCause, verdict};
ghost use Rattle.pr_outside.specs.declared.status.status.Status.{Status};
ghost use Rattle.pr_outside.specs.declared.status.status.Status.TheVariants.{Done, Memory, Problem, TooLong, Usage};
ghost use Rattle.spec_history.specs.Histories.{history_of};
ghost use Rattle.pr_top.specs.Command.{Command, backfills, checks_metrics, checks_rules, exercises, runs, tests_rules};
ghost use Rattle.pr_top.specs.Follows.{EndsAtBadRow, Promises};
ghost use Rattle.pr_top.specs.Usage.{usage_text};
ghost use Rattle.pr_top.specs.pr_backfill.Filled.{filled, rows_filled};
ghost use Rattle.pr_top.specs.pr_backfill.Text.{fill_text};
ghost use Rattle.pr_top.specs.pr_backfill.pr_checks.Metrics.{metrics_told};
ghost use Rattle.pr_top.specs.pr_backfill.pr_checks.RuleFiles.{rules_told};
ghost use Rattle.pr_top.specs.pr_backfill.pr_checks.RulesLoaded.{all_rules};
ghost use Rattle.pr_top.specs.pr_exercise.Summary.{exercise_rows, summary};
ghost use Rattle.pr_top.specs.pr_run.Told.{answers_to, asks_of, refuses, told, told_of};
ghost use Rattle.pr_top.specs.pr_test.TestsTold.{success_line, testing_text, tests_told};
ghost use Rattle.pr_top.specs.pr_test.private.Successes.{IsMet};
ghost use Rattle.laws_runs.specs.private.Headline.{ByStart, FromRows, TellsBadRow, Writes, rows_added, rows_of};

use pr_top::test::success_is_told_exactly_where_all_is_met;

/// What a call of the program that ends with `result` comes to: `before` and `now` are what the four
/// objects of the outside mean before and after it.
pub fn the_headline()
    // `run` writes what its script means over the rows at the start, and nothing else. It ends with
    // 1 exactly where it refuses a line, else with 0. The rows of its events come behind the others.
    // Over rows of which one is bad it tells the first such, and so do all that are over rows.
    ensures run { (path bytes : List ℕ) (before now : Outside) (result : Status) → Promises (Some (runs path)) before now result
        → before.input.left ≡ Some bytes → AreCalm before now → result ≢ Memory → length bytes < 2 ^ 32
        → FromRows before now (λ rows all. ByStart (history_of rows) (λ history. (held : Held) → AreTold before.files.content held (asks_of (answers_to held history bytes))
        → Writes before now (told held history bytes) × (result ≡ verdict (refuses held history bytes)) × (now.input.left ≡ Some []) × (all ≡ rows ++ rows_added (answers_to held history bytes)) × Opens path before.store.paths now.store.paths)
        (TellsBadRow rows all before now result)) }
    // It ends with 8 where 2^32 bytes come.
    ensures long { (path bytes : List ℕ) (before now : Outside) (result : Status) → Promises (Some (runs path)) before now result
        → before.input.left ≡ Some bytes → AreCalm before now → result ≢ Memory → 2 ^ 32 ≤ length bytes
        → FromRows before now (λ rows all. ByStart (history_of rows) (λ history. result ≡ TooLong) (TellsBadRow rows all before now result)) }
    // Wherever it is cut short, it kept the rows of k orders, and wrote a front of what is told of
    // these, with all that is told of those before the last.
    ensures cut { (path bytes : List ℕ) (before now : Outside) (result : Status) → Promises (Some (runs path)) before now result → before.input.left ≡ Some bytes
        → FromRows before now (λ rows all. ByStart (history_of rows) (λ history. (held : Held) → AreTold before.files.content held (asks_of (answers_to held history bytes))
        → (k : ℕ) × (n : ℕ) × (k ≤ length (answers_to held history bytes)) × Writes before now (take n (told_of history (take k (answers_to held history bytes)))) × (all ≡ rows ++ rows_added (take k (answers_to held history bytes)))
        × ((j : ℕ) → j + 1 ≡ k → length (told_of history (take j (answers_to held history bytes))) ≤ n))
        (TellsBadRow rows all before now result)) }
    // A run and an exercise that no refused call and no want of memory stopped leave the rows told, as
    // long as what the store stands on has kept its word.
    ensures told_rows { (path : List ℕ) (rounds : ℕ) (before now : Outside) (result : Status) → Promises (Some (runs path)) before now result ⊎ Promises (Some (exercises rounds)) before now result
        → IsCalm before.store.faults now.store.faults → result ≢ Memory → IsTrue now.store.sound → IsSome now.store.rows }
    // `test rules` tells of each file whether all is met, and ends with 0 exactly where all files are.
    ensures tests { (names : List (List ℕ)) (held : Held) (before now : Outside) (result : Status) → Promises (Some (tests_rules names)) before now result → AreTold before.files.content held (all_asks (all_told tests_told held names)) → AreCalm before now → result ≢ Memory
        → Writes before now (texts (all_told tests_told held names)) × (result ≡ verdict (any_refused (all_told tests_told held names))) }
    // SUCCESS is told of a file, which is then not refused, exactly where it and its rule files are found
    // and read, and each of its expectations is what the rules give.
    ensures success { (held : Held) (name : List ℕ) → ((tests_told held name).text ≡ testing_text name ++ success_line → IsMet held name) × (IsMet held name → (tests_told held name).text ≡ testing_text name ++ success_line)
        × ((tests_told held name).refused ≡ false → IsMet held name) × (IsMet held name → (tests_told held name).refused ≡ false) }
    // `check rules` tells what is wrong with each file, or how many rules it has.
    ensures rules { (names : List (List ℕ)) (held : Held) (before now : Outside) (result : Status) → Promises (Some (checks_rules names)) before now result → AreTold before.files.content held (all_asks (all_told rules_told held names)) → AreCalm before now → result ≢ Memory
        → Writes before now (texts (all_told rules_told held names)) × (result ≡ verdict (any_refused (all_told rules_told held names))) }
    // `check metrics` tells what is wrong with the exposition of its input, or complains of it.
    ensures metrics { (bytes : List ℕ) (before now : Outside) (result : Status) → Promises (Some checks_metrics) before now result → before.input.left ≡ Some bytes → AreCalm before now → result ≢ Memory → length bytes < 2 ^ 32
        → Writes before now (metrics_told bytes).text × (result ≡ ends (metrics_told bytes).verdict) × (now.input.left ≡ Some []) }
    // `exercise N` sums up what a run of its events would write, and keeps their rows.
    ensures exercise { (rounds : ℕ) (before now : Outside) (result : Status) → Promises (Some (exercises rounds)) before now result → AreCalm before now → result ≢ Memory
        → FromRows before now (λ rows all. ByStart (history_of rows) (λ history. Writes before now (summary history rounds) × (result ≡ Done) × (all ≡ rows ++ rows_of (exercise_rows history rounds)) × Opens [] before.store.paths now.store.paths)
        (TellsBadRow rows all before now result)) }
    // `backfill` writes and keeps what the rules of its files record at its times, over the rows at
    // the start; or it tells what is wrong with the files, and leaves the store as it is.
    ensures backfill { (path times : List ℕ) (names : List (List ℕ)) (held : Held) (before now : Outside) (result : Status) → Promises (Some (backfills path times names)) before now result
        → AreTold before.files.content held names → (all_rules held names).wrong ≡ [] → AreCalm before now → result ≢ Memory
        → FromRows before now (λ rows all. ByStart (history_of rows) (λ history. Writes before now (fill_text (length history) (filled history (all_rules held names).files times)) × (result ≡ Done)
        × (all ≡ rows ++ rows_of (rows_filled (filled history (all_rules held names).files times))) × Opens path before.store.paths now.store.paths) (TellsBadRow rows all before now result)) }
    ensures refused { (path times : List ℕ) (names : List (List ℕ)) (held : Held) (before now : Outside) (result : Status) → Promises (Some (backfills path times names)) before now result → AreTold before.files.content held names → AreCalm before now → result ≢ Memory
        → (all_rules held names).wrong ≢ [] → Writes before now (all_rules held names).wrong × (result ≡ Problem) × (now.store ≡ before.store) }
    // Words that ask for no command are told what there is.
    ensures usage { (before now : Outside) (result : Status) → Promises None before now result → AreCalm before now → result ≢ Memory → Writes before now usage_text × (result ≡ Usage) }
    // Each status has its cause, over any outside: but for 4, 5 and 6 no call of it was refused.
    ensures statuses { (command : Option Command) (before now : Outside) (result : Status) → Promises command before now result → HasCause (EndsAtBadRow command before now) before now result }
{
    success_is_told_exactly_where_all_is_met();
}
