//! What a command does not use.
ghost use Rattle.std.specs.Prelude.{◌≡◌, ℕ, List, Some, None, map, string_bytes};
ghost use Rattle.pr_top.specs.Command.{backfills, checks_metrics, checks_rules, command_of, exercises, tests_rules};

use pr_outside::{Files, Keeper, Sink, Source};
use pr_top::{Status, promtool};
use std::alloc::Global;

/// Calls the program. What the command of these words does not use is after it as it was before,
/// faults and all: a run alone may use all.
pub fn what_is_not_used_stays<I: Source, F: Files, K: Keeper, O: Sink>(
    alloc: Global,
    words: &[String],
    input: &mut I,
    files: &mut F,
    keeper: &mut K,
    out: &mut O,
) -> Status
    ensures tests { (names : List (List ℕ)) → command_of (map string_bytes words.now) ≡ Some (tests_rules names) → (input.new ≡ input.old) × (keeper.new ≡ keeper.old) }
    ensures rules { (names : List (List ℕ)) → command_of (map string_bytes words.now) ≡ Some (checks_rules names) → (input.new ≡ input.old) × (keeper.new ≡ keeper.old) }
    ensures metrics { command_of (map string_bytes words.now) ≡ Some checks_metrics → (files.new ≡ files.old) × (keeper.new ≡ keeper.old) }
    ensures exercise { (rounds : ℕ) → command_of (map string_bytes words.now) ≡ Some (exercises rounds) → (input.new ≡ input.old) × (files.new ≡ files.old) }
    ensures backfill { (path times : List ℕ) (names : List (List ℕ)) → command_of (map string_bytes words.now) ≡ Some (backfills path times names) → input.new ≡ input.old }
    ensures usage { command_of (map string_bytes words.now) ≡ None → (input.new ≡ input.old) × (files.new ≡ files.old) × (keeper.new ≡ keeper.old) }
{
    promtool(alloc, words, input, files, keeper, out)
}
