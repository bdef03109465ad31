// The program over what keeps the world of a run, and over ranges for a backfill.
ghost use Rattle.std.specs.Prelude.{◌≡◌, ℕ, List, None, Some, false, map, string_bytes};
ghost use Rattle.pr_outside.specs.Outside.{Outside};
ghost use Rattle.pr_outside.specs.Status.{HasCause};
ghost use Rattle.pr_outside.specs.FileChecks.{MeansFileCheck};
ghost use Rattle.pr_outside.specs.InputChecks.{MeansInputCheck};
ghost use Rattle.pr_backfill.specs.pr_checks.Metrics.{metrics_told};
ghost use Rattle.pr_backfill.specs.pr_checks.RuleFiles.{rules_told};
ghost use Rattle.pr_top.specs.Command.{command_of, uses};
ghost use Rattle.pr_run.specs.Runs.{MeansRun};
ghost use Rattle.pr_top.specs.Means.{HasBadRow, MeansCommand, MeansUsage};
ghost use Rattle.pr_top.specs.Usage.{usage_text};
ghost use Rattle.pr_top.specs.Words.{asked_by};

use super::command::{Command, command_of};
use pr_backfill::backfill_command::backfill;
use pr_backfill::checks::{Metrics, RuleFiles};
use pr_backfill::world::Worlds;
use pr_exercise::exercise;
use pr_outside::check_loops::{check_files, check_input};
use pr_outside::status::{Status, send, status_of};
use pr_outside::{Files, Keeper, Sink, Source};
use pr_run::run;
use pr_test::range::Ranges;
use pr_test::test_rules;
use std::alloc::Global;

const USAGE: &[u8] =
    b"usage: promtool run [--store FILE] | test rules FILE... | check rules FILE... | check metrics | exercise N | backfill STORE START END STEP FILE...\n";

#[tactic(auto, unfolding(crate::specs::Usage::usage_text))]
fn usage() -> &'static [u8]
    ensures { result.now ≡ usage_text }
{
    USAGE
}

// Answers the script of the input, over the store of a path.
fn run_script<E: Worlds + Drop, I: Source, F: Files, K: Keeper, O: Sink>(
    alloc: Global,
    path: &str,
    input: &mut I,
    files: &mut F,
    keeper: &mut K,
    out: &mut O,
) -> Status
    ensures means { MeansRun path.now (record { input = I.means input.old; files = F.means files.old; store = K.means keeper.old; out = O.means out.old })
        (record { input = I.means input.new; files = F.means files.new; store = K.means keeper.new; out = O.means out.new }) result }
    ensures same { (name : List ℕ) → (F.means files.new).content name ≡ (F.means files.old).content name }
{
    status_of(run::<E, I, F, K, O>(alloc, path, input, files, keeper, out))
}

// Checks the exposition of the input.
fn check_metrics<I: Source, O: Sink>(alloc: Global, input: &mut I, out: &mut O) -> Status
    ensures { (others : Outside) → MeansInputCheck metrics_told (record others { input = I.means input.old; out = O.means out.old })
        (record others { input = I.means input.new; out = O.means out.new }) result }
{
    check_input(alloc, &Metrics, input, out)
}

// Checks the rule files of these names.
fn check_rules<F: Files, O: Sink>(
    alloc: Global,
    names: &[String],
    files: &mut F,
    out: &mut O,
) -> Status
    ensures means { (others : Outside) → MeansFileCheck rules_told (map string_bytes names.now) (record others { files = F.means files.old; out = O.means out.old })
        (record others { files = F.means files.new; out = O.means out.new }) result }
    ensures same { (name : List ℕ) → (F.means files.new).content name ≡ (F.means files.old).content name }
{
    check_files(alloc, &RuleFiles, names, files, out)
}

// Refuses words that are none of the forms.
fn refuse_words<O: Sink>(out: &mut O) -> Status
    ensures { (others : Outside) → MeansUsage usage_text (record others { out = O.means out.old }) (record others { out = O.means out.new }) result }
{
    match send(out, usage()) {
        Ok(()) => Status::Usage,
        Err(stop) => stop.status(),
    }
}

// Does what the words ask for.
fn do_command<E: Worlds + Drop, R: Ranges + Drop, I: Source, F: Files, K: Keeper, O: Sink>(
    alloc: Global,
    command: Command<'_>,
    input: &mut I,
    files: &mut F,
    keeper: &mut K,
    out: &mut O,
) -> Status
    ensures means { MeansCommand (Some (asked_by command.entry)) (record { input = I.means input.old; files = F.means files.old; store = K.means keeper.old; out = O.means out.old })
        (record { input = I.means input.new; files = F.means files.new; store = K.means keeper.new; out = O.means out.new }) result }
    ensures input { (uses (Some (asked_by command.entry))).input ≡ false → input.new ≡ input.old }
    ensures files { (uses (Some (asked_by command.entry))).files ≡ false → files.new ≡ files.old }
    ensures keeper { (uses (Some (asked_by command.entry))).store ≡ None → keeper.new ≡ keeper.old }
    ensures content { (name : List ℕ) → (F.means files.new).content name ≡ (F.means files.old).content name }
{
    match command {
        Command::Run { path } => run_script::<E, I, F, K, O>(
            alloc, path, input, files, keeper, out,
        ),
        Command::TestRules { names } => test_rules(alloc, names, files, out),
        Command::CheckRules { names } => check_rules(alloc, names, files, out),
        Command::CheckMetrics => check_metrics(alloc, input, out),
        Command::Exercise { rounds } => exercise::<E, K, O>(alloc, rounds, keeper, out),
        Command::Backfill { path, times, names } => backfill::<R, F, K, O>(
            alloc, path, times, names, files, keeper, out,
        ),
    }
}

/// Does all that the program does, over what keeps the world of a run, and over ranges for a
/// backfill. The words are those after the program's name, `out` is the standard output, and the
/// status is what the process ends with. It does `run`, which reads a script from `input` and answers
/// it over the rows of a store; `check metrics`, which checks the exposition that `input` is;
/// `check rules FILE..`, which checks rule files, one after another; `test rules FILE..`, which tests
/// rules by test files, one after another; `exercise N`, which answers a script that is made up, and
/// sums up what it tells; and `backfill STORE START END STEP FILE..`, which evaluates the recording
/// rules of files at one time after another over the rows of a store, and keeps what they record.
/// Want of memory alone may come at any time.
pub fn promtool_over<E: Worlds + Drop, R: Ranges + Drop, I: Source, F: Files, K: Keeper, O: Sink>(
    alloc: Global,
    words: &[String],
    input: &mut I,
    files: &mut F,
    keeper: &mut K,
    out: &mut O,
) -> Status
    ensures means { MeansCommand (command_of (map string_bytes words.now))
        (record { input = I.means input.old; files = F.means files.old; store = K.means keeper.old; out = O.means out.old })
        (record { input = I.means input.new; files = F.means files.new; store = K.means keeper.new; out = O.means out.new }) result }
    // Each status has its cause.
    ensures cause { HasCause (HasBadRow (command_of (map string_bytes words.now)) (K.means keeper.new))
        (record { input = I.means input.old; files = F.means files.old; store = K.means keeper.old; out = O.means out.old })
        (record { input = I.means input.new; files = F.means files.new; store = K.means keeper.new; out = O.means out.new }) result }
    // What a command leaves unchanged.
    ensures input { (uses (command_of (map string_bytes words.now))).input ≡ false → input.new ≡ input.old }
    ensures files { (uses (command_of (map string_bytes words.now))).files ≡ false → files.new ≡ files.old }
    ensures keeper { (uses (command_of (map string_bytes words.now))).store ≡ None → keeper.new ≡ keeper.old }
    ensures content { (name : List ℕ) → (F.means files.new).content name ≡ (F.means files.old).content name }
{
    match command_of(words) {
        Some(command) => do_command::<E, R, I, F, K, O>(alloc, command, input, files, keeper, out),
        None => refuse_words(out),
    }
}
