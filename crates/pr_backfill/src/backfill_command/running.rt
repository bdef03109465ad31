// The command `backfill`.
ghost use Rattle.std.specs.Prelude.{◌≡◌, ◌≢◌, ℕ, List, Some, Err, IfSome, length, map, string_bytes};
ghost use Rattle.std.specs.Io.KnownBytes.{Appends};
ghost use Rattle.spec_rules.specs.spec_history.Histories.{history_of};
ghost use Rattle.pr_outside.specs.Ends.{Ends, WriteEnds};
ghost use Rattle.pr_outside.specs.Outside.{AreTold, Held, Outside};
ghost use Rattle.pr_outside.specs.declared.status.status.Stop.TheVariants as stop;
ghost use Rattle.pr_outside.specs.Stores.{IsBadIn, KeepsTelling, OverRows, StartsTelling};
ghost use Rattle.pr_text.specs.BadRows.{bad_row_text};
ghost use Rattle.pr_checks.specs.RulesLoaded.{all_rules};
ghost use Rattle.pr_checks.specs.private.RulesTaken.{loaded_of, rules_of};
ghost use Rattle.pr_backfill.specs.Means.{AsksFirst, EndsBy, EndsRefused, EndsWith, FillOpens, MeansBackfill};

use crate::backfill_command::filling::fill;
use crate::backfill_command::times::Times;
use pr_checks::{LoadedRules, Rules, load_rules};
use pr_engine::range::Ranges;
use pr_outside::status::{Status, Stop, send, status_of};
use pr_outside::{Files, Keeper, Sink};
use spec_rules::history::row::laws::rows_decode_as_their_entries;
use std::alloc::Global;

// Writes what is wrong with the files.
fn refuse<O: Sink>(lines: &[u8], out: &mut O) -> Result<bool, Stop>
    ensures refused { (others : Outside) → EndsRefused lines.now (record others { out = O.means out.old }) (record others { out = O.means out.new }) result }
    ensures ends { WriteEnds (O.means out.old) (O.means out.new) result }
{
    match send(out, lines) {
        Ok(()) => Ok(true),
        Err(stop) => Err(stop),
    }
}

// Fills over files with which nothing is wrong, and refuses nothing.
fn fill_all<R: Ranges + Drop, K: Keeper, O: Sink>(
    alloc: Global,
    path: &str,
    times: Times,
    files: Vec<LoadedRules>,
    keeper: &mut K,
    out: &mut O,
) -> Result<bool, Stop>
    ensures over { (others : Outside) → IfSome (K.means keeper.new).rows (λ all. OverRows (K.means keeper.old).rows all (λ rows. EndsBy (history_of rows) (map loaded_of files.items) times rows
        (record others { store = K.means keeper.old; out = O.means out.old }) (record others { store = K.means keeper.new; out = O.means out.new }) result)) }
    ensures bad { (at : ℕ) → result ≡ Err (stop.BadRow at) → Appends (O.means out.old).taken (O.means out.new).taken (bad_row_text at) }
    ensures opens { FillOpens path.now (K.means keeper.old).paths (K.means keeper.new).paths result }
    ensures tells { StartsTelling (K.means keeper.old) (K.means keeper.new) result }
    ensures unopened { (K.means keeper.new).paths ≡ (K.means keeper.old).paths → IfSome (K.means keeper.new).rows (λ rows. (K.means keeper.old).rows ≡ Some rows) }
    ensures ends { (others : Outside) → Ends (IsBadIn (K.means keeper.new)) ⊥ (record others { store = K.means keeper.old; out = O.means out.old })
        (record others { store = K.means keeper.new; out = O.means out.new }) result }
{
    match fill::<R, K, O>(alloc, path, times, files, keeper, out) {
        Ok(()) => Ok(false),
        Err(stop) => Err(stop),
    }
}

// What follows once the files are loaded: where one has a problem, the store is not opened.
fn go_on<R: Ranges + Drop, K: Keeper, O: Sink>(
    alloc: Global,
    path: &str,
    times: Times,
    rules: Rules,
    keeper: &mut K,
    out: &mut O,
) -> Result<bool, Stop>
    ensures with { (others : Outside) → EndsWith (rules_of rules).wrong (rules_of rules).files times (record others { store = K.means keeper.old; out = O.means out.old })
        (record others { store = K.means keeper.new; out = O.means out.new }) result }
    ensures bad { (at : ℕ) → result ≡ Err (stop.BadRow at) → Appends (O.means out.old).taken (O.means out.new).taken (bad_row_text at) }
    ensures opens { FillOpens path.now (K.means keeper.old).paths (K.means keeper.new).paths result }
    ensures tells { (K.means keeper.new).paths ≢ (K.means keeper.old).paths → StartsTelling (K.means keeper.old) (K.means keeper.new) result }
    ensures keeps { KeepsTelling (K.means keeper.old) (K.means keeper.new) result }
    ensures unopened { (K.means keeper.new).paths ≡ (K.means keeper.old).paths → IfSome (K.means keeper.new).rows (λ rows. (K.means keeper.old).rows ≡ Some rows) }
    ensures ends { (others : Outside) → Ends (IsBadIn (K.means keeper.new)) ⊥ (record others { store = K.means keeper.old; out = O.means out.old })
        (record others { store = K.means keeper.new; out = O.means out.new }) result }
{
    let wrong = rules.wrong.as_slice();
    if wrong.is_empty() {
        fill_all::<R, K, O>(alloc, path, times, rules.files.into_vec(), keeper, out)
    } else {
        refuse(wrong, out)
    }
}

// Loads the files, and goes on.
fn run<R: Ranges + Drop, F: Files, K: Keeper, O: Sink>(
    alloc: Global,
    path: &str,
    times: Times,
    names: &[String],
    files: &mut F,
    keeper: &mut K,
    out: &mut O,
) -> Result<bool, Stop>
    ensures over { (others : Outside) (held : Held) → AreTold (F.means files.old).content held (map string_bytes names.now)
        → EndsWith (all_rules held (map string_bytes names.now)).wrong (all_rules held (map string_bytes names.now)).files times
        (record others { files = F.means files.old; store = K.means keeper.old; out = O.means out.old })
        (record others { files = F.means files.new; store = K.means keeper.new; out = O.means out.new }) result }
    ensures bad { (at : ℕ) → result ≡ Err (stop.BadRow at) → Appends (O.means out.old).taken (O.means out.new).taken (bad_row_text at) }
    ensures unwritten { result ≡ Err stop.Load → O.means out.new ≡ O.means out.old }
    ensures asked { AsksFirst (F.means files.old).calls (F.means files.new).calls (length names.now) result }
    ensures same { (other : List ℕ) → (F.means files.new).content other ≡ (F.means files.old).content other }
    ensures opens { FillOpens path.now (K.means keeper.old).paths (K.means keeper.new).paths result }
    ensures tells { (K.means keeper.new).paths ≢ (K.means keeper.old).paths → StartsTelling (K.means keeper.old) (K.means keeper.new) result }
    ensures keeps { KeepsTelling (K.means keeper.old) (K.means keeper.new) result }
    ensures unopened { (K.means keeper.new).paths ≡ (K.means keeper.old).paths → IfSome (K.means keeper.new).rows (λ rows. (K.means keeper.old).rows ≡ Some rows) }
    ensures ends { (others : Outside) → Ends (IsBadIn (K.means keeper.new)) ⊥ (record others { files = F.means files.old; store = K.means keeper.old; out = O.means out.old })
        (record others { files = F.means files.new; store = K.means keeper.new; out = O.means out.new }) result }
{
    rows_decode_as_their_entries();
    match load_rules(alloc, names, files) {
        Ok(rules) => go_on::<R, K, O>(alloc, path, times, rules, keeper, out),
        Err(stop) => Err(stop),
    }
}

/// Loads the rule files of these names, and evaluates their recording rules at these times over the
/// rows of the store of this path: what is admitted is kept, and what is evaluated is told. Alerting
/// rules are left out. Where something is wrong with a file, that is told of all files, and the store
/// is not opened. (Prometheus: `promtool tsdb create-blocks-from rules`; what is told, and that the
/// rows are kept where the rules read, are own choices.)
pub fn backfill<R: Ranges + Drop, F: Files, K: Keeper, O: Sink>(
    alloc: Global,
    path: &str,
    times: Times,
    names: &[String],
    files: &mut F,
    keeper: &mut K,
    out: &mut O,
) -> Status
    ensures means { (others : Outside) → MeansBackfill path.now times (map string_bytes names.now) (record others { files = F.means files.old; store = K.means keeper.old; out = O.means out.old })
        (record others { files = F.means files.new; store = K.means keeper.new; out = O.means out.new }) result }
    ensures same { (other : List ℕ) → (F.means files.new).content other ≡ (F.means files.old).content other }
{
    status_of(run::<R, F, K, O>(alloc, path, times, names, files, keeper, out))
}
