// A backfill over the rows of a store, time by time.
ghost use Rattle.std.specs.Prelude.{◌≡◌, ◌++◌, ◌<◌, [], ℕ, List, Option, Some, map, take, Err, IfOk, IfSome, OnOk};
ghost use Rattle.std.specs.Io.KnownBytes.{Appends};
ghost use Rattle.spec_rules.specs.spec_history.declared.entry.Entry.{Entry};
ghost use Rattle.spec_rules.specs.spec_history.Histories.{history_of};
ghost use Rattle.spec_rules.specs.Groups.{Group};
ghost use Rattle.spec_rules.specs.Reloads.{LoadedFile};
ghost use Rattle.spec_rules.specs.Settings.{of_a_run};
ghost use Rattle.spec_rules.specs.private.Times.{IsAfterAll};
ghost use Rattle.pr_engine.specs.private.Rows.{TellsOf};
ghost use Rattle.pr_backfill.specs.Filled.{FillStep, at_time, filled, filled_from, groups_to_fill, round_at, rows_filled};
ghost use Rattle.pr_backfill.specs.Means.{EndsBy};
ghost use Rattle.pr_outside.specs.Ends.{Ends};
ghost use Rattle.pr_outside.specs.Opening.{OpensBy};
ghost use Rattle.pr_outside.specs.Outside.{Outside};
ghost use Rattle.pr_outside.specs.declared.status.status.Stop.TheVariants as stop;
ghost use Rattle.pr_outside.specs.Stores.{IsBadIn, OverRows, StartsTelling};
ghost use Rattle.pr_text.specs.BadRows.{bad_row_text};
ghost use Rattle.pr_checks.specs.private.RulesTaken.{loaded_of};
ghost use Rattle.pr_backfill.specs.private.Endings.{ending_of};
ghost use Rattle.pr_backfill.specs.private.Standing.{AreBefore, FillingComes, FillingFinishes, IsPartOfFilling, KeepsFilling, FillingStands};

use crate::backfill_command::groups::groups_of;
use crate::backfill_command::keeping::keep_steps;
use crate::backfill_command::opening::open;
use crate::backfill_command::telling::tell_backfilled;
use crate::backfill_command::times::Times;
use crate::{Backfill, Stepped};
use pr_ast::time::Ms;
use pr_checks::LoadedRules;
use pr_engine::head::Head;
use pr_engine::range::Ranges;
use pr_engine::rows::PrintedTexts;
use pr_outside::status::Stop;
use pr_outside::words_crate::Steps;
use pr_outside::{Keeper, Sink};
use pr_text::tell_opened;
use spec_rules::history::row::laws::rows_decode_as_their_entries;
use std::alloc::{AllocError, Global};
use std::marker::Brand;
use std::sync::ledger::{Blank, Ledger};

/// What is kept of a backfill from one time to the next.
#[derive(Drop)]
pub(crate) struct Filling<R> {
    pub(crate) head: Head,
    pub(crate) groups: Backfill<R>,
}

// Evaluates each group at a time; the reads are counted for the proofs alone.
fn evaluate_with<R: Ranges + Drop, G: Ledger>(
    filling: &mut Filling<R>,
    alloc: Global,
    time: Ms,
    blank: Blank,
) -> Result<Vec<Stepped>, AllocError>
    requires name { blank.name ≡ G.name }
    requires parts { blank.parts ≡ G.parts }
    requires some { 0 < G.parts }
    ensures told { (history : List Entry) (groups : List Group) → KeepsFilling R.fits R.last R.passed filling.old history groups → IsAfterAll time groups
        → IfOk result (λ steps. steps.items ≡ (round_at of_a_run time history groups).told) }
    ensures keeps { (history : List Entry) (groups : List Group) → KeepsFilling R.fits R.last R.passed filling.old history groups → IsAfterAll time groups
        → OnOk result (KeepsFilling R.fits R.last R.passed filling.new (round_at of_a_run time history groups).history (round_at of_a_run time history groups).groups) }
{
    let mut reads: Steps<G> = Steps::new(blank);
    filling
        .groups
        .step(alloc, time, &mut filling.head, &mut reads)
}

impl<R: Ranges + Drop> Filling<R> {
    // Evaluates each group at a time.
    fn evaluate(&mut self, alloc: Global, time: Ms) -> Result<Vec<Stepped>, AllocError>
        ensures told { (history : List Entry) (groups : List Group) → KeepsFilling R.fits R.last R.passed self.old history groups → IsAfterAll time groups
            → IfOk result (λ steps. steps.items ≡ (round_at of_a_run time history groups).told) }
        ensures keeps { (history : List Entry) (groups : List Group) → KeepsFilling R.fits R.last R.passed self.old history groups → IsAfterAll time groups
            → OnOk result (KeepsFilling R.fits R.last R.passed self.new (round_at of_a_run time history groups).history (round_at of_a_run time history groups).groups) }
    {
        evaluate_with::<R, Brand>(self, alloc, time, Blank::new(1))
    }

    // Evaluates each group at a time, keeps the rows of each, and writes what is told of it.
    fn fill_time<K: Keeper, O: Sink>(
        &mut self,
        alloc: Global,
        time: Ms,
        keeper: &mut K,
        texts: &mut PrintedTexts,
        out: &mut O,
    ) -> Result<(), Stop>
        ensures keeps { (history : List Entry) (groups : List Group) → KeepsFilling R.fits R.last R.passed self.old history groups → IsAfterAll time groups
            → OnOk result (KeepsFilling R.fits R.last R.passed self.new (round_at of_a_run time history groups).history (round_at of_a_run time history groups).groups) }
        ensures comes { (history : List Entry) (done : List FillStep) (groups : List Group) (first : Option (List ℕ)) → KeepsFilling R.fits R.last R.passed self.old (history ++ rows_filled done) groups
            → IsAfterAll time groups → FillingStands history done (K.means keeper.old) first (O.means out.old).taken
            → FillingComes history (done ++ map (at_time time) (round_at of_a_run time (history ++ rows_filled done) groups).told) (K.means keeper.new) first (O.means out.new).taken result }
        ensures part { IsPartOfFilling (K.means keeper.old) (O.means out.old) (K.means keeper.new) (O.means out.new) result }
    {
        let steps = self.evaluate(alloc, time)?;
        keep_steps(alloc, time, steps, keeper, texts, out)
    }
}

// So at each time, in order.
fn fill_times<R: Ranges + Drop, K: Keeper, O: Sink>(
    alloc: Global,
    mut times: Times,
    mut filling: Filling<R>,
    keeper: &mut K,
    out: &mut O,
) -> Result<(), Stop>
    ensures comes { (history : List Entry) (groups : List Group) (first : Option (List ℕ)) → KeepsFilling R.fits R.last R.passed filling history groups → AreBefore times groups
        → FillingStands history [] (K.means keeper.old) first (O.means out.old).taken
        → FillingComes history (filled_from of_a_run history groups times) (K.means keeper.new) first (O.means out.new).taken result }
    ensures part { IsPartOfFilling (K.means keeper.old) (O.means out.old) (K.means keeper.new) (O.means out.new) result }
{
    let mut texts = PrintedTexts::new(alloc);
    'evaluating: while let Some(time) = times.take_next() {
        filling.fill_time(alloc, time, keeper, &mut texts, out)?;
    }
    Ok(())
}

// Fills at all times over the rows that the store has, and writes the first line before it, and the
// last one after it.
fn fill_over<R: Ranges + Drop, K: Keeper, O: Sink>(
    alloc: Global,
    times: Times,
    filling: Filling<R>,
    keeper: &mut K,
    out: &mut O,
) -> Result<(), Stop>
    ensures finishes { (history : List Entry) (files : List LoadedFile) → KeepsFilling R.fits R.last R.passed filling history (groups_to_fill files) → TellsOf (K.means keeper.old) history
        → FillingFinishes history (filled history files times) (K.means keeper.new) (O.means out.old).taken (O.means out.new).taken result }
    ensures part { IsPartOfFilling (K.means keeper.old) (O.means out.old) (K.means keeper.new) (O.means out.new) result }
{
    let rows = keeper.size();
    tell_opened(alloc, rows, out)?;
    fill_times(alloc, times, filling, keeper, out)?;
    let kept = keeper.size() - rows;
    tell_backfilled(alloc, kept, out)
}

/// Opens the store of a path, and evaluates the recording rules of the files at each time. The rows of
/// a group's evaluation are kept by one commit, and then it is told.
pub(crate) fn fill<R: Ranges + Drop, K: Keeper, O: Sink>(
    alloc: Global,
    path: &str,
    times: Times,
    files: Vec<LoadedRules>,
    keeper: &mut K,
    out: &mut O,
) -> Result<(), Stop>
    ensures over { (others : Outside) → IfSome (K.means keeper.new).rows (λ all. OverRows (K.means keeper.old).rows all (λ rows. EndsBy (history_of rows) (map loaded_of files.items) times rows
        (record others { store = K.means keeper.old; out = O.means out.old }) (record others { store = K.means keeper.new; out = O.means out.new }) (ending_of result))) }
    ensures bad { (at : ℕ) → result ≡ Err (stop.BadRow at) → Appends (O.means out.old).taken (O.means out.new).taken (bad_row_text at) }
    ensures tells { StartsTelling (K.means keeper.old) (K.means keeper.new) result }
    ensures opens { OpensBy path.now (K.means keeper.old).paths (K.means keeper.new).paths result }
    ensures unopened { (K.means keeper.new).paths ≡ (K.means keeper.old).paths → IfSome (K.means keeper.new).rows (λ rows. (K.means keeper.old).rows ≡ Some rows) }
    ensures ends { (others : Outside) → Ends (IsBadIn (K.means keeper.new)) ⊥ (record others { store = K.means keeper.old; out = O.means out.old })
        (record others { store = K.means keeper.new; out = O.means out.new }) (ending_of result) }
{
    rows_decode_as_their_entries();
    let groups = groups_of::<R>(alloc, files)?;
    let head = open(alloc, path, keeper, out)?;
    fill_over(alloc, times, Filling { head, groups }, keeper, out)
}
