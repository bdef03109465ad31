// An engine over a store, and what it answers.
ghost use Rattle.std.specs.Prelude.{◌≡◌, ◌<◌, ◌++◌, ◌∷◌, [], IfErr, IfOk, IsSome, IsTrue, OnOk};
ghost use Rattle.pr_outside.specs.private.Kept.{StartsRows};
ghost use Rattle.spec_world.specs.Step.{next};
ghost use Rattle.spec_world.specs.World.{World};
ghost use Rattle.spec_world.specs.private.Laws.{HasDistinctFiles};
ghost use Rattle.pr_engine.specs.private.Causes.{HasApplyCause};
ghost use Rattle.pr_engine.specs.private.Events.{settings_of};
ghost use Rattle.pr_engine.specs.private.Standing.{StandsFor, Starts};
ghost use Rattle.test_embed.specs.private.Answers.{AreAnswers, HaveDistinctFiles};

use pr_engine::range::Ranges;
use pr_engine::time::Span;
use pr_engine::{ApplyError, Engine};
use pr_outside::Keeper;
use pr_outside::words_crate::Steps;
use spec_world::{Event, Report};
use std::alloc::Global;
use std::marker::Brand;
use std::sync::ledger::{Blank, Ledger};

// Opens the store of a path, and begins over its rows.
fn start<R: Ranges + Drop, K: Keeper>(
    alloc: Global,
    keeper: &mut K,
    path: &str,
    step: Span,
) -> Result<Engine<R>, ApplyError>
    requires { 0 < step }
    ensures starts { IfOk result (λ e. Starts R.fits R.last R.passed e (K.means keeper.new)) }
    ensures step { IfOk result (λ e. e.step ≡ step) }
    ensures rows { StartsRows (K.means keeper.old).rows (K.means keeper.new).rows }
    ensures tells { IsTrue (K.means keeper.new).sound → OnOk result (IsSome (K.means keeper.new).rows) }
    ensures cause { HasApplyCause (K.means keeper.old).faults (K.means keeper.new).faults result }
{
    match Engine::<R>::start(alloc, keeper, path, step) {
        Ok(engine) => Ok(engine),
        Err(error) => Err(ApplyError::from(error)),
    }
}

// Answers an event. What is read for it is counted for the proofs alone.
#[tactic(auto, using(crate::proofs::Answered::known_after))]
fn answer<R: Ranges + Drop, K: Keeper, G: Ledger>(
    engine: &mut Engine<R>,
    alloc: Global,
    keeper: &mut K,
    event: Event,
    blank: Blank,
) -> Result<Report, ApplyError>
    requires files { HasDistinctFiles event }
    requires name { blank.name ≡ G.name }
    requires parts { blank.parts ≡ G.parts }
    requires some { 0 < G.parts }
    ensures report { (w : World) → StandsFor R.fits R.last R.passed engine.old (K.means keeper.old) w → IfOk result (λ r. r ≡ (next (settings_of engine.old.step) w event).report) }
    ensures world { (w : World) → StandsFor R.fits R.last R.passed engine.old (K.means keeper.old) w → IsSome (K.means keeper.new).rows
        → OnOk result (StandsFor R.fits R.last R.passed engine.new (K.means keeper.new) (next (settings_of engine.old.step) w event).world) }
    ensures told { IsSome (K.means keeper.new).rows → IsSome (K.means keeper.old).rows }
    ensures tells { IsTrue (K.means keeper.new).sound → IsSome (K.means keeper.old).rows → OnOk result (IsSome (K.means keeper.new).rows) }
    ensures sound { IsTrue (K.means keeper.new).sound → IsTrue (K.means keeper.old).sound }
    ensures step { engine.new.step ≡ engine.old.step }
    ensures cause { HasApplyCause (K.means keeper.old).faults (K.means keeper.new).faults result }
{
    let mut reads: Steps<G> = Steps::new(blank);
    engine.apply(alloc, keeper, event, &mut reads)
}

// Puts a report behind the others. (`ApplyError` takes no want of memory by `?`.)
fn put(reports: &mut Vec<Report>, report: Report) -> Result<(), ApplyError>
    ensures put { OnOk result (reports.new.items ≡ reports.old.items ++ report ∷ []) }
    ensures memory { IfErr result (λ error. error ≡ ApplyError.Memory) }
{
    match reports.push(report) {
        Ok(()) => Ok(()),
        Err(_) => Err(ApplyError::Memory),
    }
}

/// Opens the store of a path, and answers events over its rows, one after another. `step` is that of
/// subqueries that name none.
///
/// # Errors
/// Those of the engine, by the first event that it does not answer.
pub fn answers<R: Ranges + Drop, K: Keeper>(
    alloc: Global,
    keeper: &mut K,
    path: &str,
    step: Span,
    events: Vec<Event>,
) -> Result<Vec<Report>, ApplyError>
    requires step { 0 < step }
    requires files { HaveDistinctFiles events.items }
    ensures answers { IsSome (K.means keeper.new).rows → IfOk result (λ reports. AreAnswers step events.items (K.means keeper.old) (K.means keeper.new) reports.items) }
    // Its rows are told as long as what it stands on keeps its word.
    ensures tells { IsTrue (K.means keeper.new).sound → OnOk result (IsSome (K.means keeper.new).rows) }
{
    let mut engine = start::<R, K>(alloc, keeper, path, step)?;
    let mut reports = Vec::new(alloc);
    for event in events {
        let report = answer::<R, K, Brand>(&mut engine, alloc, keeper, event, Blank::new(1))?;
        put(&mut reports, report)?;
    }
    Ok(reports)
}
