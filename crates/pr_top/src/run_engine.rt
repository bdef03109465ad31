// The engine, as what keeps the world of a run.
ghost use Rattle.std.specs.Prelude.{◌≡◌, ◌≢◌, ◌<◌, None, IfOk, IsSome, OnErr, OnOk};
ghost use Rattle.pr_run.specs.spec_world.Settings.{of_a_run};
ghost use Rattle.pr_run.specs.spec_world.private.Laws.{HasDistinctFiles};
ghost use Rattle.pr_run.specs.spec_world.Step.{next};
ghost use Rattle.pr_run.specs.spec_world.World.{World};
ghost use Rattle.pr_outside.specs.Stores.{KeepEnds, KeepsTelling, TellsHistory};
ghost use Rattle.pr_engine.specs.declared.fault.Cause.{Cause as BrokenBy};
ghost use Rattle.pr_top.specs.private.Running.{IsRunning};
ghost use Rattle.pr_top.specs.private.EngineStops.{apply_stop, start_stop};

use pr_backfill::world::Worlds;
use pr_engine::range::Ranges;
use pr_engine::rows::StartError;
use pr_engine::time::{Ms, Span};
use pr_engine::{ApplyError, Engine};
use pr_outside::Keeper;
use pr_outside::status::Stop;
use pr_outside::words_crate::Steps;
use pr_run::world::{Event, Report};
use std::alloc::Global;
use std::marker::Brand;
use std::sync::ledger::{Blank, Ledger};

// The step of a subquery that names none: a minute. (Prometheus: the global evaluation interval.)
fn subquery_step() -> Span
    ensures { result ≡ 60000 }
{
    match Span::new(60_000) {
        Some(step) => step,
        None => unreachable!(),
    }
}

fn start_stop(error: StartError) -> Stop
    ensures { result ≡ start_stop error }
{
    match error {
        StartError::Memory => Stop::Memory,
        StartError::StoreFailed => Stop::Store,
        StartError::BadRow { index } => Stop::BadRow { index },
    }
}

// An engine that is not broken does not answer that it is.
fn apply_stop(error: ApplyError) -> Stop
    requires { (first : BrokenBy) → error ≢ ApplyError.Broken first }
    ensures { result ≡ apply_stop error }
{
    match error {
        ApplyError::Memory => Stop::Memory,
        ApplyError::StoreFailed => Stop::Store,
        ApplyError::BadRow { index } => Stop::BadRow { index },
        ApplyError::Broken { .. } => unreachable!(),
    }
}

/// The engine of a run.
#[derive(Drop)]
pub struct RunEngine<R> {
    engine: Engine<R>,
}

// Answers an event; its reads are counted for the proofs alone.
fn answer_with<R: Ranges + Drop, K: Keeper, G: Ledger>(
    engine: &mut Engine<R>,
    alloc: Global,
    keeper: &mut K,
    event: Event,
    blank: Blank,
) -> Result<Report, Stop>
    requires files { HasDistinctFiles event }
    requires going { engine.old.broken ≡ None }
    requires name { blank.name ≡ G.name }
    requires parts { blank.parts ≡ G.parts }
    requires some { 0 < G.parts }
    ensures report { (w : World) → IsRunning R.fits R.last R.passed engine.old (K.means keeper.old) w → IfOk result (λ r. r ≡ (next of_a_run w event).report) }
    ensures world { (w : World) → IsRunning R.fits R.last R.passed engine.old (K.means keeper.old) w → IsSome (K.means keeper.new).rows
        → OnOk result (IsRunning R.fits R.last R.passed engine.new (K.means keeper.new) (next of_a_run w event).world) }
    ensures err { (w : World) → IsRunning R.fits R.last R.passed engine.old (K.means keeper.old) w → OnErr result (TellsHistory (K.means keeper.new) w.history) }
    ensures told { IsSome (K.means keeper.new).rows → IsSome (K.means keeper.old).rows }
    ensures going { OnOk result (engine.new.broken ≡ None) }
    ensures tells { KeepsTelling (K.means keeper.old) (K.means keeper.new) result }
    ensures paths { (K.means keeper.new).paths ≡ (K.means keeper.old).paths }
    ensures ends { KeepEnds (K.means keeper.old) (K.means keeper.new) result }
{
    let mut reads: Steps<G> = Steps::new(blank);
    match engine.apply(alloc, keeper, event, &mut reads) {
        Ok(report) => Ok(report),
        Err(error) => Err(apply_stop(error)),
    }
}

impl<R: Ranges + Drop> Worlds for RunEngine<R> {
    ghost use Rattle.std.specs.Prelude.{◌≡◌, None};
    ghost use Rattle.pr_top.specs.private.Running.{IsRunning};

    ghost is_going = { λ e. e.engine.broken ≡ None };

    ghost stands_for = { λ e store w. IsRunning R.fits R.last R.passed e.engine store w };

    fn start<K: Keeper>(alloc: Global, keeper: &mut K, path: &str) -> Result<RunEngine<R>, Stop> {
        match Engine::<R>::start(alloc, keeper, path, subquery_step()) {
            Ok(engine) => Ok(RunEngine { engine }),
            Err(error) => Err(start_stop(error)),
        }
    }

    fn last(&self) -> Option<Ms> {
        self.engine.last()
    }

    fn answer<K: Keeper>(
        &mut self,
        alloc: Global,
        keeper: &mut K,
        event: Event,
    ) -> Result<Report, Stop> {
        answer_with::<R, K, Brand>(&mut self.engine, alloc, keeper, event, Blank::new(1))
    }

    ghost tells = { λ e store w s. s.stands.tells.rows };
}
