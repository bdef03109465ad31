//! What an engine stands for that begins anew after an error.
ghost use Rattle.std.specs.Prelude.{◌≡◌, Some, false, IfSome, IsSome};
ghost use Rattle.pr_outside.specs.private.Kept.{KeepsRows};
ghost use Rattle.spec_world.specs.declared.event.Event.TheVariants.{Restart};
ghost use Rattle.spec_world.specs.private.Laws.{HasDistinctFiles, is_refusal};
ghost use Rattle.spec_world.specs.Step.{next};
ghost use Rattle.spec_world.specs.World.{World, start};
ghost use Rattle.pr_top.specs.pr_engine.private.Events.{settings_of};
ghost use Rattle.pr_top.specs.pr_engine.private.Standing.{StandsFor};

use crate::world_laws::rows_that_tell_a_history_are_its_encodings;
use pr_outside::Keeper;
use pr_top::engine::Engine;
use pr_top::range::Ranges;
use pr_words::Steps;
use spec_world::time::Ms;
use spec_world::{Event, Report};
use std::alloc::Global;
use std::sync::ledger::Ledger;

/// Hands an engine an event, and where that ends in an error, as where the store refuses a commit, a
/// restart. Answers what is told of the restart, where there was one that ended in no error.
pub fn restart_after_an_error<R: Ranges + Drop, K: Keeper, G: Ledger>(
    alloc: Global,
    engine: &mut Engine<R>,
    keeper: &mut K,
    event: Event,
    time: Ms,
    reads: &mut Steps<G>,
) -> Option<Report>
    requires { HasDistinctFiles event }
    ensures report { (w : World) → StandsFor R.fits R.last R.passed engine.old (K.means keeper.old) w
        → IfSome result (λ report. report ≡ (next (settings_of engine.old.step) w (Restart time)).report) }
    // Where the store tells its rows, none of the event's is among them,
    ensures rows { (w : World) → StandsFor R.fits R.last R.passed engine.old (K.means keeper.old) w → IfSome result (λ report. KeepsRows (K.means keeper.old).rows (K.means keeper.new).rows) }
    // and the engine stands for the world that a start over them gives, but for the time: over the history
    // of before the event, with nothing else.
    ensures anew { (w : World) → StandsFor R.fits R.last R.passed engine.old (K.means keeper.old) w → IsSome (K.means keeper.new).rows
        → IfSome result (λ report. is_refusal report ≡ false → StandsFor R.fits R.last R.passed engine.new (K.means keeper.new) (record (start w.history) { last = Some time })) }
{
    rows_that_tell_a_history_are_its_encodings();
    match engine.apply(alloc, keeper, event, reads) {
        Ok(_) => return None,
        Err(_) => {}
    }
    match engine.apply(alloc, keeper, Event::Restart { time }, reads) {
        Ok(report) => Some(report),
        Err(_) => None,
    }
}
