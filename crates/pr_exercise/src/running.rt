// The command `exercise`.
ghost use Rattle.std.specs.Prelude.{◌≡◌, ◌≢◌, ℕ, List, [], length, take, Result, Err, IfOk, IfSome, IsSome, OnOk, OnErr};
ghost use Rattle.std.specs.Io.KnownBytes.{Appends};
ghost use Rattle.pr_text.specs.spec_history.declared.entry.Entry.{Entry};
ghost use Rattle.pr_outside.specs.private.Kept.{StartsRows};
ghost use Rattle.pr_text.specs.spec_history.Histories.{history_of};
ghost use Rattle.pr_outside.specs.Ends.{Ends, WriteEnds};
ghost use Rattle.pr_outside.specs.Opening.{OpensBy};
ghost use Rattle.pr_outside.specs.Outside.{Outside};
ghost use Rattle.pr_exercise.specs.Exercise.{exercise_events};
ghost use Rattle.pr_text.specs.spec_world.World.{start};
ghost use Rattle.pr_outside.specs.declared.status.status.Stop.TheVariants as stop;
ghost use Rattle.pr_outside.specs.Stores.{IsBadIn, KeepEnds, KeepsTelling, OverRows, StartsTelling};
ghost use Rattle.pr_text.specs.private.Keeping.{Starts};
ghost use Rattle.pr_text.specs.BadRows.{bad_row_text, bad_text};
ghost use Rattle.pr_exercise.specs.Means.{EndsBy, MeansExercise};
ghost use Rattle.pr_exercise.specs.private.Standing.{EndsCounted};
ghost use Rattle.pr_exercise.specs.private.Tallies.{summary_by};

use crate::rounds::Rounds;
use crate::session::Session;
use crate::tally::Tally;
use crate::targets::{Targets, first_reload};
use pr_outside::status::{Status, Stop, send};
use pr_outside::{Keeper, Sink};
use pr_text::history::row::laws::rows_decode_as_their_entries;
use pr_text::{Worlds, bad_row_of, tell_bad_row};
use std::alloc::Global;

// What stops an exercise, after what stopped a part of it: where that is a bad row, its line is
// written.
fn told_stop<O: Sink>(alloc: Global, stop: Stop, out: &mut O) -> Stop
    ensures row { (at : ℕ) → result ≡ Stop.BadRow at → Appends (O.means out.old).taken (O.means out.new).taken (bad_row_text at) }
    ensures front { (told : Result (List Entry) ℕ) → ((at : ℕ) → stop ≡ Stop.BadRow at → told ≡ Err at)
        → (n : ℕ) × Appends (O.means out.old).taken (O.means out.new).taken (take n (bad_text told)) }
    ensures other { ((at : ℕ) → stop ≢ Stop.BadRow at) → (result ≡ stop) × (O.means out.new ≡ O.means out.old) }
    ensures ends { (before others : Outside) → Ends {T = Unit} (IsBadIn others.store) ⊥ (record before { out = O.means out.old }) (record others { out = O.means out.old }) (Err stop)
        → Ends {T = Unit} (IsBadIn others.store) ⊥ (record before { out = O.means out.old }) (record others { out = O.means out.new }) (Err result) }
{
    match bad_row_of(stop) {
        Some(index) => match tell_bad_row(alloc, index, out) {
            Ok(()) => stop,
            Err(error) => error,
        },
        None => stop,
    }
}

// Opens a store in memory; the line of a bad row is written.
fn open<E: Worlds + Drop, K: Keeper, O: Sink>(
    alloc: Global,
    keeper: &mut K,
    out: &mut O,
) -> Result<E, Stop>
    ensures starts { IfOk result (λ e. Starts E.stands_for e (K.means keeper.new)) }
    ensures going { IfOk result E.is_going }
    ensures tells { StartsTelling (K.means keeper.old) (K.means keeper.new) result }
    ensures unwritten { OnOk result (O.means out.new ≡ O.means out.old) }
    ensures front { IfSome (K.means keeper.new).rows (λ rows. OnErr result ((n : ℕ) × Appends (O.means out.old).taken (O.means out.new).taken (take n (bad_text (history_of rows))))) }
    ensures bad { (at : ℕ) → result ≡ Err (stop.BadRow at) → Appends (O.means out.old).taken (O.means out.new).taken (bad_row_text at) }
    ensures rows { StartsRows (K.means keeper.old).rows (K.means keeper.new).rows }
    ensures opens { OpensBy [] (K.means keeper.old).paths (K.means keeper.new).paths result }
    ensures ends { (others : Outside) → Ends (IsBadIn (K.means keeper.new)) ⊥ (record others { store = K.means keeper.old; out = O.means out.old })
        (record others { store = K.means keeper.new; out = O.means out.new }) result }
{
    match E::start(alloc, keeper, "") {
        Ok(kept) => Ok(kept),
        Err(stop) => Err(told_stop(alloc, stop, out)),
    }
}

// Answers the events of all rounds, and counts the lines that tell of them.
fn answer_all<E: Worlds + Drop, K: Keeper>(
    alloc: Global,
    rounds: Rounds,
    kept: E,
    keeper: &mut K,
) -> Result<Tally, Stop>
    requires { E.is_going kept }
    ensures tells { KeepsTelling (K.means keeper.old) (K.means keeper.new) result }
    ensures counts { (history : List Entry) → E.stands_for kept (K.means keeper.old) (start history) → (K.means keeper.old).count ≡ length history → IsSome (K.means keeper.new).rows
        → EndsCounted history (exercise_events rounds) (K.means keeper.new) result }
    ensures told { IsSome (K.means keeper.new).rows → IsSome (K.means keeper.old).rows }
    ensures paths { (K.means keeper.new).paths ≡ (K.means keeper.old).paths }
    ensures ends { KeepEnds (K.means keeper.old) (K.means keeper.new) result }
{
    let mut session = Session::new(alloc, kept, keeper.size())?;
    session.take(alloc, first_reload(alloc)?, keeper)?;
    let mut targets = Targets::new(alloc, rounds.get())?;
    for round in 0..rounds.get() {
        let events = targets.round(alloc, round)?;
        session.take_all(alloc, events, keeper)?;
    }
    Ok(session.tally)
}

// Writes the summary.
fn tell_summary<O: Sink>(
    alloc: Global,
    rounds: Rounds,
    tally: &Tally,
    out: &mut O,
) -> Result<(), Stop>
    ensures text { OnOk result (Appends (O.means out.old).taken (O.means out.new).taken (summary_by rounds tally.now)) }
    ensures front { (n : ℕ) × Appends (O.means out.old).taken (O.means out.new).taken (take n (summary_by rounds tally.now)) }
    ensures ends { WriteEnds (O.means out.old) (O.means out.new) result }
{
    let mut text = Vec::new(alloc);
    tally.push_summary(&mut text, rounds.get())?;
    send(out, &text)
}

// Answers the events, and then writes the summary; or the line of a bad row that a restart finds.
fn run<E: Worlds + Drop, K: Keeper, O: Sink>(
    alloc: Global,
    rounds: Rounds,
    keeper: &mut K,
    out: &mut O,
) -> Result<(), Stop>
    ensures over { (others : Outside) → IfSome (K.means keeper.new).rows (λ all. OverRows (K.means keeper.old).rows all (λ rows. EndsBy (history_of rows) rounds rows
        (record others { store = K.means keeper.old; out = O.means out.old }) (record others { store = K.means keeper.new; out = O.means out.new }) result)) }
    ensures row { (at : ℕ) → result ≡ Err (stop.BadRow at) → Appends (O.means out.old).taken (O.means out.new).taken (bad_row_text at) }
    ensures tells { StartsTelling (K.means keeper.old) (K.means keeper.new) result }
    ensures opens { OpensBy [] (K.means keeper.old).paths (K.means keeper.new).paths result }
    ensures ends { (others : Outside) → Ends (IsBadIn (K.means keeper.new)) ⊥ (record others { store = K.means keeper.old; out = O.means out.old })
        (record others { store = K.means keeper.new; out = O.means out.new }) result }
{
    rows_decode_as_their_entries();
    let kept = open::<E, K, O>(alloc, keeper, out)?;
    let tally = match answer_all(alloc, rounds, kept, keeper) {
        Ok(tally) => tally,
        Err(stop) => return Err(told_stop(alloc, stop, out)),
    };
    tell_summary(alloc, rounds, &tally, out)
}

/// Answers the events of so many rounds over a store in memory, and writes how many lines a run of
/// them would write, by what they tell. It always has the same events. (Own choice.)
pub fn exercise<E: Worlds + Drop, K: Keeper, O: Sink>(
    alloc: Global,
    rounds: Rounds,
    keeper: &mut K,
    out: &mut O,
) -> Status
    ensures { (others : Outside) → MeansExercise rounds (record others { store = K.means keeper.old; out = O.means out.old })
        (record others { store = K.means keeper.new; out = O.means out.new }) result }
{
    match run::<E, K, O>(alloc, rounds, keeper, out) {
        Ok(()) => Status::Done,
        Err(stop) => stop.status(),
    }
}
