// The engine.
ghost use Rattle.std.specs.Prelude.{◌≡◌, ◌≢◌, ℕ, ◌+◌, ◌<◌, ◌≤◌, [], false, true, Some, None, Ok, Err, IfOk, IfSome, IsSome, IsTrue, OnOk, OnErr, Option, Result};
ghost use Rattle.pr_outside.specs.private.Kept.{KeepsRows, StartsRows};
ghost use Rattle.pr_manager.specs.private.Naming.{passed_by_named};
ghost use Rattle.pr_head.specs.spec_history.Histories.{history_of};
ghost use Rattle.pr_manager.specs.spec_world.private.Laws.{IsNotBefore, HasDistinctFiles};
ghost use Rattle.pr_manager.specs.spec_world.Step.{next, time_of};
ghost use Rattle.pr_manager.specs.spec_world.World.{World};
ghost use Rattle.pr_engine.specs.declared.fault.Cause.{Cause};
ghost use Rattle.pr_engine.specs.private.Causes.{HasApplyCause, IfAnswered, broken_after, cause_of, last_after};
ghost use Rattle.pr_engine.specs.private.StartCauses.{HasStartCause, IfLoaded};
ghost use Rattle.pr_engine.specs.private.Events.{IsKnownAfter, event_cost, is_restart, settings_of};
ghost use Rattle.pr_engine.specs.private.Opening.{StartOpens};
ghost use Rattle.pr_engine.specs.private.Passing.{EventPasses};
ghost use Rattle.pr_engine.specs.private.Standing.{Forgets, StandsFor, StandsForSome, Starts};

use crate::fault::{ApplyError, Cause};
use crate::rows::StartError;
use crate::standing::Standing;
use crate::telling::{is_restart, time_of};
use pr_manager::range::Ranges;
use pr_manager::world::{Event, Report};
use pr_outside::Keeper;
use pr_time::{Ms, Span};
use pr_words::Steps;
use std::alloc::Global;
use std::marker::Model;
use std::sync::ledger::Ledger;

/// The engine. It is handed its store at each call. Contracts see what it keeps, and say of each world
/// that it stands for, with the store, what becomes of it.
#[derive(Drop)]
pub struct Engine<R> {
    standing: Standing<R>,
    step: Span,
    last: Option<Ms>,
    broken: Option<Cause>,
}

impl<R> Model for Engine<R> {
    ghost use Rattle.std.specs.Prelude.{◌<◌};
    ghost use Rattle.pr_engine.specs.private.Standing.{KeptEngine};

    ghost Value = { KeptEngine R };

    ghost use Rattle.pr_ast.specs.contracts.tree.ExprKind as expressions;
    ghost use Rattle.std.specs.Coded.{codes};

    ghost coded = { Prim.hlevel (codes, expressions.the_row.coded) };

    ghost view = { λ e. record { parts = e.standing; step = e.step; last = e.last; broken = e.broken } };

    ghost invariant = { λ e. 0 < e.step };
}

// What breaks an engine that answers so.
fn cause_of(error: &ApplyError) -> Cause
    ensures { result ≡ cause_of error.now }
{
    match error {
        ApplyError::Memory => Cause::Memory,
        ApplyError::StoreFailed => Cause::StoreFailed,
        ApplyError::BadRow { .. } => Cause::BadRow,
        ApplyError::Broken { first } => *first,
    }
}

// What an engine is broken by after an answer.
fn broken_after(before: Option<Cause>, answer: &Result<Report, ApplyError>) -> Option<Cause>
    ensures { result ≡ broken_after before answer.now }
{
    match answer {
        Ok(report) => { if report.is_refusal() { before } else { None } }
        Err(error) => Some(before.unwrap_or(cause_of(error))),
    }
}

// The time of the last event after an answer.
fn last_after(before: Option<Ms>, time: Ms, answer: &Result<Report, ApplyError>) -> Option<Ms>
    ensures { result ≡ last_after before time answer.now }
{
    match answer {
        Ok(report) if !report.is_refusal() => Some(time),
        _ => before,
    }
}

impl<R: Ranges + Drop> Engine<R> {
    /// Opens the store of a path, and reads the rows that it has. The step is that of subqueries that
    /// name none; it is not 0.
    ///
    /// # Errors
    /// `StoreFailed` where the store refused a call; `BadRow` with the index of the first row that is
    /// the row of no entry, or is not added to those before it; `Memory`.
    #[tactic(auto, using(crate::proofs::StoreTelling::keep_started, crate::proofs::Paths::start_refused, crate::proofs::Paths::started_on, crate::proofs::Loaded::none_told, crate::proofs::Loaded::told_alike))]
    pub fn start<K: Keeper>(
        alloc: Global,
        keeper: &mut K,
        path: &str,
        step: Span,
    ) -> Result<Engine<R>, StartError>
        requires { 0 < step }
        ensures stands { IfOk result (λ e. Starts R.fits R.last R.passed e (K.means keeper.new)) }
        ensures whole { IfOk result (λ e. (e.broken ≡ None) × (e.step ≡ step)) }
        ensures bad { (at : ℕ) → result ≡ Err (StartError.BadRow at) → IfSome (K.means keeper.new).rows (λ rows. history_of rows ≡ Err at) }
        ensures rows { StartsRows (K.means keeper.old).rows (K.means keeper.new).rows }
        ensures tells { IsTrue (K.means keeper.new).sound → IfLoaded result (IsSome (K.means keeper.new).rows) }
        ensures sound { IsTrue (K.means keeper.new).sound → IsTrue (K.means keeper.old).sound }
        ensures opens { StartOpens path.now (K.means keeper.old).paths (K.means keeper.new).paths result }
        ensures cause { HasStartCause (K.means keeper.old).faults (K.means keeper.new).faults result }
    {
        match keeper.start(path) {
            Ok(()) => {}
            Err(error) => return Err(StartError::from(error)),
        }
        match Standing::<R>::begin(alloc, keeper, step) {
            Ok(standing) => Ok(Engine {
                standing,
                step,
                last: None,
                broken: None,
            }),
            Err(error) => Err(error),
        }
    }

    /// The time of the last event that was accepted since the start, where one was.
    pub fn last(&self) -> Option<Ms>
        ensures { result ≡ self.now.last }
    {
        self.last
    }

    /// How many rows are kept.
    pub fn rows<K: Keeper>(&self, keeper: &K) -> u64
        ensures { result ≡ (K.means keeper.now).count }
    {
        keeper.size()
    }

    // Answers an event that is not before the last one. Of a broken engine it is a restart.
    #[tactic(auto, using(crate::proofs::Answering::stands_after, crate::proofs::Answering::stands_broken, crate::proofs::Answering::stands_anew, crate::proofs::Answering::report_in_time, crate::proofs::Answering::rows_in_time, crate::proofs::Answering::keeps_whole, crate::proofs::Answering::known_else))]
    fn answer<K: Keeper, G: Ledger>(
        &mut self,
        alloc: Global,
        keeper: &mut K,
        event: Event,
        reads: &mut Steps<G>,
    ) -> Result<Report, ApplyError>
        requires files { HasDistinctFiles event }
        requires whole { is_restart event ≡ false → self.old.broken ≡ None }
        requires in_time { IsNotBefore self.old.last (time_of event) }
        ensures report { (w : World) → StandsFor R.fits R.last R.passed self.old (K.means keeper.old) w → IfOk result (λ r. r ≡ (next (settings_of self.old.step) w event).report) }
        ensures world { (w : World) → StandsFor R.fits R.last R.passed self.old (K.means keeper.old) w → IsKnownAfter event (K.means keeper.new)
            → OnOk result (StandsFor R.fits R.last R.passed self.new (K.means keeper.new) (next (settings_of self.old.step) w event).world) }
        ensures some { (w : World) → StandsFor R.fits R.last R.passed self.old (K.means keeper.old) w → OnOk result (StandsForSome R.fits R.last R.passed self.new (K.means keeper.new)) }
        ensures passed { (w : World) → StandsFor R.fits R.last R.passed self.old (K.means keeper.old) w
            → OnOk result (EventPasses R.keeps self.old.step w event (passed_by_named R.passed self.old.parts.manager w.history) (passed_by_named R.passed self.new.parts.manager (next (settings_of self.old.step) w event).world.history)) }
        ensures refused { (w : World) → StandsFor R.fits R.last R.passed self.old (K.means keeper.old) w → (next (settings_of self.old.step) w event).refused ≡ true
            → (keeper.new ≡ keeper.old) × OnOk result ((self.new ≡ self.old) × StandsFor R.fits R.last R.passed self.new (K.means keeper.new) w) }
        ensures forgets { IfOk result (λ r. Forgets event r self.new.parts.head) }
        ensures err { (w : World) → StandsFor R.fits R.last R.passed self.old (K.means keeper.old) w → OnErr result (StandsFor R.fits R.last R.passed self.new (K.means keeper.new) w) }
        ensures rows { OnErr result (KeepsRows (K.means keeper.old).rows (K.means keeper.new).rows) }
        ensures count { OnErr result ((K.means keeper.new).count ≡ (K.means keeper.old).count) }
        ensures broken { self.new.broken ≡ broken_after self.old.broken result }
        ensures step { self.new.step ≡ self.old.step }
        ensures none { (w : World) → StandsFor R.fits R.last R.passed self.old (K.means keeper.old) w → is_restart event ≡ false → (next (settings_of self.old.step) w event).rows ≡ []
            → keeper.new ≡ keeper.old }
        ensures told { IsSome (K.means keeper.new).rows → IsSome (K.means keeper.old).rows }
        ensures tells { IsTrue (K.means keeper.new).sound → IsSome (K.means keeper.old).rows → IfAnswered result (IsSome (K.means keeper.new).rows) }
        ensures sound { IsTrue (K.means keeper.new).sound → IsTrue (K.means keeper.old).sound }
        ensures bad { (at : ℕ) → result ≡ Err (ApplyError.BadRow at) → (is_restart event ≡ true) × IfSome (K.means keeper.new).rows (λ rows. history_of rows ≡ Err at) }
        ensures unbroken { (first : Cause) → result ≢ Err (ApplyError.Broken first) }
        ensures paths { (K.means keeper.new).paths ≡ (K.means keeper.old).paths }
        ensures cause { HasApplyCause (K.means keeper.old).faults (K.means keeper.new).faults result }
        ensures reads { (w : World) → StandsFor R.fits R.last R.passed self.old (K.means keeper.old) w
            → reads.new ≤ reads.old + event_cost self.old.step (passed_by_named R.passed self.old.parts.manager w.history) w event }
        ensures free { (w : World) → StandsFor R.fits R.last R.passed self.old (K.means keeper.old) w → (next (settings_of self.old.step) w event).refused ≡ true → reads.new ≤ reads.old }
    {
        let time = time_of(&event);
        let answer = self.standing.answer(alloc, keeper, self.step, event, reads);
        self.last = last_after(self.last, time, &answer);
        self.broken = broken_after(self.broken, &answer);
        answer
    }

    /// Takes an event, and answers it. What it adds is kept, all or none, before it is answered, and
    /// nothing after that takes memory.
    ///
    /// # Errors
    /// `Memory`; `StoreFailed` where the store refused a call; `BadRow` of a restart, with the index
    /// of the first row that is the row of no entry, or is not added to those before it. Then the
    /// store has as many rows as before the event, and the same where it tells them, and all but
    /// restarts are answered by `Broken`, with the first cause, until one succeeds.
    #[tactic(auto, unfolding(crate::proofs::Stepping::stepping), using(crate::proofs::Told::keeps_same))]
    pub fn apply<K: Keeper, G: Ledger>(
        &mut self,
        alloc: Global,
        keeper: &mut K,
        event: Event,
        reads: &mut Steps<G>,
    ) -> Result<Report, ApplyError>
        requires { HasDistinctFiles event }
        ensures report { (w : World) → StandsFor R.fits R.last R.passed self.old (K.means keeper.old) w → IfOk result (λ r. r ≡ (next (settings_of self.old.step) w event).report) }
        ensures world { (w : World) → StandsFor R.fits R.last R.passed self.old (K.means keeper.old) w → IsKnownAfter event (K.means keeper.new)
            → OnOk result (StandsFor R.fits R.last R.passed self.new (K.means keeper.new) (next (settings_of self.old.step) w event).world) }
        // Also after a restart over a store that does not tell its rows.
        ensures some { (w : World) → StandsFor R.fits R.last R.passed self.old (K.means keeper.old) w → OnOk result (StandsForSome R.fits R.last R.passed self.new (K.means keeper.new)) }
        // What was passed of the groups goes on from event to event, also over reloads.
        ensures passed { (w : World) → StandsFor R.fits R.last R.passed self.old (K.means keeper.old) w → (next (settings_of self.old.step) w event).refused ≡ false
            → OnOk result (EventPasses R.keeps self.old.step w event (passed_by_named R.passed self.old.parts.manager w.history) (passed_by_named R.passed self.new.parts.manager (next (settings_of self.old.step) w event).world.history)) }
        // A refused event leaves the engine as it was, standing for the same world, and makes no commit.
        ensures refused { (w : World) → StandsFor R.fits R.last R.passed self.old (K.means keeper.old) w → (next (settings_of self.old.step) w event).refused ≡ true
            → (keeper.new ≡ keeper.old) × OnOk result ((self.new ≡ self.old) × StandsFor R.fits R.last R.passed self.new (K.means keeper.new) w) }
        // After an accepted evaluation no sample is held that is 45 days old.
        ensures forgets { IfOk result (λ r. Forgets event r self.new.parts.head) }
        // No path is opened.
        ensures paths { (K.means keeper.new).paths ≡ (K.means keeper.old).paths }
        // After an error the store has the rows of before.
        ensures rows { OnErr result (KeepsRows (K.means keeper.old).rows (K.means keeper.new).rows) }
        ensures count { OnErr result ((K.means keeper.new).count ≡ (K.means keeper.old).count) }
        // They tell the history of the same world, and the time is that of the last event.
        ensures err { (w : World) → StandsFor R.fits R.last R.passed self.old (K.means keeper.old) w → OnErr result (StandsFor R.fits R.last R.passed self.new (K.means keeper.new) w) }
        // What breaks the engine first is kept until a restart succeeds.
        ensures broken { self.new.broken ≡ broken_after self.old.broken result }
        ensures refuses { (first : Cause) → self.old.broken ≡ Some first → is_restart event ≡ false → result ≡ Err (ApplyError.Broken first) }
        ensures only { (first : Cause) → result ≡ Err (ApplyError.Broken first) → (self.old.broken ≡ Some first) × (is_restart event ≡ false) }
        ensures step { self.new.step ≡ self.old.step }
        // No commit is made for an event that adds nothing.
        ensures none { (w : World) → StandsFor R.fits R.last R.passed self.old (K.means keeper.old) w → is_restart event ≡ false → (next (settings_of self.old.step) w event).rows ≡ []
            → keeper.new ≡ keeper.old }
        ensures told { IsSome (K.means keeper.new).rows → IsSome (K.means keeper.old).rows }
        // As long as what the store stands on keeps its word, told rows are told still.
        ensures tells { IsTrue (K.means keeper.new).sound → IsSome (K.means keeper.old).rows → IfAnswered result (IsSome (K.means keeper.new).rows) }
        ensures sound { IsTrue (K.means keeper.new).sound → IsTrue (K.means keeper.old).sound }
        ensures bad { (at : ℕ) → result ≡ Err (ApplyError.BadRow at) → (is_restart event ≡ true) × IfSome (K.means keeper.new).rows (λ rows. history_of rows ≡ Err at) }
        ensures cause { HasApplyCause (K.means keeper.old).faults (K.means keeper.new).faults result }
        // A query and an evaluation alone read samples.
        ensures reads { (w : World) → StandsFor R.fits R.last R.passed self.old (K.means keeper.old) w
            → reads.new ≤ reads.old + event_cost self.old.step (passed_by_named R.passed self.old.parts.manager w.history) w event }
        // Nothing is read for one that is refused, or that meets a broken engine.
        ensures free { (w : World) → StandsFor R.fits R.last R.passed self.old (K.means keeper.old) w → (next (settings_of self.old.step) w event).refused ≡ true → reads.new ≤ reads.old }
        ensures unread { (first : Cause) → result ≡ Err (ApplyError.Broken first) → reads.new ≤ reads.old }
    {
        match self.broken {
            Some(first) if !is_restart(&event) => return Err(ApplyError::Broken { first }),
            _ => {}
        }
        let given = time_of(&event);
        match self.last {
            Some(last) if given.get() < last.get() => {
                drop(event);
                Ok(Report::Backwards { last, given })
            }
            _ => self.answer(alloc, keeper, event, reads),
        }
    }
}
