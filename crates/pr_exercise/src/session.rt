// What keeps the world of an exercise, and the lines that a run would have written.
ghost use Rattle.std.specs.Prelude.{◌≡◌, ℕ, ◌+◌, ◌^◌, ◌++◌, ◌∷◌, [], List, length, IfOk, IsSome, OnOk};
ghost use Rattle.pr_text.specs.spec_history.declared.entry.Entry.{Entry};
ghost use Rattle.pr_text.specs.spec_world.private.Laws.{HasDistinctFiles};
ghost use Rattle.pr_text.specs.spec_world.declared.event.Event.{Event};
ghost use Rattle.pr_exercise.specs.Summary.{report_lines};
ghost use Rattle.pr_outside.specs.Stores.{KeepEnds, KeepsTelling};
ghost use Rattle.pr_text.specs.spec_world.declared.report.Report.TheVariants.{Opened};
ghost use Rattle.pr_exercise.specs.private.Tallies.{HasRoomForTexts, counted_all, tally_of};
ghost use Rattle.pr_exercise.specs.private.Turns.{HaveDistinctFiles};
ghost use Rattle.pr_exercise.specs.private.Standing.{ExerciseComes, ExerciseStands};

use crate::tally::Tally;
use pr_outside::Keeper;
use pr_outside::status::Stop;
use pr_text::world::{Event, Report};
use pr_text::{Worlds, push_report};
use std::alloc::{AllocError, Global};

/// What keeps the world, and what is counted of the lines that tell of it.
#[derive(Drop)]
pub(crate) struct Session<E> {
    pub(crate) kept: E,
    pub(crate) tally: Tally,
}

impl<E: Worlds + Drop> Session<E> {
    // Counts the lines of a report.
    fn tell(&mut self, alloc: Global, report: &Report) -> Result<(), AllocError>
        requires { HasRoomForTexts 1 self.old.tally }
        ensures room { (more : ℕ) → HasRoomForTexts (more + 1) self.old.tally → OnOk result (HasRoomForTexts more self.new.tally) }
        ensures tally { OnOk result (self.new.tally ≡ counted_all self.old.tally (report_lines report.now)) }
        ensures kept { self.new.kept ≡ self.old.kept }
    {
        let mut text = Vec::new(alloc);
        push_report(&mut text, report)?;
        self.tally = self.tally.count_lines(&text);
        Ok(())
    }

    /// Begins over so many rows.
    pub(crate) fn new(alloc: Global, kept: E, rows: u64) -> Result<Session<E>, AllocError>
        ensures kept { IfOk result (λ s. s.kept ≡ kept) }
        ensures room { IfOk result (λ s. HasRoomForTexts (2 ^ 64) s.tally) }
        ensures tally { IfOk result (λ s. s.tally ≡ tally_of (report_lines (Opened rows))) }
    {
        let mut session = Session {
            kept,
            tally: Tally::new(),
        };
        session.tell(alloc, &Report::Opened { rows })?;
        Ok(session)
    }

    /// Answers an event.
    pub(crate) fn take<K: Keeper>(
        &mut self,
        alloc: Global,
        event: Event,
        keeper: &mut K,
    ) -> Result<(), Stop>
        requires files { HasDistinctFiles event }
        requires going { E.is_going self.old.kept }
        requires room { HasRoomForTexts 1 self.old.tally }
        ensures going { OnOk result (E.is_going self.new.kept) }
        ensures room { (more : ℕ) → HasRoomForTexts (more + 1) self.old.tally → OnOk result (HasRoomForTexts more self.new.tally) }
        ensures comes { (history : List Entry) (done : List Event) → ExerciseStands E.stands_for history done self.old (K.means keeper.old) → IsSome (K.means keeper.new).rows
            → ExerciseComes E.stands_for history (done ++ event ∷ []) self.new (K.means keeper.new) result }
        ensures told { IsSome (K.means keeper.new).rows → IsSome (K.means keeper.old).rows }
        ensures tells { KeepsTelling (K.means keeper.old) (K.means keeper.new) result }
        ensures paths { (K.means keeper.new).paths ≡ (K.means keeper.old).paths }
        ensures ends { KeepEnds (K.means keeper.old) (K.means keeper.new) result }
    {
        let report = self.kept.answer(alloc, keeper, event)?;
        self.tell(alloc, &report)?;
        Ok(())
    }

    /// Answers events, one after another.
    pub(crate) fn take_all<K: Keeper>(
        &mut self,
        alloc: Global,
        events: Vec<Event>,
        keeper: &mut K,
    ) -> Result<(), Stop>
        requires files { HaveDistinctFiles events.items }
        requires going { E.is_going self.old.kept }
        requires room { HasRoomForTexts (length events.items) self.old.tally }
        ensures going { OnOk result (E.is_going self.new.kept) }
        ensures room { (more : ℕ) → HasRoomForTexts (more + length events.items) self.old.tally → OnOk result (HasRoomForTexts more self.new.tally) }
        ensures comes { (history : List Entry) (done : List Event) → ExerciseStands E.stands_for history done self.old (K.means keeper.old) → IsSome (K.means keeper.new).rows
            → ExerciseComes E.stands_for history (done ++ events.items) self.new (K.means keeper.new) result }
        ensures told { IsSome (K.means keeper.new).rows → IsSome (K.means keeper.old).rows }
        ensures tells { KeepsTelling (K.means keeper.old) (K.means keeper.new) result }
        ensures paths { (K.means keeper.new).paths ≡ (K.means keeper.old).paths }
        ensures ends { KeepEnds (K.means keeper.old) (K.means keeper.new) result }
    {
        for event in events {
            self.take(alloc, event, keeper)?;
        }
        Ok(())
    }
}
