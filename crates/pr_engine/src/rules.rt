// What becomes of a world by orders about rules.
ghost use Rattle.std.specs.Prelude.{◌≡◌, ℕ, ◌+◌, ◌≤◌, List, map, false, true, IfOk, OnOk, Option, Some};
ghost use Rattle.std.specs.List.{IsDistinct};
ghost use Rattle.std.specs.Str.{bytes_eq};
ghost use Rattle.pr_head.specs.spec_history.declared.entry.Entry.{Entry};
ghost use Rattle.pr_manager.specs.private.Naming.{passed_by_named};
ghost use Rattle.pr_manager.specs.private.Passing.{EvaluationPasses, ReloadPasses};
ghost use Rattle.pr_manager.specs.private.Rounds.{eval_cost};
ghost use Rattle.pr_manager.specs.spec_world.private.Laws.{IsNotBefore, is_refusal};
ghost use Rattle.pr_manager.specs.spec_world.World.{World};
ghost use Rattle.pr_manager.specs.spec_world.declared.event.Event.TheVariants.{Alerts, Eval, Reload};
ghost use Rattle.pr_engine.specs.private.Events.{settings_of, step_in_time};
ghost use Rattle.pr_engine.specs.private.Standing.{HoldsNoneUntil, IsHeadOf, KeepsBefore, KeepsWorld};
ghost use Rattle.pr_engine.specs.private.Taken.{added_in, report_in};
ghost use Rattle.pr_engine.specs.private.Times.{forgotten_at};

use crate::standing::Standing;
use crate::taken::Taken;
use pr_head::Head;
use pr_manager::range::Ranges;
use pr_manager::world::{NamedFile, Report};
use pr_time::Ms;
use pr_words::{Items, Steps, Text};
use std::alloc::{AllocError, Global};
use std::sync::ledger::Ledger;

// How long samples are kept, in milliseconds: 45 days.
const KEPT: i64 = 3_888_000_000;

// The moment up to which samples may be forgotten at a time.
fn forgotten_at(time: Ms) -> i64
    ensures { result ≡ forgotten_at time }
{
    time.get() as i64 - KEPT
}

// Forgets the samples up to a moment, which no event sees that comes at a time or later.
fn forget(head: &mut Head, until: i64, time: Ms)
    requires { until ≡ forgotten_at time }
    ensures keeps { (last : Option ℕ) (history : List Entry) → IsHeadOf head.old last history → IsNotBefore last time → IsHeadOf head.new (Some time) history }
    ensures forgets { HoldsNoneUntil head.new (forgotten_at time) }
{
    let _time = time;
    head.trim(until);
}

// The same, unless the event at that time was refused.
fn forget_unless(refused: bool, head: &mut Head, time: Ms)
    ensures keeps { refused ≡ false → (last : Option ℕ) (history : List Entry) → IsHeadOf head.old last history → IsNotBefore last time → IsHeadOf head.new (Some time) history }
    ensures forgets { refused ≡ false → HoldsNoneUntil head.new (forgotten_at time) }
    ensures still { refused ≡ true → head.new ≡ head.old }
{
    if !refused {
        forget(head, forgotten_at(time), time);
    }
}

impl<R: Ranges + Drop> Standing<R> {
    /// Takes the order that a group is evaluated. What no later event sees is forgotten then. (Own
    /// choice: a group is evaluated where it is told so.)
    pub(crate) fn take_evaluation<G: Ledger>(
        &mut self,
        alloc: Global,
        file: Text,
        group: Text,
        time: Ms,
        reads: &mut Steps<G>,
    ) -> Result<Taken, AllocError>
        ensures report { (step : ℕ) (w : World) → KeepsBefore R.fits R.last R.passed step self.old w time → IfOk result (λ t. report_in t ≡ (step_in_time step w (Eval time file group)).report) }
        ensures rows { (step : ℕ) (w : World) → KeepsBefore R.fits R.last R.passed step self.old w time → IfOk result (λ t. added_in t ≡ (step_in_time step w (Eval time file group)).rows) }
        ensures world { (step : ℕ) (w : World) → KeepsBefore R.fits R.last R.passed step self.old w time
            → OnOk result (KeepsWorld R.fits R.last R.passed step self.new (step_in_time step w (Eval time file group)).world) }
        ensures passed { (step : ℕ) (w : World) → KeepsBefore R.fits R.last R.passed step self.old w time
            → OnOk result (EvaluationPasses R.keeps (settings_of step) w time file group (passed_by_named R.passed self.old.manager w.history) (passed_by_named R.passed self.new.manager (step_in_time step w (Eval time file group)).world.history)) }
        ensures refused { (step : ℕ) (w : World) → KeepsBefore R.fits R.last R.passed step self.old w time → (step_in_time step w (Eval time file group)).refused ≡ true → OnOk result (self.new ≡ self.old) }
        ensures forgets { IfOk result (λ t. is_refusal (report_in t) ≡ false → HoldsNoneUntil self.new.head (forgotten_at time)) }
        ensures reads { (step : ℕ) (w : World) → KeepsBefore R.fits R.last R.passed step self.old w time
            → reads.new ≤ reads.old + eval_cost (settings_of step) w time file group (passed_by_named R.passed self.old.manager w.history file group) }
    {
        let report = self
            .manager
            .evaluate(alloc, &mut self.head, file, group, time, reads)?;
        let refused = report.is_refusal();
        forget_unless(refused, &mut self.head, time);
        Ok(Taken::Evaluated { report })
    }

    /// Takes the order that these files are reloaded.
    pub(crate) fn take_reload(
        &mut self,
        alloc: Global,
        files: Items<NamedFile>,
        time: Ms,
    ) -> Result<Taken, AllocError>
        requires { IsDistinct bytes_eq (map (λ f. f.name) files) }
        ensures report { (step : ℕ) (w : World) → KeepsBefore R.fits R.last R.passed step self.old w time → IfOk result (λ t. report_in t ≡ (step_in_time step w (Reload time files)).report) }
        ensures rows { (step : ℕ) (w : World) → KeepsBefore R.fits R.last R.passed step self.old w time → IfOk result (λ t. added_in t ≡ (step_in_time step w (Reload time files)).rows) }
        ensures world { (step : ℕ) (w : World) → KeepsBefore R.fits R.last R.passed step self.old w time
            → OnOk result (KeepsWorld R.fits R.last R.passed step self.new (step_in_time step w (Reload time files)).world) }
        ensures passed { (step : ℕ) (w : World) → KeepsBefore R.fits R.last R.passed step self.old w time
            → OnOk result (ReloadPasses w time files (passed_by_named R.passed self.old.manager w.history) (passed_by_named R.passed self.new.manager (step_in_time step w (Reload time files)).world.history)) }
        ensures refused { (step : ℕ) (w : World) → KeepsBefore R.fits R.last R.passed step self.old w time → (step_in_time step w (Reload time files)).refused ≡ true → OnOk result (self.new ≡ self.old) }
    {
        let answered = self.manager.reload(alloc, &mut self.head, files, time)?;
        Ok(Taken::Told {
            report: answered.report,
            added: answered.added,
        })
    }

    /// Lists the alerts that are pending or fire.
    pub(crate) fn list_alerts(&self, alloc: Global) -> Result<Taken, AllocError>
        ensures report { (step time : ℕ) (w : World) → KeepsWorld R.fits R.last R.passed step self.now w → IfOk result (λ t. report_in t ≡ (step_in_time step w (Alerts time)).report) }
        ensures rows { (step time : ℕ) (w : World) → IfOk result (λ t. added_in t ≡ (step_in_time step w (Alerts time)).rows) }
    {
        let list = self.manager.alerts(alloc)?;
        Ok(Taken::Told {
            report: Report::Alerts { list },
            added: Items::empty(alloc),
        })
    }
}
