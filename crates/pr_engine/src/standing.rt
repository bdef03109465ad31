// What is kept of a world, and what becomes of it.
ghost use Rattle.std.specs.Prelude.{◌≡◌, ◌≢◌, ℕ, ◌+◌, ◌<◌, ◌≤◌, List, [], ◌++◌, length, false, true, Some, Err, IfOk, IfSome, IsSome, IsTrue, OnOk, OnErr, Option};
ghost use Rattle.pr_head.specs.spec_history.declared.entry.Entry.{Entry};
ghost use Rattle.pr_head.specs.spec_history.Admission.{admit};
ghost use Rattle.pr_outside.specs.Causes.{HasKeepCause};
ghost use Rattle.pr_outside.specs.private.Kept.{KeepsRows};
ghost use Rattle.pr_head.specs.spec_history.Histories.{history_of};
ghost use Rattle.pr_manager.specs.private.Naming.{passed_by_named};
ghost use Rattle.pr_manager.specs.spec_world.World.{World, begin};
ghost use Rattle.pr_manager.specs.spec_world.private.Laws.{HasDistinctFiles};
ghost use Rattle.pr_manager.specs.spec_world.Step.{entry_of, fail_outcome, gone_outcome, outcome_by, report_of, rows_by, scrape_outcome, scrape_report, step_by, time_of};
ghost use Rattle.pr_manager.specs.spec_world.Targets.{fail_step, gone_step, scrape_step};
ghost use Rattle.pr_manager.specs.spec_world.declared.report.Report.TheVariants.{Restarted};
ghost use Rattle.pr_engine.specs.private.Causes.{HasApplyCause, IfAnswered};
ghost use Rattle.pr_engine.specs.private.StartCauses.{HasStartCause, IfLoaded};
ghost use Rattle.pr_engine.specs.declared.fault.Cause.{Cause};
ghost use Rattle.pr_engine.specs.private.Events.{IsKnownAfter, event_cost, is_restart, step_in_time};
ghost use Rattle.pr_engine.specs.private.Passing.{EventPasses};
ghost use Rattle.pr_engine.specs.private.Rows.{TellsOf};
ghost use Rattle.pr_engine.specs.private.Standing.{Begins, Forgets, IsHeadOf, KeepsBefore, KeepsWorld};
ghost use Rattle.pr_engine.specs.private.Taken.{added_in, report_in};

use crate::fault::ApplyError;
use crate::query::ask;
use crate::rows::{PrintedTexts, StartError, keep, load};
use crate::scrape::Targets;
use crate::taken::Taken;
use crate::telling::{is_restart, report_of, scrape_report};
use pr_ast::num::Point;
use pr_head::Head;
use pr_head::history::{Append, Entry};
use pr_labels::Labels;
use pr_manager::range::Ranges;
use pr_manager::world::{Event, Report};
use pr_manager::{Manager, kept_groups_stay, no_external};
use pr_outside::{KeepError, Keeper};
use pr_time::{Ms, Span};
use pr_words::{Items, Steps};
use std::alloc::{AllocError, Global};
use std::marker::Model;
use std::sync::ledger::Ledger;

// A body has fewer bytes, so that its lines can be counted.
const BODY_LIMIT: usize = 0x1_0000_0000;

/// What is kept of a world. Contracts say of each world that it is kept what becomes of it.
#[derive(Drop)]
pub(crate) struct Standing<R> {
    pub(crate) head: Head,
    targets: Targets,
    pub(crate) manager: Manager<R>,
    // Nothing that contracts see: it saves work.
    texts: PrintedTexts,
}

impl<R> Model for Standing<R> {
    ghost use Rattle.pr_engine.specs.private.Standing.{KeptParts};

    ghost Value = { KeptParts R };

    ghost use Rattle.pr_ast.specs.contracts.tree.ExprKind as expressions;
    ghost use Rattle.std.specs.Coded.{codes};

    ghost coded = { Prim.hlevel (codes, expressions.the_row.coded) };

    ghost view = { λ s. record { head = s.head; targets = s.targets; manager = s.manager } };
}

// Puts a sample into the head.
fn put(head: &mut Head, labels: &Labels, time: Ms, point: Point) -> Result<Append, AllocError>
    ensures answer { (last : Option ℕ) (history : List Entry) → IsHeadOf head.old last history → IfOk result (λ answer. answer ≡ admit history labels.now time point) }
    ensures head { (last : Option ℕ) (history : List Entry) → IsHeadOf head.old last history
        → OnOk result (IsHeadOf head.new last (history ++ rows_by (admit history labels.now time point) (entry_of time labels.now point))) }
{
    head.append(labels, time, point)
}

// The entries that a sample added.
fn added_by(alloc: Global, answer: Append, entry: Entry) -> Result<Items<Entry>, AllocError>
    ensures { IfOk result (λ added. added ≡ rows_by answer entry) }
{
    let mut added = Items::empty(alloc);
    match answer {
        Append::Added => added.push(entry)?,
        Append::Same | Append::OutOfOrder { .. } | Append::Conflict { .. } => {}
    }
    Ok(added)
}

impl<R: Ranges + Drop> Standing<R> {
    // Takes a sample.
    fn take_sample(
        &mut self,
        alloc: Global,
        labels: Labels,
        time: Ms,
        point: Point,
    ) -> Result<Taken, AllocError>
        ensures report { (step : ℕ) (w : World) → KeepsBefore R.fits R.last R.passed step self.old w time → IfOk result (λ t. report_in t ≡ report_of (admit w.history labels time point)) }
        ensures rows { (step : ℕ) (w : World) → KeepsBefore R.fits R.last R.passed step self.old w time → IfOk result (λ t. added_in t ≡ rows_by (admit w.history labels time point) (entry_of time labels point)) }
        ensures world { (step : ℕ) (w : World) → KeepsBefore R.fits R.last R.passed step self.old w time
            → OnOk result (KeepsWorld R.fits R.last R.passed step self.new (step_by w time (outcome_by (admit w.history labels time point) (entry_of time labels point))).world) }
        ensures passed { (step : ℕ) (w : World) → KeepsBefore R.fits R.last R.passed step self.old w time
            → OnOk result (passed_by_named R.passed self.new.manager (step_by w time (outcome_by (admit w.history labels time point) (entry_of time labels point))).world.history ≡ passed_by_named R.passed self.old.manager w.history) }
    {
        kept_groups_stay::<R>();
        let answer = put(&mut self.head, &labels, time, point)?;
        let entry = Entry {
            labels,
            time,
            point,
        };
        Ok(Taken::Told {
            report: report_of(answer),
            added: added_by(alloc, answer, entry)?,
        })
    }

    // Takes what a target offers. Since an input is shorter, a body that is too long is want of
    // memory.
    fn take_scrape(
        &mut self,
        alloc: Global,
        target: Labels,
        time: Ms,
        body: &[u8],
    ) -> Result<Taken, AllocError>
        ensures report { (step : ℕ) (w : World) → KeepsBefore R.fits R.last R.passed step self.old w time
            → IfOk result (λ t. report_in t ≡ scrape_report (scrape_step w.targets w.history target time body.now).answer.fault (scrape_step w.targets w.history target time body.now).answer) }
        ensures rows { (step : ℕ) (w : World) → KeepsBefore R.fits R.last R.passed step self.old w time → IfOk result (λ t. added_in t ≡ (scrape_step w.targets w.history target time body.now).answer.admitted) }
        ensures world { (step : ℕ) (w : World) → KeepsBefore R.fits R.last R.passed step self.old w time
            → OnOk result (KeepsWorld R.fits R.last R.passed step self.new (step_by w time (scrape_outcome (scrape_step w.targets w.history target time body.now))).world) }
        ensures passed { (step : ℕ) (w : World) → KeepsBefore R.fits R.last R.passed step self.old w time
            → OnOk result (passed_by_named R.passed self.new.manager (step_by w time (scrape_outcome (scrape_step w.targets w.history target time body.now))).world.history ≡ passed_by_named R.passed self.old.manager w.history) }
    {
        if body.len() >= BODY_LIMIT {
            return Err(AllocError);
        }
        kept_groups_stay::<R>();
        let scraped = self
            .targets
            .scrape(alloc, &mut self.head, target, time, body)?;
        Ok(Taken::Told {
            report: scrape_report(&scraped),
            added: scraped.admitted,
        })
    }

    // Notes that a target did not answer.
    fn take_failure(&mut self, alloc: Global, target: Labels, time: Ms) -> Result<Taken, AllocError>
        ensures report { (step : ℕ) (w : World) → KeepsBefore R.fits R.last R.passed step self.old w time → IfOk result (λ t. report_in t ≡ Report.Failed (fail_step w.targets w.history target time).answer.stale) }
        ensures rows { (step : ℕ) (w : World) → KeepsBefore R.fits R.last R.passed step self.old w time → IfOk result (λ t. added_in t ≡ (fail_step w.targets w.history target time).answer.admitted) }
        ensures world { (step : ℕ) (w : World) → KeepsBefore R.fits R.last R.passed step self.old w time
            → OnOk result (KeepsWorld R.fits R.last R.passed step self.new (step_by w time (fail_outcome (fail_step w.targets w.history target time))).world) }
        ensures passed { (step : ℕ) (w : World) → KeepsBefore R.fits R.last R.passed step self.old w time
            → OnOk result (passed_by_named R.passed self.new.manager (step_by w time (fail_outcome (fail_step w.targets w.history target time))).world.history ≡ passed_by_named R.passed self.old.manager w.history) }
    {
        kept_groups_stay::<R>();
        let scraped = self.targets.fail(alloc, &mut self.head, target, time)?;
        Ok(Taken::Told {
            report: Report::Failed {
                stale: scraped.stale,
            },
            added: scraped.admitted,
        })
    }

    // Takes the end of a target.
    fn take_end(&mut self, alloc: Global, target: &Labels, time: Ms) -> Result<Taken, AllocError>
        ensures report { (step : ℕ) (w : World) → KeepsBefore R.fits R.last R.passed step self.old w time → IfOk result (λ t. report_in t ≡ Report.Gone (gone_step w.targets w.history target.now time).answer.stale) }
        ensures rows { (step : ℕ) (w : World) → KeepsBefore R.fits R.last R.passed step self.old w time → IfOk result (λ t. added_in t ≡ (gone_step w.targets w.history target.now time).answer.admitted) }
        ensures world { (step : ℕ) (w : World) → KeepsBefore R.fits R.last R.passed step self.old w time
            → OnOk result (KeepsWorld R.fits R.last R.passed step self.new (step_by w time (gone_outcome (gone_step w.targets w.history target.now time))).world) }
        ensures passed { (step : ℕ) (w : World) → KeepsBefore R.fits R.last R.passed step self.old w time
            → OnOk result (passed_by_named R.passed self.new.manager (step_by w time (gone_outcome (gone_step w.targets w.history target.now time))).world.history ≡ passed_by_named R.passed self.old.manager w.history) }
    {
        kept_groups_stay::<R>();
        let ended = self.targets.gone(alloc, &mut self.head, target, time)?;
        Ok(Taken::Told {
            report: Report::Gone { stale: ended.stale },
            added: ended.admitted,
        })
    }

    // Changes what is kept by an event that is not before the last one, and is no restart.
    #[tactic(auto, using(crate::proofs::Values::asked_report, crate::proofs::Values::asked_rows, crate::proofs::Values::asked_keeps, crate::proofs::Values::still_keeps, crate::proofs::Values::may_evaluate, crate::proofs::Queries::no_reads, crate::proofs::Passing::asked_passes, crate::proofs::Passing::listed_passes))]
    fn change<G: Ledger>(
        &mut self,
        alloc: Global,
        step: Span,
        event: Event,
        reads: &mut Steps<G>,
    ) -> Result<Taken, AllocError>
        requires files { HasDistinctFiles event }
        requires goes_on { is_restart event ≡ false }
        requires some { 0 < step }
        ensures report { (w : World) → KeepsBefore R.fits R.last R.passed step self.old w (time_of event) → IfOk result (λ t. report_in t ≡ (step_in_time step w event).report) }
        ensures rows { (w : World) → KeepsBefore R.fits R.last R.passed step self.old w (time_of event) → IfOk result (λ t. added_in t ≡ (step_in_time step w event).rows) }
        ensures world { (w : World) → KeepsBefore R.fits R.last R.passed step self.old w (time_of event)
            → OnOk result (KeepsWorld R.fits R.last R.passed step self.new (step_in_time step w event).world) }
        ensures passed { (w : World) → KeepsBefore R.fits R.last R.passed step self.old w (time_of event)
            → OnOk result (EventPasses R.keeps step w event (passed_by_named R.passed self.old.manager w.history) (passed_by_named R.passed self.new.manager (step_in_time step w event).world.history)) }
        ensures refused { (w : World) → KeepsBefore R.fits R.last R.passed step self.old w (time_of event) → (step_in_time step w event).refused ≡ true → OnOk result (self.new ≡ self.old) }
        ensures forgets { IfOk result (λ t. Forgets event (report_in t) self.new.head) }
        ensures reads { (w : World) → KeepsBefore R.fits R.last R.passed step self.old w (time_of event)
            → reads.new ≤ reads.old + event_cost step (passed_by_named R.passed self.old.manager w.history) w event }
    {
        match event {
            Event::Add {
                time,
                labels,
                point,
            } => self.take_sample(alloc, labels, time, point),
            Event::Query { time, text } => ask(alloc, &self.head, text.as_str(), time, step, reads),
            Event::Scrape { time, target, body } => {
                self.take_scrape(alloc, target, time, body.as_slice())
            }
            Event::Fail { time, target } => self.take_failure(alloc, target, time),
            Event::Gone { time, target } => self.take_end(alloc, &target, time),
            Event::Eval { time, file, group } => {
                self.take_evaluation(alloc, file, group, time, reads)
            }
            Event::Reload { time, files } => self.take_reload(alloc, files, time),
            Event::Alerts { .. } => self.list_alerts(alloc),
            Event::Restart { .. } => unreachable!(),
        }
    }

    // Takes an event that is not before the last one, and is no restart: changes what is kept, and
    // then keeps the rows of what was added. After an error nothing is known of what is kept, and the
    // store has the rows of before.
    #[tactic(auto, using(crate::proofs::Answering::kept_tells, crate::proofs::StoreTelling::tells_still, crate::proofs::StoreTelling::some_before, crate::proofs::StoreTelling::told_before, crate::proofs::Told::keeps_same))]
    fn take<K: Keeper, G: Ledger>(
        &mut self,
        alloc: Global,
        keeper: &mut K,
        step: Span,
        event: Event,
        reads: &mut Steps<G>,
    ) -> Result<Report, KeepError>
        requires files { HasDistinctFiles event }
        requires goes_on { is_restart event ≡ false }
        requires some { 0 < step }
        ensures report { (w : World) → KeepsBefore R.fits R.last R.passed step self.old w (time_of event) → IfOk result (λ r. r ≡ (step_in_time step w event).report) }
        ensures world { (w : World) → KeepsBefore R.fits R.last R.passed step self.old w (time_of event)
            → OnOk result (KeepsWorld R.fits R.last R.passed step self.new (step_in_time step w event).world) }
        ensures passed { (w : World) → KeepsBefore R.fits R.last R.passed step self.old w (time_of event)
            → OnOk result (EventPasses R.keeps step w event (passed_by_named R.passed self.old.manager w.history) (passed_by_named R.passed self.new.manager (step_in_time step w event).world.history)) }
        ensures refused { (w : World) → KeepsBefore R.fits R.last R.passed step self.old w (time_of event) → (step_in_time step w event).refused ≡ true → OnOk result (self.new ≡ self.old) }
        ensures forgets { IfOk result (λ r. Forgets event r self.new.head) }
        ensures tells { (w : World) → KeepsBefore R.fits R.last R.passed step self.old w (time_of event) → TellsOf (K.means keeper.old) w.history
            → OnOk result (TellsOf (K.means keeper.new) (step_in_time step w event).world.history) }
        ensures none { (w : World) → KeepsBefore R.fits R.last R.passed step self.old w (time_of event) → (step_in_time step w event).rows ≡ [] → keeper.new ≡ keeper.old }
        ensures err { (w : World) → TellsOf (K.means keeper.old) w.history → OnErr result (TellsOf (K.means keeper.new) w.history) }
        ensures rows { OnErr result (KeepsRows (K.means keeper.old).rows (K.means keeper.new).rows) }
        ensures count { OnErr result ((K.means keeper.new).count ≡ (K.means keeper.old).count) }
        ensures told { IsSome (K.means keeper.new).rows → IsSome (K.means keeper.old).rows }
        ensures still { IsTrue (K.means keeper.new).sound → IsSome (K.means keeper.old).rows → OnOk result (IsSome (K.means keeper.new).rows) }
        ensures sound { IsTrue (K.means keeper.new).sound → IsTrue (K.means keeper.old).sound }
        ensures paths { (K.means keeper.new).paths ≡ (K.means keeper.old).paths }
        ensures cause { HasKeepCause (K.means keeper.old).faults (K.means keeper.new).faults result }
        ensures reads { (w : World) → KeepsBefore R.fits R.last R.passed step self.old w (time_of event)
            → reads.new ≤ reads.old + event_cost step (passed_by_named R.passed self.old.manager w.history) w event }
    {
        let taken = self.change(alloc, step, event, reads)?;
        keep(alloc, keeper, &mut self.texts, taken.added())?;
        Ok(taken.into_report())
    }

    /// What is kept of the world that begins over the rows of a store.
    ///
    /// # Errors
    /// As `load` has them.
    #[tactic(auto, using(crate::proofs::Answering::begins, crate::proofs::Loaded::told_alike))]
    pub(crate) fn begin<K: Keeper>(
        alloc: Global,
        keeper: &mut K,
        step: Span,
    ) -> Result<Standing<R>, StartError>
        requires { 0 < step }
        ensures ok { IfOk result (λ s. Begins R.fits R.last R.passed step s (K.means keeper.new)) }
        ensures bad { (at : ℕ) → result ≡ Err (StartError.BadRow at) → IfSome (K.means keeper.new).rows (λ rows. history_of rows ≡ Err at) }
        ensures same { KeepsRows (K.means keeper.old).rows (K.means keeper.new).rows }
        ensures count { (K.means keeper.new).count ≡ (K.means keeper.old).count }
        ensures tells { IsTrue (K.means keeper.new).sound → IsSome (K.means keeper.old).rows → IfLoaded result (IsSome (K.means keeper.new).rows) }
        ensures sound { IsTrue (K.means keeper.new).sound → IsTrue (K.means keeper.old).sound }
        ensures paths { (K.means keeper.new).paths ≡ (K.means keeper.old).paths }
        ensures cause { HasStartCause (K.means keeper.old).faults (K.means keeper.new).faults result }
    {
        match load(alloc, keeper) {
            Ok(head) => Ok(Standing {
                head,
                targets: Targets::new(alloc),
                manager: Manager::new(alloc, step, no_external(alloc)),
                texts: PrintedTexts::new(alloc),
            }),
            Err(error) => Err(error),
        }
    }

    // Begins anew over the rows of a store.
    #[tactic(auto, using(crate::proofs::Answering::begun_keeps, crate::proofs::StoreTelling::tells_still, crate::proofs::Loaded::told_alike))]
    fn begin_anew<K: Keeper>(
        &mut self,
        alloc: Global,
        keeper: &mut K,
        step: Span,
    ) -> Result<Report, StartError>
        requires { 0 < step }
        ensures report { (w : World) → TellsOf (K.means keeper.old) w.history → IfOk result (λ r. r ≡ Restarted (length w.history)) }
        ensures some { OnOk result (Begins R.fits R.last R.passed step self.new (K.means keeper.new)) }
        ensures world { (w : World) (last : Option ℕ) → TellsOf (K.means keeper.old) w.history → IsSome (K.means keeper.new).rows
            → OnOk result (KeepsWorld R.fits R.last R.passed step self.new (begin last w.history)) }
        ensures tells { (w : World) → TellsOf (K.means keeper.old) w.history → TellsOf (K.means keeper.new) w.history }
        ensures bad { (at : ℕ) → result ≡ Err (StartError.BadRow at) → IfSome (K.means keeper.new).rows (λ rows. history_of rows ≡ Err at) }
        ensures same { KeepsRows (K.means keeper.old).rows (K.means keeper.new).rows }
        ensures count { (K.means keeper.new).count ≡ (K.means keeper.old).count }
        ensures still { IsTrue (K.means keeper.new).sound → IsSome (K.means keeper.old).rows → IfLoaded result (IsSome (K.means keeper.new).rows) }
        ensures sound { IsTrue (K.means keeper.new).sound → IsTrue (K.means keeper.old).sound }
        ensures paths { (K.means keeper.new).paths ≡ (K.means keeper.old).paths }
        ensures cause { HasStartCause (K.means keeper.old).faults (K.means keeper.new).faults result }
    {
        match Standing::<R>::begin(alloc, keeper, step) {
            Ok(standing) => {
                *self = standing;
                Ok(Report::Restarted {
                    rows: keeper.size(),
                })
            }
            Err(error) => Err(error),
        }
    }

    /// Answers an event that is not before the last one. Where it is no restart, this is what is kept
    /// of the world.
    #[tactic(auto, using(crate::proofs::Answering::anew_report, crate::proofs::Answering::anew_keeps, crate::proofs::Answering::anew_tells, crate::proofs::Answering::anew_forgets, crate::proofs::Answering::known_rows, crate::proofs::Answering::keep_applied, crate::proofs::Answering::start_applied, crate::proofs::Answering::kept_no_row, crate::proofs::Answering::kept_unbroken, crate::proofs::Answering::started_unbroken, crate::proofs::Answering::started_row, crate::proofs::Answering::started_tells, crate::proofs::Answering::kept_still, crate::proofs::StoreTelling::some_before, crate::proofs::Queries::no_reads))]
    pub(crate) fn answer<K: Keeper, G: Ledger>(
        &mut self,
        alloc: Global,
        keeper: &mut K,
        step: Span,
        event: Event,
        reads: &mut Steps<G>,
    ) -> Result<Report, ApplyError>
        requires files { HasDistinctFiles event }
        requires some { 0 < step }
        ensures report { (w : World) → TellsOf (K.means keeper.old) w.history → (is_restart event ≡ false → KeepsBefore R.fits R.last R.passed step self.old w (time_of event))
            → IfOk result (λ r. r ≡ (step_in_time step w event).report) }
        ensures world { (w : World) → TellsOf (K.means keeper.old) w.history → (is_restart event ≡ false → KeepsBefore R.fits R.last R.passed step self.old w (time_of event)) → IsKnownAfter event (K.means keeper.new)
            → OnOk result (KeepsWorld R.fits R.last R.passed step self.new (step_in_time step w event).world) }
        ensures tells { (w : World) → TellsOf (K.means keeper.old) w.history → (is_restart event ≡ false → KeepsBefore R.fits R.last R.passed step self.old w (time_of event))
            → OnOk result (TellsOf (K.means keeper.new) (step_in_time step w event).world.history) }
        ensures passed { (w : World) → (is_restart event ≡ false → KeepsBefore R.fits R.last R.passed step self.old w (time_of event))
            → OnOk result (EventPasses R.keeps step w event (passed_by_named R.passed self.old.manager w.history) (passed_by_named R.passed self.new.manager (step_in_time step w event).world.history)) }
        ensures refused { (w : World) → KeepsBefore R.fits R.last R.passed step self.old w (time_of event) → is_restart event ≡ false → (step_in_time step w event).refused ≡ true → OnOk result (self.new ≡ self.old) }
        ensures anew { is_restart event ≡ true → OnOk result (Begins R.fits R.last R.passed step self.new (K.means keeper.new)) }
        ensures forgets { IfOk result (λ r. Forgets event r self.new.head) }
        ensures err { (w : World) → TellsOf (K.means keeper.old) w.history → OnErr result (TellsOf (K.means keeper.new) w.history) }
        ensures rows { OnErr result (KeepsRows (K.means keeper.old).rows (K.means keeper.new).rows) }
        ensures count { OnErr result ((K.means keeper.new).count ≡ (K.means keeper.old).count) }
        ensures none { (w : World) → KeepsBefore R.fits R.last R.passed step self.old w (time_of event) → is_restart event ≡ false → (step_in_time step w event).rows ≡ [] → keeper.new ≡ keeper.old }
        ensures told { IsSome (K.means keeper.new).rows → IsSome (K.means keeper.old).rows }
        ensures bad { (at : ℕ) → result ≡ Err (ApplyError.BadRow at) → (is_restart event ≡ true) × IfSome (K.means keeper.new).rows (λ rows. history_of rows ≡ Err at) }
        ensures unbroken { (first : Cause) → result ≢ Err (ApplyError.Broken first) }
        ensures still { IsTrue (K.means keeper.new).sound → IsSome (K.means keeper.old).rows → IfAnswered result (IsSome (K.means keeper.new).rows) }
        ensures sound { IsTrue (K.means keeper.new).sound → IsTrue (K.means keeper.old).sound }
        ensures paths { (K.means keeper.new).paths ≡ (K.means keeper.old).paths }
        ensures cause { HasApplyCause (K.means keeper.old).faults (K.means keeper.new).faults result }
        ensures reads { (w : World) → (is_restart event ≡ false → KeepsBefore R.fits R.last R.passed step self.old w (time_of event))
            → reads.new ≤ reads.old + event_cost step (passed_by_named R.passed self.old.manager w.history) w event }
    {
        if is_restart(&event) {
            match self.begin_anew(alloc, keeper, step) {
                Ok(report) => Ok(report),
                Err(error) => Err(ApplyError::from(error)),
            }
        } else {
            match self.take(alloc, keeper, step, event, reads) {
                Ok(report) => Ok(report),
                Err(error) => Err(ApplyError::from(error)),
            }
        }
    }
}
