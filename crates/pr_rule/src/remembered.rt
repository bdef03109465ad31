// What is remembered of a rule.
ghost use Rattle.std.specs.Prelude.{◌≡◌, ◌≢◌, ◌+◌, ◌≤◌, ◌<◌, ◌++◌, ◌∷◌, [], ℕ, true, false, is_ok, is_some, length, slice_get, List, Option, Some, IfOk, OnOk};
ghost use Rattle.spec_rules.specs.spec_history.declared.entry.Entry.{Entry};
ghost use Rattle.pr_eval.specs.pr_head.private.Holds.{Holds};
ghost use Rattle.pr_ast.specs.Tree.{tree_of};
ghost use Rattle.pr_eval.specs.pr_range.private.Carried.{IsCarried, IsFresh, IsOnce};
ghost use Rattle.spec_rules.specs.spec_meaning.private.Cost.{cost};
ghost use Rattle.spec_rules.specs.spec_meaning.Meaning.{meaning};
ghost use Rattle.pr_eval.specs.private.Evaluated.{AreAllAsked, MayBegin, asks_of, kept_by, passed_outside};
ghost use Rattle.spec_rules.specs.spec_alerts.declared.record.Record.{Record};
ghost use Rattle.spec_rules.specs.spec_alerts.Lineage.{Occurrence, moved};
ghost use Rattle.spec_rules.specs.spec_alerts.Records.{is_living};
ghost use Rattle.spec_rules.specs.spec_alerts.Restoring.{restored_time};
ghost use Rattle.pr_rule.specs.private.Restoring.{moved_at, moves_of};
ghost use Rattle.pr_rule.specs.private.AlertStanding.{StandsFor};
ghost use Rattle.spec_rules.specs.Definitions.{rule_of_def};
ghost use Rattle.spec_rules.specs.Evaluations.{rule_step, with_lineage};
ghost use Rattle.spec_rules.specs.Groups.{Group, RuleState, fresh_rule};
ghost use Rattle.spec_rules.specs.Settings.{Settings};
ghost use Rattle.pr_rule.specs.private.Templates.{HasTemplates};
ghost use Rattle.pr_rule.specs.private.Standing.{HasStepped, IsEvaluationOf, StandsForRule};

use crate::alert::Records;
use crate::evaluation::Evaluation;
use crate::outcome::outcome;
use crate::rule_result::{MadeLabels, RuleError, RuleTemplates, templates_of};
use crate::written::{failed, tell};
use pr_ast::num::Point;
use pr_ast::time::{Ms, Span};
use pr_eval::head::Head;
use pr_eval::range::Ranges;
use pr_labels::Labels;
use pr_labels::words_crate::{Items, Steps};
use spec_rules::history::Entry;
use spec_rules::{RuleDef, RuleReport};
use std::alloc::{AllocError, Global};
use std::sync::ledger::Ledger;

/// What is remembered of a rule from one evaluation to the next.
#[derive(Drop)]
pub struct Remembered<R> {
    /// Its templates, read once.
    pub templates: RuleTemplates,
    /// The series that it wrote in its last evaluation without a fault.
    pub previous: Items<Labels>,
    /// Its alerts; none of a rule that records.
    pub records: Records,
    /// What its range selectors keep.
    pub ranges: R,
    // The labels of its last result: they are shared with the next one.
    made: MadeLabels,
}

impl<R: Ranges> Remembered<R> {
    /// What is remembered of a rule to which nothing has happened.
    pub fn new(alloc: Global, rule: &RuleDef) -> Result<Remembered<R>, AllocError>
        requires { HasTemplates (rule_of_def rule.now) }
        ensures stands { IfOk result (λ k. StandsForRule k.templates k.previous k.records (rule_of_def rule.now) (fresh_rule (rule_of_def rule.now))) }
        ensures fresh { IfOk result (λ k. IsFresh (R.last k.ranges) (R.passed k.ranges)) }
        ensures fits { (history : List Entry) → IfOk result (λ k. R.fits k.ranges history) }
    {
        Ok(Remembered {
            templates: templates_of(alloc, rule)?,
            previous: Items::empty(alloc),
            records: Records::new(alloc),
            ranges: R::empty(alloc),
            made: MadeLabels::new(alloc),
        })
    }

    /// Evaluates the rule over a head: its samples are put, and a marker for each series that it
    /// wrote last and now not; its alerts go on, and what is due of them is sent. A fault puts
    /// nothing, marks nothing and sends nothing; where it is that the alerts are more than the
    /// limit, they are forgotten. Where the evaluation is not told, all is done all the same, but
    /// nothing is said of the rows and of the answer. (Prometheus: Recording rules, Alerting rules.)
    ///
    /// # Errors
    /// Want of memory: then nothing is said of what is remembered, and it is used no more.
    pub fn evaluate<G: Ledger>(
        &mut self,
        at: &Evaluation<'_>,
        rule: &RuleDef,
        head: &mut Head,
        rows: &mut Vec<Entry>,
        reads: &mut Steps<G>,
    ) -> Result<RuleReport, AllocError>
        requires { 0 < at.now.step }
        ensures steps { (s : Settings) (g : Group) (r : RuleState) (history : List Entry) → IsEvaluationOf at.now.step at.now.external.now at.now.limit at.now.interval at.now.waits s g
            → StandsForRule self.old.templates self.old.previous self.old.records (rule_of_def rule.now) r → Holds head.old history
            → MayBegin head.old history (tree_of rule.now.expr) at.now.time (R.fits self.old.ranges history) (R.last self.old.ranges)
            → IfOk result (λ report. HasStepped at.now.tells head.old head.new rows.old.items rows.new.items report history (rule_step s g r history at.now.time)) }
        ensures stands { (s : Settings) (g : Group) (r : RuleState) (history : List Entry) → IsEvaluationOf at.now.step at.now.external.now at.now.limit at.now.interval at.now.waits s g
            → StandsForRule self.old.templates self.old.previous self.old.records (rule_of_def rule.now) r → Holds head.old history
            → MayBegin head.old history (tree_of rule.now.expr) at.now.time (R.fits self.old.ranges history) (R.last self.old.ranges)
            → OnOk result (StandsForRule self.new.templates self.new.previous self.new.records (rule_of_def rule.now) (with_lineage r (rule_step s g r history at.now.time).lineage)) }
        ensures reads { (history : List Entry) → MayBegin head.old history (tree_of rule.now.expr) at.now.time (R.fits self.old.ranges history) (R.last self.old.ranges)
            → reads.new ≤ reads.old + cost at.now.step history (passed_outside false history (R.passed self.old.ranges)) (tree_of rule.now.expr) 0 at.now.time }
        ensures fits { (history : List Entry) → MayBegin head.old history (tree_of rule.now.expr) at.now.time (R.fits self.old.ranges history) (R.last self.old.ranges)
            → OnOk result (R.fits self.new.ranges history) }
        ensures asked { (history : List Entry) → MayBegin head.old history (tree_of rule.now.expr) at.now.time (R.fits self.old.ranges history) (R.last self.old.ranges)
            → OnOk result (AreAllAsked R.keeps history (is_ok (meaning at.now.step history (tree_of rule.now.expr) at.now.time)) (asks_of history (tree_of rule.now.expr) at.now.time) 0
            (kept_by (R.last self.old.ranges) (R.passed self.old.ranges)) (kept_by (R.last self.new.ranges) (R.passed self.new.ranges))) }
    {
        match outcome(
            at,
            rule,
            &self.templates,
            &mut self.made,
            &mut self.records,
            head,
            &mut self.ranges,
            reads,
        ) {
            Ok(offered) => tell(at, head, rows, &mut self.previous, offered),
            Err(RuleError::Failed { failure }) => Ok(failed(at.alloc, failure)),
            Err(RuleError::Memory) => Err(AllocError),
        }
    }

    /// The series that it wrote in its last evaluation without a fault.
    pub fn previous(&self) -> &[Labels]
        ensures { result.now ≡ self.now.previous }
    {
        self.previous.as_slice()
    }

    /// Its alerts.
    pub fn records(&self) -> &Records
        ensures { result.now ≡ self.now.records }
    {
        &self.records
    }

    /// Moves the active time of a pending or firing alert to what follows from the newest sample
    /// of the series in which it was written, its point and its time. It answers whether the active
    /// time was set. (Prometheus: Alerting rules, ALERTS_FOR_STATE.)
    pub fn restore(&mut self, index: usize, point: &Point, down: Ms, now: Ms, hold: Span) -> bool
        requires in_range { index < length self.old.records }
        requires before { down ≤ now }
        requires grace { 600000 ≤ hold }
        ensures moved { result ≡ is_some (restored_time hold point.now down now) }
        ensures records { (r : Record) → slice_get self.old.records index ≡ Some r → self.new.records ≡ moved_at self.old.records index r (restored_time hold point.now down now) }
        ensures stands { (lineage : List Occurrence) (r : Record) → StandsFor self.old.records lineage → slice_get self.old.records index ≡ Some r → is_living r ≡ true
            → StandsFor self.new.records (lineage ++ moved (moves_of r (restored_time hold point.now down now)) ∷ []) }
        ensures others { self.new ≡ record self.old { records = self.new.records } }
    {
        self.records.restore(index, point, down, now, hold)
    }

    /// Goes on from what is remembered of an older rule that this one continues: all but the
    /// templates and the labels of its last result is taken over, and of its range selectors what
    /// the older ones keep that are named for them.
    pub fn carry(&mut self, old: Remembered<R>, from: &[Option<usize>])
        requires once { IsOnce from.now }
        ensures templates { self.new.templates ≡ self.old.templates }
        ensures previous { self.new.previous ≡ old.previous }
        ensures records { self.new.records ≡ old.records }
        ensures carried { IsCarried from.now (R.last old.ranges) (R.last self.new.ranges) (R.passed old.ranges) (R.passed self.new.ranges) }
        ensures fits { (history : List Entry) → R.fits old.ranges history → R.fits self.new.ranges history }
    {
        self.previous = old.previous;
        self.records = old.records;
        self.ranges.carry(old.ranges, from);
    }
}
