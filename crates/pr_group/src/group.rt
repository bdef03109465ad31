// A group of rules, and its evaluation.
ghost use Rattle.std.specs.Prelude.{◌≡◌, ℕ, ◌+◌, ◌<◌, ◌≤◌, ◌==◌, pred, true, List, [], All, flat_map, length, map, sum_by, Option, Some, IfOk, OnOk};
ghost use Rattle.pr_ast.specs.pr_labels.declared.pair.Pair.{Pair};
ghost use Rattle.pr_rule.specs.spec_history.declared.entry.Entry.{Entry};
ghost use Rattle.pr_rule.specs.spec_history.Admission.{put_all};
ghost use Rattle.pr_rule.specs.spec_rules.Definitions.{group_of_def, rule_of_def};
ghost use Rattle.pr_rule.specs.pr_head.private.Intake.{HasTaken};
ghost use Rattle.pr_rule.specs.private.Templates.{HasTemplates, HaveTemplates};
ghost use Rattle.pr_rule.specs.spec_rules.private.Costs.{group_cost, restored_reads, restoring_cost, rules_cost};
ghost use Rattle.pr_rule.specs.spec_rules.Evaluations.{all_rules, begun, group_step, restores, with_restored};
ghost use Rattle.pr_rule.specs.spec_rules.Groups.{Group, RuleState, fresh};
ghost use Rattle.pr_rule.specs.spec_rules.private.Passed.{IsPassedAfter};
ghost use Rattle.pr_rule.specs.spec_rules.private.Times.{IsAfter};
ghost use Rattle.pr_group.specs.private.Keeping.{AreKept, KeepsGroup, MayEvaluateOver, passed_by, settings_of, waits_of};
ghost use Rattle.pr_group.specs.private.Evaluating.{AreNew, HasCome};
ghost use Rattle.pr_group.specs.private.Restoring.{ranges_of, restored_alerts, restored_rules};

use crate::restoring::restore_rules;
use crate::rules::evaluate_rules;
use pr_ast::labels::Labels;
use pr_ast::time::{Ms, Span};
use pr_ast::words_crate::{Items, Steps, Text};
use pr_rule::alerts_crate::Restored;
use pr_rule::head::Head;
use pr_rule::head::intake::mark_if;
use pr_rule::history::Entry;
use pr_rule::range::Ranges;
use pr_rule::rules_crate::{GroupDef, GroupReport, RuleDef, RuleReport};
use pr_rule::tmpl::External;
use pr_rule::{Evaluation, Remembered};
use std::alloc::{AllocError, Global};
use std::marker::Model;
use std::rc::Rc;
use std::sync::ledger::Ledger;

/// A group of rules that are evaluated together, with what is kept of it from one evaluation to the
/// next. Contracts say of each group that it stands for what becomes of that. (Prometheus: Recording
/// rules, Alerting rules.)
#[derive(Drop)]
pub struct GroupOver<R> {
    // Other groups may be over it too.
    pub(crate) def: Rc<GroupDef>,
    pub(crate) file: Text,
    pub(crate) step: Span,
    pub(crate) external: External,
    // Of each rule, in the order of the definition.
    pub(crate) rules: Vec<Remembered<R>>,
    pub(crate) last: Option<Ms>,
    pub(crate) waits: u8,
    pub(crate) leftovers: Items<Labels>,
}

impl<R> Model for GroupOver<R> {
    ghost use Rattle.std.specs.Prelude.{◌≡◌, ◌<◌, length};
    ghost use Rattle.pr_rule.specs.private.Templates.{HaveTemplates};
    ghost use Rattle.pr_group.specs.private.Keeping.{KeptGroup};
    ghost use Rattle.pr_ast.specs.contracts.tree.ExprKind as kinds;
    ghost use Rattle.std.specs.Coded.{codes};

    ghost Value = { KeptGroup R };

    ghost coded = { Prim.hlevel (codes, kinds.the_row.coded) };

    ghost view = { λ g. record { def = g.def.value; file = g.file; step = g.step; external = g.external; rules = g.rules.items; last = g.last; waits = g.waits; leftovers = g.leftovers } };

    ghost invariant = { λ g. (0 < g.step) × ((length g.rules.items ≡ length g.def.value.rules) × HaveTemplates g.def.value) };
}

fn waits_of(waits: bool) -> u8
    ensures { result ≡ waits_of waits }
{
    if waits { 2 } else { 0 }
}

// What is remembered of rules to which nothing has happened.
fn remembered<R: Ranges + Drop>(
    alloc: Global,
    definitions: &[RuleDef],
) -> Result<Vec<Remembered<R>>, AllocError>
    requires { All (λ r. HasTemplates (rule_of_def r)) definitions.now }
    ensures { IfOk result (λ v. AreNew R.fits R.last R.passed definitions.now v.items (length definitions.now)) }
{
    let mut rules = Vec::new(alloc);
    for index in 0..definitions.len() {
        rules.push(Remembered::new(alloc, &definitions[index])?)?;
    }
    Ok(rules)
}

impl<R: Ranges + Drop> GroupOver<R> {
    /// A group to which nothing has happened, over a definition that others may be over too. Its
    /// alerts wait for two evaluations to be restored, or for none. The step is that of subqueries
    /// that give none, and is not 0; the external texts are what templates see.
    pub fn new(
        alloc: Global,
        def: Rc<GroupDef>,
        file: Text,
        waits: bool,
        step: Span,
        external: External,
    ) -> Result<GroupOver<R>, AllocError>
        requires some { 0 < step }
        requires templates { HaveTemplates def.value }
        ensures keeps { (history : List Entry) → IfOk result (λ k. KeepsGroup R.fits R.last R.passed k history (fresh (waits_of waits) file (group_of_def def.value))) }
        ensures settings { IfOk result (λ k. settings_of k ≡ record { subquery_step = step; external = external }) }
        ensures def { IfOk result (λ k. k.def ≡ def.value) }
        ensures file { IfOk result (λ k. k.file ≡ file) }
        ensures passed { (history : List Entry) (i n : ℕ) (labels : List Pair) → IfOk result (λ k. passed_by R.passed k history i n labels ≡ 0) }
    {
        let rules = remembered(alloc, def.rules.as_slice())?;
        Ok(GroupOver {
            def,
            file,
            step,
            external,
            rules,
            last: None,
            waits: waits_of(waits),
            leftovers: Items::empty(alloc),
        })
    }

    /// Its definition.
    pub fn def(&self) -> &GroupDef
        ensures same { result.now ≡ self.now.def }
        ensures templates { HaveTemplates result.now }
    {
        &self.def
    }

    /// The name of its file.
    pub fn file(&self) -> &str
        ensures { result.now ≡ self.now.file }
    {
        self.file.as_str()
    }

    /// When it was last evaluated.
    pub fn last(&self) -> Option<Ms>
        ensures { result ≡ self.now.last }
    {
        self.last
    }

    // Evaluates its rules.
    fn evaluate_all<G: Ledger>(
        &mut self,
        alloc: Global,
        time: Ms,
        tells: bool,
        head: &mut Head,
        rows: &mut Vec<Entry>,
        reads: &mut Steps<G>,
    ) -> Result<Vec<RuleReport>, AllocError>
        ensures come { (history : List Entry) (g : Group) → MayEvaluateOver head.old history time → KeepsGroup R.fits R.last R.passed self.old history g → IsAfter time g.last
            → IfOk result (λ told. HasCome R.fits R.last R.passed R.keeps tells (settings_of self.old) g history time self.old.def.rules self.old.rules self.new.rules head.old head.new rows.old.items rows.new.items told.items (length g.rules) (all_rules (settings_of self.old) g history time)) }
        ensures reads { (history : List Entry) (g : Group) → MayEvaluateOver head.old history time → KeepsGroup R.fits R.last R.passed self.old history g → IsAfter time g.last
            → reads.new ≤ reads.old + rules_cost (settings_of self.old) g time (passed_by R.passed self.old history) 0 g.rules (begun history) }
        ensures rest { self.new ≡ record self.old { rules = self.new.rules } }
    {
        let def = self.def.as_ref();
        let at = Evaluation {
            alloc,
            time,
            step: self.step,
            external: &self.external,
            limit: def.limit,
            interval: def.interval,
            waits: self.waits > 0,
            tells,
        };
        evaluate_rules(
            &at,
            def.rules.as_slice(),
            &mut self.rules,
            head,
            rows,
            reads,
        )
    }

    // Restores its alerts.
    fn restore_all<G: Ledger>(
        &mut self,
        alloc: Global,
        time: Ms,
        tells: bool,
        head: &Head,
        reads: &mut Steps<G>,
    ) -> Result<Vec<Restored>, AllocError>
        ensures kept { (history : List Entry) (until : Option ℕ) (rs : List RuleState) → MayEvaluateOver head.now history time → length self.old.def.rules ≡ length rs → AreKept R.fits R.last R.passed history until self.old.def.rules self.old.rules rs
            → OnOk result (AreKept R.fits R.last R.passed history until self.old.def.rules self.new.rules (map (with_restored history time) rs)) }
        ensures told { (history : List Entry) (until : Option ℕ) (rs : List RuleState) → MayEvaluateOver head.now history time → length self.old.def.rules ≡ length rs → AreKept R.fits R.last R.passed history until self.old.def.rules self.old.rules rs
            → IfOk result (λ v. tells ≡ true → v.items ≡ flat_map (restores history time) rs) }
        ensures reads { (history : List Entry) (until : Option ℕ) (rs : List RuleState) → MayEvaluateOver head.now history time → length self.old.def.rules ≡ length rs → AreKept R.fits R.last R.passed history until self.old.def.rules self.old.rules rs
            → reads.new ≤ reads.old + sum_by restored_reads rs }
        ensures ranges { ranges_of self.new.rules ≡ ranges_of self.old.rules }
        ensures rest { self.new ≡ record self.old { rules = self.new.rules } }
    {
        restore_rules(
            alloc,
            tells,
            head,
            self.def.rules.as_slice(),
            &mut self.rules,
            time,
            reads,
        )
    }

    // Whether its alerts have waited to be restored.
    fn is_due(&self) -> bool
        ensures { result ≡ (self.now.waits == 1) }
    {
        self.waits == 1
    }

    // Restores its alerts where they have waited for that.
    fn restore_if_due<G: Ledger>(
        &mut self,
        alloc: Global,
        time: Ms,
        tells: bool,
        head: &Head,
        reads: &mut Steps<G>,
    ) -> Result<Vec<Restored>, AllocError>
        ensures kept { (history : List Entry) (until : Option ℕ) (rs : List RuleState) → MayEvaluateOver head.now history time → length self.old.def.rules ≡ length rs → AreKept R.fits R.last R.passed history until self.old.def.rules self.old.rules rs
            → OnOk result (AreKept R.fits R.last R.passed history until self.old.def.rules self.new.rules (restored_rules (self.old.waits == 1) history time rs)) }
        ensures told { (history : List Entry) (until : Option ℕ) (rs : List RuleState) → MayEvaluateOver head.now history time → length self.old.def.rules ≡ length rs → AreKept R.fits R.last R.passed history until self.old.def.rules self.old.rules rs
            → IfOk result (λ v. tells ≡ true → v.items ≡ restored_alerts (self.old.waits == 1) history time rs) }
        ensures reads { (history : List Entry) (until : Option ℕ) (rs : List RuleState) → MayEvaluateOver head.now history time → length self.old.def.rules ≡ length rs → AreKept R.fits R.last R.passed history until self.old.def.rules self.old.rules rs
            → reads.new ≤ reads.old + restoring_cost (self.old.waits == 1) rs }
        ensures ranges { ranges_of self.new.rules ≡ ranges_of self.old.rules }
        ensures rest { self.new ≡ record self.old { rules = self.new.rules } }
    {
        if !self.is_due() {
            return Ok(Vec::new(alloc));
        }
        self.restore_all(alloc, time, tells, head, reads)
    }

    // The series that a reload left over.
    fn leftovers(&self) -> &[Labels]
        ensures { result.now ≡ self.now.leftovers }
    {
        self.leftovers.as_slice()
    }

    // Notes that it was evaluated at a time.
    fn go_on(&mut self, alloc: Global, time: Ms)
        ensures { self.new ≡ record self.old { last = Some time; waits = pred self.old.waits; leftovers = [] } }
    {
        self.last = Some(time);
        self.waits = self.waits.saturating_sub(1);
        self.leftovers = Items::empty(alloc);
    }

    // Evaluates the group at a time over a head. Where that is told, it answers what is told.
    fn evaluate_by<G: Ledger>(
        &mut self,
        alloc: Global,
        time: Ms,
        tells: bool,
        head: &mut Head,
        reads: &mut Steps<G>,
    ) -> Result<GroupReport, AllocError>
        ensures report { (history : List Entry) (g : Group) → MayEvaluateOver head.old history time → KeepsGroup R.fits R.last R.passed self.old history g → IsAfter time g.last
            → IfOk result (λ r. tells ≡ true → r ≡ (group_step (settings_of self.old) g history time).report) }
        ensures head { (history : List Entry) (g : Group) → MayEvaluateOver head.old history time → KeepsGroup R.fits R.last R.passed self.old history g → IsAfter time g.last
            → OnOk result (HasTaken head.old head.new history (group_step (settings_of self.old) g history time).entries) }
        ensures keeps { (history : List Entry) (g : Group) → MayEvaluateOver head.old history time → KeepsGroup R.fits R.last R.passed self.old history g → IsAfter time g.last
            → OnOk result (KeepsGroup R.fits R.last R.passed self.new (put_all history (group_step (settings_of self.old) g history time).entries) (group_step (settings_of self.old) g history time).group) }
        ensures reads { (history : List Entry) (g : Group) → MayEvaluateOver head.old history time → KeepsGroup R.fits R.last R.passed self.old history g → IsAfter time g.last
            → reads.new ≤ reads.old + group_cost (settings_of self.old) g history time (passed_by R.passed self.old history) }
        ensures passed { (history : List Entry) (g : Group) → MayEvaluateOver head.old history time → KeepsGroup R.fits R.last R.passed self.old history g → IsAfter time g.last
            → R.keeps ≡ true
            → OnOk result (IsPassedAfter (settings_of self.old) g history time (passed_by R.passed self.old history) (passed_by R.passed self.new (put_all history (group_step (settings_of self.old) g history time).entries))) }
        ensures def { OnOk result (self.new.def ≡ self.old.def) }
        ensures file { OnOk result (self.new.file ≡ self.old.file) }
        ensures settings { OnOk result (settings_of self.new ≡ settings_of self.old) }
    {
        let mut rows = Vec::new(alloc);
        let told = self.evaluate_all(alloc, time, tells, head, &mut rows, reads)?;
        let gone = mark_if(alloc, tells, head, &mut rows, time, self.leftovers(), &[])?;
        let restored = self.restore_if_due(alloc, time, tells, head, reads)?;
        self.go_on(alloc, time);
        Ok(GroupReport {
            rules: Items::new(told),
            leftovers: Items::new(gone),
            restored: Items::new(restored),
            admitted: Items::new(rows),
        })
    }

    /// Evaluates the group at a time over a head, which takes what is added: its rules in order,
    /// each over the history as it then stands; then markers for the series that a reload left over;
    /// and where it has waited for that, its alerts are restored. It answers what is told of it,
    /// with what was added. (Prometheus: Recording rules, Alerting rules.)
    ///
    /// # Errors
    /// Want of memory: then nothing is said of the group and of the head, and both are used no more.
    pub fn evaluate<G: Ledger>(
        &mut self,
        alloc: Global,
        time: Ms,
        head: &mut Head,
        reads: &mut Steps<G>,
    ) -> Result<GroupReport, AllocError>
        ensures report { (history : List Entry) (g : Group) → MayEvaluateOver head.old history time → KeepsGroup R.fits R.last R.passed self.old history g → IsAfter time g.last
            → IfOk result (λ r. r ≡ (group_step (settings_of self.old) g history time).report) }
        ensures head { (history : List Entry) (g : Group) → MayEvaluateOver head.old history time → KeepsGroup R.fits R.last R.passed self.old history g → IsAfter time g.last
            → OnOk result (HasTaken head.old head.new history (group_step (settings_of self.old) g history time).entries) }
        ensures keeps { (history : List Entry) (g : Group) → MayEvaluateOver head.old history time → KeepsGroup R.fits R.last R.passed self.old history g → IsAfter time g.last
            → OnOk result (KeepsGroup R.fits R.last R.passed self.new (put_all history (group_step (settings_of self.old) g history time).entries) (group_step (settings_of self.old) g history time).group) }
        ensures reads { (history : List Entry) (g : Group) → MayEvaluateOver head.old history time → KeepsGroup R.fits R.last R.passed self.old history g → IsAfter time g.last
            → reads.new ≤ reads.old + group_cost (settings_of self.old) g history time (passed_by R.passed self.old history) }
        ensures passed { (history : List Entry) (g : Group) → MayEvaluateOver head.old history time → KeepsGroup R.fits R.last R.passed self.old history g → IsAfter time g.last
            → R.keeps ≡ true
            → OnOk result (IsPassedAfter (settings_of self.old) g history time (passed_by R.passed self.old history) (passed_by R.passed self.new (put_all history (group_step (settings_of self.old) g history time).entries))) }
        ensures def { OnOk result (self.new.def ≡ self.old.def) }
        ensures file { OnOk result (self.new.file ≡ self.old.file) }
        ensures settings { OnOk result (settings_of self.new ≡ settings_of self.old) }
    {
        self.evaluate_by(alloc, time, true, head, reads)
    }

    /// Evaluates the group as `evaluate` does, and tells nothing of it.
    ///
    /// # Errors
    /// Want of memory: then nothing is said of the group and of the head, and both are used no more.
    pub fn evaluate_untold<G: Ledger>(
        &mut self,
        alloc: Global,
        time: Ms,
        head: &mut Head,
        reads: &mut Steps<G>,
    ) -> Result<(), AllocError>
        ensures head { (history : List Entry) (g : Group) → MayEvaluateOver head.old history time → KeepsGroup R.fits R.last R.passed self.old history g → IsAfter time g.last
            → OnOk result (HasTaken head.old head.new history (group_step (settings_of self.old) g history time).entries) }
        ensures keeps { (history : List Entry) (g : Group) → MayEvaluateOver head.old history time → KeepsGroup R.fits R.last R.passed self.old history g → IsAfter time g.last
            → OnOk result (KeepsGroup R.fits R.last R.passed self.new (put_all history (group_step (settings_of self.old) g history time).entries) (group_step (settings_of self.old) g history time).group) }
        ensures reads { (history : List Entry) (g : Group) → MayEvaluateOver head.old history time → KeepsGroup R.fits R.last R.passed self.old history g → IsAfter time g.last
            → reads.new ≤ reads.old + group_cost (settings_of self.old) g history time (passed_by R.passed self.old history) }
        ensures passed { (history : List Entry) (g : Group) → MayEvaluateOver head.old history time → KeepsGroup R.fits R.last R.passed self.old history g → IsAfter time g.last
            → R.keeps ≡ true
            → OnOk result (IsPassedAfter (settings_of self.old) g history time (passed_by R.passed self.old history) (passed_by R.passed self.new (put_all history (group_step (settings_of self.old) g history time).entries))) }
        ensures def { OnOk result (self.new.def ≡ self.old.def) }
        ensures file { OnOk result (self.new.file ≡ self.old.file) }
        ensures settings { OnOk result (settings_of self.new ≡ settings_of self.old) }
    {
        match self.evaluate_by(alloc, time, false, head, reads) {
            Ok(_nothing) => Ok(()),
            Err(error) => Err(error),
        }
    }
}
