// All groups, and the evaluation of one.
ghost use Rattle.std.specs.Prelude.{◌≡◌, ◌+◌, ◌<◌, ◌≤◌, false, true, Bool, List, [], length, slice_get, IfOk, OnOk, Some};
ghost use Rattle.spec_world.specs.spec_history.declared.entry.Entry.{Entry};
ghost use Rattle.pr_group.specs.private.Keeping.{KeptGroup, MayEvaluateOver, passed_by};
ghost use Rattle.spec_world.specs.spec_rules.Groups.{Group};
ghost use Rattle.spec_world.specs.World.{World};
ghost use Rattle.pr_manager.specs.private.Keeping.{HasGoneOn, ManagesGroups, ManagesGroupsOf, KeepsUnder, settings_in};
ghost use Rattle.pr_manager.specs.private.Coming.{ComesAt};
ghost use Rattle.pr_manager.specs.private.Naming.{passed_by_named};
ghost use Rattle.pr_manager.specs.private.Passing.{EvaluationPasses};
ghost use Rattle.pr_manager.specs.private.Rounds.{admitted_in, cost_after, eval_cost, eval_step};

use crate::coming::evaluate_group;
use crate::finding::place_of;
use pr_ast::time::{Ms, Span};
use pr_ast::words_crate::{Steps, Text};
use pr_group::head::Head;
use pr_group::range::Ranges;
use pr_group::{GroupOver, a_kept_group_stays};
use spec_world::Report;
use spec_world::tmpl::External;
use std::alloc::{AllocError, Global};
use std::marker::Model;
use std::sync::ledger::Ledger;

/// All groups of the rule files that were loaded last, in order. Contracts say of each list of groups
/// that it stands for what becomes of them. (Prometheus: rules/manager.go.)
#[derive(Drop)]
pub struct Manager<R> {
    pub(crate) groups: Vec<GroupOver<R>>,
    // Whether a reload was accepted since the start.
    pub(crate) reloaded: bool,
    pub(crate) step: Span,
    pub(crate) external: External,
}

impl<R> Model for Manager<R> {
    ghost use Rattle.std.specs.Prelude.{◌<◌};
    ghost use Rattle.std.specs.Coded.{codes};
    ghost use Rattle.pr_ast.specs.contracts.tree.ExprKind as expressions;
    ghost use Rattle.pr_manager.specs.private.Keeping.{KeptManager};

    ghost Value = { KeptManager R };

    ghost coded = { Prim.hlevel (codes, expressions.the_row.coded) };

    ghost view = { λ m. record { groups = m.groups.items; reloaded = m.reloaded; step = m.step; external = m.external } };

    ghost invariant = { λ m. 0 < m.step };
}

impl<R: Ranges + Drop> Manager<R> {
    /// No groups: no file was loaded yet. The step is that of subqueries that give none, and is not
    /// 0; the external texts are what templates see.
    pub fn new(alloc: Global, step: Span, external: External) -> Manager<R>
        requires { 0 < step }
        ensures keeps { (history : List Entry) → ManagesGroups R.fits R.last R.passed result history [] false }
        ensures settings { settings_in result ≡ record { subquery_step = step; external = external } }
    {
        Manager {
            groups: Vec::new(alloc),
            reloaded: false,
            step,
            external,
        }
    }

    // Evaluates the group at a place, unless it was evaluated at this time or later.
    fn evaluate_at<G: Ledger>(
        &mut self,
        alloc: Global,
        head: &mut Head,
        place: usize,
        time: Ms,
        reads: &mut Steps<G>,
    ) -> Result<Report, AllocError>
        requires { place < length self.old.groups }
        ensures evaluated { (history : List Entry) (k : KeptGroup R) (g : Group) → slice_get self.old.groups place ≡ Some k → KeepsUnder R.fits R.last R.passed (settings_in self.old) history k g → MayEvaluateOver head.old history time
            → IfOk result (ComesAt R.fits R.last R.passed R.keeps (settings_in self.old) g k history time head.old head.new self.old.groups self.new.groups place reads.old reads.new) }
        ensures reads { (history : List Entry) (k : KeptGroup R) (g : Group) → slice_get self.old.groups place ≡ Some k → KeepsUnder R.fits R.last R.passed (settings_in self.old) history k g → MayEvaluateOver head.old history time
            → reads.new ≤ reads.old + cost_after g.last (settings_in self.old) g history time (passed_by R.passed k history) }
        ensures since { OnOk result (self.new.reloaded ≡ self.old.reloaded) }
        ensures settings { OnOk result (settings_in self.new ≡ settings_in self.old) }
    {
        evaluate_group(alloc, &mut self.groups[place], head, time, reads)
    }

    /// Evaluates the group of a file with a name at a time over a head, which takes what is added.
    /// What was added stands in what is told of it (`admitted_in`). It is refused where there is no
    /// such group, or where the group was evaluated at this time or later; then nothing changes. The
    /// group is looked for among all, one after another. (Prometheus: Recording rules, Alerting
    /// rules. That an evaluation names its group is an own choice.)
    ///
    /// # Errors
    /// Want of memory: then nothing is said of the groups and of the head, and both are used no more.
    pub fn evaluate<G: Ledger>(
        &mut self,
        alloc: Global,
        head: &mut Head,
        file: Text,
        group: Text,
        time: Ms,
        reads: &mut Steps<G>,
    ) -> Result<Report, AllocError>
        ensures report { (w : World) → ManagesGroupsOf R.fits R.last R.passed self.old w → MayEvaluateOver head.old w.history time
            → IfOk result (λ r. r ≡ (eval_step (settings_in self.old) w time file group).report) }
        ensures rows { (w : World) → ManagesGroupsOf R.fits R.last R.passed self.old w → MayEvaluateOver head.old w.history time
            → IfOk result (λ r. admitted_in r ≡ (eval_step (settings_in self.old) w time file group).rows) }
        ensures keeps { (w : World) → ManagesGroupsOf R.fits R.last R.passed self.old w → MayEvaluateOver head.old w.history time
            → OnOk result (ManagesGroupsOf R.fits R.last R.passed self.new (eval_step (settings_in self.old) w time file group).world) }
        ensures head { (w : World) → ManagesGroupsOf R.fits R.last R.passed self.old w → MayEvaluateOver head.old w.history time
            → OnOk result (HasGoneOn head.old head.new w.history (eval_step (settings_in self.old) w time file group).world.history) }
        ensures reads { (w : World) → ManagesGroupsOf R.fits R.last R.passed self.old w → MayEvaluateOver head.old w.history time
            → reads.new ≤ reads.old + eval_cost (settings_in self.old) w time file group (passed_by_named R.passed self.old w.history file group) }
        ensures passed { (w : World) → ManagesGroupsOf R.fits R.last R.passed self.old w → MayEvaluateOver head.old w.history time
            → OnOk result (EvaluationPasses R.keeps (settings_in self.old) w time file group (passed_by_named R.passed self.old w.history)
            (passed_by_named R.passed self.new (eval_step (settings_in self.old) w time file group).world.history)) }
        ensures refused { (w : World) → ManagesGroupsOf R.fits R.last R.passed self.old w → MayEvaluateOver head.old w.history time
            → (eval_step (settings_in self.old) w time file group).refused ≡ true → OnOk result ((self.new ≡ self.old) × (head.new ≡ head.old)) }
        ensures settings { OnOk result (settings_in self.new ≡ settings_in self.old) }
    {
        a_kept_group_stays::<R>();
        match place_of(&self.groups, file.as_str(), group.as_str()) {
            Some(place) => self.evaluate_at(alloc, head, place, time, reads),
            None => Ok(Report::NoGroup { file, group }),
        }
    }
}
