// A backfill: its groups from one time to the next.
ghost use Rattle.std.specs.Prelude.{◌≡◌, List, map, IfOk, OnOk};
ghost use Rattle.spec_rules.specs.spec_history.declared.entry.Entry.{Entry};
ghost use Rattle.spec_rules.specs.Groups.{Group};
ghost use Rattle.spec_rules.specs.Settings.{of_a_run};
ghost use Rattle.spec_rules.specs.private.Times.{IsAfterAll};
ghost use Rattle.pr_engine.specs.pr_group.private.Keeping.{MayEvaluateOver};
ghost use Rattle.pr_engine.specs.pr_manager.private.Keeping.{HasGoneOn};
ghost use Rattle.pr_backfill.specs.Filled.{group_of_file, round_at};
ghost use Rattle.pr_backfill.specs.private.Keeping.{KeepsToFill};

use crate::fresh::fresh_groups;
use crate::round::evaluate_all;
use crate::stepped::{FileGroup, Stepped};
use pr_ast::time::Ms;
use pr_engine::group::GroupOver;
use pr_engine::head::Head;
use pr_engine::range::Ranges;
use pr_outside::words_crate::Steps;
use std::alloc::{AllocError, Global};
use std::marker::Model;
use std::sync::ledger::Ledger;

/// The groups of a backfill, with what is kept of each from one time to the next. Contracts say of each
/// list of groups that it stands for what becomes of them. (Own choice, after Prometheus' `promtool tsdb
/// create-blocks-from rules`.)
#[derive(Drop)]
pub struct Backfill<R> {
    groups: Vec<GroupOver<R>>,
}

impl<R> Model for Backfill<R> {
    ghost use Rattle.std.specs.Prelude.{List};
    ghost use Rattle.std.specs.Coded.{codes};
    ghost use Rattle.pr_ast.specs.contracts.tree.ExprKind as expressions;
    ghost use Rattle.pr_engine.specs.pr_group.private.Keeping.{KeptGroup};

    ghost Value = { List (KeptGroup R) };

    ghost coded = { Prim.hlevel (codes, expressions.the_row.coded) };

    ghost view = { λ b. b.groups.items };
}

impl<R: Ranges + Drop> Backfill<R> {
    /// The groups in order, without their alerts. Nothing has happened to them, and they wait for
    /// nothing.
    ///
    /// # Errors
    /// Want of memory.
    pub fn new(alloc: Global, groups: Vec<FileGroup>) -> Result<Backfill<R>, AllocError>
        ensures { (history : List Entry) → IfOk result (λ b. KeepsToFill R.fits R.last R.passed history b (map group_of_file groups.items)) }
    {
        Ok(Backfill {
            groups: fresh_groups(alloc, groups)?,
        })
    }

    /// Evaluates every group in order at a time over a head, which takes what is added, and tells of
    /// each. The time is after that of the step before.
    ///
    /// # Errors
    /// Want of memory: then nothing is said of the groups and of the head, and both are used no more.
    pub fn step<G: Ledger>(
        &mut self,
        alloc: Global,
        time: Ms,
        head: &mut Head,
        reads: &mut Steps<G>,
    ) -> Result<Vec<Stepped>, AllocError>
        ensures told { (history : List Entry) (groups : List Group) → KeepsToFill R.fits R.last R.passed history self.old groups → MayEvaluateOver head.old history time → IsAfterAll time groups
            → IfOk result (λ v. v.items ≡ (round_at of_a_run time history groups).told) }
        ensures keeps { (history : List Entry) (groups : List Group) → KeepsToFill R.fits R.last R.passed history self.old groups → MayEvaluateOver head.old history time → IsAfterAll time groups
            → OnOk result (KeepsToFill R.fits R.last R.passed (round_at of_a_run time history groups).history self.new (round_at of_a_run time history groups).groups) }
        ensures head { (history : List Entry) (groups : List Group) → KeepsToFill R.fits R.last R.passed history self.old groups → MayEvaluateOver head.old history time → IsAfterAll time groups
            → OnOk result (HasGoneOn head.old head.new history (round_at of_a_run time history groups).history) }
    {
        evaluate_all(alloc, &mut self.groups, time, head, reads)
    }
}
