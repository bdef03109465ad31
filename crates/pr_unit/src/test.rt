// One test.
ghost use Rattle.std.specs.Prelude.{◌≡◌, ◌+◌, ◌<◌, ◌++◌, ℕ, List, IfOk, OnOk, map};
ghost use Rattle.pr_slide.specs.spec_history.declared.entry.Entry.{Entry};
ghost use Rattle.pr_group.specs.spec_rules.Groups.{Group};
ghost use Rattle.pr_group.specs.spec_rules.Replays.{unwaiting_groups};
ghost use Rattle.spec_tests.specs.pr_testfile.Tests.{plain_test};
ghost use Rattle.spec_tests.specs.private.Rounds.{AreApart, AreToldApart};
ghost use Rattle.spec_tests.specs.Events.{by_names, settings_of};
ghost use Rattle.spec_tests.specs.Verdict.{test_verdict};
ghost use Rattle.pr_unit.specs.private.Kept.{KeepsGroups};
ghost use Rattle.pr_unit.specs.private.Loaded.{AreAllSound, file_of};
ghost use Rattle.pr_unit.specs.private.Run.{HasRunTest, IsNextCheck};
ghost use Rattle.pr_unit.specs.private.Slots.{AreAllFilled, HasFilled};

use crate::checks::{fill_alerts, fill_exprs};
use crate::groups::groups_of;
use crate::order::in_order;
use crate::rules::RuleGroups;
use crate::run::Run;
use crate::slots::{empty_slots, gather};
use crate::times::{next_time, times_of};
use pr_ast::time::{Ms, Span};
use pr_ast::words_crate::Items;
use pr_group::GroupOver;
use pr_slide::range::Ranges;
use spec_tests::Failure;
use spec_tests::testfile::{Test, TestFile};
use std::alloc::{AllocError, Global};

/// What is found at the checks of a test, each in its slot.
#[derive(Drop)]
pub(crate) struct Slots {
    pub(crate) alerts: Vec<Items<Failure>>,
    pub(crate) exprs: Vec<Items<Failure>>,
}

// All happens until a time, and what is found at the checks of that time is put into their slots.
fn check_at<R: Ranges + Drop>(
    alloc: Global,
    run: &mut Run<R>,
    number: u64,
    test: &Test,
    every: Span,
    time: Ms,
    slots: &mut Slots,
) -> Result<(), AllocError>
    requires { 0 < every }
    ensures { (gs : List Group) (from : ℕ) → AreApart gs → IsNextCheck (plain_test test.now) from time → HasRunTest R.fits R.last R.passed test.now every gs from run.old
        → HasFilled every gs number (plain_test test.now) from slots.old.alerts.items slots.old.exprs.items
        → OnOk result (HasRunTest R.fits R.last R.passed test.now every gs (time + 1) run.new × HasFilled every gs number (plain_test test.now) (time + 1) slots.new.alerts.items slots.new.exprs.items) }
{
    run.advance(alloc, &test.input, every, time)?;
    fill_alerts(
        alloc,
        run,
        number,
        test.alerts.as_slice(),
        time,
        &mut slots.alerts,
    )?;
    fill_exprs(
        alloc,
        run,
        number,
        test.exprs.as_slice(),
        time,
        every,
        &mut slots.exprs,
    )
}

// All checks, as time goes by.
fn check_all<R: Ranges + Drop>(
    alloc: Global,
    run: Run<R>,
    number: u64,
    test: &Test,
    every: Span,
) -> Result<Slots, AllocError>
    requires { 0 < every }
    ensures { (gs : List Group) → AreApart gs → HasRunTest R.fits R.last R.passed test.now every gs 0 run
        → IfOk result (λ slots. AreAllFilled every gs number (plain_test test.now) slots.alerts.items slots.exprs.items) }
{
    let times = times_of(alloc, test)?;
    let mut run = run;
    let mut slots = Slots {
        alerts: empty_slots(alloc, test.alerts.as_slice().len())?,
        exprs: empty_slots(alloc, test.exprs.as_slice().len())?,
    };
    let mut from = 0;
    'times: while let Some(time) = next_time(&times, from) {
        check_at(alloc, &mut run, number, test, every, time, &mut slots)?;
        from = time.get() + 1;
    }
    Ok(slots)
}

// The groups of files in the order in which they are evaluated.
fn groups_in_order<R: Ranges + Drop>(
    alloc: Global,
    file: &TestFile,
    test: &Test,
    rules: &[RuleGroups],
) -> Result<Vec<GroupOver<R>>, AllocError>
    requires some { 0 < file.now.interval }
    requires sound { AreAllSound rules.now }
    ensures { (history : List Entry)
        → IfOk result (λ v. KeepsGroups R.fits R.last R.passed v.items history (settings_of file.now.interval (plain_test test.now)) (by_names file.now.order (unwaiting_groups (map file_of rules.now)))) }
{
    let groups = groups_of(alloc, rules, file.interval, &test.external)?;
    in_order(alloc, file.order.as_slice(), groups)
}

/// Puts the failures of a test behind others.
///
/// # Errors
/// Want of memory.
pub(crate) fn run_test<R: Ranges + Drop>(
    alloc: Global,
    file: &TestFile,
    number: u64,
    test: &Test,
    rules: &[RuleGroups],
    failures: &mut Vec<Failure>,
) -> Result<(), AllocError>
    requires some { 0 < file.now.interval }
    requires sound { AreAllSound rules.now }
    ensures { AreToldApart (map file_of rules.now)
        → OnOk result (failures.new.items ≡ failures.old.items ++ test_verdict file.now.interval (by_names file.now.order (unwaiting_groups (map file_of rules.now))) (number, plain_test test.now)) }
{
    let groups: Vec<GroupOver<R>> = groups_in_order(alloc, file, test, rules)?;
    let run = Run::begin(alloc, groups, &test.input)?;
    let slots = check_all(alloc, run, number, test, file.interval)?;
    gather(slots.alerts, failures)?;
    gather(slots.exprs, failures)
}
