// Checks at the time that a test has come to.
ghost use Rattle.std.specs.Prelude.{◌≡◌, ℕ, ◌+◌, ◌<◌, List, IfOk, OnOk, length, map};
ghost use Rattle.pr_group.specs.spec_rules.Groups.{Group};
ghost use Rattle.pr_group.specs.spec_rules.Settings.{Settings};
ghost use Rattle.spec_tests.specs.spec_world.World.{World};
ghost use Rattle.pr_group.specs.spec_meaning.Meaning.{meaning};
ghost use Rattle.spec_tests.specs.pr_testfile.Checks.{plain_check};
ghost use Rattle.spec_tests.specs.pr_testfile.Tests.{PlainTest};
ghost use Rattle.spec_tests.specs.Events.{world_at};
ghost use Rattle.spec_tests.specs.Verdict.{alert_check, alert_failure, expr_check, expr_failure, firing, given_by};
ghost use Rattle.pr_unit.specs.private.Kept.{StandsForWorld};
ghost use Rattle.pr_unit.specs.private.Slots.{AreFilled, AreFilling};

use crate::expected::{alert_failure, expr_failure, given};
use crate::firing::firing;
use crate::run::Run;
use pr_ast::time::{Ms, Span};
use pr_ast::words_crate::Items;
use pr_slide::range::Ranges;
use spec_tests::Failure;
use spec_tests::testfile::{AlertCheck, ExprCheck};
use std::alloc::{AllocError, Global};

fn check_alert<R: Ranges + Drop>(
    alloc: Global,
    run: &Run<R>,
    test: u64,
    number: u64,
    check: &AlertCheck,
) -> Result<Items<Failure>, AllocError>
    ensures { (s : Settings) (w : World) → StandsForWorld R.fits R.last R.passed run.now.head run.now.groups.items s w
        → IfOk result (λ list. list ≡ alert_failure test number check.now.expected (firing check.now.name w)) }
{
    let found = firing(alloc, &run.groups, check.name.as_str())?;
    alert_failure(alloc, test, number, check.expected.as_slice(), found)
}

fn check_expr<R: Ranges + Drop>(
    alloc: Global,
    run: &Run<R>,
    test: u64,
    number: u64,
    check: &ExprCheck,
    every: Span,
) -> Result<Items<Failure>, AllocError>
    requires { 0 < every }
    ensures { (s : Settings) (w : World) → StandsForWorld R.fits R.last R.passed run.now.head run.now.groups.items s w
        → IfOk result (λ list. list ≡ expr_failure test number check.now.expected (given_by (meaning every w.history (plain_check check.now).expr check.now.time))) }
{
    match given(alloc, &run.head, &check.expr, check.time, every) {
        Ok(got) => expr_failure(alloc, test, number, check.expected.as_slice(), got),
        Err(error) => Err(error),
    }
}

// What is found at the check of alerts with a number is put into its slot, where it is of that time.
fn fill_alert<R: Ranges + Drop>(
    alloc: Global,
    run: &Run<R>,
    test: u64,
    index: usize,
    checks: &[AlertCheck],
    time: Ms,
    slots: &mut Vec<Items<Failure>>,
) -> Result<(), AllocError>
    requires { index < length checks.now }
    ensures { (interval : ℕ) (gs : List Group) (t : PlainTest) (s : Settings) → StandsForWorld R.fits R.last R.passed run.now.head run.now.groups.items s (world_at interval gs t time)
        → AreFilling (alert_check interval gs test t) (λ c. c.time) checks.now time index slots.old.items
        → OnOk result (AreFilling (alert_check interval gs test t) (λ c. c.time) checks.now time (index + 1) slots.new.items) }
{
    if checks[index].time != time || index >= slots.len() {
        return Ok(());
    }
    slots[index] = check_alert(alloc, run, test, index as u64 + 1, &checks[index])?;
    Ok(())
}

/// What is found at the checks of alerts of a time is put into their slots.
pub(crate) fn fill_alerts<R: Ranges + Drop>(
    alloc: Global,
    run: &Run<R>,
    test: u64,
    checks: &[AlertCheck],
    time: Ms,
    slots: &mut Vec<Items<Failure>>,
) -> Result<(), AllocError>
    ensures { (interval : ℕ) (gs : List Group) (t : PlainTest) (s : Settings) → StandsForWorld R.fits R.last R.passed run.now.head run.now.groups.items s (world_at interval gs t time)
        → AreFilled (alert_check interval gs test t) (λ c. c.time) checks.now time slots.old.items
        → OnOk result (AreFilled (alert_check interval gs test t) (λ c. c.time) checks.now (time + 1) slots.new.items) }
{
    'checks: for index in 0..checks.len() {
        fill_alert(alloc, run, test, index, checks, time, slots)?;
    }
    Ok(())
}

fn fill_expr<R: Ranges + Drop>(
    alloc: Global,
    run: &Run<R>,
    test: u64,
    index: usize,
    checks: &[ExprCheck],
    time: Ms,
    every: Span,
    slots: &mut Vec<Items<Failure>>,
) -> Result<(), AllocError>
    requires within { index < length checks.now }
    requires some { 0 < every }
    ensures { (gs : List Group) (t : PlainTest) (s : Settings) → StandsForWorld R.fits R.last R.passed run.now.head run.now.groups.items s (world_at every gs t time)
        → AreFilling (expr_check every gs test t) (λ c. c.time) (map plain_check checks.now) time index slots.old.items
        → OnOk result (AreFilling (expr_check every gs test t) (λ c. c.time) (map plain_check checks.now) time (index + 1) slots.new.items) }
{
    if checks[index].time != time || index >= slots.len() {
        return Ok(());
    }
    slots[index] = check_expr(alloc, run, test, index as u64 + 1, &checks[index], every)?;
    Ok(())
}

/// What is found at the checks of expressions of a time is put into their slots.
pub(crate) fn fill_exprs<R: Ranges + Drop>(
    alloc: Global,
    run: &Run<R>,
    test: u64,
    checks: &[ExprCheck],
    time: Ms,
    every: Span,
    slots: &mut Vec<Items<Failure>>,
) -> Result<(), AllocError>
    requires { 0 < every }
    ensures { (gs : List Group) (t : PlainTest) (s : Settings) → StandsForWorld R.fits R.last R.passed run.now.head run.now.groups.items s (world_at every gs t time)
        → AreFilled (expr_check every gs test t) (λ c. c.time) (map plain_check checks.now) time slots.old.items
        → OnOk result (AreFilled (expr_check every gs test t) (λ c. c.time) (map plain_check checks.now) (time + 1) slots.new.items) }
{
    'checks: for index in 0..checks.len() {
        fill_expr(alloc, run, test, index, checks, time, every, slots)?;
    }
    Ok(())
}
