// When the checks of a test are made.
ghost use Rattle.std.specs.Prelude.{◌≡◌, ◌++◌, IfOk, OnOk, map};
ghost use Rattle.pr_unit.specs.private.Times.{earlier_of, next_time};

use pr_ast::time::Ms;
use spec_tests::testfile::{AlertCheck, ExprCheck, Test};
use std::alloc::{AllocError, Global};

fn push_alert_times(checks: &[AlertCheck], times: &mut Vec<Ms>) -> Result<(), AllocError>
    ensures { OnOk result (times.new.items ≡ times.old.items ++ map (λ c. c.time) checks.now) }
{
    let mut rest = checks;
    'checks: while let Some((check, after)) = rest.split_first() {
        times.push(check.time)?;
        rest = after;
    }
    Ok(())
}

fn push_expr_times(checks: &[ExprCheck], times: &mut Vec<Ms>) -> Result<(), AllocError>
    ensures { OnOk result (times.new.items ≡ times.old.items ++ map (λ c. c.time) checks.now) }
{
    let mut rest = checks;
    'checks: while let Some((check, after)) = rest.split_first() {
        times.push(check.time)?;
        rest = after;
    }
    Ok(())
}

/// The times of all checks: first those of alerts, then those of expressions.
pub(crate) fn times_of(alloc: Global, test: &Test) -> Result<Vec<Ms>, AllocError>
    ensures { IfOk result (λ v. v.items ≡ map (λ c. c.time) test.now.alerts ++ map (λ c. c.time) test.now.exprs) }
{
    let mut times = Vec::new(alloc);
    push_alert_times(test.alerts.as_slice(), &mut times)?;
    push_expr_times(test.exprs.as_slice(), &mut times)?;
    Ok(times)
}

// The earlier of a time and another that may be there, where the time is not before `from`.
fn earlier(next: Option<Ms>, time: Ms, from: u64) -> Option<Ms>
    ensures { result ≡ earlier_of from next time }
{
    if time.get() < from {
        return next;
    }
    match next {
        Some(other) if other <= time => next,
        Some(_) | None => Some(time),
    }
}

/// The first of the times that is not before `from`.
pub(crate) fn next_time(times: &[Ms], from: u64) -> Option<Ms>
    ensures { result ≡ next_time from times.now }
{
    let mut next = None;
    for time in times {
        next = earlier(next, *time, from);
    }
    next
}
