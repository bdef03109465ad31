// What an active time is restored to. (Prometheus: rules/manager.go, RestoreForState.)
ghost use Rattle.std.specs.Prelude.{◌≡◌, ◌≤◌, ◌<◌, ◌+◌, Some, None};
ghost use Rattle.spec_rules.specs.spec_alerts.Restoring.{cut_to_seconds, moved_from, restored_time, written_time};
ghost use Rattle.pr_ast.specs.pr_num.declared.value.Point.TheVariants.{Value};
ghost use Rattle.pr_rule.specs.private.WrittenTimes.{taken};

use pr_ast::num::{Num, Point};
use pr_ast::time::{Ms, Span};

/// The time in which a restored alert does not come to fire, in milliseconds. (Prometheus: the flag
/// rules.alert.for-grace-period.)
const GRACE_PERIOD: u64 = 600_000;

// A number of seconds in units of 10^-9, cut to whole seconds, in milliseconds; none below zero or
// after a time.
fn cut(units: i128, down: u64) -> Option<u64>
    ensures { result ≡ taken down (cut_to_seconds units) }
{
    let size = units.unsigned_abs();
    if units < 0 {
        if size < 1_000_000_000 { Some(0) } else { None }
    } else {
        let ms = size / 1_000_000_000 * 1000;
        if ms <= down as u128 {
            Some(ms as u64)
        } else {
            None
        }
    }
}

// The time that a number says, unless it is none or after the sample.
fn number_time(value: &Num, down: u64) -> Option<u64>
    ensures { result ≡ taken down (written_time (Value value.now)) }
{
    match value {
        Num::Finite(n) => cut(n.units(), down),
        Num::NaN => None,
        Num::PosInf => None,
        Num::NegInf => None,
    }
}

// The time that a sample says.
fn point_time(point: &Point, down: u64) -> Option<u64>
    ensures { result ≡ taken down (written_time point.now) }
{
    match point {
        Point::Value(value) => number_time(value, down),
        Point::Stale => None,
    }
}

// The active time that follows from the one that was written.
fn move_from(hold: Span, down: Ms, now: Ms, old: u64) -> Option<Ms>
    requires written { old ≤ down }
    requires before { down ≤ now }
    requires grace { 600000 ≤ hold }
    ensures { result ≡ Some (moved_from hold down now old) }
{
    let hold = hold.get();
    let down = down.get();
    let now = now.get();
    if hold + old <= down {
        Ms::new(old)
    } else if hold + old < down + GRACE_PERIOD {
        Ms::new(now + GRACE_PERIOD - hold)
    } else {
        Ms::new(old + (now - down))
    }
}

/// The active time that follows from a sample, its point and its time.
pub(crate) fn restored(point: &Point, down: Ms, now: Ms, hold: Span) -> Option<Ms>
    requires before { down ≤ now }
    requires grace { 600000 ≤ hold }
    ensures { result ≡ restored_time hold point.now down now }
{
    match point_time(point, down.get()) {
        None => None,
        Some(old) => move_from(hold, down, now, old),
    }
}
