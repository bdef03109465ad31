// Lifting and combining.
ghost use Rattle.std.specs.Prelude.{◌≡◌, ◌≢◌, ◌<◌, ◌≤◌, ◌+◌, ◌^◌, cond};
ghost use Rattle.pr_num.specs.declared.value.Num.TheVariants.{NaN};
ghost use Rattle.pr_num.specs.Total.{joined, no_values};
ghost use Rattle.spec_vectors.specs.Histogram.{is_special};
ghost use Rattle.spec_vectors.specs.Ranges.{differ};
ghost use Rattle.spec_vectors.specs.Spots.{falls};
ghost use Rattle.pr_window.specs.private.Extremes.{greater, lesser, value_alone};
ghost use Rattle.pr_window.specs.private.Neighbours.{beside, loss, meeting, one_if, spot_alone, weight_of};
ghost use Rattle.pr_window.specs.private.Totals.{total_alone};

use crate::folds::neighbours::Neighbours;
use pr_num::{Num, Total};
use spec_vectors::history::Spot;
use std::cmp::Ordering;

/// The total of one value.
pub fn total_alone(spot: &Spot) -> Total
    ensures { result ≡ total_alone spot.now }
{
    Total::zero().plus(spot.value)
}

/// The total of two parts.
pub fn joined(a: &Total, b: &Total) -> Total
    requires { a.now.count + b.now.count < 2 ^ 64 }
    ensures { result ≡ joined a.now b.now }
{
    a.join(*b)
}

/// The total with one more value.
pub fn total_with(a: &Total, spot: &Spot) -> Total
    requires { a.now.count + 1 < 2 ^ 64 }
    ensures { result ≡ joined a.now (total_alone spot.now) }
{
    a.plus(spot.value)
}

/// The value alone.
pub fn value_alone(spot: &Spot) -> Num
    ensures { result ≡ value_alone spot.now }
{
    spot.value
}

/// The greater of two values, and the other one where one is NaN.
pub fn greater(a: &Num, b: &Num) -> Num
    ensures { result ≡ greater a.now b.now }
{
    match a.order(*b) {
        Ordering::Less => *b,
        Ordering::Equal | Ordering::Greater => *a,
    }
}

// The first value where it is below a second one that is not NaN, and the second one else.
#[tactic(auto, unfolding(pr_num::specs::Order::order_of))]
fn first_unless_nan(first: &Num, second: &Num) -> Num
    requires { second.now ≢ NaN }
    ensures { result ≡ lesser second.now first.now }
{
    match first {
        Num::NaN => *second,
        Num::Finite(_) | Num::PosInf | Num::NegInf => match first.order(*second) {
            Ordering::Less => *first,
            Ordering::Equal | Ordering::Greater => *second,
        },
    }
}

/// The lesser of two values, and the other one where one is NaN.
#[tactic(auto, unfolding(pr_num::specs::Order::order_of))]
pub fn lesser(a: &Num, b: &Num) -> Num
    ensures { result ≡ lesser a.now b.now }
{
    match a {
        Num::NaN => *b,
        Num::Finite(_) | Num::PosInf | Num::NegInf => first_unless_nan(b, a),
    }
}

/// Whether a value is no finite number.
pub fn is_special(value: &Num) -> bool
    ensures { result ≡ is_special value.now }
{
    match value {
        Num::Finite(_) => false,
        _ => true,
    }
}

/// What is kept of one value.
pub fn spot_alone(spot: &Spot) -> Neighbours
    ensures { result ≡ spot_alone spot.now }
{
    Neighbours {
        first: *spot,
        last: *spot,
        count: 1,
        lost: Total::zero(),
        resets: 0,
        changes: 0,
        special: is_special(&spot.value),
    }
}

/// Whether the second of two values is below the first.
pub fn falls(before: &Num, value: &Num) -> bool
    ensures { result ≡ falls (before.now, value.now) }
{
    match before.compare(*value) {
        Some(Ordering::Greater) => true,
        _ => false,
    }
}

/// Whether two values differ, where NaN is NaN.
pub fn differ(before: &Num, value: &Num) -> bool
    ensures { result ≡ differ (before.now, value.now) }
{
    before != value
}

// What is lost at a fall.
fn loss(fell: bool, before: &Num) -> Total
    ensures value { result ≡ loss fell before.now }
    ensures few { result.count ≤ 1 }
{
    if fell {
        Total::zero().plus(*before)
    } else {
        Total::zero()
    }
}

/// One where a test holds, else none.
pub fn one_if(test: bool) -> u64
    ensures value { result ≡ one_if test }
    ensures few { result ≤ 1 }
{
    if test { 1 } else { 0 }
}

/// What is kept of two parts, one after the other.
pub fn beside(a: &Neighbours, b: &Neighbours) -> Neighbours
    requires { weight_of a.now + weight_of b.now < 2 ^ 64 }
    ensures { result ≡ beside a.now b.now }
{
    let fell = falls(&a.last.value, &b.first.value);
    let changed = differ(&a.last.value, &b.first.value);
    Neighbours {
        first: a.first,
        last: b.last,
        count: a.count + b.count,
        lost: a.lost.join(loss(fell, &a.last.value).join(b.lost)),
        resets: a.resets + one_if(fell) + b.resets,
        changes: a.changes + one_if(changed) + b.changes,
        special: a.special || b.special,
    }
}

// What is lost with one more value behind, which is a fall or not.
fn lost_with(lost: &Total, fell: bool, before: &Num) -> Total
    requires { lost.now.count + 1 < 2 ^ 64 }
    ensures { result ≡ joined lost.now (joined (loss fell before.now) no_values) }
{
    if fell { lost.plus(*before) } else { *lost }
}

/// What is kept of a part with one more value behind it. Only what the value changes is worked out.
pub fn beside_spot(a: &Neighbours, spot: &Spot) -> Neighbours
    requires { weight_of a.now + 1 < 2 ^ 64 }
    ensures { result ≡ beside a.now (spot_alone spot.now) }
{
    let fell = falls(&a.last.value, &spot.value);
    let changed = differ(&a.last.value, &spot.value);
    Neighbours {
        first: a.first,
        last: *spot,
        count: a.count + 1,
        lost: lost_with(&a.lost, fell, &a.last.value),
        resets: a.resets + one_if(fell),
        changes: a.changes + one_if(changed),
        special: a.special || is_special(&spot.value),
    }
}
