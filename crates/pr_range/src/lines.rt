// The straight line through the values of a range, by least squares.
ghost use Rattle.std.specs.Prelude.{◌≡◌, ◌≢◌, ◌+◌, ◌-◌, ◌*◌, ◌^◌, ◌<◌, ◌≤◌, ◌∷◌, true, false, ℤ, pos, ◌+ℤ◌, ◌-ℤ◌, ◌*ℤ◌, IfSome, IfNone, length, unsigned_abs};
ghost use Rattle.std.specs.List.{list_any};
ghost use Rattle.spec_vectors.specs.pr_num.Arithmetic.{fitted};
ghost use Rattle.spec_vectors.specs.pr_num.Half.{half};
ghost use Rattle.spec_vectors.specs.Regression.{count, deriv_of, is_slope_wide, line_after, line_at, line_in, ms_ahead, predicted, slope_bottom, slope_of, slope_top, sum_abs_xy, sum_abs_y, sum_x, sum_xx, sum_xy, sum_y, time_from, times_ahead, units_from};
ghost use Rattle.spec_vectors.specs.Histogram.{is_special};
ghost use Rattle.spec_vectors.specs.Spots.{has_special, last_of, numbers_of, units_in};
ghost use Rattle.pr_range.specs.private.Parted.{IsParted};

use pr_head::history::Spot;
use pr_window::folds::{is_special, units_of};
use spec_vectors::Ask;
use spec_vectors::num::{Num, TooWide, half, half_product};

fn is_any_special(spots: &[Spot]) -> bool
    ensures { result ≡ list_any (λ s. is_special s.value) spots.now }
{
    spots.iter().any(|s| is_special(&s.value))
}

// Whether one of the values is not finite.
#[tactic(auto, using(crate::proofs::Specials::any_special))]
fn has_special(first: &Spot, rest: &[Spot]) -> bool
    ensures { result ≡ has_special (numbers_of (first.now ∷ rest.now)) }
{
    is_special(&first.value) || is_any_special(rest)
}

// How long after the first value another one stands, in milliseconds.
fn time_from(first: &Spot, spot: &Spot) -> u64
    ensures value { result ≡ time_from first.now spot.now }
    ensures small { result < 2 ^ 42 }
{
    spot.time.get().saturating_sub(first.time.get())
}

// How far above the first value another one is, in units.
fn units_from(first: &Spot, spot: &Spot) -> i128
    ensures value { result ≡ units_from first.now spot.now }
    ensures small { unsigned_abs result ≤ 2 * 10 ^ 29 }
{
    units_of(&spot.value) - units_of(&first.value)
}

fn square(time: u64) -> u128
    requires { time < 2 ^ 42 }
    ensures value { result ≡ time * time }
    ensures small { result ≤ 2 ^ 84 }
{
    time as u128 * time as u128
}

// The sum of the times from the first value on.
#[tactic(auto, using(crate::proofs::Sums::sum_x_more, crate::proofs::Sums::sum_x_none))]
fn sum_x(first: &Spot, rest: &[Spot]) -> u128
    requires { length rest.now < 2 ^ 20 }
    ensures value { result ≡ sum_x first.now rest.now }
    ensures small { result < 2 ^ 62 }
{
    let mut sum = 0;
    for spot in rest {
        sum += time_from(first, spot) as u128;
    }
    sum
}

// The sum of their squares.
#[tactic(auto, using(crate::proofs::Sums::sum_xx_more, crate::proofs::Sums::sum_xx_none))]
fn sum_xx(first: &Spot, rest: &[Spot]) -> u128
    requires { length rest.now < 2 ^ 20 }
    ensures value { result ≡ sum_xx first.now rest.now }
    ensures small { result < 2 ^ 104 }
{
    let mut sum = 0;
    for spot in rest {
        sum += square(time_from(first, spot));
    }
    sum
}

/// A sum as the magnitudes of its parts above zero and below it.
#[derive(Drop)]
pub(crate) struct Parted {
    up: u128,
    down: u128,
}

// A sum with one part more.
fn with_part(sum: Parted, part: i128, magnitude: u128) -> Parted
    requires is { unsigned_abs part ≡ magnitude }
    requires small { sum.up + sum.down + magnitude < 2 ^ 128 }
    ensures size { result.up + result.down ≡ sum.up + sum.down + magnitude }
    ensures value { (z : ℤ) → IsParted z sum → IsParted (z +ℤ part) result }
{
    let Parted { up, down } = sum;
    if part < 0 {
        Parted {
            up,
            down: down + magnitude,
        }
    } else {
        Parted {
            up: up + magnitude,
            down,
        }
    }
}

// The number that a sum is kept of.
fn difference_of(sum: Parted) -> i128
    requires { sum.up + sum.down < 2 ^ 120 }
    ensures value { (z : ℤ) → IsParted z sum → result ≡ z }
    ensures small { unsigned_abs result ≤ sum.up + sum.down }
{
    let Parted { up, down } = sum;
    up as i128 - down as i128
}

// The sum of the differences from the first value.
fn sum_y(first: &Spot, rest: &[Spot]) -> Parted
    requires { length rest.now < 2 ^ 20 }
    ensures value { IsParted (sum_y first.now rest.now) result }
    ensures size { result.up + result.down ≡ sum_abs_y first.now rest.now }
    ensures small { result.up + result.down < 2 ^ 119 }
{
    let mut sum = Parted { up: 0, down: 0 };
    for spot in rest {
        let units = units_from(first, spot);
        sum = with_part(sum, units, units.unsigned_abs());
    }
    sum
}

// A sum with the product of a time and a difference more; nothing where the magnitudes pass 128
// bits.
fn with_product(sum: Parted, time: u64, units: i128) -> Option<Parted>
    requires units { unsigned_abs units ≤ 2 * 10 ^ 29 }
    requires small { sum.up + sum.down < 2 ^ 128 }
    ensures size { IfSome result (λ p. p.up + p.down ≡ sum.up + sum.down + time * unsigned_abs units) }
    ensures small { IfSome result (λ p. p.up + p.down < 2 ^ 128) }
    ensures value { IfSome result (λ p. (z : ℤ) → IsParted z sum → IsParted (z +ℤ pos time *ℤ units) p) }
    ensures none { IfNone result (2 ^ 128 ≤ sum.up + sum.down + time * unsigned_abs units) }
{
    let Parted { up, down } = sum;
    let magnitude = units.unsigned_abs().checked_mul(time as u128)?;
    (up + down).checked_add(magnitude)?;
    Some(if units < 0 {
        Parted {
            up,
            down: down + magnitude,
        }
    } else {
        Parted {
            up: up + magnitude,
            down,
        }
    })
}

// The sum of the products of times and differences; nothing where the magnitudes pass 128 bits.
fn sum_xy(first: &Spot, rest: &[Spot]) -> Option<Parted>
    ensures value { IfSome result (λ p. IsParted (sum_xy first.now rest.now) p) }
    ensures size { IfSome result (λ p. p.up + p.down ≡ sum_abs_xy first.now rest.now) }
    ensures small { IfSome result (λ p. p.up + p.down < 2 ^ 128) }
    ensures none { IfNone result (2 ^ 128 ≤ sum_abs_xy first.now rest.now) }
{
    let mut sum = Parted { up: 0, down: 0 };
    for spot in rest {
        sum = with_product(sum, time_from(first, spot), units_from(first, spot))?;
    }
    Some(sum)
}

// Above and below zero, a count times a sum of products less a sum of times times a sum of
// differences; nothing where the magnitudes are 10^35 together.
fn parts_of_top(count: u64, x: u128, xy: &Parted, y: &Parted) -> Option<Parted>
    requires count { count < 2 ^ 21 }
    requires x { x < 2 ^ 62 }
    requires xy { xy.now.up + xy.now.down < 2 ^ 128 }
    requires y { y.now.up + y.now.down < 2 ^ 119 }
    ensures up { IfSome result (λ p. p.up ≡ count * xy.now.up + x * y.now.down) }
    ensures down { IfSome result (λ p. p.down ≡ count * xy.now.down + x * y.now.up) }
    ensures small { IfSome result (λ p. p.up + p.down < 10 ^ 35) }
    ensures none { IfNone result (10 ^ 35 ≤ count * xy.now.up + x * y.now.down + (count * xy.now.down + x * y.now.up)) }
{
    let count = count as u128;
    let up = count
        .checked_mul(xy.up)?
        .checked_add(x.checked_mul(y.down)?)?;
    let down = count
        .checked_mul(xy.down)?
        .checked_add(x.checked_mul(y.up)?)?;
    let all = up.checked_add(down)?;
    if all < 100_000_000_000_000_000_000_000_000_000_000_000 {
        Some(Parted { up, down })
    } else {
        None
    }
}

// How many values there are.
fn count(rest: &[Spot]) -> u64
    requires { length rest.now < 2 ^ 20 }
    ensures value { result ≡ count rest.now }
    ensures small { result < 2 ^ 21 }
{
    rest.len() as u64 + 1
}

// What the slope in a second is over `bottom`; nothing where it is refused.
fn top(first: &Spot, rest: &[Spot]) -> Option<i128>
    requires { length rest.now < 2 ^ 20 }
    ensures narrow { IfSome result (λ t. is_slope_wide first.now rest.now ≡ false) }
    ensures value { IfSome result (λ t. t ≡ pos 1000 *ℤ slope_top first.now rest.now) }
    ensures small { IfSome result (λ t. unsigned_abs t < 2 ^ 127) }
    ensures none { IfNone result (is_slope_wide first.now rest.now ≡ true) }
{
    let xy = sum_xy(first, rest)?;
    let y = sum_y(first, rest);
    match parts_of_top(count(rest), sum_x(first, rest), &xy, &y) {
        Some(parts) => Some(1000 * difference_of(parts)),
        None => None,
    }
}

// A count times a sum of squares less a square.
fn bottom(first: &Spot, rest: &[Spot]) -> u128
    requires few { length rest.now < 2 ^ 20 }
    requires rising { first.now.time < (last_of first.now rest.now).time }
    ensures value { pos result ≡ slope_bottom first.now rest.now }
    ensures some { 0 < result }
{
    let times = sum_x(first, rest);
    count(rest) as u128 * sum_xx(first, rest) - times * times
}

// The slope in a second.
fn slope(first: &Spot, rest: &[Spot]) -> Result<Num, TooWide>
    requires few { length rest.now < 2 ^ 20 }
    requires rising { first.now.time < (last_of first.now rest.now).time }
    ensures { result ≡ slope_of first.now rest.now }
{
    match top(first, rest) {
        Some(top) => Num::of_units(half(top, bottom(first, rest))),
        None => Err(TooWide),
    }
}

/// The slope of the values in a second.
#[tactic(auto, unfolding(spec_vectors::specs::Regression::deriv_of))]
pub(crate) fn deriv(first: &Spot, rest: &[Spot]) -> Result<Num, TooWide>
    requires few { length rest.now < 2 ^ 20 }
    requires rising { first.now.time < (last_of first.now rest.now).time }
    ensures { result ≡ deriv_of first.now rest.now }
{
    if has_special(first, rest) {
        return Ok(Num::NaN);
    }
    slope(first, rest)
}

// The sum of two numbers of units.
#[tactic(auto, using(crate::proofs::Slopes::sum_wide))]
fn units_sum(base: i128, rise: i128) -> Result<Num, TooWide>
    ensures { result ≡ fitted (base +ℤ rise) }
{
    match base.checked_add(rise) {
        Some(sum) => Num::of_units(sum),
        None => Err(TooWide),
    }
}

// A number of units and a rounded product over a whole number.
#[tactic(auto, using(crate::proofs::Slopes::rise_wide))]
fn with_rise(base: i128, slope: i128, times: i128, over: u64) -> Result<Num, TooWide>
    requires base { unsigned_abs base < 2 ^ 120 }
    requires over { 0 < over }
    ensures { result ≡ fitted (base +ℤ half (slope *ℤ times) (pos over)) }
{
    match half_product(slope, times, over as u128) {
        Some(rise) => units_sum(base, rise),
        None => Err(TooWide),
    }
}

// The mean of the differences from the first value, on top of it.
fn mean(first: &Spot, rest: &[Spot]) -> i128
    requires { length rest.now < 2 ^ 20 }
    ensures value { result ≡ units_in first.now.value +ℤ half (sum_y first.now rest.now) (pos (count rest.now)) }
    ensures small { unsigned_abs result < 2 ^ 120 }
{
    let all = difference_of(sum_y(first, rest));
    units_of(&first.value) + half(all, count(rest) as u128)
}

// How far a moment is from the first value.
fn ms_from(ahead: i128, first: &Spot, ask: &Ask) -> i128
    requires { unsigned_abs ahead ≤ 2 ^ 40 }
    ensures value { result ≡ (ask.now.to -ℤ pos first.now.time) +ℤ ahead }
    ensures small { unsigned_abs result ≤ 2 ^ 65 }
{
    let to = ask.to;
    to as i128 - first.time.get() as i128 + ahead
}

fn times(ms: i128, count: u64) -> i128
    requires ms { unsigned_abs ms ≤ 2 ^ 65 }
    requires count { count < 2 ^ 21 }
    ensures value { result ≡ ms *ℤ pos count }
    ensures small { unsigned_abs result ≤ 2 ^ 65 * count }
{
    ms * count as i128
}

// How far a moment is from the mean of the times, as often as there are values.
fn times_ahead(ahead: i128, first: &Spot, rest: &[Spot], ask: &Ask) -> i128
    requires few { length rest.now < 2 ^ 20 }
    requires ahead { unsigned_abs ahead ≤ 2 ^ 40 }
    ensures { result ≡ times_ahead ahead ask.now.to first.now rest.now }
{
    times(ms_from(ahead, first, ask), count(rest)) - sum_x(first, rest) as i128
}

// Where the line with a slope is so many milliseconds after the end of the range.
fn line_at(ahead: i128, first: &Spot, rest: &[Spot], ask: &Ask, slope: &Num) -> Result<Num, TooWide>
    requires few { length rest.now < 2 ^ 20 }
    requires ahead { unsigned_abs ahead ≤ 2 ^ 40 }
    ensures { result ≡ line_at ahead ask.now.to first.now rest.now slope.now }
{
    let times = times_ahead(ahead, first, rest, ask);
    with_rise(
        mean(first, rest),
        units_of(slope),
        times,
        1000 * count(rest),
    )
}

fn line_after(ahead: i128, first: &Spot, rest: &[Spot], ask: &Ask) -> Result<Num, TooWide>
    requires few { length rest.now < 2 ^ 20 }
    requires rising { first.now.time < (last_of first.now rest.now).time }
    ensures { result ≡ line_after ahead ask.now.to first.now rest.now }
{
    if ahead.unsigned_abs() > 1 << 40 {
        return Err(TooWide);
    }
    match slope(first, rest) {
        Ok(slope) => line_at(ahead, first, rest, ask, &slope),
        Err(fault) => Err(fault),
    }
}

// Seconds as whole milliseconds, rounded.
fn ms_ahead(seconds: i128) -> i128
    requires { unsigned_abs seconds < 2 ^ 127 }
    ensures { result ≡ ms_ahead seconds }
{
    half(seconds, 1_000_000)
}

/// Where the straight line is so many seconds after the end of the range.
#[tactic(auto, unfolding(spec_vectors::specs::Regression::predicted))]
pub(crate) fn predicted(
    seconds: &Num,
    first: &Spot,
    rest: &[Spot],
    ask: &Ask,
) -> Result<Num, TooWide>
    requires few { length rest.now < 2 ^ 20 }
    requires rising { first.now.time < (last_of first.now rest.now).time }
    ensures { result ≡ predicted seconds.now ask.now.to first.now rest.now }
{
    if has_special(first, rest) {
        return Ok(Num::NaN);
    }
    match seconds {
        Num::Finite(seconds) => line_after(ms_ahead(seconds.units()), first, rest, ask),
        _ => Ok(Num::NaN),
    }
}
