// What a counter or a gauge gains in a range.
ghost use Rattle.std.specs.Prelude.{◌&&◌, not, int_lt, ◌≡◌, ◌+◌, ◌-◌, ◌*◌, ◌^◌, ◌<◌, ◌≤◌, pos, ◌+ℤ◌, ◌*ℤ◌, ◌<ℤ◌, unsigned_abs};
ghost use Rattle.std.specs.Option.{SomeIff};
ghost use Rattle.pr_num.specs.Half.{half};
ghost use Rattle.pr_num.specs.Units.{IsNano};
ghost use Rattle.spec_vectors.specs.Extrapolation.{ms_between, reach};
ghost use Rattle.spec_vectors.specs.Spots.{units_in};
ghost use Rattle.pr_window.specs.private.Gains.{counter_gain_between, covered_between, delta_between, difference_between, gauge_gain_between, increase_between, rate_between};
ghost use Rattle.pr_window.specs.private.Stretches.{IsPartOf, IsStretch};

use pr_num::{Num, TooWide, compare_products, half_product, muldiv_units};
use spec_vectors::Ask;
use spec_vectors::history::Spot;
use std::cmp::Ordering;

/// The units of a finite value, and zero of another one.
pub fn units_of(value: &Num) -> i128
    ensures value { result ≡ units_in value.now }
    ensures small { IsNano result }
{
    match value {
        Num::Finite(finite) => finite.units(),
        _ => 0,
    }
}

fn difference(first: &Spot, last: &Spot) -> i128
    ensures value { result ≡ difference_between first.now last.now }
    ensures small { unsigned_abs result ≤ 2 * 10 ^ 29 }
{
    units_of(&last.value) - units_of(&first.value)
}

// How many milliseconds lie between the start of the range and the first value, and between the
// last one and the end.
fn ms_before(ask: &Ask, first: &Spot) -> u128
    ensures value { result ≡ ms_between ask.now.from (pos first.now.time) }
    ensures small { result < 2 ^ 65 }
{
    let from = ask.from;
    (first.time.get() as i128 - from as i128).unsigned_abs()
}

fn ms_after(ask: &Ask, last: &Spot) -> u128
    ensures value { result ≡ ms_between (pos last.now.time) ask.now.to }
    ensures small { result < 2 ^ 65 }
{
    let to = ask.to;
    (to as i128 - last.time.get() as i128).unsigned_abs()
}

// How far values are taken to go on, in parts of which there are two a step.
fn reach(distance: u128, covered: u64, steps: u64) -> u64
    requires steps { steps < 2 ^ 20 }
    requires covered { covered < 2 ^ 42 }
    requires distance { distance < 2 ^ 65 }
    ensures part { IsPartOf (2 * steps) (reach distance covered steps) result }
    ensures small { 5 * result ≤ 11 * covered }
{
    let steps = steps as u128;
    if 11 * covered as u128 <= 10 * steps * distance {
        covered
    } else {
        (distance * (2 * steps)) as u64
    }
}

/// The time from the first value to the last and how far they are taken to go on before and after,
/// in parts of which there are two for each step from one value to the next.
#[derive(Drop)]
pub(crate) struct Stretch {
    covered: u64,
    before: u64,
    after: u64,
}

fn covered(first: &Spot, last: &Spot) -> u64
    requires { first.now.time < last.now.time }
    ensures value { result ≡ covered_between first.now last.now }
    ensures some { 0 < result }
    ensures small { result < 2 ^ 42 }
{
    last.time.get() - first.time.get()
}

fn stretch_of(first: &Spot, last: &Spot, steps: u64, ask: &Ask) -> Stretch
    requires some { 0 < steps }
    requires few { steps < 2 ^ 20 }
    requires rising { first.now.time < last.now.time }
    ensures { IsStretch ask.now.from ask.now.to first.now last.now steps result }
{
    let covered = covered(first, last);
    Stretch {
        covered: covered * (2 * steps),
        before: reach(ms_before(ask, first), covered, steps),
        after: reach(ms_after(ask, last), covered, steps),
    }
}

// A gain times a fraction, rounded; nothing from 2^127 on.
fn scaled(gain: i128, times: u64, over: u64) -> Option<i128>
    requires { 0 < over }
    ensures { SomeIff result (unsigned_abs (half (gain *ℤ pos times) (pos over)) < 2 ^ 127) (half (gain *ℤ pos times) (pos over)) }
{
    half_product(gain, times as i128, over as u128)
}

// A gain, taken to go on as evenly for more parts.
#[tactic(auto, using(crate::proofs::Fractions::extended_small))]
fn extended(gain: i128, covered: u64, longer: u64) -> i128
    requires gain { unsigned_abs gain < 2 ^ 118 }
    requires some { 0 < covered }
    requires small { covered < 2 ^ 63 }
    requires longer { (longer < 2 ^ 50) × (longer ≤ 4 * covered) }
    ensures value { result ≡ half (gain *ℤ pos (covered + longer)) (pos covered) }
    ensures small { unsigned_abs result < 2 ^ 122 }
{
    match scaled(gain, covered + longer, covered) {
        Some(units) => units,
        None => unreachable!(),
    }
}

// Whether a gain began at zero after the start of the range.
fn begins_at_zero(gain: i128, value: i128, covered: u64, before: u64) -> bool
    ensures { result ≡ (int_lt (pos 0) gain && not (int_lt value (pos 0)) && int_lt (value *ℤ pos covered) (gain *ℤ pos before)) }
{
    gain > 0 && value >= 0 && compare_products(value, covered, gain, before) == Ordering::Less
}

// The gain of a gauge in the range.
fn gauge_gain(first: &Spot, last: &Spot, steps: u64, ask: &Ask) -> i128
    requires some { 0 < steps }
    requires few { steps < 2 ^ 20 }
    requires rising { first.now.time < last.now.time }
    ensures value { result ≡ gauge_gain_between ask.now.from ask.now.to first.now last.now steps }
{
    let stretch = stretch_of(first, last, steps, ask);
    let longer = stretch.before + stretch.after;
    extended(difference(first, last), stretch.covered, longer)
}

// The gain of a counter in the range that gained so many units from the first value to the last.
fn counter_gain(first: &Spot, last: &Spot, steps: u64, gain: i128, ask: &Ask) -> i128
    requires some { 0 < steps }
    requires few { steps < 2 ^ 20 }
    requires rising { first.now.time < last.now.time }
    requires gain { unsigned_abs gain < 2 ^ 118 }
    ensures value { result ≡ counter_gain_between ask.now.from ask.now.to first.now last.now steps gain }
    ensures small { unsigned_abs result < 2 ^ 123 }
{
    let stretch = stretch_of(first, last, steps, ask);
    let value = units_of(&first.value);
    if begins_at_zero(gain, value, stretch.covered, stretch.before) {
        extended(gain, stretch.covered, stretch.after) + value
    } else {
        let longer = stretch.before + stretch.after;
        extended(gain, stretch.covered, longer)
    }
}

// What was gained from the first value to the last.
fn gained(first: &Spot, last: &Spot, lost: i128) -> i128
    requires { unsigned_abs lost ≤ 2 ^ 20 * (10 ^ 29 - 1) }
    ensures value { result ≡ difference_between first.now last.now +ℤ lost }
    ensures small { unsigned_abs result < 2 ^ 118 }
{
    difference(first, last) + lost
}

/// What a gauge gains in the range.
pub(crate) fn delta(
    first: &Spot,
    last: &Spot,
    steps: u64,
    special: bool,
    ask: &Ask,
) -> Result<Num, TooWide>
    requires some { 0 < steps }
    requires few { steps < 2 ^ 20 }
    requires rising { first.now.time < last.now.time }
    ensures { result ≡ delta_between ask.now.from ask.now.to first.now last.now steps special }
{
    if special {
        return Ok(Num::NaN);
    }
    Num::of_units(gauge_gain(first, last, steps, ask))
}

/// What a counter gains in the range.
pub(crate) fn increase(
    first: &Spot,
    last: &Spot,
    steps: u64,
    lost: i128,
    special: bool,
    ask: &Ask,
) -> Result<Num, TooWide>
    requires some { 0 < steps }
    requires few { steps < 2 ^ 20 }
    requires rising { first.now.time < last.now.time }
    requires lost { unsigned_abs lost ≤ 2 ^ 20 * (10 ^ 29 - 1) }
    ensures { result ≡ increase_between ask.now.from ask.now.to first.now last.now steps lost special }
{
    if special {
        return Ok(Num::NaN);
    }
    Num::of_units(counter_gain(first, last, steps, gained(first, last, lost), ask))
}

// How long the range is.
fn ms_of(ask: &Ask) -> u64
    requires { ask.now.from <ℤ ask.now.to }
    ensures value { result ≡ ms_between ask.now.from ask.now.to }
    ensures some { 0 < result }
{
    let from = ask.from;
    let to = ask.to;
    (to as i128 - from as i128) as u64
}

/// What a counter gains in the range, in a second.
pub(crate) fn rate(
    first: &Spot,
    last: &Spot,
    steps: u64,
    lost: i128,
    special: bool,
    ask: &Ask,
) -> Result<Num, TooWide>
    requires some { 0 < steps }
    requires few { steps < 2 ^ 20 }
    requires rising { first.now.time < last.now.time }
    requires lost { unsigned_abs lost ≤ 2 ^ 20 * (10 ^ 29 - 1) }
    requires long { ask.now.from <ℤ ask.now.to }
    ensures { result ≡ rate_between ask.now.from ask.now.to first.now last.now steps lost special }
{
    if special {
        return Ok(Num::NaN);
    }
    muldiv_units(
        counter_gain(first, last, steps, gained(first, last, lost), ask),
        1000,
        ms_of(ask),
    )
}
