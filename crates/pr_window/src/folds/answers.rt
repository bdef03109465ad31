// Answers from summaries.
ghost use Rattle.std.specs.Prelude.{◌≡◌, ◌<◌, ◌≤◌, ◌^◌, ◌<ℤ◌, IsTrue, true, pos};
ghost use Rattle.pr_num.specs.Arithmetic.{whole_of};
ghost use Rattle.spec_vectors.specs.Spots.{some_value};
ghost use Rattle.pr_window.specs.private.Answers.{from_neighbours, from_total, gain_from, is_gain, is_of_neighbours, is_of_total, IsSpread, of_two_at_least};
ghost use Rattle.pr_window.specs.private.Neighbours.{weight_of};

use crate::folds::gains::{delta, increase, rate};
use crate::folds::neighbours::Neighbours;
use pr_num::{Num, TooWide, Total};
use spec_vectors::{Ask, RangeFn};

/// A value that is there, or that it is too wide.
pub fn some_value(answer: Result<Num, TooWide>) -> Result<Option<Num>, TooWide>
    ensures { result ≡ some_value answer }
{
    match answer {
        Ok(value) => Ok(Some(value)),
        Err(fault) => Err(fault),
    }
}

// A count as a value.
fn whole(count: u64) -> Num
    requires { count < 2 ^ 63 }
    ensures { result ≡ whole_of (pos count) }
{
    Num::whole(count as i64)
}

/// Whether a function is one of the total.
pub fn is_of_total(func: RangeFn) -> bool
    ensures { result ≡ is_of_total func }
{
    match func {
        RangeFn::SumOverTime
        | RangeFn::AvgOverTime
        | RangeFn::CountOverTime
        | RangeFn::PresentOverTime => true,
        _ => false,
    }
}

/// Whether a function is one of what is kept of neighbours.
pub fn is_of_neighbours(func: RangeFn) -> bool
    ensures { result ≡ is_of_neighbours func }
{
    match func {
        RangeFn::LastOverTime
        | RangeFn::Changes
        | RangeFn::Resets
        | RangeFn::Rate
        | RangeFn::Increase
        | RangeFn::Delta => true,
        _ => false,
    }
}

/// The sum, the mean or the number of the values of a total, or that there are some.
pub fn from_total(func: RangeFn, total: &Total, count: u64) -> Result<Option<Num>, TooWide>
    requires func { is_of_total func ≡ true }
    requires count { count ≡ total.now.count }
    requires few { count < 2 ^ 63 }
    ensures { result ≡ from_total func total.now }
{
    match func {
        RangeFn::SumOverTime => some_value(total.value()),
        RangeFn::AvgOverTime => Ok(Some(total.mean())),
        RangeFn::CountOverTime => Ok(Some(whole(count))),
        RangeFn::PresentOverTime => Ok(Some(whole(1))),
        _ => unreachable!(),
    }
}

// A gain from what is kept of two values or more.
fn gain_from(func: RangeFn, ask: &Ask, kept: &Neighbours) -> Result<Num, TooWide>
    requires func { is_gain func ≡ true }
    requires two { 1 < kept.now.count }
    requires few { weight_of kept.now ≤ 2 ^ 20 }
    requires rising { kept.now.first.time < kept.now.last.time }
    requires long { ask.now.from <ℤ ask.now.to }
    ensures { result ≡ gain_from func ask.now.from ask.now.to kept.now }
{
    let steps = kept.count - 1;
    let lost = kept.lost.units();
    match func {
        RangeFn::Rate => rate(&kept.first, &kept.last, steps, lost, kept.special, ask),
        RangeFn::Increase => increase(&kept.first, &kept.last, steps, lost, kept.special, ask),
        RangeFn::Delta => delta(&kept.first, &kept.last, steps, kept.special, ask),
        _ => unreachable!(),
    }
}

// Whether the range has a length, and the last value comes after the first.
fn is_rising(ask: &Ask, kept: &Neighbours) -> bool
    ensures range { IsTrue result → ask.now.from <ℤ ask.now.to }
    ensures rising { IsTrue result → kept.now.first.time < kept.now.last.time }
    ensures all { ask.now.from <ℤ ask.now.to → kept.now.first.time < kept.now.last.time → result ≡ true }
{
    ask.from < ask.to && kept.first.time < kept.last.time
}

// The same, and nothing of one value.
fn of_two_at_least(func: RangeFn, ask: &Ask, kept: &Neighbours) -> Result<Option<Num>, TooWide>
    requires func { is_gain func ≡ true }
    requires few { weight_of kept.now ≤ 2 ^ 20 }
    ensures { IsSpread ask.now kept.now → result ≡ of_two_at_least kept.now (gain_from func ask.now.from ask.now.to kept.now) }
{
    if kept.count <= 1 {
        return Ok(None);
    }
    if !is_rising(ask, kept) {
        return Ok(None);
    }
    some_value(gain_from(func, ask, kept))
}

/// The last value, how many changes or falls there are, or a gain, from what is kept of the values of
/// a range, of which there are no more than 2^20.
///
/// The answer is pinned where the range has a length and the last of two values or more comes after
/// the first, as in a series.
pub fn from_neighbours(func: RangeFn, ask: &Ask, kept: &Neighbours) -> Result<Option<Num>, TooWide>
    requires func { is_of_neighbours func ≡ true }
    requires few { weight_of kept.now ≤ 2 ^ 20 }
    ensures { IsSpread ask.now kept.now → result ≡ from_neighbours func ask.now.from ask.now.to kept.now }
{
    match func {
        RangeFn::LastOverTime => Ok(Some(kept.last.value)),
        RangeFn::Changes => Ok(Some(whole(kept.changes))),
        RangeFn::Resets => Ok(Some(whole(kept.resets))),
        RangeFn::Rate => of_two_at_least(RangeFn::Rate, ask, kept),
        RangeFn::Increase => of_two_at_least(RangeFn::Increase, ask, kept),
        RangeFn::Delta => of_two_at_least(RangeFn::Delta, ask, kept),
        _ => unreachable!(),
    }
}
