// Functions of the values of a range.
ghost use Rattle.std.specs.Prelude.{◌≡◌, ◌≢◌, ◌<◌, ◌≤◌, ◌^◌, ◌∷◌, true, Err, IsTrue, IfOk, length};
ghost use Rattle.spec_vectors.specs.declared.range.RangeFn.TheVariants.{Changes, Delta, Increase, MaxOverTime, MinOverTime, QuantileOverTime, Rate, Resets};
ghost use Rattle.spec_vectors.specs.Extrapolation.{last_two};
ghost use Rattle.spec_vectors.specs.Ranges.{argument, function_of, over, over_some, with_fault};
ghost use Rattle.spec_vectors.specs.Spots.{last_of, of_two};
ghost use Rattle.pr_window.specs.private.Answers.{is_of_neighbours, is_of_total};
ghost use Rattle.pr_range.specs.declared.fault.RangeFault.TheVariants.{Memory};
ghost use Rattle.pr_range.specs.private.Answers.{AnswersAsk};
ghost use Rattle.pr_range.specs.private.Asks.{HasArgument};
ghost use Rattle.pr_range.specs.private.Formulas.{formula_of, is_formula, is_of_items};
ghost use Rattle.pr_range.specs.private.Spots.{AreWithin};

use crate::fault::RangeFault;
use crate::finishes::{LONGEST, answer_from_extreme, answer_from_neighbours, answer_from_total};
use crate::lines::{deriv, predicted};
use crate::steps::{idelta, irate, last_two};
use crate::values::{last_of, quantile};
use pr_head::history::Spot;
use pr_window::fold_by_next;
use pr_window::folds::{
    Greatest, Least, Neighbours, Sequence, Totals, beside_spot, greater, lesser, some_value,
    spot_alone, total_alone, total_with, value_alone,
};
use spec_vectors::num::{Num, TooWide, Total};
use spec_vectors::{Ask, RangeFn};
use std::alloc::Global;

// A function of the total of the values.
fn over_total(spots: &[Spot], ask: &Ask) -> Result<Option<Num>, RangeFault>
    requires { is_of_total ask.now.func ≡ true }
    ensures answer { AnswersAsk (over ask.now spots.now) result }
    ensures memory { result ≢ Err Memory }
{
    let total = fold_by_next::<Spot, Total, Totals, _, _>(
        spots,
        &|spot: &Spot| total_alone(spot),
        &|a: &Total, spot: &Spot| total_with(a, spot),
    );
    answer_from_total(ask, spots.len(), total)
}

// The greatest of the values.
fn over_greatest(spots: &[Spot], ask: &Ask) -> Result<Option<Num>, RangeFault>
    requires { ask.now.func ≡ MaxOverTime }
    ensures answer { AnswersAsk (over ask.now spots.now) result }
    ensures memory { result ≢ Err Memory }
{
    let value = fold_by_next::<Spot, Num, Greatest, _, _>(
        spots,
        &|spot: &Spot| value_alone(spot),
        &|a: &Num, spot: &Spot| greater(a, &spot.value),
    );
    answer_from_extreme(spots.len(), value)
}

// The least of the values.
fn over_least(spots: &[Spot], ask: &Ask) -> Result<Option<Num>, RangeFault>
    requires { ask.now.func ≡ MinOverTime }
    ensures answer { AnswersAsk (over ask.now spots.now) result }
    ensures memory { result ≢ Err Memory }
{
    let value = fold_by_next::<Spot, Num, Least, _, _>(
        spots,
        &|spot: &Spot| value_alone(spot),
        &|a: &Num, spot: &Spot| lesser(a, &spot.value),
    );
    answer_from_extreme(spots.len(), value)
}

// A function of the values one after another.
fn over_neighbours(spots: &[Spot], ask: &Ask) -> Result<Option<Num>, RangeFault>
    requires { is_of_neighbours ask.now.func ≡ true }
    ensures answer { AreWithin ask.now.from ask.now.to spots.now → AnswersAsk (over ask.now spots.now) result }
    ensures memory { result ≢ Err Memory }
{
    let kept = fold_by_next::<Spot, Neighbours, Sequence, _, _>(
        spots,
        &|spot: &Spot| spot_alone(spot),
        &|a: &Neighbours, spot: &Spot| beside_spot(a, spot),
    );
    answer_from_neighbours(ask, spots.len(), kept)
}

// The argument of a function that takes one.
fn argument(ask: &Ask) -> Num
    ensures { result ≡ argument ask.now }
{
    match &ask.arg {
        Some(value) => *value,
        None => Num::NaN,
    }
}

// Whether the last value comes after the first and after the one before it, as two values of a
// series or more do.
fn is_rising(first: &Spot, rest: &[Spot]) -> bool
    ensures rising { IsTrue result → first.now.time < (last_of first.now rest.now).time }
    ensures last { IsTrue result → (last_two first.now rest.now).0.time < (last_two first.now rest.now).1.time }
    ensures all { first.now.time < (last_of first.now rest.now).time
        → (last_two first.now rest.now).0.time < (last_two first.now rest.now).1.time → result ≡ true }
{
    let (before, last) = last_two(first, rest);
    first.time < last_of(first, rest).time && before.time < last.time
}

// What a formula over two values or more gives.
fn formula(func: RangeFn, first: &Spot, rest: &[Spot], ask: &Ask) -> Result<Num, TooWide>
    requires func { is_formula func ≡ true }
    requires few { length rest.now < 2 ^ 20 }
    requires rising { first.now.time < (last_of first.now rest.now).time }
    requires last { (last_two first.now rest.now).0.time < (last_two first.now rest.now).1.time }
    ensures { result ≡ formula_of func ask.now first.now rest.now }
{
    match func {
        RangeFn::Irate => irate(first, rest),
        RangeFn::Idelta => idelta(first, rest),
        RangeFn::Deriv => deriv(first, rest),
        RangeFn::PredictLinear => predicted(&argument(ask), first, rest, ask),
        _ => unreachable!(),
    }
}

// A formula over two values or more; nothing of one.
fn over_two(func: RangeFn, first: &Spot, rest: &[Spot], ask: &Ask) -> Result<Option<Num>, TooWide>
    requires func { is_formula func ≡ true }
    requires few { length rest.now < 2 ^ 20 }
    ensures { AreWithin ask.now.from ask.now.to (first.now ∷ rest.now) → result ≡ of_two (formula_of func ask.now) first.now rest.now }
{
    if rest.is_empty() {
        return Ok(None);
    }
    if !is_rising(first, rest) {
        return Ok(None);
    }
    some_value(formula(func, first, rest, ask))
}

// A function of values of which there is one at least, that no fold tells, but for the quantile.
#[tactic(auto, unfolding(spec_vectors::specs::Ranges::function_of))]
fn function_of(
    func: RangeFn,
    first: &Spot,
    rest: &[Spot],
    ask: &Ask,
) -> Result<Option<Num>, TooWide>
    requires func { is_of_items func ≡ true }
    requires plain { func ≢ QuantileOverTime }
    requires few { length rest.now < 2 ^ 20 }
    ensures { AreWithin ask.now.from ask.now.to (first.now ∷ rest.now) → result ≡ function_of func ask.now first.now rest.now }
{
    match func {
        RangeFn::LastOverTime => Ok(Some(last_of(first, rest).value)),
        RangeFn::Irate => over_two(RangeFn::Irate, first, rest, ask),
        RangeFn::Idelta => over_two(RangeFn::Idelta, first, rest, ask),
        RangeFn::Deriv => over_two(RangeFn::Deriv, first, rest, ask),
        RangeFn::PredictLinear => over_two(RangeFn::PredictLinear, first, rest, ask),
        _ => unreachable!(),
    }
}

// The answer of such a function over values of which there is one at least.
#[tactic(auto, unfolding(spec_vectors::specs::Ranges::function_of))]
fn over_some(
    alloc: Global,
    first: &Spot,
    rest: &[Spot],
    ask: &Ask,
) -> Result<Option<Num>, RangeFault>
    requires func { is_of_items ask.now.func ≡ true }
    requires few { length rest.now < 2 ^ 20 }
    ensures answer { AreWithin ask.now.from ask.now.to (first.now ∷ rest.now) → AnswersAsk (over_some ask.now (first.now ∷ rest.now)) result }
    ensures memory { result ≡ Err Memory → ask.now.func ≡ QuantileOverTime }
{
    match ask.func {
        RangeFn::QuantileOverTime => match quantile(alloc, argument(ask), first, rest) {
            Ok(value) => Ok(Some(value)),
            Err(_) => Err(RangeFault::Memory),
        },
        func => match function_of(func, first, rest, ask) {
            Ok(answer) => Ok(answer),
            Err(_) => Err(RangeFault::TooWide),
        },
    }
}

// A function that no fold tells.
#[tactic(auto, unfolding(spec_vectors::specs::Ranges::over))]
fn over_items(alloc: Global, spots: &[Spot], ask: &Ask) -> Result<Option<Num>, RangeFault>
    requires { is_of_items ask.now.func ≡ true }
    ensures answer { AreWithin ask.now.from ask.now.to spots.now → AnswersAsk (over ask.now spots.now) result }
    ensures memory { result ≡ Err Memory → ask.now.func ≡ QuantileOverTime }
{
    if spots.len() > LONGEST {
        return Err(RangeFault::RangeTooLong {
            have: spots.len() as u64,
        });
    }
    match spots {
        [] => Ok(None),
        [first, rest @ ..] => over_some(alloc, first, rest, ask),
    }
}

/// The function of a list of values, and nothing for none. A formula over two values or more gives
/// nothing for one. (Prometheus: Querying, Functions. Own choice: exact decimals, and their
/// rounding; docs/LANGUAGE.md has the formulas.)
///
/// The answer is pinned where the times of the values rise and lie in the range of the ask, as
/// those of a series do.
///
/// # Errors
/// `RangeTooLong` exactly where there are more than 2^20 values, else `TooWide` where the value is
/// 10^20 or more in magnitude, or a slope or a time ahead is refused, and `Memory` for the quantile
/// alone, which sorts a copy of the values.
pub fn over_list(alloc: Global, spots: &[Spot], ask: &Ask) -> Result<Option<Num>, RangeFault>
    requires { HasArgument ask.now }
    ensures answer { AreWithin ask.now.from ask.now.to spots.now → AnswersAsk (over ask.now spots.now) result }
    ensures memory { result ≡ Err Memory → ask.now.func ≡ QuantileOverTime }
{
    match ask.func {
        RangeFn::SumOverTime
        | RangeFn::AvgOverTime
        | RangeFn::CountOverTime
        | RangeFn::PresentOverTime => over_total(spots, ask),
        RangeFn::MaxOverTime => over_greatest(spots, ask),
        RangeFn::MinOverTime => over_least(spots, ask),
        RangeFn::Rate | RangeFn::Increase | RangeFn::Delta | RangeFn::Changes | RangeFn::Resets =>
            over_neighbours(spots, ask),
        RangeFn::LastOverTime
        | RangeFn::QuantileOverTime
        | RangeFn::Irate
        | RangeFn::Idelta
        | RangeFn::Deriv
        | RangeFn::PredictLinear => over_items(alloc, spots, ask),
    }
}
