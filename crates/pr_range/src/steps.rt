// The last two values of a range.
ghost use Rattle.std.specs.Prelude.{◌≡◌, ◌+◌, ◌*◌, ◌^◌, ◌<◌, ◌≤◌, ◌∷◌, [], pos, if◌then◌else◌, length, unsigned_abs};
ghost use Rattle.spec_vectors.specs.pr_num.Units.{IsNano};
ghost use Rattle.spec_vectors.specs.Extrapolation.{idelta_of, idelta_step, irate_of, irate_step, last_two, step_counter, step_gauge};
ghost use Rattle.spec_vectors.specs.Spots.{has_special};

use pr_head::history::Spot;
use pr_window::folds::{falls, is_special, units_of};
use spec_vectors::num::{Num, TooWide, muldiv_units};

/// The value before the last one, and the last; of one alone, that one twice.
pub(crate) fn last_two<'a>(first: &'a Spot, rest: &'a [Spot]) -> (&'a Spot, &'a Spot)
    ensures before { result.0.now ≡ (last_two first.now rest.now).0 }
    ensures last { result.1.now ≡ (last_two first.now rest.now).1 }
{
    match rest {
        [] => (first, first),
        [only] => (first, only),
        [.., before, last] => (before, last),
    }
}

fn is_any_special(before: &Spot, last: &Spot) -> bool
    ensures { result ≡ has_special (before.now.value ∷ last.now.value ∷ []) }
{
    is_special(&before.value) || is_special(&last.value)
}

// What was gained from one value to the next.
fn step_gauge(before: &Num, last: &Num) -> i128
    ensures value { result ≡ step_gauge before.now last.now }
    ensures small { unsigned_abs result ≤ 2 * 10 ^ 29 }
{
    units_of(last) - units_of(before)
}

// The same of a counter: all that it is where it fell.
fn step_counter(before: &Num, last: &Num) -> i128
    ensures { result ≡ step_counter before.now last.now }
{
    if falls(before, last) {
        units_of(last)
    } else {
        step_gauge(before, last)
    }
}

// What a gauge gained from one value to the next.
fn idelta_step(before: &Spot, last: &Spot) -> Result<Num, TooWide>
    ensures { result ≡ idelta_step (before.now, last.now) }
{
    if is_any_special(before, last) {
        return Ok(Num::NaN);
    }
    Num::of_units(step_gauge(&before.value, &last.value))
}

// What a counter gained from one value to the next, in a second.
fn irate_step(before: &Spot, last: &Spot) -> Result<Num, TooWide>
    requires { before.now.time < last.now.time }
    ensures { result ≡ irate_step (before.now, last.now) }
{
    if is_any_special(before, last) {
        return Ok(Num::NaN);
    }
    let time = last.time.get() - before.time.get();
    muldiv_units(step_counter(&before.value, &last.value), 1000, time)
}

/// What a gauge gained from the value before the last one on.
#[tactic(auto, unfolding(spec_vectors::specs::Extrapolation::idelta_of))]
pub(crate) fn idelta(first: &Spot, rest: &[Spot]) -> Result<Num, TooWide>
    ensures { result ≡ idelta_of first.now rest.now }
{
    let (before, last) = last_two(first, rest);
    idelta_step(before, last)
}

/// What a counter gained from the value before the last one on, in a second.
#[tactic(auto, unfolding(spec_vectors::specs::Extrapolation::irate_of))]
pub(crate) fn irate(first: &Spot, rest: &[Spot]) -> Result<Num, TooWide>
    requires { (last_two first.now rest.now).0.time < (last_two first.now rest.now).1.time }
    ensures { result ≡ irate_of first.now rest.now }
{
    let (before, last) = last_two(first, rest);
    irate_step(before, last)
}
