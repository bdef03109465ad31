//! The value at a fraction of a sorted list.
ghost use Rattle.std.specs.Prelude.{◌≡◌, ◌+◌, ◌-◌, ◌*◌, ◌^◌, ◌<◌, ◌≤◌, ◌*ℤ◌, IsSorted, length, pos, unsigned_abs};
ghost use Rattle.pr_num.specs.Half.{half};
ghost use Rattle.pr_num.specs.Order.{order_of};
ghost use Rattle.pr_num.specs.Quantile.{between, blended, quantile_of, ranked, value_near};
ghost use Rattle.pr_num.specs.Units.{IsNano};

use crate::round::half_of;
use crate::sign::{is_below_zero, with_sign};
use crate::value::{Nano, Num};

const ONE: u64 = 1_000_000_000;

/// The quantile `phi` of values that are sorted by `order`.
///
/// The places of the values divide 0 to 1 evenly. Between two places the value lies as far between
/// their values, rounded half to even at the ninth place. No values and a NaN `phi` give NaN, a
/// `phi` below 0 gives -Inf and one above 1 gives +Inf (after the Prometheus documentation,
/// "Aggregation operators"; exact at the ninth place is own choice).
#[tactic(auto, unfolding(crate::specs::Quantile::quantile_of))]
pub fn quantile(phi: Num, sorted: &[Num]) -> Num
    requires { IsSorted order_of sorted.now }
    ensures { result ≡ quantile_of phi sorted.now }
{
    if sorted.is_empty() {
        return Num::NaN;
    }
    match phi {
        Num::Finite(fraction) => {
            let fraction = fraction.units();
            if fraction < 0 {
                Num::NegInf
            } else if fraction > 1_000_000_000 {
                Num::PosInf
            } else {
                ranked(fraction as u64, sorted)
            }
        }
        other => other,
    }
}

/// The value at this many billionths of the way from the first place to the last.
#[tactic(auto, unfolding(crate::specs::Quantile::ranked))]
fn ranked(fraction: u64, sorted: &[Num]) -> Num
    requires fraction { fraction ≤ 10 ^ 9 }
    requires some { 0 < length sorted.now }
    ensures { result ≡ ranked fraction sorted.now }
{
    let place = place_of(fraction, sorted.len() - 1);
    value_near(
        sorted,
        (place / 1_000_000_000) as usize,
        (place % 1_000_000_000) as u64,
    )
}

/// How far a fraction of the way to the last place is, in billionths of a place.
fn place_of(fraction: u64, last: usize) -> u128
    requires { fraction ≤ 10 ^ 9 }
    ensures value { result ≡ fraction * last }
    ensures within { result ≤ 10 ^ 9 * last }
{
    fraction as u128 * last as u128
}

fn value_near(sorted: &[Num], index: usize, way: u64) -> Num
    requires way { way < 10 ^ 9 }
    requires index { index < length sorted.now }
    requires next { 0 < way → index + 1 < length sorted.now }
    ensures { result ≡ value_near sorted.now index way }
{
    if way == 0 || sorted[index] == sorted[index + 1] {
        sorted[index]
    } else {
        blended(sorted[index], sorted[index + 1], way)
    }
}

/// The value that lies `way` billionths between two values.
fn blended(low: Num, high: Num, way: u64) -> Num
    requires { way ≤ 10 ^ 9 }
    ensures { result ≡ blended low high way }
{
    match low {
        Num::Finite(a) => match high {
            Num::Finite(b) => Num::Finite(between(a.units(), b.units(), way)),
            other => other,
        },
        Num::NaN => Num::NaN,
        Num::PosInf => match high {
            Num::NaN | Num::NegInf => Num::NaN,
            _ => Num::PosInf,
        },
        Num::NegInf => match high {
            Num::NaN | Num::PosInf => Num::NaN,
            _ => Num::NegInf,
        },
    }
}

fn between(low: i128, high: i128, way: u64) -> Nano
    requires low { IsNano low }
    requires high { IsNano high }
    requires way { way ≤ 10 ^ 9 }
    ensures { result ≡ between low high way }
{
    over_billion(times(low, ONE - way) + times(high, way))
}

fn times(units: i128, way: u64) -> i128
    requires units { IsNano units }
    requires way { way ≤ 10 ^ 9 }
    ensures value { result ≡ units *ℤ pos way }
    ensures small { unsigned_abs result ≤ (10 ^ 29 - 1) * way }
{
    units * way as i128
}

/// `sum / 10^9`, rounded half to even.
#[tactic(auto, using(crate::proofs::Signs::half_sum, crate::proofs::Signs::half_abs_below))]
fn over_billion(sum: i128) -> Nano
    requires { unsigned_abs sum ≤ (10 ^ 29 - 1) * 10 ^ 9 }
    ensures { result ≡ half sum (pos (10 ^ 9)) }
{
    let magnitude = half_of(sum.unsigned_abs(), ONE as u128);
    Nano::of(with_sign(is_below_zero(sum), magnitude))
}
