//! Floor, ceil and rounding to a step.
ghost use Rattle.std.specs.Prelude.{◌≡◌, ◌≢◌, ◌+◌, ◌*◌, ◌^◌, ◌<◌, ◌≤◌, ◌*ℤ◌, pos, unsigned_abs};
ghost use Rattle.pr_num.specs.Arithmetic.{fitted};
ghost use Rattle.pr_num.specs.Multiples.{ceil_of, floor_of, floor_quotient, nearest_steps, rounded_to};
ghost use Rattle.pr_num.specs.Units.{IsNano};

use crate::sign::{are_apart, of_magnitude, with_sign};
use crate::value::{Num, TooWide};

const ONE: i128 = 1_000_000_000;

impl Num {
    /// The greatest whole value that is at most this one. A special value stays.
    ///
    /// Answers `TooWide` exactly where that is 10^20 or more in magnitude.
    #[tactic(auto, unfolding(crate::specs::Multiples::floor_of))]
    pub fn floor(self) -> Result<Num, TooWide>
        ensures { result ≡ floor_of self }
    {
        match self {
            Num::Finite(value) => multiple(floor_quotient(value.units(), ONE), ONE),
            other => Ok(other),
        }
    }

    /// The least whole value that is at least this one. A special value stays.
    ///
    /// Answers `TooWide` exactly where that is 10^20 or more in magnitude.
    #[tactic(auto, unfolding(crate::specs::Multiples::ceil_of))]
    pub fn ceil(self) -> Result<Num, TooWide>
        ensures { result ≡ ceil_of self }
    {
        match self {
            Num::Finite(value) => multiple(-floor_quotient(-value.units(), ONE), ONE),
            other => Ok(other),
        }
    }

    /// The multiple of `to` next to this value: `floor(self / to + 1/2)` times `to`, exactly. Half
    /// way between two it is the greater one for a `to` above zero, and the lesser one for a `to`
    /// below.
    ///
    /// Gives NaN where `to` is zero or special; else a special value stays. Answers `TooWide`
    /// exactly where that multiple is 10^20 or more in magnitude.
    #[tactic(auto, unfolding(crate::specs::Multiples::rounded_to))]
    pub fn round_to(self, to: Num) -> Result<Num, TooWide>
        ensures { result ≡ rounded_to self to }
    {
        match to {
            Num::Finite(step) => {
                let step = step.units();
                if step == 0 {
                    return Ok(Num::NaN);
                }
                match self {
                    Num::Finite(value) => nearest_multiple(value.units(), step),
                    other => Ok(other),
                }
            }
            _ => Ok(Num::NaN),
        }
    }
}

/// The greatest whole number that is at most `p / q`.
#[tactic(auto, unfolding(crate::specs::Multiples::floor_quotient))]
fn floor_quotient(p: i128, q: i128) -> i128
    requires dividend { unsigned_abs p < 2 ^ 100 }
    requires divisor { (0 < unsigned_abs q) × (unsigned_abs q < 2 ^ 100) }
    ensures value { result ≡ floor_quotient p q }
    ensures small { unsigned_abs result * unsigned_abs q < unsigned_abs p + unsigned_abs q }
    ensures bound { unsigned_abs result < 2 ^ 101 }
{
    let over = q.unsigned_abs();
    if are_apart(p, q) {
        with_sign(true, (p.unsigned_abs() + (over - 1)) / over)
    } else {
        with_sign(false, p.unsigned_abs() / over)
    }
}

/// This many steps, where they are not too many units.
fn multiple(steps: i128, step: i128) -> Result<Num, TooWide>
    requires { unsigned_abs steps * unsigned_abs step < 2 ^ 127 }
    ensures { result ≡ fitted (steps *ℤ step) }
{
    let magnitude = steps.unsigned_abs() * step.unsigned_abs();
    of_magnitude(are_apart(steps, step), magnitude)
}

fn nearest_multiple(units: i128, step: i128) -> Result<Num, TooWide>
    requires value { IsNano units }
    requires step { (0 < unsigned_abs step) × IsNano step }
    ensures { result ≡ fitted (nearest_steps units step *ℤ step) }
{
    multiple(floor_quotient(2 * units + step, 2 * step), step)
}
