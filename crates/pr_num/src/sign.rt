//! Signs and magnitudes.
ghost use Rattle.std.specs.Prelude.{◌≡◌, ◌^◌, ◌<◌};
ghost use Rattle.std.specs.Option.{SomeIff};
ghost use Rattle.pr_num.specs.Arithmetic.{fitted, infinity};
ghost use Rattle.pr_num.specs.declared.value.Num.{Num};
ghost use Rattle.pr_num.specs.Half.{apart, below_zero, signed};

use crate::value::{Nano, Num, TooWide, WIDE};

/// The number with this sign and this magnitude.
pub(crate) fn with_sign(negative: bool, magnitude: u128) -> i128
    requires { magnitude < 2 ^ 127 }
    ensures { result ≡ signed negative magnitude }
{
    let size = magnitude as i128;
    if negative { -size } else { size }
}

pub(crate) fn is_below_zero(z: i128) -> bool
    ensures { result ≡ below_zero z }
{
    z < 0
}

/// Whether two numbers have different signs.
pub(crate) fn are_apart(a: i128, b: i128) -> bool
    ensures { result ≡ apart a b }
{
    (a < 0) != (b < 0)
}

/// The infinity of this sign.
pub(crate) fn infinity(negative: bool) -> Num
    ensures { result ≡ infinity negative }
{
    if negative { Num::NegInf } else { Num::PosInf }
}

/// The value of this sign and this many units, where they are not too many.
#[tactic(auto, using(crate::proofs::Signs::abs_signed))]
pub(crate) fn value_within(negative: bool, magnitude: u128) -> Option<Num>
    ensures { SomeIff result (magnitude < 10 ^ 29) (Num.Finite (signed negative magnitude)) }
{
    if magnitude < WIDE {
        Some(Num::Finite(Nano::of(with_sign(negative, magnitude))))
    } else {
        None
    }
}

/// The same, or the refusal.
#[tactic(auto, using(crate::proofs::Signs::abs_signed))]
pub(crate) fn of_magnitude(negative: bool, magnitude: u128) -> Result<Num, TooWide>
    ensures { result ≡ fitted (signed negative magnitude) }
{
    match value_within(negative, magnitude) {
        Some(value) => Ok(value),
        None => Err(TooWide),
    }
}
