//! Whole numbers, signs, sums, products, quotients and remainders.
ghost use Rattle.std.specs.Prelude.{◌≡◌, ℕ, ◌+◌, ◌*◌, ◌^◌, ◌<◌, ◌≤◌, ◌*ℤ◌, ℤ, pos, unsigned_abs};
ghost use Rattle.pr_num.specs.Arithmetic.{fitted, whole_of, negated, absolute, sum_of, difference_of, product_of, quotient_of, remainder_of, muldiv_of, infinite_times, finite_quotient};
ghost use Rattle.pr_num.specs.Half.{half};
ghost use Rattle.pr_num.specs.Units.{IsNano};

use crate::formulas::muldiv_units;
use crate::round::half_of;
use crate::sign::{are_apart, infinity, of_magnitude};
use crate::value::{Nano, Num, TooWide};

const ONE: u128 = 1_000_000_000;

impl Num {
    /// A whole number as a value.
    pub fn whole(n: i64) -> Num
        ensures { result ≡ whole_of n }
    {
        Num::Finite(Nano::of(n as i128 * 1_000_000_000))
    }

    /// The value of this many units of 10^-9.
    ///
    /// Answers `TooWide` exactly where they are 10^29 or more in magnitude.
    pub fn of_units(units: i128) -> Result<Num, TooWide>
        ensures { result ≡ fitted units }
    {
        match Nano::new(units) {
            Some(value) => Ok(Num::Finite(value)),
            None => Err(TooWide),
        }
    }

    /// The value with the other sign. NaN stays, and so does zero.
    pub fn neg(self) -> Num
        ensures { result ≡ negated self }
    {
        match self {
            Num::Finite(value) => Num::Finite(Nano::of(-value.units())),
            Num::NaN => Num::NaN,
            Num::PosInf => Num::NegInf,
            Num::NegInf => Num::PosInf,
        }
    }

    /// The magnitude. NaN stays.
    pub fn abs(self) -> Num
        ensures { result ≡ absolute self }
    {
        match self {
            Num::Finite(value) => Num::Finite(Nano::of(value.units().abs())),
            Num::NaN => Num::NaN,
            Num::PosInf | Num::NegInf => Num::PosInf,
        }
    }

    /// The exact sum. The infinities go as in floats, so that opposite ones give NaN.
    ///
    /// Answers `TooWide` exactly where the sum is 10^20 or more in magnitude.
    #[tactic(auto, unfolding(crate::specs::Arithmetic::sum_of))]
    pub fn add(self, b: Num) -> Result<Num, TooWide>
        ensures { result ≡ sum_of self b }
    {
        match self {
            Num::Finite(x) => match b {
                Num::Finite(y) => Num::of_units(x.units() + y.units()),
                other => Ok(other),
            },
            Num::NaN => Ok(Num::NaN),
            Num::PosInf => match b {
                Num::NaN | Num::NegInf => Ok(Num::NaN),
                _ => Ok(Num::PosInf),
            },
            Num::NegInf => match b {
                Num::NaN | Num::PosInf => Ok(Num::NaN),
                _ => Ok(Num::NegInf),
            },
        }
    }

    /// The exact difference, which is the sum with the negated value.
    ///
    /// Answers `TooWide` exactly where the difference is 10^20 or more in magnitude.
    pub fn sub(self, b: Num) -> Result<Num, TooWide>
        ensures { result ≡ difference_of self b }
    {
        self.add(b.neg())
    }

    /// The product, rounded half to even at the ninth place. Zero times an infinity is NaN.
    ///
    /// Answers `TooWide` exactly where the rounded product is 10^20 or more in magnitude.
    #[tactic(auto, unfolding(crate::specs::Arithmetic::product_of))]
    pub fn mul(self, b: Num) -> Result<Num, TooWide>
        ensures { result ≡ product_of self b }
    {
        match self {
            Num::Finite(x) => match b {
                Num::Finite(y) => finite_product(x.units(), y.units()),
                Num::NaN => Ok(Num::NaN),
                Num::PosInf => Ok(infinite_times(false, x.units())),
                Num::NegInf => Ok(infinite_times(true, x.units())),
            },
            Num::NaN => Ok(Num::NaN),
            Num::PosInf => match b {
                Num::Finite(y) => Ok(infinite_times(false, y.units())),
                other => Ok(other),
            },
            Num::NegInf => match b {
                Num::Finite(y) => Ok(infinite_times(true, y.units())),
                other => Ok(other.neg()),
            },
        }
    }

    /// The quotient, rounded half to even at the ninth place.
    ///
    /// A value over zero is the infinity of its sign, 0/0 and an infinity over an infinity are NaN,
    /// and a finite value over an infinity is 0. Answers `TooWide` exactly where the rounded
    /// quotient is 10^20 or more in magnitude.
    #[tactic(auto, unfolding(crate::specs::Arithmetic::quotient_of))]
    pub fn div(self, b: Num) -> Result<Num, TooWide>
        ensures { result ≡ quotient_of self b }
    {
        match self {
            Num::Finite(x) => match b {
                Num::Finite(y) => finite_quotient(x.units(), y.units()),
                Num::NaN => Ok(Num::NaN),
                Num::PosInf | Num::NegInf => Ok(Num::Finite(Nano::of(0))),
            },
            Num::NaN => Ok(Num::NaN),
            Num::PosInf => match b {
                Num::Finite(y) => Ok(infinity(y.units() < 0)),
                _ => Ok(Num::NaN),
            },
            Num::NegInf => match b {
                Num::Finite(y) => Ok(infinity(y.units() >= 0)),
                _ => Ok(Num::NaN),
            },
        }
    }

    /// What is left of the value after whole divisors, exactly, with the value's own sign.
    ///
    /// A remainder by zero and that of an infinity are NaN; a finite value by an infinity stays.
    #[tactic(auto, unfolding(crate::specs::Arithmetic::remainder_of))]
    pub fn rem(self, by: Num) -> Num
        ensures { result ≡ remainder_of self by }
    {
        match self {
            Num::Finite(x) => match by {
                Num::Finite(y) => finite_remainder(x.units(), y.units()),
                Num::PosInf | Num::NegInf => self,
                Num::NaN => Num::NaN,
            },
            _ => Num::NaN,
        }
    }

    /// `self * b / c`, rounded once, half to even at the ninth place. A special value stays.
    ///
    /// Answers `TooWide` exactly where the rounded result is 10^20 or more in magnitude.
    #[tactic(auto, unfolding(crate::specs::Arithmetic::muldiv_of))]
    pub fn muldiv(self, b: u64, c: u64) -> Result<Num, TooWide>
        requires times { b < 2 ^ 63 }
        requires over { (0 < c) × (c < 2 ^ 63) }
        ensures { result ≡ muldiv_of self b c }
    {
        match self {
            Num::Finite(x) => muldiv_units(x.units(), b, c),
            other => Ok(other),
        }
    }
}

/// An infinity times a value of this many units.
fn infinite_times(negative: bool, by: i128) -> Num
    ensures { result ≡ infinite_times negative by }
{
    if by == 0 {
        Num::NaN
    } else if by < 0 {
        infinity(!negative)
    } else {
        infinity(negative)
    }
}

#[tactic(auto, using(crate::proofs::Signs::product_fits, crate::proofs::Signs::product_wide))]
fn finite_product(a: i128, b: i128) -> Result<Num, TooWide>
    requires left { IsNano a }
    requires right { IsNano b }
    ensures { result ≡ fitted (half (a *ℤ b) (pos (10 ^ 9))) }
{
    match a.unsigned_abs().checked_mul(b.unsigned_abs()) {
        Some(product) if product < u128::MAX => {
            of_magnitude(are_apart(a, b), half_of(product, ONE))
        }
        _ => Err(TooWide),
    }
}

fn finite_quotient(a: i128, b: i128) -> Result<Num, TooWide>
    requires left { IsNano a }
    requires right { IsNano b }
    ensures { result ≡ finite_quotient a b }
{
    if b == 0 {
        return Ok(if a == 0 { Num::NaN } else { infinity(a < 0) });
    }
    let scaled = a.unsigned_abs() * ONE;
    of_magnitude(are_apart(a, b), half_of(scaled, b.unsigned_abs()))
}

#[tactic(auto, unfolding(crate::specs::Arithmetic::remainder_of))]
fn finite_remainder(a: i128, b: i128) -> Num
    requires left { IsNano a }
    requires right { IsNano b }
    ensures { result ≡ remainder_of (Num.Finite a) (Num.Finite b) }
{
    if b == 0 {
        return Num::NaN;
    }
    Num::Finite(Nano::of(a % b))
}
