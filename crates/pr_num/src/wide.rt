//! Whole numbers of more than 128 bits.
ghost use Rattle.std.specs.Prelude.{◌≡◌, ◌+◌, ◌-◌, ◌*◌, ◌^◌, ◌<◌, ◌≤◌, ◌+ℤ◌, pos, unsigned_abs};
ghost use Rattle.std.specs.Option.{SomeIff};
ghost use Rattle.pr_num.specs.Half.{below_zero, half};
ghost use Rattle.pr_num.specs.Units.{IsNano};

use crate::round::{STEP, half_wide};
use crate::sign::with_sign;
use crate::value::{Nano, WIDE};
use std::marker::Model;

const SIGNED_STEP: i128 = STEP as i128;

/// The whole number `high * 2^64 + low`. A contract sees the number.
#[derive(Clone, Copy, Debug, Drop)]
pub(crate) struct Wide {
    high: i128,
    low: u64,
}

impl Model for Wide {
    ghost use Rattle.std.specs.Prelude.{◌^◌, ◌<◌, ℤ, pos, unsigned_abs};
    ghost use Rattle.std.specs.Int.{int_div_euclid, int_rem_euclid};
    ghost use Rattle.pr_num.specs.private.Parts.{number_of_parts};

    ghost Value = { ℤ };

    ghost view = { λ w. number_of_parts w.high w.low };

    ghost invariant = { λ w. w.low < 2 ^ 64 };

    ghost inverse = { λ z. record {
      high = int_div_euclid z (pos (2 ^ 64));
      low = unsigned_abs (int_rem_euclid z (pos (2 ^ 64)));
    } };
}

fn sum_with_carry(a: i128, b: i128, carry: u64) -> i128
    requires left { unsigned_abs a < 2 ^ 120 }
    requires right { unsigned_abs b < 2 ^ 120 }
    ensures { result ≡ a +ℤ b +ℤ pos carry }
{
    a + b + carry as i128
}

impl Wide {
    pub(crate) fn of(number: i128) -> Wide
        ensures { result ≡ number }
    {
        Wide {
            high: number.div_euclid(SIGNED_STEP),
            low: number.rem_euclid(SIGNED_STEP) as u64,
        }
    }

    pub(crate) fn add(self, b: Wide) -> Wide
        requires left { unsigned_abs self < 2 ^ 170 }
        requires right { unsigned_abs b < 2 ^ 170 }
        ensures { result ≡ self +ℤ b }
    {
        let low = self.low as u128 + b.low as u128;
        Wide {
            high: sum_with_carry(self.high, b.high, (low / STEP) as u64),
            low: (low % STEP) as u64,
        }
    }

    /// The number as the units of a value, where it is small enough.
    pub(crate) fn small(self) -> Option<i128>
        ensures { SomeIff result (IsNano self) self }
    {
        let high = self.high.checked_mul(SIGNED_STEP)?;
        let number = high + self.low as i128;
        if number.unsigned_abs() < WIDE {
            Some(number)
        } else {
            None
        }
    }

    /// The number, where 128 bits hold it.
    pub(crate) fn number(self) -> i128
        requires { unsigned_abs self < 2 ^ 127 }
        ensures { result ≡ self }
    {
        self.high * SIGNED_STEP + self.low as i128
    }

    fn is_below_zero(&self) -> bool
        ensures { result ≡ below_zero self.now }
    {
        self.high < 0
    }

    /// The magnitude, as two parts again.
    fn magnitude(&self) -> (u128, u128)
        requires { unsigned_abs self.now < 2 ^ 170 }
        ensures number { result.0 * 2 ^ 64 + result.1 ≡ unsigned_abs self.now }
        ensures low { result.1 ≤ 2 ^ 64 }
    {
        if self.high < 0 {
            ((-1 - self.high) as u128, STEP - self.low as u128)
        } else {
            (self.high as u128, self.low as u128)
        }
    }

    /// The mean of `count` values that add up to the number, rounded half to even.
    #[tactic(auto, using(crate::proofs::Signs::half_sum, crate::proofs::Signs::half_abs_below))]
    pub(crate) fn mean(self, count: u64) -> Nano
        requires some { 0 < count }
        requires small { unsigned_abs self ≤ count * (10 ^ 29 - 1) }
        ensures { result ≡ half self (pos count) }
    {
        let (high, low) = self.magnitude();
        match half_wide(high, low, count) {
            Some(magnitude) => Nano::of(with_sign(self.is_below_zero(), magnitude)),
            None => unreachable!(),
        }
    }
}
