//! Exact sums of up to 2^64 - 1 values.
ghost use Rattle.std.specs.Prelude.{◌≡◌, ◌+◌, ◌-◌, ◌*◌, ◌^◌, ◌<◌, ◌≤◌, unsigned_abs};
ghost use Rattle.pr_num.specs.Arithmetic.{fitted};
ghost use Rattle.pr_num.specs.Total.{has_no_sum, joined, mean_of, no_values, one_value, value_of};

use crate::value::{Num, TooWide};
use crate::wide::Wide;
use std::marker::Model;

/// The exact sum of some values, with their number. NaN and the infinities are counted apart.
///
/// A contract sees the `Tally` of the values. Joining two totals gives that of all their values, so
/// totals can be taken of parts and put together in any grouping.
#[derive(Clone, Copy, Debug, Drop)]
pub struct Total {
    sum: Wide,
    count: u64,
    nans: u64,
    pos_infs: u64,
    neg_infs: u64,
}

impl Model for Total {
    ghost use Rattle.std.specs.Prelude.{◌-◌, ◌*◌, ◌^◌, ◌≤◌, unsigned_abs};
    ghost use Rattle.pr_num.specs.Total.{Tally};

    ghost Value = { Tally };

    ghost view = { λ t. record {
      units = t.sum;
      count = t.count;
      nans = t.nans;
      pos_infs = t.pos_infs;
      neg_infs = t.neg_infs;
    } };

    ghost invariant = { λ t. (unsigned_abs t.sum ≤ t.count * (10 ^ 29 - 1))
        × (t.nans ≤ t.count) × (t.pos_infs ≤ t.count) × (t.neg_infs ≤ t.count) };

    ghost inverse = { λ t. record {
      sum = t.units;
      count = t.count;
      nans = t.nans;
      pos_infs = t.pos_infs;
      neg_infs = t.neg_infs;
    } };
}

impl Total {
    /// The total of no values.
    pub fn zero() -> Total
        ensures { result ≡ no_values }
    {
        Total {
            sum: Wide::of(0),
            count: 0,
            nans: 0,
            pos_infs: 0,
            neg_infs: 0,
        }
    }

    /// The total of one value.
    fn one(v: Num) -> Total
        ensures { result ≡ one_value v }
    {
        match v {
            Num::Finite(value) => Total {
                sum: Wide::of(value.units()),
                count: 1,
                ..Total::zero()
            },
            Num::NaN => Total {
                count: 1,
                nans: 1,
                ..Total::zero()
            },
            Num::PosInf => Total {
                count: 1,
                pos_infs: 1,
                ..Total::zero()
            },
            Num::NegInf => Total {
                count: 1,
                neg_infs: 1,
                ..Total::zero()
            },
        }
    }

    /// One value more.
    pub fn plus(self, v: Num) -> Total
        requires { self.count + 1 < 2 ^ 64 }
        ensures { result ≡ joined self (one_value v) }
    {
        self.join(Total::one(v))
    }

    /// The values of both.
    pub fn join(self, b: Total) -> Total
        requires { self.count + b.count < 2 ^ 64 }
        ensures { result ≡ joined self b }
    {
        Total {
            sum: self.sum.add(b.sum),
            count: self.count + b.count,
            nans: self.nans + b.nans,
            pos_infs: self.pos_infs + b.pos_infs,
            neg_infs: self.neg_infs + b.neg_infs,
        }
    }

    /// The exact sum of the finite values, in units of 10^-9.
    pub fn units(self) -> i128
        requires { self.count < 2 ^ 30 }
        ensures value { result ≡ self.units }
        ensures small { unsigned_abs result ≤ self.count * (10 ^ 29 - 1) }
    {
        self.sum.number()
    }

    fn has_no_sum(&self) -> bool
        ensures { result ≡ has_no_sum self.now }
    {
        self.nans > 0 || (self.pos_infs > 0 && self.neg_infs > 0)
    }

    /// The exact sum. It is NaN where a NaN or both infinities are there, else an infinity that is
    /// there.
    ///
    /// Answers `TooWide` exactly where the sum is finite and 10^20 or more in magnitude.
    #[tactic(auto, unfolding(crate::specs::Total::value_of))]
    pub fn value(self) -> Result<Num, TooWide>
        ensures { result ≡ value_of self }
    {
        if self.has_no_sum() {
            Ok(Num::NaN)
        } else if self.pos_infs > 0 {
            Ok(Num::PosInf)
        } else if self.neg_infs > 0 {
            Ok(Num::NegInf)
        } else {
            finite_sum(self.sum)
        }
    }

    /// The mean, rounded once, half to even at the ninth place, and NaN for no values. It is NaN
    /// where a NaN or both infinities are there, else an infinity that is there.
    #[tactic(auto, unfolding(crate::specs::Total::mean_of))]
    pub fn mean(self) -> Num
        ensures { result ≡ mean_of self }
    {
        if self.has_no_sum() || self.count == 0 {
            Num::NaN
        } else if self.pos_infs > 0 {
            Num::PosInf
        } else if self.neg_infs > 0 {
            Num::NegInf
        } else {
            Num::Finite(self.sum.mean(self.count))
        }
    }
}

fn finite_sum(sum: Wide) -> Result<Num, TooWide>
    ensures { result ≡ fitted sum }
{
    match sum.small() {
        Some(units) => Num::of_units(units),
        None => Err(TooWide),
    }
}
