//! The values: exact decimals with nine places, and the three that are not finite.
ghost use Rattle.std.specs.Prelude.{◌≡◌};
ghost use Rattle.std.specs.Option.{SomeIff};
ghost use Rattle.pr_num.specs.Units.{IsNano};

use std::marker::Model;

/// The first magnitude, in units of 10^-9, that is too wide for a value.
pub(crate) const WIDE: u128 = 100_000_000_000_000_000_000_000_000_000;

/// A finite value: a whole number of units of 10^-9, below 10^29 units in magnitude.
///
/// A contract sees the number of units. There is one zero, and its sign counts as positive.
#[derive(Clone, Copy, Debug, Drop, PartialEq, Eq)]
pub struct Nano {
    units: i128,
}

impl Model for Nano {
    ghost use Rattle.std.specs.Prelude.{ℤ};
    ghost use Rattle.pr_num.specs.Units.{IsNano};

    ghost Value = { ℤ };

    ghost view = { λ n. n.units };

    ghost invariant = { λ n. IsNano n.units };

    ghost inverse = { λ z. record { units = z } };
}

impl Nano {
    /// The value of this many units of 10^-9, or nothing where they are 10^29 or more in magnitude.
    pub fn new(units: i128) -> Option<Nano>
        ensures { SomeIff result (IsNano units) units }
    {
        if units.unsigned_abs() < WIDE {
            Some(Nano { units })
        } else {
            None
        }
    }

    /// The value of this many units of 10^-9, which are known to be few enough.
    pub(crate) fn of(units: i128) -> Nano
        requires { IsNano units }
        ensures { result ≡ units }
    {
        Nano { units }
    }

    /// How many units of 10^-9 the value has.
    pub fn units(self) -> i128
        ensures value { result ≡ self }
        ensures small { IsNano result }
    {
        self.units
    }
}

/// A value: a finite decimal, or one of the three that are not finite.
#[derive(Clone, Copy, Debug, Drop)]
pub enum Num {
    /// A finite decimal.
    Finite(Nano),
    /// No number.
    NaN,
    /// The infinity above all values.
    PosInf,
    /// The infinity below all values.
    NegInf,
}

/// The answer of an operation whose result, rounded to nine places, has a magnitude of 10^20 or
/// more.
#[derive(Clone, Copy, Debug, Drop, PartialEq, Eq)]
pub struct TooWide;

/// What a sample holds: a value, or the mark that its series has gone stale.
#[derive(Clone, Copy, Debug, Drop)]
pub enum Point {
    /// A value.
    Value(Num),
    /// The marker.
    Stale,
}

/// By variant, so that NaN equals itself.
impl PartialEq for Num {
    ghost use Rattle.std.proofs.Common.{rules};
    ghost use Rattle.std.specs.Cmp.Rules.{comparing};
    ghost use Rattle.pr_num.specs.Same.{same_num};

    ghost eq = { same_num };

    ghost laws = { Prim.search (comparing, rules) };

    fn eq(&self, other: &Num) -> bool {
        match (self, other) {
            (Num::Finite(a), Num::Finite(b)) => a.units == b.units,
            (Num::NaN, Num::NaN) => true,
            (Num::PosInf, Num::PosInf) => true,
            (Num::NegInf, Num::NegInf) => true,
            _ => false,
        }
    }
}

impl Eq for Num {
    ghost use Rattle.std.proofs.Common.{rules};
    ghost use Rattle.std.specs.Cmp.Rules.{comparing};

    ghost laws = { Prim.search (comparing, rules) };
}

/// By variant, so that a stale mark equals itself.
impl PartialEq for Point {
    ghost use Rattle.std.proofs.Common.{rules};
    ghost use Rattle.std.specs.Cmp.Rules.{comparing};
    ghost use Rattle.pr_num.specs.Same.{same_point};

    ghost eq = { same_point };

    ghost laws = { Prim.search (comparing, rules) };

    fn eq(&self, other: &Point) -> bool {
        match (self, other) {
            (Point::Value(a), Point::Value(b)) => a == b,
            (Point::Stale, Point::Stale) => true,
            _ => false,
        }
    }
}

impl Eq for Point {
    ghost use Rattle.std.proofs.Common.{rules};
    ghost use Rattle.std.specs.Cmp.Rules.{comparing};

    ghost laws = { Prim.search (comparing, rules) };
}
