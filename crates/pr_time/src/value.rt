//! Times and spans.
ghost use Rattle.std.specs.Prelude.{◌≡◌, ◌<◌, ◌≤◌, ◌^◌, SomeIff, pos, ◌-ℤ◌, ◌≤ℤ◌, ◌<ℤ◌, neg_ℤ};

use std::marker::Model;

/// A time: whole milliseconds, below 2^42. Contracts see the number.
#[derive(Clone, Copy, PartialEq, Eq, PartialOrd, Ord, Hash, Debug)]
pub struct Ms {
    ms: u64,
}

impl Model for Ms {
    ghost use Rattle.std.specs.Prelude.{ℕ, ◌<◌, ◌^◌};

    ghost Value = { ℕ };

    ghost view = { λ m. m.ms };

    ghost invariant = { λ m. m.ms < 2 ^ 42 };

    ghost inverse = { λ n. record { ms = n } };
}

/// A length of time: whole milliseconds, at most 2^40 of them. Contracts see the number.
#[derive(Clone, Copy, PartialEq, Eq, PartialOrd, Ord, Hash, Debug)]
pub struct Span {
    ms: u64,
}

impl Model for Span {
    ghost use Rattle.std.specs.Prelude.{ℕ, ◌≤◌, ◌^◌};

    ghost Value = { ℕ };

    ghost view = { λ s. s.ms };

    ghost invariant = { λ s. s.ms ≤ 2 ^ 40 };

    ghost inverse = { λ n. record { ms = n } };
}

impl Ms {
    /// The time of so many milliseconds; none from 2^42 on.
    pub fn new(ms: u64) -> Option<Ms>
        ensures { SomeIff result (ms < 2 ^ 42) ms }
    {
        if ms < 1 << 42 { Some(Ms { ms }) } else { None }
    }

    /// The milliseconds.
    pub fn get(self) -> u64
        ensures value { result ≡ self }
        ensures small { self < 2 ^ 42 }
    {
        self.ms
    }

    /// The milliseconds of the time a span earlier: from -2^40 on, since the span may be longer
    /// than the time, and below 2^42.
    pub fn minus(self, s: Span) -> i64
        ensures value { result ≡ pos self -ℤ pos s }
        ensures low { neg_ℤ (pos (2 ^ 40)) ≤ℤ result }
        ensures high { result <ℤ pos (2 ^ 42) }
        ensures time { self < 2 ^ 42 }
        ensures span { s ≤ 2 ^ 40 }
    {
        self.ms as i64 - s.ms as i64
    }
}

impl Span {
    /// The span of so many milliseconds; none above 2^40.
    pub fn new(ms: u64) -> Option<Span>
        ensures { SomeIff result (ms ≤ 2 ^ 40) ms }
    {
        if ms <= 1 << 40 {
            Some(Span { ms })
        } else {
            None
        }
    }

    /// The milliseconds.
    pub fn get(self) -> u64
        ensures value { result ≡ self }
        ensures small { self ≤ 2 ^ 40 }
    {
        self.ms
    }
}
