// A sample in little room.
ghost use Rattle.std.specs.Prelude.{◌≡◌, ◌^◌, ◌/◌, ◌<◌};
ghost use Rattle.pr_head.specs.private.Packed.{joined, point_at, point_numbers};

use crate::timed::Timed;
use pr_num::{Nano, Num, Point};
use spec_history::time::Ms;
use std::marker::Model;
use std::mem::size_of;

/// The number of the value 0.
const ZERO: i128 = 100_000_000_000_000_000_000_000_000_003;

/// How many numbers a word tells apart.
const WORD: u128 = 1 << 32;

/// A sample in 20 bytes, where a `Timed` takes 64: a time has 42 bits, and a number for each value
/// and the marker has 98. Contracts see the sample.
#[derive(Drop)]
pub(crate) struct Packed {
    time_low: u32,
    time_high: u16,
    point_top: u16,
    point_high: u32,
    point_middle: u32,
    point_low: u32,
}

const _: () = prove!(size_of::<Packed>() == 20);

impl Model for Packed {
    ghost use Rattle.std.specs.Prelude.{◌^◌, ◌<◌};
    ghost use Rattle.pr_head.specs.declared.timed.Timed.{Timed};
    ghost use Rattle.pr_head.specs.private.Stored.{timed_at};
    ghost use Rattle.pr_head.specs.private.Packed.{joined, joined_four, point_at, point_numbers};

    ghost Value = { Timed };

    ghost view = { λ p. timed_at (joined p.time_low p.time_high) (point_at (joined_four p.point_low p.point_middle p.point_high p.point_top)) };

    ghost invariant = { λ p. (joined p.time_low p.time_high < 2 ^ 42) × (joined_four p.point_low p.point_middle p.point_high p.point_top < point_numbers) };
}

// The number of a value.
fn number_of_value(value: Num) -> u128
    ensures point { point_at result ≡ Point.Value value }
    ensures small { result < point_numbers }
{
    match value {
        Num::NaN => 1,
        Num::PosInf => 2,
        Num::NegInf => 3,
        Num::Finite(finite) => (finite.units() + ZERO) as u128,
    }
}

// The number of a point.
fn number_of(point: Point) -> u128
    ensures point { point_at result ≡ point }
    ensures small { result < point_numbers }
{
    match point {
        Point::Value(value) => number_of_value(value),
        Point::Stale => 0,
    }
}

// The point with a number.
fn point_at(number: u128) -> Point
    requires { number < point_numbers }
    ensures { result ≡ point_at number }
{
    match number {
        0 => Point::Stale,
        1 => Point::Value(Num::NaN),
        2 => Point::Value(Num::PosInf),
        3 => Point::Value(Num::NegInf),
        _ => Point::Value(Num::Finite(Nano::new(number as i128 - ZERO).unwrap())),
    }
}

// The last bits of a number as a word, and those above them.
fn apart(number: u128) -> (u32, u128)
    ensures whole { joined result.0 result.1 ≡ number }
    ensures high { result.1 ≡ number / 2 ^ 32 }
{
    ((number % WORD) as u32, number / WORD)
}

// The number of a word and the bits above it.
fn joined(low: u32, high: u128) -> u128
    requires { high < 2 ^ 90 }
    ensures { result ≡ joined low high }
{
    low as u128 + WORD * high
}

impl Packed {
    /// The sample, packed.
    pub(crate) fn new(sample: &Timed) -> Packed
        ensures { result ≡ sample.now }
    {
        let time = sample.time.get();
        let (time_low, time_high) = apart(time as u128);
        let number = number_of(sample.point);
        let (point_low, above_low) = apart(number);
        let (point_middle, above_middle) = apart(above_low);
        let (point_high, point_top) = apart(above_middle);
        Packed {
            time_low,
            time_high: time_high as u16,
            point_top: point_top as u16,
            point_high,
            point_middle,
            point_low,
        }
    }

    /// When the sample stands.
    pub(crate) fn time(&self) -> Ms
        ensures { result ≡ self.now.time }
    {
        Ms::new(self.time_low as u64 + (1 << 32) * self.time_high as u64).unwrap()
    }

    /// The point of the sample.
    pub(crate) fn point(&self) -> Point
        ensures { result ≡ self.now.point }
    {
        let above_middle = joined(self.point_high, self.point_top as u128);
        let above_low = joined(self.point_middle, above_middle);
        point_at(joined(self.point_low, above_low))
    }

    /// The sample as it was.
    pub(crate) fn sample(&self) -> Timed
        ensures { result ≡ self.now }
    {
        Timed {
            time: self.time(),
            point: self.point(),
        }
    }
}
