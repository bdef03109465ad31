ghost use Rattle.std.specs.Prelude.{◌≡◌, ◌+◌, ◌^◌, ◌<◌};

use crate::Fold;
use crate::folds::folds::{Greatest, Least, Sequence, Totals};
use crate::folds::neighbours::Neighbours;
use crate::folds::parts::{beside, greater, joined, lesser, spot_alone, total_alone, value_alone};
use pr_num::{Num, Total};
use spec_vectors::history::Spot;

/// A fold of values with their times whose summaries are worked out.
pub trait Summarize<A>: Fold<Spot, A> {
    /// The summary of one value.
    fn of_spot(spot: &Spot) -> A
        ensures { result ≡ Self.lift spot.now };

    /// The summary of two parts, one after the other.
    fn of_parts(first: &A, second: &A) -> A
        requires { Self.weight first.now + Self.weight second.now < 2 ^ 64 }
        ensures { result ≡ Self.combine first.now second.now };
}

impl Summarize<Total> for Totals {
    fn of_spot(spot: &Spot) -> Total {
        total_alone(spot)
    }

    fn of_parts(first: &Total, second: &Total) -> Total {
        joined(first, second)
    }
}

impl Summarize<Num> for Greatest {
    fn of_spot(spot: &Spot) -> Num {
        value_alone(spot)
    }

    fn of_parts(first: &Num, second: &Num) -> Num {
        greater(first, second)
    }
}

impl Summarize<Num> for Least {
    fn of_spot(spot: &Spot) -> Num {
        value_alone(spot)
    }

    fn of_parts(first: &Num, second: &Num) -> Num {
        lesser(first, second)
    }
}

impl Summarize<Neighbours> for Sequence {
    fn of_spot(spot: &Spot) -> Neighbours {
        spot_alone(spot)
    }

    fn of_parts(first: &Neighbours, second: &Neighbours) -> Neighbours {
        beside(first, second)
    }
}
