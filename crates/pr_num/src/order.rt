//! The order of values.
ghost use Rattle.std.specs.Prelude.{◌≡◌};
ghost use Rattle.pr_num.specs.Order.{compared, order_of};

use crate::value::Num;
use std::cmp::Ordering;

impl Num {
    /// How two values stand as numbers, or nothing where one of them is NaN.
    #[tactic(auto, unfolding(crate::specs::Order::compared))]
    pub fn compare(self, b: Num) -> Option<Ordering>
        ensures { result ≡ compared self b }
    {
        match self {
            Num::NaN => None,
            Num::Finite(x) => match b {
                Num::NaN => None,
                Num::Finite(y) => Some(x.units().cmp(&y.units())),
                Num::PosInf => Some(Ordering::Less),
                Num::NegInf => Some(Ordering::Greater),
            },
            Num::PosInf => match b {
                Num::NaN => None,
                Num::PosInf => Some(Ordering::Equal),
                _ => Some(Ordering::Greater),
            },
            Num::NegInf => match b {
                Num::NaN => None,
                Num::NegInf => Some(Ordering::Equal),
                _ => Some(Ordering::Less),
            },
        }
    }

    /// The total order of values: NaN first, then as numbers. It is the order in which lists of
    /// values are sorted (own choice).
    #[tactic(auto, unfolding(crate::specs::Order::order_of))]
    pub fn order(self, b: Num) -> Ordering
        ensures { result ≡ order_of self b }
    {
        match self {
            Num::NaN => match b {
                Num::NaN => Ordering::Equal,
                _ => Ordering::Less,
            },
            Num::Finite(x) => match b {
                Num::NaN | Num::NegInf => Ordering::Greater,
                Num::Finite(y) => x.units().cmp(&y.units()),
                Num::PosInf => Ordering::Less,
            },
            Num::PosInf => match b {
                Num::PosInf => Ordering::Equal,
                _ => Ordering::Greater,
            },
            Num::NegInf => match b {
                Num::NaN => Ordering::Greater,
                Num::NegInf => Ordering::Equal,
                _ => Ordering::Less,
            },
        }
    }
}
