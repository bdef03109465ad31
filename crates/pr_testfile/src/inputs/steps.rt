// Values that rise or fall evenly.
ghost use Rattle.std.specs.Prelude.{◌≡◌, ◌^◌, ◌≤◌, ◌+ℤ◌, ◌*ℤ◌, pos};
ghost use Rattle.std.specs.Option.{option_map};
ghost use Rattle.std.specs.Result.{result_ok};
ghost use Rattle.pr_num.specs.Units.{IsNano};
ghost use Rattle.pr_num.specs.Arithmetic.{fitted};
ghost use Rattle.pr_num.specs.declared.value.Num.TheVariants.{Finite};
ghost use Rattle.pr_testfile.specs.Steps.{stepped, value_at, kept, zero_value, rising, falling};

use crate::inputs::stretch::Stretch;
use pr_num::{Nano, Num, TooWide};

// The value of so many units, where they are not too many.
#[tactic(auto, using(crate::proofs::Even::by_new))]
fn fitted(units: i128) -> Option<Nano>
    ensures { option_map Finite result ≡ result_ok (fitted units) }
{
    Nano::new(units)
}

// The same after so many steps of so many units.
#[tactic(auto, using(crate::proofs::Even::too_wide_is_none))]
fn plus_steps(first: i128, by: i128, steps: u128) -> Option<Nano>
    requires first { IsNano first }
    requires steps { steps ≤ 2 ^ 100 }
    ensures { option_map Finite result ≡ result_ok (fitted (first +ℤ by *ℤ pos steps)) }
{
    match by.checked_mul(steps as i128) {
        Some(change) => match first.checked_add(change) {
            Some(units) => fitted(units),
            None => None,
        },
        None => None,
    }
}

// The value after so many even steps, where it is not too wide.
fn even(first: Nano, by: Nano, steps: u128) -> Option<Nano>
    requires { steps ≤ 2 ^ 100 }
    ensures { option_map Finite result ≡ result_ok (fitted (first +ℤ by *ℤ pos steps)) }
{
    plus_steps(first.units(), by.units(), steps)
}

fn stepped(first: &Num, by: &Num, steps: u128) -> Result<Num, TooWide>
    ensures { result ≡ stepped first.now by.now steps }
{
    if steps == 0 {
        Ok(*first)
    } else {
        first.add(*by)
    }
}

/// The value after so many steps.
pub(crate) fn value_at(first: &Num, by: &Num, steps: u128) -> Result<Num, TooWide>
    requires { steps ≤ 2 ^ 100 }
    ensures { result ≡ value_at first.now by.now steps }
{
    match first {
        Num::Finite(a) => match by {
            Num::Finite(b) => match even(*a, *b, steps) {
                Some(value) => Ok(Num::Finite(value)),
                None => Err(TooWide),
            },
            Num::NaN | Num::PosInf | Num::NegInf => stepped(first, by, steps),
        },
        Num::NaN | Num::PosInf | Num::NegInf => stepped(first, by, steps),
    }
}

/// What is kept of a count.
pub(crate) fn kept(count: u128) -> u32
    ensures { result ≡ kept count }
{
    count.min(u128::from(u32::MAX)) as u32
}

pub(crate) fn zero_value() -> Num
    ensures { result ≡ zero_value }
{
    Num::whole(0)
}

/// A value, and so many more that rise by a step.
pub(crate) fn rising(first: Option<Num>, by: Option<Num>, more: u128) -> Option<Stretch>
    requires { more ≤ 2 ^ 100 }
    ensures { result ≡ rising first by more }
{
    let first = first?;
    let by = by?;
    match value_at(&first, &by, more) {
        Ok(_last) => Some(Stretch::Steps {
            first,
            by,
            more: kept(more),
        }),
        Err(_wide) => None,
    }
}

/// The same of values that fall.
pub(crate) fn falling(first: Option<Num>, by: Option<Num>, more: u128) -> Option<Stretch>
    requires { more ≤ 2 ^ 100 }
    ensures { result ≡ falling first by more }
{
    let by = match by {
        Some(by) => Some(by.neg()),
        None => None,
    };
    rising(first, by, more)
}
