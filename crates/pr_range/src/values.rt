// Functions of the values of a range, of which there is one at least.
ghost use Rattle.std.specs.Prelude.{◌≡◌, ◌<◌, ◌^◌, ◌∷◌, length, IfOk, IsSorted};
ghost use Rattle.spec_vectors.specs.pr_num.Order.{order_of};
ghost use Rattle.spec_vectors.specs.Aggregation.{quantile_of_values, in_value_order};
ghost use Rattle.spec_vectors.specs.Spots.{last_of, numbers_of};

use pr_head::history::Spot;
use spec_vectors::num::Num;
use std::alloc::{AllocError, Global};

/// The last of a value and those behind it.
#[tactic(auto, using(crate::proofs::Neighbours::last_some, crate::proofs::Neighbours::last_none))]
pub fn last_of<'a>(first: &'a Spot, rest: &'a [Spot]) -> &'a Spot
    ensures { result.now ≡ last_of first.now rest.now }
{
    match rest.last() {
        Some(last) => last,
        None => first,
    }
}

// The values alone, in order of time.
fn numbers(alloc: Global, first: &Spot, rest: &[Spot]) -> Result<Vec<Num>, AllocError>
    requires { length rest.now < 2 ^ 20 }
    ensures { IfOk result (λ v. v.items ≡ numbers_of (first.now ∷ rest.now)) }
{
    let mut numbers = Vec::with_capacity(alloc, 1 + rest.len())?;
    numbers.push(first.value)?;
    for spot in rest {
        numbers.push(spot.value)?;
    }
    Ok(numbers)
}

// The values in order, NaN first.
fn sorted(alloc: Global, first: &Spot, rest: &[Spot]) -> Result<Vec<Num>, AllocError>
    requires { length rest.now < 2 ^ 20 }
    ensures values { IfOk result (λ v. v.items ≡ in_value_order order_of (numbers_of (first.now ∷ rest.now))) }
    ensures order { IfOk result (λ v. IsSorted order_of v.items) }
{
    let mut sorted = numbers(alloc, first, rest)?;
    sorted.sort_by(|a, b| a.order(*b))?;
    Ok(sorted)
}

// The quantile of the values.
pub(crate) fn quantile(
    alloc: Global,
    fraction: Num,
    first: &Spot,
    rest: &[Spot],
) -> Result<Num, AllocError>
    requires { length rest.now < 2 ^ 20 }
    ensures { IfOk result (λ v. v ≡ quantile_of_values fraction (numbers_of (first.now ∷ rest.now))) }
{
    let sorted = sorted(alloc, first, rest)?;
    Ok(spec_vectors::num::quantile(fraction, &sorted))
}
