// What arguments give, as it is wanted.
ghost use Rattle.std.specs.Prelude.{◌≡◌};
ghost use Rattle.std.specs.List.{All};
ghost use Rattle.pr_range.specs.spec_vectors.private.Laws.{IsVector};
ghost use Rattle.spec_meaning.specs.private.Laws.{IsAnswer};
ghost use Rattle.spec_meaning.specs.Given.{elements_given, number_given, number_or};
ghost use Rattle.pr_eval.specs.private.Plain.{all_plain};

use pr_labels::Item;
use pr_num::Num;
use spec_meaning::Value;

/// The elements of the vector at a place.
pub(crate) fn elements_given(given: &[Value], place: usize) -> &[Item<Num>]
    ensures elements { result.now ≡ elements_given (all_plain given.now) place }
    ensures vector { All IsAnswer given.now → IsVector result.now }
{
    match given.get(place) {
        Some(Value::Vector { items }) => items.as_slice(),
        _ => &[],
    }
}

/// The number of the scalar at a place, or another one where there is none.
pub(crate) fn number_or(default: Num, given: &[Value], place: usize) -> Num
    ensures { result ≡ number_or default (all_plain given.now) place }
{
    match given.get(place) {
        Some(Value::Scalar { value }) => *value,
        _ => default,
    }
}

/// The number of the scalar at a place, and NaN where there is none.
pub(crate) fn number_given(given: &[Value], place: usize) -> Num
    ensures { result ≡ number_given (all_plain given.now) place }
{
    number_or(Num::NaN, given, place)
}
