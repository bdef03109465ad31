// Alerts and samples, compared one after another.
ghost use Rattle.std.specs.Prelude.{◌≡◌};
ghost use Rattle.std.specs.Cmp.Lexicographic.{pointwise};
ghost use Rattle.pr_num.specs.Same.{same_num};
ghost use Rattle.spec_tests.specs.Verdict.{same_found, same_item};

use pr_ast::labels::Item;
use pr_group::alerts_crate::RuleElement;
use pr_num::Num;

// Whatever their values are.
fn is_same_found(a: &RuleElement, b: &RuleElement) -> bool
    ensures { result ≡ same_found a.now b.now }
{
    a.labels == b.labels && a.notes.as_slice() == b.notes.as_slice()
}

fn is_same_item(a: &Item<Num>, b: &Item<Num>) -> bool
    ensures { result ≡ same_item a.now b.now }
{
    a.labels == b.labels && a.value == b.value
}

/// Whether alerts have the labels and the annotations that are expected, each in its place.
pub(crate) fn are_same_founds(expected: &[RuleElement], got: &[RuleElement]) -> bool
    ensures { result ≡ pointwise same_found expected.now got.now }
{
    let mut left = expected;
    let mut right = got;
    'pairs: while let Some((first, more)) = left.split_first() {
        match right.split_first() {
            Some((second, rest)) => {
                if !is_same_found(first, second) {
                    return false;
                }
                left = more;
                right = rest;
            }
            None => return false,
        }
    }
    right.is_empty()
}

/// Whether samples have the labels and the values that are expected, each in its place. NaN is as
/// NaN.
pub(crate) fn are_same_items(expected: &[Item<Num>], got: &[Item<Num>]) -> bool
    ensures { result ≡ pointwise same_item expected.now got.now }
{
    let mut left = expected;
    let mut right = got;
    'pairs: while let Some((first, more)) = left.split_first() {
        match right.split_first() {
            Some((second, rest)) => {
                if !is_same_item(first, second) {
                    return false;
                }
                left = more;
                right = rest;
            }
            None => return false,
        }
    }
    right.is_empty()
}
