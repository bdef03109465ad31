// Checks of alerts.
ghost use Rattle.std.specs.Prelude.{◌≡◌, ◌∷◌, [], IfOk};
ghost use Rattle.spec_tests.specs.declared.failure.Shown.TheVariants.{Alerts};
ghost use Rattle.spec_tests.specs.Verdict.{alert_failure, failure};

use crate::expected::compare::are_same_founds;
use crate::expected::firing::copy_notes;
use pr_ast::words_crate::Items;
use pr_group::alerts_crate::RuleElement;
use spec_tests::{Failure, Shown};
use std::alloc::{AllocError, Global};

fn copy_found(alloc: Global, found: &RuleElement) -> Result<RuleElement, AllocError>
    ensures { IfOk result (λ f. f ≡ found.now) }
{
    Ok(RuleElement {
        labels: found.labels.copy(alloc)?,
        notes: copy_notes(alloc, found.notes.as_slice())?,
        value: found.value,
    })
}

fn copy_founds(alloc: Global, founds: &[RuleElement]) -> Result<Items<RuleElement>, AllocError>
    ensures { IfOk result (λ list. list ≡ founds.now) }
{
    let mut copies = Vec::new(alloc);
    for found in founds {
        copies.push(copy_found(alloc, found)?)?;
    }
    Ok(Items::new(copies))
}

fn differing(
    alloc: Global,
    test: u64,
    check: u64,
    expected: &[RuleElement],
    got: Items<RuleElement>,
) -> Result<Items<Failure>, AllocError>
    ensures { IfOk result (λ list. list ≡ failure test check (Alerts expected.now) (Alerts got) ∷ []) }
{
    let expected = Shown::Alerts {
        list: copy_founds(alloc, expected)?,
    };
    let mut failures = Items::empty(alloc);
    failures.push(Failure {
        test,
        check,
        expected,
        got: Shown::Alerts { list: got },
    })?;
    Ok(failures)
}

/// The failure of a check of alerts, if they differ from those that are expected, by their labels
/// and annotations.
///
/// # Errors
/// Want of memory.
pub fn alert_failure(
    alloc: Global,
    test: u64,
    check: u64,
    expected: &[RuleElement],
    got: Items<RuleElement>,
) -> Result<Items<Failure>, AllocError>
    ensures { IfOk result (λ list. list ≡ alert_failure test check expected.now got) }
{
    if are_same_founds(expected, got.as_slice()) {
        return Ok(Items::empty(alloc));
    }
    differing(alloc, test, check, expected, got)
}
