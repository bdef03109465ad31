// What a rule makes of elements, by their labels, so that equal labels are seen.
ghost use Rattle.std.specs.Prelude.{◌≡◌, List, [], ◌∷◌, ◌++◌, IfOk, OnOk, map};
ghost use Rattle.spec_rules.specs.spec_alerts.declared.found.RuleElement.{RuleElement};
ghost use Rattle.spec_rules.specs.declared.fault.RuleFault.TheVariants.{SameAfterRule};
ghost use Rattle.spec_rules.specs.private.Laws.{FoundsRise};
ghost use Rattle.spec_rules.specs.Results.{failure, founds_apart, without_place};
ghost use Rattle.pr_rule.specs.private.Coming.{ComesTo};
ghost use Rattle.pr_rule.specs.private.Rows.{AreRows, found_in};

use crate::rule_result::error::RuleError;
use pr_ast::num::Num;
use pr_eval::functions::keep_least;
use pr_labels::ordered::Ordered;
use pr_labels::words_crate::Items;
use pr_labels::{Item, Labels, Pair};
use spec_rules::alerts_crate::RuleElement;
use spec_rules::{RuleFailure, RuleFault};
use std::alloc::{AllocError, Global};

/// What an element has besides its labels.
#[derive(Drop)]
pub(crate) struct ElementRest {
    pub(crate) notes: Items<Pair>,
    pub(crate) value: Num,
}

/// The first element with each of the labels, and the least labels that came again.
#[derive(Drop)]
pub(crate) struct DistinctElements {
    pub(crate) founds: Ordered<ElementRest>,
    pub(crate) again: Option<Labels>,
}

/// No elements, with room for so many.
pub(crate) fn no_rows(alloc: Global, capacity: usize) -> Result<DistinctElements, AllocError>
    ensures { IfOk result (AreRows []) }
{
    Ok(DistinctElements {
        founds: Ordered::with_capacity(alloc, capacity)?,
        again: None,
    })
}

/// Puts an element among those so far.
pub(crate) fn put(rows: &mut DistinctElements, found: RuleElement) -> Result<(), AllocError>
    ensures { (front : List RuleElement) → AreRows front rows.old → OnOk result (AreRows (front ++ found ∷ []) rows.new) }
{
    let RuleElement {
        labels,
        notes,
        value,
    } = found;
    match rows.founds.put(labels, ElementRest { notes, value })? {
        None => Ok(()),
        Some(labels) => {
            keep_least(&mut rows.again, labels);
            Ok(())
        }
    }
}

// Two elements have the same labels once the rule has set its own.
fn same_after_rule(labels: Labels) -> RuleFailure
    ensures { result ≡ failure 0 (SameAfterRule labels) }
{
    RuleFailure {
        place: 0,
        kind: RuleFault::SameAfterRule { labels },
    }
}

fn found_in(item: Item<ElementRest>) -> RuleElement
    ensures { result ≡ found_in item }
{
    let Item { labels, value: row } = item;
    RuleElement {
        labels,
        notes: row.notes,
        value: row.value,
    }
}

fn all_found_in(
    alloc: Global,
    items: Vec<Item<ElementRest>>,
) -> Result<Vec<RuleElement>, AllocError>
    ensures { IfOk result (λ v. v.items ≡ map found_in items.items) }
{
    let mut founds = Vec::with_capacity(alloc, items.len())?;
    for item in items {
        founds.push(found_in(item))?;
    }
    Ok(founds)
}

/// The elements in label order, unless two of them have equal labels.
pub(crate) fn founds_apart(
    alloc: Global,
    rows: DistinctElements,
) -> Result<Vec<RuleElement>, RuleError>
    ensures comes { (front : List RuleElement) → AreRows front rows → ComesTo (without_place (founds_apart front)) result }
    ensures rising { IfOk result (λ v. FoundsRise v.items) }
{
    let DistinctElements { founds, again } = rows;
    match again {
        Some(labels) => Err(RuleError::Failed {
            failure: same_after_rule(labels),
        }),
        None => Ok(all_found_in(alloc, founds.into_items()?)?),
    }
}
