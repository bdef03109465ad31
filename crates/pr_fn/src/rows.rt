// The elements of a result in label order, so that equal labels are seen.
ghost use Rattle.std.specs.Prelude.{◌≡◌, List, ◌∷◌, ◌++◌, [], Ok, Err, IfOk, IfSome, OnOk, MatchResult};
ghost use Rattle.pr_num.specs.declared.value.Num.{Num};
ghost use Rattle.pr_match.specs.pr_labels.declared.item.Item.{Item};
ghost use Rattle.spec_vectors.specs.private.Laws.{IsVector};
ghost use Rattle.spec_vectors.specs.Vectors.{element};
ghost use Rattle.spec_vectors.specs.Functions.{told_apart};
ghost use Rattle.pr_fn.specs.private.Faults.{function_told};
ghost use Rattle.pr_fn.specs.private.Rows.{AreRows, is_below, least_with};

use crate::fn_fault::FnFault;
use pr_match::labels::ordered::Ordered;
use pr_match::labels::{Item, Labels};
use pr_num::Num;
use std::alloc::{AllocError, Global};

/// The first element with each of the labels, and the least labels that came again.
#[derive(Drop)]
pub struct DistinctElements {
    pub elements: Ordered<Num>,
    pub again: Option<Labels>,
}

/// No elements, with room for so many.
pub fn no_rows(alloc: Global, capacity: usize) -> Result<DistinctElements, AllocError>
    ensures { IfOk result (AreRows []) }
{
    Ok(DistinctElements {
        elements: Ordered::with_capacity(alloc, capacity)?,
        again: None,
    })
}

fn is_below(labels: &Labels, least: &Option<Labels>) -> bool
    ensures { result ≡ is_below labels.now least.now }
{
    match least {
        Some(least) => labels.cmp(least).is_lt(),
        None => true,
    }
}

/// Keeps the least of the labels that came again.
pub fn keep_least(least: &mut Option<Labels>, labels: Labels)
    ensures { least.new ≡ least_with least.old labels }
{
    if is_below(&labels, least) {
        *least = Some(labels);
    }
}

/// Puts an element among those so far.
pub fn put(rows: &mut DistinctElements, labels: Labels, value: Num) -> Result<(), AllocError>
    ensures { (front : List (Item Num)) → AreRows front rows.old → OnOk result (AreRows (front ++ element labels value ∷ []) rows.new) }
{
    match rows.elements.put(labels, value)? {
        None => Ok(()),
        Some(labels) => {
            keep_least(&mut rows.again, labels);
            Ok(())
        }
    }
}

/// The elements in label order, unless two of them have equal labels.
pub fn told_apart(rows: DistinctElements) -> Result<Vec<Item<Num>>, FnFault>
    ensures told { (front : List (Item Num)) → AreRows front rows → MatchResult result
        (λ v. told_apart front ≡ Ok v.items)
        (λ e. IfSome (function_told e) (λ fault. told_apart front ≡ Err fault)) }
    ensures vector { IfOk result (λ v. IsVector v.items) }
{
    let DistinctElements { elements, again } = rows;
    match again {
        Some(labels) => Err(FnFault::SameLabels { labels }),
        None => Ok(elements.into_items()?),
    }
}
