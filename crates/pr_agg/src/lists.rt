// The values of each part, gathered.
ghost use Rattle.std.specs.Prelude.{◌≡◌, true, false, is_some, Some, Ok, IfOk, OnOk, IsSorted};
ghost use Rattle.indexmap.specs.IndexMap.{IsUnique, Updates, get};
ghost use Rattle.pr_num.specs.Order.{order_of};
ghost use Rattle.pr_labels.specs.Order.{labels_eq};
ghost use Rattle.pr_window.specs.spec_vectors.private.Laws.{IsVector};
ghost use Rattle.pr_window.specs.spec_vectors.Aggregation.{of_groups, always, group_of, in_value_order, quantile_of_values};
ghost use Rattle.pr_window.specs.private.Folding.{with_next};
ghost use Rattle.pr_agg.specs.private.Lists.{alone, one_after_other, quantiles_in};
ghost use Rattle.pr_agg.specs.private.Parts.{AreParts};

use crate::chosen::ChosenLabels;
use crate::parts::{choose_group, group_of, sort_groups};
use indexmap::IndexMap;
use pr_labels::{Grouping, Item, Labels};
use pr_num::Num;
use pr_window::words_crate::Items;
use std::alloc::{AllocError, Global};

// Puts a value at the end of its part, where the part is there.
fn push_known(
    parts: &mut IndexMap<Labels, Items<Num>>,
    group: &ChosenLabels<'_>,
    value: &Num,
) -> Result<bool, AllocError>
    ensures pushed { IfOk result (λ b. b ≡ is_some (get labels_eq parts.old group.now)) }
    ensures updates { IfOk result (λ b. b ≡ true → Updates labels_eq parts.old parts.new group.now (Some (with_next alone one_after_other (get labels_eq parts.old group.now) value.now))) }
    ensures unique { IfOk result (λ b. b ≡ true → IsUnique labels_eq parts.new) }
    ensures same { IfOk result (λ b. b ≡ false → parts.new ≡ parts.old) }
{
    match parts.get_mut(group) {
        Some(values) => {
            values.push(*value)?;
            Ok(true)
        }
        None => Ok(false),
    }
}

// Puts the value of an element at the end of its part.
fn add_value(
    alloc: Global,
    parts: &mut IndexMap<Labels, Items<Num>>,
    group: &ChosenLabels<'_>,
    by: &Grouping,
    item: &Item<Num>,
) -> Result<(), AllocError>
    requires { group.now ≡ group_of by.now item.now }
    ensures updates { OnOk result (Updates labels_eq parts.old parts.new group.now (Some (with_next alone one_after_other (get labels_eq parts.old group.now) item.now.value))) }
    ensures unique { OnOk result (IsUnique labels_eq parts.new) }
{
    let known = push_known(parts, group, &item.value)?;
    if known {
        return Ok(());
    }
    let mut values = Items::empty(alloc);
    values.push(item.value)?;
    let labels = group_of(alloc, by, item)?;
    parts.insert(labels, values)?;
    Ok(())
}

/// The values of each part, in label order of the groups and of the elements.
pub fn gather(
    alloc: Global,
    vector: &[Item<Num>],
    by: &Grouping,
) -> Result<IndexMap<Labels, Items<Num>>, AllocError>
    ensures { IfOk result (λ m. AreParts alone one_after_other (group_of by.now) vector.now m) }
{
    let mut parts: IndexMap<Labels, Items<Num>> = IndexMap::new(alloc);
    let mut group = ChosenLabels::new(alloc);
    for item in vector {
        choose_group(&mut group, by, item)?;
        add_value(alloc, &mut parts, &group, by, item)?;
    }
    sort_groups(&mut parts)?;
    Ok(parts)
}

// The values in order, NaN first.
fn sorted(values: Items<Num>) -> Result<Vec<Num>, AllocError>
    ensures values { IfOk result (λ v. v.items ≡ in_value_order order_of values) }
    ensures order { IfOk result (λ v. IsSorted order_of v.items) }
{
    let mut sorted = values.into_vec();
    sorted.sort_by(|a, b| a.order(*b))?;
    Ok(sorted)
}

// The quantile of the values of each part.
fn quantiles(
    alloc: Global,
    phi: &Num,
    parts: IndexMap<Labels, Items<Num>>,
) -> Result<Vec<Item<Num>>, AllocError>
    ensures { IfOk result (λ v. v.items ≡ quantiles_in phi.now parts.entries) }
{
    let mut items = Vec::new(alloc);
    for (labels, values) in parts {
        let sorted = sorted(values)?;
        items.push(Item {
            labels,
            value: pr_num::quantile(*phi, &sorted),
        })?;
    }
    Ok(items)
}

/// The quantile `phi` of each group's values, which are put in order with NaN first: NaN where
/// `phi` is, -Inf for one below 0 and +Inf for one above 1. (Prometheus: Aggregation operators.)
pub fn quantile(
    alloc: Global,
    phi: Num,
    vector: &[Item<Num>],
    by: &Grouping,
) -> Result<Vec<Item<Num>>, AllocError>
    ensures aggregated { IfOk result (λ v. of_groups (always (quantile_of_values phi)) by.now vector.now ≡ Ok v.items) }
    ensures vector { IfOk result (λ v. IsVector v.items) }
{
    let parts = gather(alloc, vector, by)?;
    quantiles(alloc, &phi, parts)
}
