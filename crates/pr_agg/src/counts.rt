// The aggregation `count_values`.
ghost use Rattle.std.specs.Prelude.{◌≡◌, ◌+◌, ◌<◌, ◌^◌, true, false, is_some, Some, IfOk, OnOk};
ghost use Rattle.std.specs.Option.{unwrap_or};
ghost use Rattle.indexmap.specs.IndexMap.{IsUnique, Updates, get};
ghost use Rattle.pr_num.specs.declared.value.Num.{Num};
ghost use Rattle.pr_num.specs.Shown.{shown};
ghost use Rattle.pr_labels.specs.Edits.{set_label};
ghost use Rattle.pr_labels.specs.Names.{is_label_name};
ghost use Rattle.pr_labels.specs.Order.{labels_eq};
ghost use Rattle.pr_window.specs.spec_vectors.private.Laws.{IsVector};
ghost use Rattle.pr_window.specs.spec_vectors.Aggregation.{counted, value_group};
ghost use Rattle.pr_agg.specs.private.Counts.{both_parts, numbered_all, one_each};
ghost use Rattle.pr_agg.specs.private.Parts.{AreParts};

use crate::numbers::whole;
use crate::parts::{group_of, sort_groups};
use indexmap::IndexMap;
use pr_labels::{Grouping, Item, Labels};
use pr_num::{Num, write};
use std::alloc::{AllocError, Global};
use std::str;

// Sets a label name to a text.
fn set_label(alloc: Global, labels: Labels, label: &str, text: &str) -> Result<Labels, AllocError>
    requires { is_label_name label.now ≡ true }
    ensures { IfOk result (λ l. l ≡ set_label labels label.now text.now) }
{
    let mut changed = labels;
    changed.assign(alloc, label, text)?;
    Ok(changed)
}

// Sets a label name to the printed value.
fn set_to_value(
    alloc: Global,
    labels: Labels,
    label: &str,
    value: Num,
) -> Result<Labels, AllocError>
    requires { is_label_name label.now ≡ true }
    ensures { IfOk result (λ l. l ≡ set_label labels label.now (shown value)) }
{
    let mut text = [0u8; 40];
    let length = write(value, &mut text);
    let printed = str::from_utf8(&text[..length]).unwrap();
    set_label(alloc, labels, label, printed)
}

// The labels by which an element is counted.
fn value_group(
    alloc: Global,
    label: &str,
    by: &Grouping,
    item: &Item<Num>,
) -> Result<Labels, AllocError>
    requires { is_label_name label.now ≡ true }
    ensures { IfOk result (λ l. l ≡ value_group label.now by.now item.now) }
{
    let group = group_of(alloc, by, item)?;
    set_to_value(alloc, group, label, item.value)
}

// Counts one more element of a group, where some were counted.
fn count_known(counts: &mut IndexMap<Labels, u64>, group: &Labels) -> bool
    requires { unwrap_or (get labels_eq counts.old group.now) 0 + 1 < 2 ^ 64 }
    ensures known { result ≡ is_some (get labels_eq counts.old group.now) }
    ensures counted { result ≡ true → Updates labels_eq counts.old counts.new group.now (Some (unwrap_or (get labels_eq counts.old group.now) 0 + 1)) }
    ensures unique { result ≡ true → IsUnique labels_eq counts.new }
    ensures same { result ≡ false → counts.new ≡ counts.old }
{
    match counts.get_mut(group) {
        Some(count) => {
            *count += 1;
            true
        }
        None => false,
    }
}

// Counts one more element of a group.
fn count_one(counts: &mut IndexMap<Labels, u64>, group: Labels) -> Result<(), AllocError>
    requires { unwrap_or (get labels_eq counts.old group) 0 + 1 < 2 ^ 64 }
    ensures counted { OnOk result (Updates labels_eq counts.old counts.new group (Some (unwrap_or (get labels_eq counts.old group) 0 + 1))) }
    ensures unique { OnOk result (IsUnique labels_eq counts.new) }
{
    let known = count_known(counts, &group);
    if known {
        return Ok(());
    }
    counts.insert(group, 1)?;
    Ok(())
}

// How many elements go by the same labels, in label order.
fn count_parts(
    alloc: Global,
    label: &str,
    vector: &[Item<Num>],
    by: &Grouping,
) -> Result<IndexMap<Labels, u64>, AllocError>
    requires { is_label_name label.now ≡ true }
    ensures { IfOk result (λ m. AreParts one_each both_parts (value_group label.now by.now) vector.now m) }
{
    let mut counts: IndexMap<Labels, u64> = IndexMap::new(alloc);
    for item in vector {
        let group = value_group(alloc, label, by, item)?;
        count_one(&mut counts, group)?;
    }
    sort_groups(&mut counts)?;
    Ok(counts)
}

// The counts as elements.
fn numbered(alloc: Global, counts: IndexMap<Labels, u64>) -> Result<Vec<Item<Num>>, AllocError>
    ensures { IfOk result (λ v. v.items ≡ numbered_all counts.entries) }
{
    let mut items = Vec::new(alloc);
    for (labels, count) in counts {
        items.push(Item {
            labels,
            value: whole(count),
        })?;
    }
    Ok(items)
}

/// How many elements of each group have the same value: for each printed value the group's labels
/// with `label` set to it, in place of what the group has there. (Prometheus: Aggregation
/// operators.)
pub fn count_values(
    alloc: Global,
    label: &str,
    vector: &[Item<Num>],
    by: &Grouping,
) -> Result<Vec<Item<Num>>, AllocError>
    requires { is_label_name label.now ≡ true }
    ensures counted { IfOk result (λ v. v.items ≡ counted label.now by.now vector.now) }
    ensures vector { IfOk result (λ v. IsVector v.items) }
{
    let counts = count_parts(alloc, label, vector, by)?;
    numbered(alloc, counts)
}
