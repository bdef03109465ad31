// The aggregations `topk` and `bottomk`.
ghost use Rattle.std.specs.Prelude.{◌≡◌, ◌+◌, ◌<◌, ◌^◌, ℕ, Some, Bool, filter, IfNone, IfOk, IfSome, OnOk, List, length, vec_len, slice_get};
ghost use Rattle.std.specs.Option.{unwrap_or};
ghost use Rattle.std.specs.BTreeMap.{Updates, get};
ghost use Rattle.pr_num.specs.declared.value.Num.{Num};
ghost use Rattle.pr_window.specs.pr_labels.declared.pair.Pair.{Pair};
ghost use Rattle.pr_window.specs.pr_labels.declared.item.Item.{Item};
ghost use Rattle.pr_window.specs.pr_labels.Order.{labels_cmp};
ghost use Rattle.pr_window.specs.spec_vectors.private.Laws.{IsVector};
ghost use Rattle.pr_window.specs.spec_vectors.Aggregation.{first_of_parts, greatest_first, is_within, least_first};
ghost use Rattle.pr_agg.specs.private.Firsts.{AreRanks, IsMarked, is_first, order_toward, rank_of, ranked};

use crate::parts::group_of;
use pr_labels::{Grouping, Item, Labels};
use pr_num::Num;
use std::alloc::{AllocError, Global};
use std::collections::BTreeMap;

/// How an element stands among others: by its value, then by its place, which is label order.
#[derive(Clone, Copy, Debug, PartialEq, Eq, PartialOrd, Ord)]
pub struct Rank {
    pub class: u8,
    pub units: i128,
    pub index: usize,
}

// The value by which the least one comes first.
fn ranked(greatest: bool, value: Num) -> Num
    ensures { result ≡ ranked greatest value }
{
    if greatest { value.neg() } else { value }
}

fn rank_of(greatest: bool, value: Num, index: usize) -> Rank
    ensures { result ≡ rank_of greatest value index }
{
    match ranked(greatest, value) {
        Num::NegInf => Rank {
            class: 0,
            units: 0,
            index,
        },
        Num::Finite(finite) => Rank {
            class: 1,
            units: finite.units(),
            index,
        },
        Num::PosInf => Rank {
            class: 2,
            units: 0,
            index,
        },
        Num::NaN => Rank {
            class: 3,
            units: 0,
            index,
        },
    }
}

// Whether an element with so many before it is one of the first k.
fn is_within(k: &Num, before: u64) -> bool
    ensures { result ≡ is_within k.now before }
{
    match k {
        Num::Finite(finite) => {
            let units = finite.units();
            units >= 0 && u128::from(before) < units.unsigned_abs() / 1_000_000_000
        }
        Num::PosInf => true,
        Num::NaN | Num::NegInf => false,
    }
}

/// The places of the elements by their ranks.
fn ranks_of(
    alloc: Global,
    greatest: bool,
    vector: &[Item<Num>],
) -> Result<BTreeMap<Rank, usize>, AllocError>
    ensures { IfOk result (λ m. AreRanks greatest vector.now vector.now m) }
{
    let mut ranks: BTreeMap<Rank, usize> = BTreeMap::new(alloc);
    for (index, item) in vector.iter().enumerate() {
        ranks.insert(rank_of(greatest, item.value, index), index)?;
    }
    Ok(ranks)
}

// Counts one more element of a group, where some were counted, and answers how many they were.
fn count_known(seen: &mut BTreeMap<Labels, u64>, group: &Labels) -> Option<u64>
    requires { unwrap_or (get labels_cmp seen.old group.now) 0 + 1 < 2 ^ 64 }
    ensures before { result ≡ get labels_cmp seen.old group.now }
    ensures counted { IfSome result (λ n. Updates labels_cmp seen.old seen.new group.now (Some (n + 1))) }
    ensures same { IfNone result (seen.new.entries ≡ seen.old.entries) }
{
    match seen.get_mut(group) {
        Some(count) => {
            let before = *count;
            *count = before + 1;
            Some(before)
        }
        None => None,
    }
}

// Counts one more element of a group, and answers how many were counted before.
fn count_one(seen: &mut BTreeMap<Labels, u64>, group: Labels) -> Result<u64, AllocError>
    requires { unwrap_or (get labels_cmp seen.old group) 0 + 1 < 2 ^ 64 }
    ensures before { IfOk result (λ n. n ≡ unwrap_or (get labels_cmp seen.old group) 0) }
    ensures counted { IfOk result (λ n. Updates labels_cmp seen.old seen.new group (Some (n + 1))) }
{
    match count_known(seen, &group) {
        Some(before) => Ok(before),
        None => {
            seen.insert(group, 1)?;
            Ok(0)
        }
    }
}

// Marks the element at a place, in order of rank.
fn mark_one(
    alloc: Global,
    k: &Num,
    vector: &[Item<Num>],
    by: &Grouping,
    index: usize,
    seen: &mut BTreeMap<Labels, u64>,
    marks: &mut Vec<bool>,
) -> Result<(), AllocError>
    requires place { index < length vector.now }
    requires long { vec_len marks.old ≡ length vector.now }
    requires small { (q : List Pair) → unwrap_or (get labels_cmp seen.old q) 0 < 2 ^ 63 }
    ensures { OnOk result ((e : Item Num) → slice_get vector.now index ≡ Some e → IsMarked k.now by.now e index seen.old marks.old.items seen.new marks.new.items) }
{
    let group = group_of(alloc, by, &vector[index])?;
    let before = count_one(seen, group)?;
    marks[index] = is_within(k, before);
    Ok(())
}

// Whether each element, by its place, is one of the first k of its part.
fn mark_first(
    alloc: Global,
    greatest: bool,
    k: &Num,
    vector: &[Item<Num>],
    by: &Grouping,
) -> Result<Vec<bool>, AllocError>
    requires { IsVector vector.now }
    ensures { IfOk result (λ v. (i : ℕ) (e : Item Num) → slice_get vector.now i ≡ Some e → slice_get v.items i ≡ Some (is_first greatest k.now by.now vector.now e)) }
{
    let ranks = ranks_of(alloc, greatest, vector)?;
    let mut marks = vec![in alloc; false; vector.len()]?;
    let mut seen: BTreeMap<Labels, u64> = BTreeMap::new(alloc);
    for (_rank, index) in ranks {
        mark_one(alloc, k, vector, by, index, &mut seen, &mut marks)?;
    }
    Ok(marks)
}

// The mark of a place.
fn is_marked(marks: &[bool], index: usize) -> bool
    ensures { (b : Bool) → slice_get marks.now index ≡ Some b → result ≡ b }
{
    match marks.get(index) {
        Some(mark) => *mark,
        None => false,
    }
}

// The elements that are marked.
fn marked_items(
    alloc: Global,
    vector: &[Item<Num>],
    marks: &[bool],
) -> Result<Vec<Item<Num>>, AllocError>
    ensures { (test : Item Num → Bool) → ((i : ℕ) (e : Item Num) → slice_get vector.now i ≡ Some e → slice_get marks.now i ≡ Some (test e))
        → IfOk result (λ v. v.items ≡ filter test vector.now) }
{
    let mut chosen = Vec::new(alloc);
    for (index, item) in vector.iter().enumerate() {
        if is_marked(marks, index) {
            chosen.push(item.copy(alloc)?)?;
        }
    }
    Ok(chosen)
}

// The first k elements of each part.
fn first_of_parts(
    alloc: Global,
    greatest: bool,
    k: &Num,
    vector: &[Item<Num>],
    by: &Grouping,
) -> Result<Vec<Item<Num>>, AllocError>
    requires { IsVector vector.now }
    ensures { IfOk result (λ v. v.items ≡ first_of_parts (order_toward greatest) k.now by.now vector.now) }
{
    let marks = mark_first(alloc, greatest, k, vector, by)?;
    marked_items(alloc, vector, &marks)
}

/// The k greatest elements of each group, with all their labels and in label order. NaN comes after
/// all others, and of equal values the first in label order comes first. k is rounded down; one
/// that is NaN or below 1 gives nothing. (Prometheus: Aggregation operators; ties are own choice.)
pub fn topk(
    alloc: Global,
    k: Num,
    vector: &[Item<Num>],
    by: &Grouping,
) -> Result<Vec<Item<Num>>, AllocError>
    requires { IsVector vector.now }
    ensures first { IfOk result (λ v. v.items ≡ first_of_parts greatest_first k by.now vector.now) }
    ensures vector { IfOk result (λ v. IsVector v.items) }
{
    first_of_parts(alloc, true, &k, vector, by)
}

/// The k least elements of each group, by the same rules as `topk`. (Prometheus: Aggregation
/// operators.)
pub fn bottomk(
    alloc: Global,
    k: Num,
    vector: &[Item<Num>],
    by: &Grouping,
) -> Result<Vec<Item<Num>>, AllocError>
    requires { IsVector vector.now }
    ensures first { IfOk result (λ v. v.items ≡ first_of_parts least_first k by.now vector.now) }
    ensures vector { IfOk result (λ v. IsVector v.items) }
{
    first_of_parts(alloc, false, &k, vector, by)
}
