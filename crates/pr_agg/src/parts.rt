// The parts of a vector, each folded to a summary.
ghost use Rattle.std.specs.Prelude.{◌≡◌, ◌+◌, ◌<◌, ◌^◌, true, false, is_some, List, Some, IfOk, IfSome, IsSorted, OnOk};
ghost use Rattle.indexmap.specs.IndexMap.{IsUnique, Updates, get, keys};
ghost use Rattle.pr_labels.specs.declared.pair.Pair.{Pair};
ghost use Rattle.pr_labels.specs.Order.{labels_cmp, labels_eq};
ghost use Rattle.pr_window.specs.spec_vectors.Aggregation.{group_of};
ghost use Rattle.pr_window.specs.private.Folding.{Lifts, Combines, with_next};
ghost use Rattle.pr_agg.specs.private.Parts.{AreParts};

use crate::chosen::ChosenLabels;
use indexmap::IndexMap;
use pr_labels::{Grouping, Item, Labels};
use pr_num::Num;
use pr_window::Fold;
use std::alloc::{AllocError, Global};

/// The labels by which an element is grouped.
pub fn group_of(alloc: Global, by: &Grouping, item: &Item<Num>) -> Result<Labels, AllocError>
    ensures { IfOk result (λ l. l ≡ group_of by.now item.now) }
{
    item.labels.key(alloc, by.by, by.names.as_slice())
}

/// Chooses the labels by which an element is grouped, where they stand.
pub fn choose_group<'a>(
    group: &mut ChosenLabels<'a>,
    by: &Grouping,
    item: &'a Item<Num>,
) -> Result<(), AllocError>
    ensures { OnOk result (group.new ≡ group_of by.now item.now) }
{
    group.choose(by.by, by.names.as_slice(), &item.labels)
}

// The summary of a part with one more value.
fn next_summary<A: Copy, M: Fold<Num, A>, L: Fn(&Num) -> A, C: Fn(&A, &A) -> A>(
    so_far: Option<A>,
    value: &Num,
    lift: &L,
    combine: &C,
) -> A
    requires lift { Lifts L.Fn lift.now M.lift }
    requires combine { Combines C.Fn combine.now M.combine M.weight }
    requires light { IfSome so_far (λ a. M.weight a + 1 < 2 ^ 64) }
    ensures { result ≡ with_next M.lift M.combine so_far value.now }
{
    let lifted = lift(value);
    match so_far {
        None => lifted,
        Some(summary) => combine(&summary, &lifted),
    }
}

// Puts a value into the summary of its part, where the part is there.
fn add_known<A: Copy, M: Fold<Num, A>, L: Fn(&Num) -> A, C: Fn(&A, &A) -> A>(
    parts: &mut IndexMap<Labels, A>,
    group: &ChosenLabels<'_>,
    value: &Num,
    lift: &L,
    combine: &C,
) -> bool
    requires lift { Lifts L.Fn lift.now M.lift }
    requires combine { Combines C.Fn combine.now M.combine M.weight }
    requires light { IfSome (get labels_eq parts.old group.now) (λ a. M.weight a + 1 < 2 ^ 64) }
    ensures known { result ≡ is_some (get labels_eq parts.old group.now) }
    ensures updates { result ≡ true → Updates labels_eq parts.old parts.new group.now (Some (with_next M.lift M.combine (get labels_eq parts.old group.now) value.now)) }
    ensures unique { result ≡ true → IsUnique labels_eq parts.new }
    ensures same { result ≡ false → parts.new ≡ parts.old }
{
    match parts.get_mut(group) {
        Some(summary) => {
            *summary = next_summary::<A, M, L, C>(Some(*summary), value, lift, combine);
            true
        }
        None => false,
    }
}

// Puts the value of an element into the summary of its part.
fn add_value<A: Copy, M: Fold<Num, A>, L: Fn(&Num) -> A, C: Fn(&A, &A) -> A>(
    alloc: Global,
    parts: &mut IndexMap<Labels, A>,
    group: &ChosenLabels<'_>,
    by: &Grouping,
    item: &Item<Num>,
    lift: &L,
    combine: &C,
) -> Result<(), AllocError>
    requires group { group.now ≡ group_of by.now item.now }
    requires lift { Lifts L.Fn lift.now M.lift }
    requires combine { Combines C.Fn combine.now M.combine M.weight }
    requires light { IfSome (get labels_eq parts.old group.now) (λ a. M.weight a + 1 < 2 ^ 64) }
    ensures updates { OnOk result (Updates labels_eq parts.old parts.new group.now (Some (with_next M.lift M.combine (get labels_eq parts.old group.now) item.now.value))) }
    ensures unique { OnOk result (IsUnique labels_eq parts.new) }
{
    let known = add_known::<A, M, L, C>(parts, group, &item.value, lift, combine);
    if known {
        return Ok(());
    }
    let first = next_summary::<A, M, L, C>(None, &item.value, lift, combine);
    let labels = group_of(alloc, by, item)?;
    parts.insert(labels, first)?;
    Ok(())
}

/// Puts the groups in label order.
pub fn sort_groups<A>(parts: &mut IndexMap<Labels, A>) -> Result<(), AllocError>
    ensures sorted { OnOk result (IsSorted labels_cmp (keys parts.new)) }
    ensures same { (q : List Pair) → get labels_eq parts.new q ≡ get labels_eq parts.old q }
    ensures unique { IsUnique labels_eq parts.new }
{
    parts.sort_keys()
}

/// The summary of each part by the labels of its group, in label order.
pub fn fold_parts<A: Copy, M: Fold<Num, A>, L: Fn(&Num) -> A, C: Fn(&A, &A) -> A>(
    alloc: Global,
    vector: &[Item<Num>],
    by: &Grouping,
    lift: &L,
    combine: &C,
) -> Result<IndexMap<Labels, A>, AllocError>
    requires lift { Lifts L.Fn lift.now M.lift }
    requires combine { Combines C.Fn combine.now M.combine M.weight }
    ensures { IfOk result (λ m. AreParts M.lift M.combine (group_of by.now) vector.now m) }
{
    let mut parts: IndexMap<Labels, A> = IndexMap::new(alloc);
    let mut group = ChosenLabels::new(alloc);
    for item in vector {
        choose_group(&mut group, by, item)?;
        add_value::<A, M, L, C>(alloc, &mut parts, &group, by, item, lift, combine)?;
    }
    sort_groups(&mut parts)?;
    Ok(parts)
}
