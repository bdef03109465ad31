// Set operators between two vectors.
ghost use Rattle.std.specs.Prelude.{◌≡◌, IfOk, OnOk, fold, List, []};
ghost use Rattle.spec_vectors.specs.pr_labels.declared.item.Item.{Item};
ghost use Rattle.spec_vectors.specs.pr_labels.declared.matching.Matching.{Matching};
ghost use Rattle.spec_vectors.specs.pr_num.declared.value.Num.{Num};
ghost use Rattle.spec_vectors.specs.private.Laws.{IsVector};
ghost use Rattle.spec_vectors.specs.Vectors.{with_element};
ghost use Rattle.spec_vectors.specs.Matching.{both_sides, left_alone, either_side, is_matched, key_of};
ghost use Rattle.pr_join.specs.private.Sets.{AreKeysOf, matched, with_match};
ghost use Rattle.pr_join.specs.private.Rows.{elements};

use crate::places::{choose_key, chosen_key};
use crate::rows::{elements_of, put};
use indexmap::IndexMap;
use pr_agg::ChosenLabels;
use spec_vectors::labels::{Item, Labels, Matching};
use spec_vectors::num::Num;
use std::alloc::{AllocError, Global};
use std::collections::BTreeMap;

// The keys of a side's elements, where their labels stand.
fn keys_of<'a>(
    alloc: Global,
    how: &Matching,
    side: &'a [Item<Num>],
) -> Result<IndexMap<ChosenLabels<'a>, ()>, AllocError>
    ensures { IfOk result (λ m. AreKeysOf how.now side.now m) }
{
    let mut keys: IndexMap<ChosenLabels<'a>, ()> = IndexMap::new(alloc);
    for item in side {
        keys.insert(chosen_key(alloc, how, item)?, ())?;
    }
    Ok(keys)
}

// Whether one of the keys of the other side is that of the element.
fn has_match<'a>(
    how: &Matching,
    other: &[Item<Num>],
    keys: &IndexMap<ChosenLabels<'a>, ()>,
    key: &ChosenLabels<'a>,
    item: &Item<Num>,
) -> bool
    requires keys { AreKeysOf how.now other.now keys.now }
    requires key { key.now ≡ key_of how.now item.now }
    ensures { result ≡ is_matched how.now other.now item.now }
{
    keys.contains_key(key)
}

// Whether an element is wanted: that its key is there, or that it is not.
fn is_wanted<'a>(
    how: &Matching,
    other: &[Item<Num>],
    keys: &IndexMap<ChosenLabels<'a>, ()>,
    key: &ChosenLabels<'a>,
    item: &Item<Num>,
    wanted: bool,
) -> bool
    requires keys { AreKeysOf how.now other.now keys.now }
    requires key { key.now ≡ key_of how.now item.now }
    ensures { result ≡ matched how.now other.now wanted item.now }
{
    let known = has_match(how, other, keys, key, item);
    if wanted { known } else { !known }
}

// Elements of their own with the same labels and values.
fn copies_of(alloc: Global, side: &[Item<Num>]) -> Result<Vec<Item<Num>>, AllocError>
    ensures { IfOk result (λ v. v.items ≡ side.now) }
{
    let mut copies = Vec::with_capacity(alloc, side.len())?;
    for item in side {
        copies.push(item.copy(alloc)?)?;
    }
    Ok(copies)
}

// The elements whose key is there, or is not there, where no key is: none of them, or all.
fn without_keys(
    alloc: Global,
    side: &[Item<Num>],
    wanted: bool,
) -> Result<Vec<Item<Num>>, AllocError>
    ensures { (how : Matching) → IfOk result (λ v. v.items ≡ with_match how [] wanted side.now) }
{
    if wanted {
        Ok(Vec::new(alloc))
    } else {
        copies_of(alloc, side)
    }
}

// The elements whose key is there, or is not there.
fn by_keys<'a>(
    alloc: Global,
    how: &Matching,
    side: &'a [Item<Num>],
    other: &'a [Item<Num>],
    wanted: bool,
) -> Result<Vec<Item<Num>>, AllocError>
    ensures { IfOk result (λ v. v.items ≡ with_match how.now other.now wanted side.now) }
{
    let keys = keys_of(alloc, how, other)?;
    let mut key = ChosenLabels::new(alloc);
    let mut chosen = Vec::new(alloc);
    for item in side {
        choose_key(&mut key, how, item)?;
        if is_wanted(how, other, &keys, &key, item, wanted) {
            chosen.push(item.copy(alloc)?)?;
        }
    }
    Ok(chosen)
}

// The same, without a key where a side is empty.
fn with_match(
    alloc: Global,
    how: &Matching,
    side: &[Item<Num>],
    other: &[Item<Num>],
    wanted: bool,
) -> Result<Vec<Item<Num>>, AllocError>
    ensures { IfOk result (λ v. v.items ≡ with_match how.now other.now wanted side.now) }
{
    if side.is_empty() {
        Ok(Vec::new(alloc))
    } else if other.is_empty() {
        without_keys(alloc, side, wanted)
    } else {
        by_keys(alloc, how, side, other, wanted)
    }
}

/// The left elements whose key the right side has.
pub fn and(
    alloc: Global,
    left: &[Item<Num>],
    right: &[Item<Num>],
    how: &Matching,
) -> Result<Vec<Item<Num>>, AllocError>
    ensures items { IfOk result (λ v. v.items ≡ both_sides how.now left.now right.now) }
    ensures vector { IsVector left.now → IfOk result (λ v. IsVector v.items) }
{
    with_match(alloc, how, left, right, true)
}

/// The left elements whose key the right side has not.
pub fn unless(
    alloc: Global,
    left: &[Item<Num>],
    right: &[Item<Num>],
    how: &Matching,
) -> Result<Vec<Item<Num>>, AllocError>
    ensures items { IfOk result (λ v. v.items ≡ left_alone how.now left.now right.now) }
    ensures vector { IsVector left.now → IfOk result (λ v. IsVector v.items) }
{
    with_match(alloc, how, left, right, false)
}

// Puts elements among those that are there.
fn put_all(
    alloc: Global,
    items: &mut BTreeMap<Labels, Num>,
    side: &[Item<Num>],
) -> Result<(), AllocError>
    ensures { OnOk result (elements items.new ≡ fold with_element (elements items.old) side.now) }
{
    for item in side {
        put(items, item.labels.copy(alloc)?, item.value)?;
    }
    Ok(())
}

/// The left elements, and the right ones whose key the left side has not.
pub fn or(
    alloc: Global,
    left: &[Item<Num>],
    right: &[Item<Num>],
    how: &Matching,
) -> Result<Vec<Item<Num>>, AllocError>
    ensures items { IfOk result (λ v. v.items ≡ either_side how.now left.now right.now) }
    ensures vector { IfOk result (λ v. IsVector v.items) }
{
    let others = with_match(alloc, how, right, left, false)?;
    let mut items: BTreeMap<Labels, Num> = BTreeMap::new(alloc);
    put_all(alloc, &mut items, left)?;
    put_all(alloc, &mut items, &others)?;
    elements_of(alloc, items)
}
