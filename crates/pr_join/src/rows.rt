// The elements of a result, as pairs give them.
ghost use Rattle.spec_vectors.specs.pr_labels.declared.item.Item.{Item};
ghost use Rattle.spec_vectors.specs.pr_labels.declared.matching.Matching.{Matching};
ghost use Rattle.spec_vectors.specs.pr_num.declared.value.Num.{Num};
ghost use Rattle.std.specs.Prelude.{◌≡◌, ◌≢◌, ◌<◌, length, List, [], ◌∷◌, ◌++◌, Some, None, Ok, IfOk, OnOk, MatchResult};
ghost use Rattle.std.specs.BTreeMap.{IsOrdered, insert_entry};
ghost use Rattle.spec_vectors.specs.pr_labels.Order.{labels_cmp};
ghost use Rattle.pr_join.specs.declared.join_fault.JoinFault.TheVariants.{Memory};
ghost use Rattle.spec_vectors.specs.private.Laws.{IsVector};
ghost use Rattle.spec_vectors.specs.Vectors.{element};
ghost use Rattle.spec_vectors.specs.Matching.{KeptPair, key_fault, key_of, labels_fault, outcome_fault};
ghost use Rattle.pr_join.specs.private.Faults.{match_told};
ghost use Rattle.pr_join.specs.private.Places.{IsOnlyAt};
ghost use Rattle.pr_join.specs.private.Rows.{HasTakenKeys, HasItems, HasKept, elements, is_one_to_one, kept_with};

use crate::join_fault::JoinFault;
use crate::places::key_of;
use spec_vectors::labels::ordered::Ordered;
use spec_vectors::labels::{Card, Item, Labels, Matching};
use spec_vectors::num::Num;
use std::alloc::{AllocError, Global};
use std::collections::BTreeMap;

/// The elements so far by their labels, and in one-to-one matching which elements of the one side
/// gave one, by their places.
#[derive(Drop)]
pub struct JoinedElements {
    pub items: Ordered<Num>,
    pub taken: Vec<bool>,
}

/// No elements of pairs with the one side.
pub fn no_rows(alloc: Global, ones: &[Item<Num>]) -> Result<JoinedElements, AllocError>
    ensures kept { IfOk result (λ rows. (how : Matching) → HasKept how ones.now [] rows) }
    ensures room { IfOk result (λ rows. length rows.taken.items ≡ length ones.now) }
{
    Ok(JoinedElements {
        items: Ordered::new(alloc),
        taken: vec![in alloc; false; ones.len()]?,
    })
}

/// Puts a value behind labels.
pub fn put<V: Drop>(
    map: &mut BTreeMap<Labels, V>,
    labels: Labels,
    value: V,
) -> Result<(), AllocError>
    ensures entries { OnOk result (map.new.entries ≡ insert_entry labels_cmp map.old.entries labels value) }
{
    map.insert(labels, value)?;
    Ok(())
}

fn is_one_to_one(card: Card) -> bool
    ensures { result ≡ is_one_to_one card }
{
    matches!(card, Card::OneToOne)
}

// Takes the key of an element, which in one-to-one matching may come once. Of the one side the
// element at the place alone has it.
fn take_key(
    alloc: Global,
    how: &Matching,
    many: &Item<Num>,
    taken: &mut Vec<bool>,
    place: usize,
) -> Result<(), JoinFault>
    requires { place < length taken.old.items }
    ensures taken { (ones : List (Item Num)) (before : List KeptPair) (k : KeptPair) → k.key ≡ key_of how.now many.now → IsOnlyAt how.now ones (key_of how.now many.now) place → HasTakenKeys how.now ones before taken.old.items → MatchResult result
        (λ _. (key_fault how.now.card before k ≡ None) × HasTakenKeys how.now ones (before ++ k ∷ []) taken.new.items)
        (λ e. e ≢ Memory → key_fault how.now.card before k ≡ match_told e) }
    ensures room { OnOk result (length taken.new.items ≡ length taken.old.items) }
{
    if !is_one_to_one(how.card) {
        return Ok(());
    }
    if taken[place] {
        let key = key_of(alloc, how, many)?;
        return Err(JoinFault::ManyToMany { key });
    }
    taken[place] = true;
    Ok(())
}

// Takes an element, whose labels may come once.
fn take_item(items: &mut Ordered<Num>, labels: Labels, value: Num) -> Result<(), JoinFault>
    ensures { (before : List KeptPair) (k : KeptPair) → k.item ≡ element labels value → HasItems before items.old → MatchResult result
        (λ _. (labels_fault before k ≡ None) × HasItems (before ++ k ∷ []) items.new)
        (λ e. e ≢ Memory → labels_fault before k ≡ match_told e) }
{
    match items.put(labels, value)? {
        None => Ok(()),
        Some(labels) => Err(JoinFault::NotUnique { labels }),
    }
}

/// Takes what a pair gives, unless an earlier pair with its key or its labels was taken. Of the one
/// side the element at the place alone has the key.
pub fn take(
    alloc: Global,
    how: &Matching,
    many: &Item<Num>,
    rows: &mut JoinedElements,
    place: usize,
    labels: Labels,
    value: Num,
) -> Result<(), JoinFault>
    requires { place < length rows.old.taken.items }
    ensures taken { (ones : List (Item Num)) (before : List KeptPair) (k : KeptPair) → k ≡ kept_with (key_of how.now many.now) labels value → IsOnlyAt how.now ones (key_of how.now many.now) place → HasKept how.now ones before rows.old → MatchResult result
        (λ _. (outcome_fault how.now.card before (Ok (Some k)) ≡ None) × HasKept how.now ones (before ++ k ∷ []) rows.new)
        (λ e. e ≢ Memory → outcome_fault how.now.card before (Ok (Some k)) ≡ match_told e) }
    ensures room { OnOk result (length rows.new.taken.items ≡ length rows.old.taken.items) }
{
    take_key(alloc, how, many, &mut rows.taken, place)?;
    take_item(&mut rows.items, labels, value)
}

/// The elements of a map, in label order.
pub fn elements_of(
    alloc: Global,
    items: BTreeMap<Labels, Num>,
) -> Result<Vec<Item<Num>>, AllocError>
    ensures elements { IfOk result (λ v. v.items ≡ elements items) }
    ensures vector { IsOrdered labels_cmp items → IfOk result (λ v. IsVector v.items) }
{
    let mut elements = Vec::new(alloc);
    for (labels, value) in items {
        elements.push(Item { labels, value })?;
    }
    Ok(elements)
}
