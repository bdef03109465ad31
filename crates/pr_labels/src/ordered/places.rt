// Where a label set goes: behind items that rise, or into an ordered map.
ghost use Rattle.std.specs.Prelude.{◌≡◌, ◌++◌, [], true, IfOk, OnOk, OnErr};
ghost use Rattle.std.specs.Map.{keys_of};
ghost use Rattle.pr_labels.specs.Rising.{IsRising};
ghost use Rattle.pr_labels.specs.private.Entries.{AreBelow, IsPut, entries_of, item_entries, items_of};

use crate::{Item, Labels};
use std::alloc::{AllocError, Global};
use std::collections::BTreeMap;
use std::collections::btree_map::Entry;

// Whether the labels are above those of the last item.
fn is_above<V>(items: &[Item<V>], labels: &Labels) -> bool
    ensures { result ≡ true → IsRising (keys_of (item_entries items.now)) → AreBelow labels.now (keys_of (item_entries items.now)) }
{
    match items.last() {
        None => true,
        Some(last) => last.labels.cmp(labels).is_lt(),
    }
}

/// Whether labels may be pushed behind the items that rise: the map is empty, and they are above
/// all of them.
pub fn goes_behind<V>(rising: &[Item<V>], placed: &BTreeMap<Labels, V>, labels: &Labels) -> bool
    ensures none { result ≡ true → placed.now.entries ≡ [] }
    ensures below { result ≡ true → IsRising (keys_of (item_entries rising.now)) → AreBelow labels.now (keys_of (item_entries rising.now)) }
{
    if placed.len() == 0 {
        is_above(rising, labels)
    } else {
        false
    }
}

/// Moves the items into the map, the last one first.
pub fn move_all<V: Drop>(
    rising: &mut Vec<Item<V>>,
    placed: &mut BTreeMap<Labels, V>,
) -> Result<(), AllocError>
    requires { IsRising (keys_of (entries_of rising.old.items placed.old.entries)) }
    ensures moved { OnOk result (placed.new.entries ≡ entries_of rising.old.items placed.old.entries) }
    ensures empty { OnOk result (rising.new.items ≡ []) }
    ensures rising { IsRising (keys_of (entries_of rising.new.items placed.new.entries)) }
{
    while let Some(item) = rising.pop() {
        placed.insert(item.labels, item.value)?;
    }
    Ok(())
}

/// Puts a value behind labels; where they stand there, they come back. One search does both.
pub fn place<V: Drop>(
    alloc: Global,
    placed: &mut BTreeMap<Labels, V>,
    labels: Labels,
    value: V,
) -> Result<Option<Labels>, AllocError>
    ensures put { IfOk result (λ again. IsPut again labels value placed.old.entries placed.new.entries) }
    ensures same { OnErr result (placed.new.entries ≡ placed.old.entries) }
{
    match placed.entry(labels)? {
        Entry::Occupied(entry) => Ok(Some(entry.key().copy(alloc)?)),
        Entry::Vacant(entry) => {
            entry.insert(value);
            Ok(None)
        }
    }
}

/// The items, and behind them those of the map.
pub fn with_placed<V: Drop>(
    items: Vec<Item<V>>,
    placed: BTreeMap<Labels, V>,
) -> Result<Vec<Item<V>>, AllocError>
    ensures { IfOk result (λ v. v.items ≡ items.items ++ items_of placed.entries) }
{
    let mut all = items;
    for (labels, value) in placed {
        all.push(Item { labels, value })?;
    }
    Ok(all)
}
