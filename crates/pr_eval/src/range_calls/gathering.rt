// The series of a subquery, gathered time by time.
ghost use Rattle.std.specs.Prelude.{◌≡◌, ◌++◌, ◌∷◌, [], List, true, false, is_some, Some, IfOk, OnOk};
ghost use Rattle.std.specs.BTreeMap.{IsOrdered, Updates, get, keys};
ghost use Rattle.pr_labels.specs.declared.item.Item.{Item};
ghost use Rattle.pr_labels.specs.Order.{labels_cmp};
ghost use Rattle.pr_range.specs.spec_history.declared.spot.Spot.{Spot};
ghost use Rattle.pr_range.specs.spec_history.Lookback.{spot_of};
ghost use Rattle.pr_range.specs.spec_vectors.private.Laws.{IsVector};
ghost use Rattle.pr_fn.specs.private.Gathered.{with_key};
ghost use Rattle.spec_meaning.specs.Subqueries.{Taken};
ghost use Rattle.pr_eval.specs.private.Taken.{AreTaken, IsGathered, spots_with, taken, item_at, timed_in};

use pr_ast::time::Ms;
use pr_labels::words_crate::Items;
use pr_labels::{Item, Labels};
use pr_num::Num;
use pr_range::history::Spot;
use std::alloc::{AllocError, Global};
use std::collections::BTreeMap;

/// No series: those of a subquery before its first time.
pub fn no_series(alloc: Global) -> BTreeMap<Labels, Items<Spot>>
    ensures taken { AreTaken [] result }
    ensures ordered { IsOrdered labels_cmp result }
{
    BTreeMap::new(alloc)
}

// Puts a value at the end of its series, where that is there.
fn push_known(
    series: &mut BTreeMap<Labels, Items<Spot>>,
    labels: &Labels,
    time: Ms,
    value: &Num,
) -> Result<bool, AllocError>
    ensures pushed { IfOk result (λ b. b ≡ is_some (get labels_cmp series.old labels.now)) }
    ensures updates { IfOk result (λ b. b ≡ true → Updates labels_cmp series.old series.new labels.now (Some (spots_with (get labels_cmp series.old labels.now) (spot_of time value.now)))) }
    ensures keys { IfOk result (λ b. b ≡ true → keys series.new ≡ keys series.old) }
    ensures ordered { IfOk result (λ b. b ≡ true → IsOrdered labels_cmp series.new) }
    ensures same { IfOk result (λ b. b ≡ false → series.new.entries ≡ series.old.entries) }
{
    match series.get_mut(labels) {
        Some(spots) => {
            spots.push(Spot {
                time,
                value: *value,
            })?;
            Ok(true)
        }
        None => Ok(false),
    }
}

// Puts a value at the end of its series.
fn add_spot(
    alloc: Global,
    series: &mut BTreeMap<Labels, Items<Spot>>,
    labels: Labels,
    time: Ms,
    value: &Num,
) -> Result<(), AllocError>
    requires { IsOrdered labels_cmp series.old }
    ensures updates { OnOk result (Updates labels_cmp series.old series.new labels (Some (spots_with (get labels_cmp series.old labels) (spot_of time value.now)))) }
    ensures known { OnOk result (keys series.new ≡ with_key labels_cmp (keys series.old) labels) }
    ensures ordered { OnOk result (IsOrdered labels_cmp series.new) }
{
    let known = push_known(series, &labels, time, value)?;
    if known {
        return Ok(());
    }
    let mut spots = Items::empty(alloc);
    spots.push(Spot {
        time,
        value: *value,
    })?;
    series.insert(labels, spots)?;
    Ok(())
}

// Puts an element of a time into its series.
fn take_one(
    alloc: Global,
    series: &mut BTreeMap<Labels, Items<Spot>>,
    time: Ms,
    item: Item<Num>,
) -> Result<(), AllocError>
    requires { IsOrdered labels_cmp series.old }
    ensures gathered { (front : List (Item Spot)) → IsGathered front series.old → OnOk result (IsGathered (front ++ item_at time item ∷ []) series.new) }
    ensures ordered { OnOk result (IsOrdered labels_cmp series.new) }
{
    let Item { labels, value } = item;
    add_spot(alloc, series, labels, time, &value)
}

/// Puts the elements of one more time into their series, each at the end: a step of work for each,
/// by a search of the map. An element without a series begins one. After want of memory the series
/// are good for nothing.
pub fn take_elements(
    alloc: Global,
    series: &mut BTreeMap<Labels, Items<Spot>>,
    time: Ms,
    items: Vec<Item<Num>>,
) -> Result<(), AllocError>
    requires vector { IsVector items.items }
    requires ordered { IsOrdered labels_cmp series.old }
    ensures taken { (ts : List Taken) → AreTaken ts series.old → OnOk result (AreTaken (ts ++ taken time items.items ∷ []) series.new) }
    ensures ordered { OnOk result (IsOrdered labels_cmp series.new) }
{
    for item in items {
        take_one(alloc, series, time, item)?;
    }
    Ok(())
}
