// The quantiles of histograms.
ghost use Rattle.std.specs.Prelude.{◌≡◌, ◌≢◌, ◌+◌, ◌^◌, ◌<◌, List, [], ◌∷◌, ◌++◌, codes, true, false, is_some, filter, Some, Ok, Err, IfOk, IfSome, OnOk, MatchResult};
ghost use Rattle.std.specs.BTreeMap.{IsOrdered, Updates, get, keys};
ghost use Rattle.pr_num.specs.Arithmetic.{too_wide};
ghost use Rattle.pr_num.specs.Order.{order_of};
ghost use Rattle.pr_match.specs.pr_labels.LabelSet.{metric_label};
ghost use Rattle.pr_match.specs.pr_labels.Order.{labels_cmp};
ghost use Rattle.spec_vectors.specs.private.Laws.{IsVector};
ghost use Rattle.spec_vectors.specs.Vectors.{element};
ghost use Rattle.spec_vectors.specs.Histogram.{bound_of, bucket, histogram_labels, histogram_quantiles, histogram_value, is_bucket, merged, number_read};
ghost use Rattle.pr_fn.specs.private.Buckets.{bound_in, buckets_of, buckets_with, counted_entries, tally_of, tally_with, valued_entries};
ghost use Rattle.pr_fn.specs.private.Faults.{function_told};
ghost use Rattle.pr_fn.specs.private.Gathered.{AreGathered, with_key};

use crate::bound::Bound;
use crate::fn_fault::FnFault;
use crate::label_functions::text_at;
use crate::quantiles::{quantile_in, raised};
use pr_match::labels::{Item, Labels, METRIC_LABEL};
use pr_match::words_crate::{Items, Text};
use pr_num::{Num, NumFault, Total, read};
use spec_vectors::Bucket;
use std::alloc::{AllocError, Global};
use std::collections::BTreeMap;

const BOUND_LABEL: &str = "le";

fn number_read(number: Result<Num, NumFault>) -> Option<Num>
    ensures { result ≡ number_read number }
{
    match number {
        Ok(Num::NaN) | Err(_) => None,
        Ok(value) => Some(value),
    }
}

// The bound that an element's label `le` names, if it is a number.
fn bound_of(item: &Item<Num>) -> Option<Num>
    ensures { result ≡ bound_of item.now }
{
    let text = text_at(&item.labels, BOUND_LABEL);
    number_read(read(text.as_bytes()))
}

// The names that do not tell histograms apart.
fn other_names(alloc: Global) -> Result<Vec<Text>, AllocError>
    ensures { IfOk result (λ v. v.items ≡ metric_label ∷ codes "le" ∷ []) }
{
    let mut names = Vec::new(alloc);
    names.push(Text::from_str(alloc, METRIC_LABEL)?)?;
    names.push(Text::from_str(alloc, BOUND_LABEL)?)?;
    Ok(names)
}

// Puts a bucket at the end of its histogram, where that is there.
fn push_known(
    parts: &mut BTreeMap<Labels, Items<Bucket>>,
    labels: &Labels,
    bound: &Num,
    count: &Num,
) -> Result<bool, AllocError>
    ensures pushed { IfOk result (λ b. b ≡ is_some (get labels_cmp parts.old labels.now)) }
    ensures updates { IfOk result (λ b. b ≡ true → Updates labels_cmp parts.old parts.new labels.now (Some (buckets_with (get labels_cmp parts.old labels.now) (bucket bound.now count.now)))) }
    ensures keys { IfOk result (λ b. b ≡ true → keys parts.new ≡ keys parts.old) }
    ensures ordered { IfOk result (λ b. b ≡ true → IsOrdered labels_cmp parts.new) }
    ensures same { IfOk result (λ b. b ≡ false → parts.new.entries ≡ parts.old.entries) }
{
    match parts.get_mut(labels) {
        Some(buckets) => {
            buckets.push(Bucket {
                bound: *bound,
                count: *count,
            })?;
            Ok(true)
        }
        None => Ok(false),
    }
}

// Puts a bucket at the end of its histogram.
fn add_bucket(
    alloc: Global,
    parts: &mut BTreeMap<Labels, Items<Bucket>>,
    labels: Labels,
    bound: &Num,
    count: &Num,
) -> Result<(), AllocError>
    requires { IsOrdered labels_cmp parts.old }
    ensures updates { OnOk result (Updates labels_cmp parts.old parts.new labels (Some (buckets_with (get labels_cmp parts.old labels) (bucket bound.now count.now)))) }
    ensures known { OnOk result (keys parts.new ≡ with_key labels_cmp (keys parts.old) labels) }
    ensures ordered { OnOk result (IsOrdered labels_cmp parts.new) }
{
    let known = push_known(parts, &labels, bound, count)?;
    if known {
        return Ok(());
    }
    let mut buckets = Items::empty(alloc);
    buckets.push(Bucket {
        bound: *bound,
        count: *count,
    })?;
    parts.insert(labels, buckets)?;
    Ok(())
}

// Puts an element into its histogram, if it is a bucket.
fn gather_one(
    alloc: Global,
    parts: &mut BTreeMap<Labels, Items<Bucket>>,
    names: &[Text],
    item: &Item<Num>,
) -> Result<(), AllocError>
    requires names { names.now ≡ metric_label ∷ codes "le" ∷ [] }
    requires ordered { IsOrdered labels_cmp parts.old }
    ensures { (front : List (Item Num)) → AreGathered labels_cmp histogram_labels buckets_of (filter is_bucket front) parts.old
        → OnOk result (AreGathered labels_cmp histogram_labels buckets_of (filter is_bucket (front ++ item.now ∷ [])) parts.new) }
{
    match bound_of(item) {
        None => Ok(()),
        Some(bound) => {
            let labels = item.labels.without(alloc, names)?;
            add_bucket(alloc, parts, labels, &bound, &item.value)
        }
    }
}

// The buckets of each histogram.
fn gather(
    alloc: Global,
    vector: &[Item<Num>],
) -> Result<BTreeMap<Labels, Items<Bucket>>, AllocError>
    ensures { IfOk result (AreGathered labels_cmp histogram_labels buckets_of (filter is_bucket vector.now)) }
{
    let names = other_names(alloc)?;
    let mut parts: BTreeMap<Labels, Items<Bucket>> = BTreeMap::new(alloc);
    for item in vector {
        gather_one(alloc, &mut parts, &names, item)?;
    }
    Ok(parts)
}

fn tally_with(known: Option<Total>, count: &Num) -> Total
    requires { IfSome known (λ t. t.count + 1 < 2 ^ 64) }
    ensures { result ≡ tally_with known count.now }
{
    match known {
        Some(total) => total.plus(*count),
        None => Total::zero().plus(*count),
    }
}

// What the counts of each bound add up to.
fn tallies_of(alloc: Global, buckets: &[Bucket]) -> Result<BTreeMap<Bound, Total>, AllocError>
    ensures { IfOk result (AreGathered order_of bound_in tally_of buckets.now) }
{
    let mut tallies: BTreeMap<Bound, Total> = BTreeMap::new(alloc);
    for bucket in buckets {
        let bound = Bound::new(bucket.bound);
        let total = tally_with(tallies.get(&bound).copied(), &bucket.count);
        tallies.insert(bound, total)?;
    }
    Ok(tallies)
}

fn push_bucket(buckets: &mut Vec<Bucket>, bound: Num, count: Num) -> Result<(), AllocError>
    ensures { OnOk result (buckets.new.items ≡ buckets.old.items ++ bucket bound count ∷ []) }
{
    buckets.push(Bucket { bound, count })?;
    Ok(())
}

// The buckets that the sums make.
fn counted(alloc: Global, tallies: BTreeMap<Bound, Total>) -> Result<Vec<Bucket>, FnFault>
    ensures { MatchResult result
        (λ v. counted_entries tallies.entries ≡ Ok v.items)
        (λ e. e ≢ FnFault.Memory → (e ≡ FnFault.TooWide) × (counted_entries tallies.entries ≡ Err too_wide)) }
{
    let mut buckets = Vec::new(alloc);
    for (bound, total) in tallies {
        match total.value() {
            Ok(count) => push_bucket(&mut buckets, bound.value(), count)?,
            Err(_) => return Err(FnFault::TooWide),
        }
    }
    Ok(buckets)
}

// The quantile of a histogram whose buckets are in any order.
fn histogram_value(alloc: Global, phi: &Num, buckets: &[Bucket]) -> Result<Num, FnFault>
    ensures { MatchResult result
        (λ v. histogram_value phi.now buckets.now ≡ Ok v)
        (λ e. e ≢ FnFault.Memory → (e ≡ FnFault.TooWide) × (histogram_value phi.now buckets.now ≡ Err too_wide)) }
{
    let tallies = tallies_of(alloc, buckets)?;
    let merged = match counted(alloc, tallies) {
        Ok(merged) => merged,
        Err(fault) => return Err(fault),
    };
    let rising = raised(alloc, &merged)?;
    match quantile_in(phi, &merged, &rising) {
        Ok(value) => Ok(value),
        Err(_) => Err(FnFault::TooWide),
    }
}

fn push_element(items: &mut Vec<Item<Num>>, labels: Labels, value: Num) -> Result<(), AllocError>
    ensures { OnOk result (items.new.items ≡ items.old.items ++ element labels value ∷ []) }
{
    items.push(Item { labels, value })?;
    Ok(())
}

// The quantile of each histogram.
fn quantiles(
    alloc: Global,
    phi: &Num,
    parts: BTreeMap<Labels, Items<Bucket>>,
) -> Result<Vec<Item<Num>>, FnFault>
    ensures { MatchResult result
        (λ v. valued_entries phi.now parts.entries ≡ Ok v.items)
        (λ e. IfSome (function_told e) (λ fault. valued_entries phi.now parts.entries ≡ Err fault)) }
{
    let mut items = Vec::new(alloc);
    for (labels, buckets) in parts {
        match histogram_value(alloc, phi, buckets.as_slice()) {
            Ok(value) => push_element(&mut items, labels, value)?,
            Err(fault) => return Err(fault),
        }
    }
    Ok(items)
}

/// The quantile `phi` of each histogram, in label order. An element is a bucket where its label
/// `le` is a number; buckets with equal labels but for the metric's name and `le` are one
/// histogram. (Prometheus: Querying, Functions, `histogram_quantile`; that each operation is exact
/// or rounded by itself is own choice.)
///
/// # Errors
/// `TooWide` exactly where a sum of counts of equal bounds, or an operation of the formula, is too
/// wide; never `SameLabels`. `Memory` where memory runs out.
pub fn histogram_quantile(
    alloc: Global,
    phi: Num,
    vector: &[Item<Num>],
) -> Result<Vec<Item<Num>>, FnFault>
    ensures quantiles { MatchResult result
        (λ v. histogram_quantiles phi vector.now ≡ Ok v.items)
        (λ e. IfSome (function_told e) (λ fault. histogram_quantiles phi vector.now ≡ Err fault)) }
    ensures vector { IfOk result (λ v. IsVector v.items) }
{
    let parts = gather(alloc, vector)?;
    quantiles(alloc, &phi, parts)
}
