// Label sets of pairs, and of two label sets.
ghost use Rattle.std.specs.Prelude.{◌≡◌, ◌≢◌, filter, IfOk, IfErr, OnOk, None, Some};
ghost use Rattle.pr_labels.specs.Edits.{first_fault, has_value, labels_of, union_labels};
ghost use Rattle.pr_labels.specs.LabelSet.{IsLabelSet};

use super::Labels;
use super::copies::{copy_pairs, push_copies};
use super::known::add_name;
use super::place::parted;
use super::shared::SharedPairs;
use crate::fault::LabelFault;
use crate::names::is_label_name;
use crate::pair::Pair;
use std::alloc::{AllocError, Global};
use std::collections::BTreeSet;

// Whether pairs may be a label set: the first one that may not follow those before it.
fn check_pairs(alloc: Global, pairs: &[Pair]) -> Result<(), LabelFault>
    ensures ok { OnOk result (first_fault pairs.now ≡ None) }
    ensures err { IfErr result (λ e. e ≢ LabelFault.Memory → first_fault pairs.now ≡ Some e) }
{
    let mut names = BTreeSet::new(alloc);
    for (index, pair) in pairs.iter().enumerate() {
        let name = pair.name.as_str().as_bytes();
        if !is_label_name(name) {
            return Err(LabelFault::BadName { index });
        }
        if !add_name(&mut names, name)? {
            return Err(LabelFault::Twice { index });
        }
    }
    Ok(())
}

fn has_value(pair: &Pair) -> bool
    ensures { result ≡ has_value pair.now }
{
    !pair.value.as_str().is_empty()
}

// Drops the pairs whose values are empty.
fn drop_empty(pairs: &mut Vec<Pair>)
    ensures { pairs.new.items ≡ filter has_value pairs.old.items }
{
    pairs.retain(has_value);
}

// The pairs of the label set of pairs whose names are distinct.
#[tactic(auto, using(crate::proofs::Distinct::sorted_set, crate::proofs::Distinct::sorted_is_set))]
fn in_order(pairs: Vec<Pair>) -> Result<Vec<Pair>, AllocError>
    requires { first_fault pairs.items ≡ None }
    ensures made { IfOk result (λ v. v.items ≡ labels_of pairs.items) }
    ensures set { IfOk result (λ v. IsLabelSet v.items) }
{
    let mut pairs = pairs;
    drop_empty(&mut pairs);
    pairs.sort()?;
    Ok(pairs)
}

// The pairs of both, with those of `over` where both have a name.
fn merged(alloc: Global, own: &[Pair], over: &[Pair]) -> Result<Vec<Pair>, AllocError>
    requires own { IsLabelSet own.now }
    requires over { IsLabelSet over.now }
    ensures union { IfOk result (λ v. v.items ≡ union_labels own.now over.now) }
    ensures set { IfOk result (λ v. IsLabelSet v.items) }
{
    let mut pairs = Vec::with_capacity(alloc, own.len())?;
    let mut left = own;
    for label in over {
        let (below, above) = parted(left, label.name.as_str());
        push_copies(alloc, &mut pairs, below)?;
        pairs.push(label.copy(alloc)?)?;
        left = above;
    }
    push_copies(alloc, &mut pairs, left)?;
    Ok(pairs)
}

impl Labels {
    /// The label set of pairs in any order. A pair whose value is empty is no label, but its name
    /// counts.
    ///
    /// Many pairs take little longer than their sorting.
    ///
    /// # Errors
    /// The first index at which a name is no label name, or stands at an earlier index too.
    pub fn from_pairs(alloc: Global, pairs: &[Pair]) -> Result<Labels, LabelFault>
        ensures ok { IfOk result (λ l. l ≡ labels_of pairs.now) }
        ensures faultless { OnOk result (first_fault pairs.now ≡ None) }
        ensures err { IfErr result (λ e. e ≢ LabelFault.Memory → first_fault pairs.now ≡ Some e) }
    {
        check_pairs(alloc, pairs)?;
        Ok(Labels::from_distinct(copy_pairs(alloc, pairs)?)?)
    }

    /// The label set of pairs in any order, where each name is a label name and stands once. A pair
    /// whose value is empty is no label. The pairs are moved and sorted, so that many take little
    /// longer than their sorting.
    pub fn from_distinct(pairs: Vec<Pair>) -> Result<Labels, AllocError>
        requires { first_fault pairs.items ≡ None }
        ensures { IfOk result (λ l. l ≡ labels_of pairs.items) }
    {
        let alloc = *pairs.allocator();
        let sorted = in_order(pairs)?;
        Ok(Labels::of_pairs(alloc, sorted))
    }

    /// The same, for a set that is compared little, since most like it are soon dropped: it gets no
    /// order key. It is an equal set all the same, and so are those that are made of it.
    pub fn from_distinct_without_key(pairs: Vec<Pair>) -> Result<Labels, AllocError>
        requires { first_fault pairs.items ≡ None }
        ensures { IfOk result (λ l. l ≡ labels_of pairs.items) }
    {
        let alloc = *pairs.allocator();
        let sorted = in_order(pairs)?;
        Ok(Labels {
            pairs: SharedPairs::without_key(alloc, sorted),
        })
    }

    /// The labels of both sets, with the values of `over` where both have a name.
    ///
    /// Both are gone over once. Where one of them is empty, the other one is shared.
    pub fn union(&self, alloc: Global, over: &Labels) -> Result<Labels, AllocError>
        ensures { IfOk result (λ l. l ≡ union_labels self.now over.now) }
    {
        let (own, over_pairs) = (self.pairs.as_slice(), over.pairs.as_slice());
        if over_pairs.is_empty() {
            return self.copy(alloc);
        }
        if own.is_empty() {
            return over.copy(alloc);
        }
        let merged = merged(alloc, own, over_pairs)?;
        Ok(Labels::of_pairs(alloc, merged))
    }
}
