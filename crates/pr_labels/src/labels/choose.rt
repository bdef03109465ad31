// Label sets of some of the labels of another.
ghost use Rattle.std.specs.Prelude.{◌≡◌, filter, IfOk};
ghost use Rattle.pr_labels.specs.private.Chosen.{is_chosen};
ghost use Rattle.pr_labels.specs.Edits.{listed_labels, unlisted_labels, key_labels};
ghost use Rattle.pr_labels.specs.LabelSet.{IsLabelSet};

use super::listed::ListedNames;
use super::{Labels, METRIC_LABEL};
use crate::pair::Pair;
use pr_words::Text;
use std::alloc::{AllocError, Global};

// Whether the pair is chosen: its name is listed, or is not.
#[tactic(auto, unfolding(crate::specs::private::Chosen::is_chosen))]
fn is_chosen(listed: bool, names: &ListedNames<'_>, pair: &Pair) -> bool
    ensures { result ≡ is_chosen listed names.now pair.now }
{
    let is_one = names.has(pair);
    if listed { is_one } else { !is_one }
}

// Other pairs with the texts of those that are chosen: whose names are listed, or whose are not.
fn copies_of(
    alloc: Global,
    pairs: &[Pair],
    names: &ListedNames<'_>,
    listed: bool,
) -> Result<Vec<Pair>, AllocError>
    ensures { IfOk result (λ v. v.items ≡ filter (is_chosen listed names.now) pairs.now) }
{
    let mut copies = Vec::new(alloc);
    for pair in pairs {
        if is_chosen(listed, names, pair) {
            copies.push(pair.copy(alloc)?)?;
        }
    }
    Ok(copies)
}

// The same, as the label set that they are.
fn chosen(
    alloc: Global,
    pairs: &[Pair],
    names: &[Text],
    listed: bool,
) -> Result<Vec<Pair>, AllocError>
    requires { IsLabelSet pairs.now }
    ensures chosen { IfOk result (λ v. v.items ≡ filter (is_chosen listed names.now) pairs.now) }
    ensures set { IfOk result (λ v. IsLabelSet v.items) }
{
    let names = ListedNames::of(alloc, names, pairs.len())?;
    copies_of(alloc, pairs, &names, listed)
}

impl Labels {
    /// The labels with one of the names. The metric's name is kept where `__name__` is listed.
    #[tactic(auto, using(crate::proofs::LabelSets::all_listed))]
    pub fn keep(&self, alloc: Global, names: &[Text]) -> Result<Labels, AllocError>
        ensures { IfOk result (λ l. l ≡ listed_labels self.now names.now) }
    {
        let kept = chosen(alloc, self.pairs.as_slice(), names, true)?;
        Ok(Labels::of_pairs(alloc, kept))
    }

    /// The labels with none of the names.
    #[tactic(auto, using(crate::proofs::LabelSets::none_listed, crate::proofs::LabelSets::all_others))]
    pub fn without(&self, alloc: Global, names: &[Text]) -> Result<Labels, AllocError>
        ensures { IfOk result (λ l. l ≡ unlisted_labels self.now names.now) }
    {
        if names.is_empty() {
            return self.copy(alloc);
        }
        let kept = chosen(alloc, self.pairs.as_slice(), names, false)?;
        Ok(Labels::of_pairs(alloc, kept))
    }

    /// The key by which series are matched or grouped: the labels with one of the names where `on`,
    /// else those with none of the names and without the metric's name. (Prometheus: Operators,
    /// "Vector matching".)
    pub fn key(&self, alloc: Global, on: bool, names: &[Text]) -> Result<Labels, AllocError>
        ensures { IfOk result (λ l. l ≡ key_labels on self.now names.now) }
    {
        if on {
            return self.keep(alloc, names);
        }
        let mut key = self.without(alloc, names)?;
        key.remove(alloc, METRIC_LABEL)?;
        Ok(key)
    }
}
