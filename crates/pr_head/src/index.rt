// Which series have a label, and all series, in label order.
ghost use Rattle.std.specs.Prelude.{◌≡◌, ◌≢◌, ℕ, ◌<◌, ◌++◌, ◌∷◌, [], false, length, map, slice_get, List, Some, unwrap_or, ◌⊎◌, IfOk, IfSome, OnOk, OnErr};
ghost use Rattle.std.specs.List.{All};
ghost use Rattle.std.specs.Option.{option_copied};
ghost use Rattle.pr_labels.specs.declared.pair.Pair.{Pair};
ghost use Rattle.pr_labels.specs.Rising.{is_among};
ghost use Rattle.spec_history.specs.private.Laws.{has_values};
ghost use Rattle.pr_head.specs.private.Holds.{chosen_of, labels_at};
ghost use Rattle.pr_head.specs.private.Index.{IsEnough, IsIndexed};

use crate::by_label::ByLabel;
use crate::listing::{Listing, all_of, chosen_among};
use pr_labels::{Labels, Pair};
use std::alloc::{AllocError, Global};

/// All series, and under each label those that have it.
#[derive(Drop)]
pub(crate) struct Index {
    all: Listing,
    by_label: ByLabel,
    alloc: Global,
}

// The fewer of two.
fn fewer_of<'a>(listing: &'a Listing, others: &'a Listing) -> &'a Listing
    ensures { (result.now ≡ listing.now) ⊎ (result.now ≡ others.now) }
{
    if listing.len() < others.len() {
        listing
    } else {
        others
    }
}

// The only one of some labels that are asked for, where it has a value.
#[tactic(auto, using(crate::proofs::Indexing::some_text))]
fn only_value(equal: &[Pair]) -> Option<&Pair>
    ensures only { IfSome result (λ p. equal.now ≡ p.now ∷ []) }
    ensures value { IfSome result (λ p. p.now.value ≢ []) }
{
    match equal {
        [label] if !label.value.as_str().is_empty() => Some(label),
        _ => None,
    }
}

impl Index {
    /// No series.
    pub(crate) fn new(alloc: Global) -> Index
        ensures { IsIndexed result.all result.by_label [] }
    {
        Index {
            all: Listing::new(alloc),
            by_label: ByLabel::new(alloc),
            alloc,
        }
    }

    /// One more series. Without memory it is not listed.
    pub(crate) fn add(&mut self, labels: &Labels, number: usize) -> Result<(), AllocError>
        ensures ok { (sets : List (List Pair)) → number ≡ length sets → IsIndexed self.old.all self.old.by_label sets
            → OnOk result (IsIndexed self.new.all self.new.by_label (sets ++ labels.now ∷ [])) }
        ensures err { (sets : List (List Pair)) → is_among labels.now sets ≡ false → IsIndexed self.old.all self.old.by_label sets
            → OnErr result (IsIndexed self.new.all self.new.by_label sets) }
    {
        self.all.insert(labels.copy(self.alloc)?, number)?;
        match self.by_label.add_each(labels.pairs(), labels, number) {
            Ok(()) => Ok(()),
            Err(error) => {
                self.all.remove(labels);
                Err(error)
            }
        }
    }

    // The series that have a label, or these others where they are fewer; none where no series has
    // the label. No series has an empty value.
    fn fewer<'a>(&'a self, label: &Pair, others: &'a Listing) -> Option<&'a Listing>
        ensures { (equal : List Pair) (k : ℕ) (sets : List (List Pair)) → slice_get equal k ≡ Some label.now → IsIndexed self.now.all self.now.by_label sets
            → IsEnough equal sets others.now → IsEnough equal sets (unwrap_or (option_copied result) []) }
    {
        if label.value.as_str().is_empty() {
            return Some(others);
        }
        match self.by_label.listing(label) {
            Some(listing) => Some(fewer_of(listing, others)),
            None => None,
        }
    }

    // The fewest series that are listed together and among which are all that have these values;
    // none where no series has one of them.
    fn fewest(&self, equal: &[Pair]) -> Option<&Listing>
        ensures { (sets : List (List Pair)) → IsIndexed self.now.all self.now.by_label sets → IsEnough equal.now sets (unwrap_or (option_copied result) []) }
    {
        let mut fewest = &self.all;
        for label in equal {
            match self.fewer(label, fewest) {
                Some(fewer) => fewest = fewer,
                None => return None,
            }
        }
        Some(fewest)
    }

    /// The numbers of the series that have these values, in label order. Where one value alone is
    /// asked for, no series that is listed under it is looked at again.
    pub(crate) fn select(&self, equal: &[Pair]) -> Result<Vec<usize>, AllocError>
        ensures known { (sets : List (List Pair)) → IsIndexed self.now.all self.now.by_label sets → IfOk result (λ v. All (λ i. i < length sets) v.items) }
        ensures sets { (sets : List (List Pair)) → IsIndexed self.now.all self.now.by_label sets
            → IfOk result (λ v. map (labels_at sets) v.items ≡ chosen_of (has_values equal.now) sets) }
    {
        match only_value(equal) {
            Some(label) => all_of(self.alloc, self.by_label.listing(label)),
            None => chosen_among(self.alloc, self.fewest(equal), equal),
        }
    }
}
