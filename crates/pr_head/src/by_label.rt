// Which series have a label.
use crate::listing::Listing;
use indexmap::IndexMap;
use pr_labels::{Labels, Pair};
use std::alloc::{AllocError, Global};
use std::marker::Model;

/// Under each label the series that have it, in label order.
#[derive(Drop)]
pub(crate) struct ByLabel {
    listings: IndexMap<Pair, Listing>,
    alloc: Global,
}

impl Model for ByLabel {
    ghost use Rattle.std.specs.Prelude.{ℕ, List};
    ghost use Rattle.pr_labels.specs.declared.pair.Pair.{Pair};

    ghost Value = { List (Pair × List (List Pair × ℕ)) };

    ghost view = { λ b. b.listings.entries };
}

ghost use Rattle.std.specs.Prelude.{◌≡◌, [], cond, false, None, IfOk, OnOk, OnErr};
ghost use Rattle.std.specs.Option.{option_copied};
ghost use Rattle.std.specs.Map.{lookup, remove_entry};
ghost use Rattle.std.specs.BTreeMap.{insert_entry, is_at};
ghost use Rattle.pr_labels.specs.declared.pair.Pair.{Pair};
ghost use Rattle.pr_labels.specs.Order.{labels_cmp, pair_eq};
ghost use Rattle.pr_head.specs.private.Index.{Numbered, has_label, listing_of};

impl ByLabel {
    /// No series.
    pub(crate) fn new(alloc: Global) -> ByLabel
        ensures { result ≡ [] }
    {
        ByLabel {
            listings: IndexMap::new(alloc),
            alloc,
        }
    }

    /// The series that have a label.
    pub(crate) fn listing(&self, label: &Pair) -> Option<&Listing>
        ensures { option_copied result ≡ lookup (pair_eq label.now) self.now }
    {
        self.listings.get(label)
    }

    // The first series that has a label.
    fn begin(&mut self, label: &Pair, labels: Labels, number: usize) -> Result<(), AllocError>
        requires { listing_of self.old label.now ≡ [] }
        ensures ok { OnOk result ((other : Pair) → listing_of self.new other
            ≡ cond (pair_eq other label.now) (insert_entry labels_cmp (listing_of self.old other) labels number) (listing_of self.old other)) }
        ensures err { OnErr result (self.new ≡ self.old) }
    {
        let mut listing = Listing::new(self.alloc);
        listing.insert(labels, number)?;
        self.listings.insert(label.copy(self.alloc)?, listing)?;
        Ok(())
    }

    // One more series that has a label.
    fn add(&mut self, label: &Pair, labels: Labels, number: usize) -> Result<(), AllocError>
        ensures ok { OnOk result ((other : Pair) → listing_of self.new other
            ≡ cond (pair_eq other label.now) (insert_entry labels_cmp (listing_of self.old other) labels number) (listing_of self.old other)) }
        ensures err { OnErr result ((other : Pair) → listing_of self.new other ≡ listing_of self.old other) }
    {
        match self.listings.get_mut(label) {
            Some(listing) => listing.insert(labels, number),
            None => self.begin(label, labels, number),
        }
    }

    // Takes a series away from those that have a label.
    fn remove(&mut self, label: &Pair, labels: &Labels)
        ensures { (other : Pair) → listing_of self.new other
            ≡ cond (pair_eq other label.now) (remove_entry (is_at (labels_cmp labels.now)) (listing_of self.old other)) (listing_of self.old other) }
    {
        let Some(listing) = self.listings.get_mut(label) else {
            return;
        };
        listing.remove(labels);
    }

    // Takes a series away that was listed under some of these labels.
    fn remove_each(&mut self, pairs: &[Pair], labels: &Labels)
        ensures { (before : Pair → Numbered)
            → ((other : Pair) → remove_entry (is_at (labels_cmp labels.now)) (before other) ≡ before other)
            → ((other : Pair) → remove_entry (is_at (labels_cmp labels.now)) (listing_of self.old other) ≡ before other)
            → ((other : Pair) → has_label other pairs.now ≡ false → listing_of self.old other ≡ before other)
            → (other : Pair) → listing_of self.new other ≡ before other }
    {
        for label in pairs {
            self.remove(label, labels);
        }
    }

    // One more series that has a label, by a copy of its labels.
    fn add_copy(&mut self, label: &Pair, labels: &Labels, number: usize) -> Result<(), AllocError>
        ensures ok { OnOk result ((other : Pair) → listing_of self.new other
            ≡ cond (pair_eq other label.now) (insert_entry labels_cmp (listing_of self.old other) labels.now number) (listing_of self.old other)) }
        ensures err { OnErr result ((other : Pair) → listing_of self.new other ≡ listing_of self.old other) }
    {
        let copy = labels.copy(self.alloc)?;
        self.add(label, copy, number)
    }

    /// One more series, under each of these labels. Without memory it is listed under none.
    pub(crate) fn add_each(
        &mut self,
        pairs: &[Pair],
        labels: &Labels,
        number: usize,
    ) -> Result<(), AllocError>
        ensures ok { OnOk result ((other : Pair) → listing_of self.new other
            ≡ cond (has_label other pairs.now) (insert_entry labels_cmp (listing_of self.old other) labels.now number) (listing_of self.old other)) }
        ensures err { ((other : Pair) → lookup (is_at (labels_cmp labels.now)) (listing_of self.old other) ≡ None)
            → OnErr result ((other : Pair) → listing_of self.new other ≡ listing_of self.old other) }
    {
        for label in pairs {
            if let Err(error) = self.add_copy(label, labels, number) {
                self.remove_each(pairs, labels);
                return Err(error);
            }
        }
        Ok(())
    }
}
