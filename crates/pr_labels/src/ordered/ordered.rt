ghost use Rattle.std.specs.Prelude.{◌≡◌, [], IfOk};
ghost use Rattle.pr_labels.specs.Rising.{IsRising};
ghost use Rattle.pr_labels.specs.private.Entries.{IsPut, items_of, label_sets_of};

use crate::ordered::places::{goes_behind, move_all, place, with_placed};
use crate::{Item, Labels};
use std::alloc::{AllocError, Global};
use std::collections::BTreeMap;
use std::marker::Model;

/// What label sets have, in label order; each label set stands there once. Contracts see the list
/// of the label sets with what they have.
///
/// While label sets come in label order, each is pushed behind the last one. From the first that
/// does not on, all stand in an ordered map.
#[derive(Drop)]
pub struct Ordered<V> {
    rising: Vec<Item<V>>,
    placed: BTreeMap<Labels, V>,
}

impl<V> Model for Ordered<V> {
    ghost use Rattle.std.specs.Prelude.{List};
    ghost use Rattle.std.specs.Map.{keys_of};
    ghost use Rattle.pr_labels.specs.declared.pair.Pair.{Pair};
    ghost use Rattle.pr_labels.specs.Rising.{IsRising};
    ghost use Rattle.pr_labels.specs.private.Entries.{entries_of};

    ghost Value = { List (List Pair × V) };

    ghost view = { λ o. entries_of o.rising.items o.placed.entries };

    ghost invariant = { λ o. IsRising (keys_of (entries_of o.rising.items o.placed.entries)) };
}

impl<V> Ordered<V> {
    /// No label sets.
    pub fn new(alloc: Global) -> Ordered<V>
        ensures { result ≡ [] }
    {
        Ordered {
            rising: Vec::new(alloc),
            placed: BTreeMap::new(alloc),
        }
    }

    /// No label sets, with room for so many that come in label order.
    pub fn with_capacity(alloc: Global, capacity: usize) -> Result<Ordered<V>, AllocError>
        ensures { IfOk result (λ o. o ≡ []) }
    {
        Ok(Ordered {
            rising: Vec::with_capacity(alloc, capacity)?,
            placed: BTreeMap::new(alloc),
        })
    }
}

impl<V: Drop> Ordered<V> {
    /// Puts a value behind labels, at their place in label order. Where they stand there with a
    /// value, that one stays, and they come back. After want of memory some of what was there may
    /// be lost.
    pub fn put(&mut self, labels: Labels, value: V) -> Result<Option<Labels>, AllocError>
        ensures { IfOk result (λ again. IsPut again labels value self.old self.new) }
    {
        if goes_behind(&self.rising, &self.placed, &labels) {
            self.rising.push(Item { labels, value })?;
            return Ok(None);
        }
        move_all(&mut self.rising, &mut self.placed)?;
        place(*self.rising.allocator(), &mut self.placed, labels, value)
    }

    /// The label sets with what they have, as items in label order.
    pub fn into_items(self) -> Result<Vec<Item<V>>, AllocError>
        ensures items { IfOk result (λ v. v.items ≡ items_of self) }
        ensures rising { IfOk result (λ v. IsRising (label_sets_of v.items)) }
    {
        with_placed(self.rising, self.placed)
    }
}
