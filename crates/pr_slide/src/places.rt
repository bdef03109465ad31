// Where the windows of each range selector stand.
ghost use Rattle.std.specs.Prelude.{◌≡◌, ◌+◌, ◌<◌, ◌^◌, List, ℕ, OnOk, OnErr, length, nat_eq};
ghost use Rattle.std.specs.Map.{lookup};
ghost use Rattle.pr_slide.specs.private.Places.{ArePlacesOf, noted, numbers_of};

use crate::node::Node;
use indexmap::IndexMap;
use std::alloc::{AllocError, Global};
use std::marker::Model;

/// The places of the first range selectors of a list, by their numbers. Contracts see how many are
/// noted, and the place of each.
#[derive(Drop)]
pub struct Places {
    count: usize,
    places: IndexMap<usize, usize>,
}

impl Model for Places {
    ghost use Rattle.std.specs.Prelude.{ℕ, List};

    ghost Value = { ℕ × List (ℕ × ℕ) };

    ghost view = { λ p. (p.count, p.places.entries) };
}

impl Places {
    /// None is noted yet.
    #[tactic(auto, using(crate::proofs::Placing::no_places))]
    pub(crate) fn new(alloc: Global) -> Places
        ensures { (numbers : List ℕ) → ArePlacesOf result numbers }
    {
        Places {
            count: 0,
            places: IndexMap::new(alloc),
        }
    }

    /// The place of a range selector, if it is noted.
    pub(crate) fn place_of(&self, number: usize) -> Option<usize>
        ensures { result ≡ lookup (nat_eq number) self.now.1 }
    {
        self.places.get(&number).copied()
    }

    // Notes one more. A number that is noted keeps its place.
    fn note(&mut self, number: usize) -> Result<(), AllocError>
        requires { self.old.0 < 2 ^ 63 }
        ensures count { OnOk result (self.new.0 ≡ self.old.0 + 1) }
        ensures places { OnOk result ((k : ℕ) → lookup (nat_eq k) self.new.1 ≡ noted self.old.0 number k (lookup (nat_eq k) self.old.1)) }
        ensures refused { OnErr result (self.new ≡ self.old) }
    {
        if !self.places.contains_key(&number) {
            self.places.insert(number, self.count)?;
        }
        self.count += 1;
        Ok(())
    }

    /// Notes those that are not noted yet.
    pub(crate) fn note_all(&mut self, nodes: &[Node]) -> Result<(), AllocError>
        requires { ArePlacesOf self.old (numbers_of nodes.now) }
        ensures all { OnOk result (self.new.0 ≡ length nodes.now) }
        ensures places { ArePlacesOf self.new (numbers_of nodes.now) }
    {
        for place in self.count..nodes.len() {
            self.note(nodes[place].number())?;
        }
        Ok(())
    }
}
