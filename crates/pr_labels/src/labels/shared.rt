ghost use Rattle.std.specs.Prelude.{◌≡◌, ◌<◌, [], length, drop, IfOk, IfSome, OnErr, MatchResult};
ghost use Rattle.std.specs.List.{remove};
ghost use Rattle.pr_labels.specs.Order.{labels_cmp, labels_eq};
ghost use Rattle.pr_labels.specs.private.OrderKey.{IsOrderKey};

use super::copies::{copy_others, copy_pairs, copy_to_grow};
use super::keyed::KeyedPairs;
use crate::pair::Pair;
use std::alloc::{AllocError, Global};
use std::cmp::Ordering;
use std::marker::Model;
use std::mem;
use std::rc::Rc;

/// Pairs that label sets share, so that one more set with the same pairs costs a count. With the
/// count mostly comes an order key, by which they are compared in one go. Contracts see the list of
/// the pairs.
#[derive(Debug, Drop)]
pub(super) struct SharedPairs {
    held: Held,
}

// Pairs of one set alone, or with a count of the sets that have them. A set can also have all but
// the first of the pairs that are counted: so does one that lost the metric's name, which mostly
// stands first. Without a count are pairs for which there was no memory for one, and the empty
// list, unless it is what is left of one shared pair.
#[derive(Debug, Drop)]
enum Held {
    Alone(Vec<Pair>),
    Counted(Rc<KeyedPairs>),
    Rest(Rc<KeyedPairs>),
}

// All but the first pair.
fn rest_of(pairs: &[Pair]) -> &[Pair]
    ensures { result.now ≡ drop 1 pairs.now }
{
    match pairs.split_first() {
        Some((_first, rest)) => rest,
        None => pairs,
    }
}

impl Model for SharedPairs {
    ghost use Rattle.std.specs.Prelude.{List};
    ghost use Rattle.pr_labels.specs.declared.pair.Pair.{Pair};
    ghost use Rattle.pr_labels.specs.private.Held.{held_pairs};

    ghost Value = { List Pair };

    ghost view = { λ s. held_pairs s.held };
}

impl SharedPairs {
    /// No pairs.
    pub(super) fn empty(alloc: Global) -> SharedPairs
        ensures { result ≡ [] }
    {
        SharedPairs {
            held: Held::Alone(Vec::new(alloc)),
        }
    }

    // Pairs to be shared, where there are any, and memory for a count.
    fn counted(alloc: Global, pairs: KeyedPairs) -> SharedPairs
        ensures { result ≡ pairs }
    {
        if pairs.as_slice().is_empty() {
            return SharedPairs {
                held: Held::Alone(pairs.into_vec()),
            };
        }
        match Rc::new(alloc, pairs) {
            Ok(counted) => SharedPairs {
                held: Held::Counted(counted),
            },
            Err(refused) => SharedPairs {
                held: Held::Alone(refused.value.into_vec()),
            },
        }
    }

    /// The pairs of a vector, to be shared where there is memory for a count.
    pub(super) fn new(alloc: Global, pairs: Vec<Pair>) -> SharedPairs
        ensures { result ≡ pairs.items }
    {
        SharedPairs::counted(alloc, KeyedPairs::new(alloc, pairs))
    }

    /// The same, without an order key.
    pub(super) fn without_key(alloc: Global, pairs: Vec<Pair>) -> SharedPairs
        ensures { result ≡ pairs.items }
    {
        SharedPairs::counted(alloc, KeyedPairs::without_key(pairs))
    }

    /// The pairs.
    pub(super) fn as_slice(&self) -> &[Pair]
        ensures { result.now ≡ self.now }
    {
        match &self.held {
            Held::Alone(pairs) => pairs.as_slice(),
            Held::Counted(counted) => counted.as_ref().as_slice(),
            Held::Rest(counted) => rest_of(counted.as_ref().as_slice()),
        }
    }

    // The order key of the pairs, where they have one.
    fn order_key(&self) -> Option<&str>
        ensures { IfSome result (λ key. IsOrderKey key.now self.now) }
    {
        match &self.held {
            Held::Alone(_) => None,
            Held::Counted(counted) => counted.as_ref().order_key(),
            Held::Rest(counted) => counted.as_ref().rest_order_key(),
        }
    }

    /// Whether the pairs are the same as others: by the order keys, where both have one.
    #[tactic(auto, using(crate::proofs::OrderKeys::same_by_keys))]
    pub(super) fn equals(&self, other: &SharedPairs) -> bool
        ensures { result ≡ labels_eq self.now other.now }
    {
        match (self.order_key(), other.order_key()) {
            (Some(key), Some(other_key)) => key == other_key,
            _ => self.as_slice() == other.as_slice(),
        }
    }

    /// How the pairs compare with others in label order: by the order keys, where both have one.
    #[tactic(auto, using(crate::proofs::OrderKeys::by_keys))]
    pub(super) fn compare(&self, other: &SharedPairs) -> Ordering
        ensures { result ≡ labels_cmp self.now other.now }
    {
        match (self.order_key(), other.order_key()) {
            (Some(key), Some(other_key)) => key.cmp(other_key),
            _ => self.as_slice().cmp(other.as_slice()),
        }
    }

    /// The same pairs: shared where they have a count, else with texts of their own.
    pub(super) fn share(&self, alloc: Global) -> Result<SharedPairs, AllocError>
        ensures { IfOk result (λ s. s ≡ self.now) }
    {
        match &self.held {
            Held::Alone(pairs) => Ok(SharedPairs::new(alloc, copy_pairs(alloc, pairs)?)),
            Held::Counted(counted) => Ok(SharedPairs {
                held: Held::Counted(counted.clone()?),
            }),
            Held::Rest(counted) => Ok(SharedPairs {
                held: Held::Rest(counted.clone()?),
            }),
        }
    }

    /// The pairs but the one at a place. All but the first one are shared where the set shares all
    /// of its pairs.
    pub(super) fn others(&self, alloc: Global, place: usize) -> Result<SharedPairs, AllocError>
        requires { place < length self.now }
        ensures { IfOk result (λ s. s ≡ remove self.now place) }
    {
        match &self.held {
            Held::Counted(counted) if place == 0 => Ok(SharedPairs {
                held: Held::Rest(counted.clone()?),
            }),
            _ => {
                let others = copy_others(alloc, self.as_slice(), place)?;
                Ok(SharedPairs::new(alloc, others))
            }
        }
    }

    /// The vector of the pairs, where no other set shares them and they are all that is held; else
    /// the same pairs again.
    pub(super) fn into_alone(self) -> Result<Vec<Pair>, SharedPairs>
        ensures { MatchResult result (λ v. v.items ≡ self) (λ s. s ≡ self) }
    {
        match self.held {
            Held::Alone(pairs) => Ok(pairs),
            Held::Counted(counted) => match Rc::try_unwrap(counted) {
                Ok(keyed) => Ok(keyed.into_vec()),
                Err(counted) => Err(SharedPairs {
                    held: Held::Counted(counted),
                }),
            },
            Held::Rest(counted) => Err(SharedPairs {
                held: Held::Rest(counted),
            }),
        }
    }

    /// Takes the pairs out to be changed: themselves, or where they are shared other ones with the
    /// same texts. Without memory they stay.
    pub(super) fn take(&mut self, alloc: Global) -> Result<Vec<Pair>, AllocError>
        ensures ok { IfOk result (λ v. v.items ≡ self.old) }
        ensures err { OnErr result (self.new ≡ self.old) }
    {
        match mem::replace(self, SharedPairs::empty(alloc)).into_alone() {
            Ok(pairs) => Ok(pairs),
            Err(shared) => {
                let copies = copy_to_grow(alloc, shared.as_slice());
                *self = shared;
                copies
            }
        }
    }
}
