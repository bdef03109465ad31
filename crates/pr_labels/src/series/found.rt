// The labels that a reader has found.
ghost use Rattle.std.specs.Prelude.{◌≡◌, ◌++◌, ◌∷◌, [], ℕ, List, OnOk, drop};
ghost use Rattle.std.specs.List.{list_any};
ghost use Rattle.std.specs.Str.{bytes_eq};
ghost use Rattle.pr_words.specs.Names.{knows, is_among};
ghost use Rattle.pr_labels.specs.private.SeriesReader.{names_of};

use crate::Pair;
use std::alloc::{AllocError, Global};
use std::collections::BTreeSet;

/// How many labels are gone over when a name is looked up.
const FEW: usize = 16;

/// Labels in the order of their text, and the names of those after the first few, so that a name is
/// looked up in few steps, and few labels need no set.
#[derive(Drop)]
pub(crate) struct LabelsSoFar<'a> {
    pub(crate) pairs: Vec<Pair>,
    later: BTreeSet<&'a [u8]>,
    ghost known: { (name : List ℕ) → knows later name ≡ is_among name (names_of (drop 16 pairs.items)) },
}

/// Whether one of the labels has the name.
fn is_named(pairs: &[Pair], name: &str) -> bool
    ensures { result ≡ list_any (λ p. bytes_eq p.name name.now) pairs.now }
{
    pairs.iter().any(|pair| pair.name.as_str() == name)
}

impl<'a> LabelsSoFar<'a> {
    /// No labels.
    pub(crate) fn empty(alloc: Global) -> LabelsSoFar<'a>
        ensures { result.pairs.items ≡ [] }
    {
        LabelsSoFar {
            pairs: Vec::new(alloc),
            later: BTreeSet::new(alloc),
        }
    }

    /// Whether a label has the name.
    pub(crate) fn has(&self, name: &str) -> bool
        ensures { result ≡ is_among name.now (names_of self.now.pairs.items) }
    {
        if self.pairs.len() <= FEW {
            return is_named(&self.pairs, name);
        }
        is_named(&self.pairs[..FEW], name) || self.later.contains(name.as_bytes())
    }

    /// Puts one more label at the end, whose name stands in the text too.
    pub(crate) fn add(&mut self, name: &'a [u8], pair: Pair) -> Result<(), AllocError>
        requires { name.now ≡ pair.name }
        ensures { OnOk result (self.new.pairs.items ≡ self.old.pairs.items ++ pair ∷ []) }
    {
        if self.pairs.len() < FEW {
            self.pairs.push(pair)?;
            return Ok(());
        }
        // The set is to know just the names of the pairs, also where memory runs out.
        self.pairs.reserve(1)?;
        self.later.insert(name)?;
        match self.pairs.push(pair) {
            Ok(()) => Ok(()),
            Err(_) => unreachable!(),
        }
    }
}
