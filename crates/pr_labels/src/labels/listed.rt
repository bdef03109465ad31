ghost use Rattle.std.specs.Prelude.{◌≡◌, IfOk};
ghost use Rattle.pr_words.specs.Names.{knows};
ghost use Rattle.pr_labels.specs.Edits.{is_listed};
ghost use Rattle.pr_labels.specs.private.Chosen.{HasNames};

use super::known::known_names;
use crate::pair::Pair;
use pr_words::Text;
use std::alloc::{AllocError, Global};
use std::collections::BTreeSet;
use std::marker::Model;

// The names are gone over for each label where either are so few. Else they are put in order first.
const FEW: usize = 16;

/// Names that those of labels are looked for among, so that neither many names nor many labels make
/// it dear. Contracts see the list of the names.
#[derive(Drop)]
pub struct ListedNames<'a> {
    names: &'a [Text],
    many: Option<BTreeSet<&'a [u8]>>,
}

impl<'a> Model for ListedNames<'a> {
    ghost use Rattle.std.specs.Prelude.{ℕ, List};
    ghost use Rattle.pr_labels.specs.private.Chosen.{HasNames};

    ghost Value = { List (List ℕ) };

    ghost view = { λ l. l.names.now };

    ghost invariant = { λ l. HasNames l.many l.names.now };
}

// Whether the pair's name is one of the names.
fn is_listed(names: &[Text], pair: &Pair) -> bool
    ensures { result ≡ is_listed names.now pair.now }
{
    names.iter().any(|name| pair.name == *name)
}

// Whether a name is known.
fn is_known(known: &BTreeSet<&[u8]>, name: &[u8]) -> bool
    ensures { result ≡ knows known.now name.now }
{
    known.contains(name)
}

// The names in order, where they and the labels are many.
fn many_names<'a>(
    alloc: Global,
    names: &'a [Text],
    labels: usize,
) -> Result<Option<BTreeSet<&'a [u8]>>, AllocError>
    ensures { IfOk result (λ many. HasNames many names.now) }
{
    if names.len().min(labels) <= FEW {
        return Ok(None);
    }
    Ok(Some(known_names(alloc, names)?))
}

// Whether the pair's name is one of the names, of which many are in order.
#[tactic(auto, using(crate::proofs::KnownNames::listed_among))]
fn is_one_of(many: &Option<BTreeSet<&[u8]>>, names: &[Text], pair: &Pair) -> bool
    requires { HasNames many.now names.now }
    ensures { result ≡ is_listed names.now pair.now }
{
    match many {
        Some(known) => is_known(known, pair.name.as_str().as_bytes()),
        None => is_listed(names, pair),
    }
}

impl<'a> ListedNames<'a> {
    /// These names, to be asked for so many labels. Nothing is allocated where either are few.
    pub fn of(
        alloc: Global,
        names: &'a [Text],
        labels: usize,
    ) -> Result<ListedNames<'a>, AllocError>
        ensures { IfOk result (λ l. l ≡ names.now) }
    {
        let many = many_names(alloc, names, labels)?;
        Ok(ListedNames { names, many })
    }

    /// Whether the pair's name is one of them.
    pub fn has(&self, pair: &Pair) -> bool
        ensures { result ≡ is_listed self.now pair.now }
    {
        is_one_of(&self.many, self.names, pair)
    }
}
