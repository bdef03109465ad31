// The labels of a list.
ghost use Rattle.std.specs.Prelude.{◌≡◌, ◌++◌, ◌∷◌, [], ℕ, List, ◌||◌, IfOk, IfSome, OnOk};
ghost use Rattle.std.specs.Str.{bytes_eq};
ghost use Rattle.std.specs.List.{list_any};
ghost use Rattle.pr_labels.specs.LabelSet.{has_name};
ghost use Rattle.pr_labels.specs.declared.pair.Pair.{Pair};
ghost use Rattle.pr_expo.specs.private.KnownNames.{knows_name, KnowsNames};

use pr_labels::Pair;
use pr_labels::words_crate::Text;
use std::alloc::{AllocError, Global};
use std::collections::BTreeSet;
use std::marker::Model;

/// So many labels are searched one by one.
const FEW: usize = 16;

/// The labels of a list in the order of the text, which is how contracts see them. Where they are
/// many, their names stand in an order too, so that a name is looked up in few steps.
#[derive(Debug, Drop)]
pub struct LabelList {
    pairs: Vec<Pair>,
    names: Option<BTreeSet<Text>>,
}

impl Model for LabelList {
    ghost use Rattle.std.specs.Prelude.{List, IfSome};
    ghost use Rattle.pr_labels.specs.declared.pair.Pair.{Pair};
    ghost use Rattle.pr_expo.specs.private.KnownNames.{KnowsNames};

    ghost Value = { List Pair };

    ghost view = { λ l. l.pairs.items };

    ghost invariant = { λ l. IfSome l.names (λ names. KnowsNames names l.pairs.items) };
}

impl LabelList {
    /// No labels.
    pub(crate) fn empty(alloc: Global) -> LabelList
        ensures { result ≡ [] }
    {
        LabelList {
            pairs: Vec::new(alloc),
            names: None,
        }
    }

    /// Whether one of the labels has the name.
    pub(crate) fn has(&self, name: &Text) -> bool
        ensures { result ≡ list_any (has_name name.now) self.now }
    {
        has_label_named(&self.pairs, &self.names, name)
    }

    /// The labels with one more.
    pub(crate) fn with(self, alloc: Global, pair: Pair) -> Result<LabelList, AllocError>
        ensures { IfOk result (λ l. l ≡ self ++ pair ∷ []) }
    {
        let LabelList { mut pairs, names } = self;
        let names = names_with(alloc, names, &pairs, &pair.name)?;
        pairs.push(pair)?;
        Ok(LabelList { pairs, names })
    }

    /// The labels, in the order of the text.
    pub fn into_vec(self) -> Vec<Pair>
        ensures { result.items ≡ self }
    {
        self.pairs
    }
}

/// Whether one of the labels has the name; `names` has the names of them all, where it is there.
fn has_label_named(labels: &[Pair], names: &Option<BTreeSet<Text>>, name: &Text) -> bool
    requires { IfSome names.now (λ names. KnowsNames names labels.now) }
    ensures { result ≡ list_any (has_name name.now) labels.now }
{
    match names {
        Some(names) => names.contains(name),
        None => stands_among(labels, name.as_str()),
    }
}

fn stands_among(labels: &[Pair], name: &str) -> bool
    ensures { result ≡ list_any (has_name name.now) labels.now }
{
    for label in labels {
        if label.name.as_str() == name {
            return true;
        }
    }
    false
}

#[tactic(auto, using(crate::proofs::KnownNames::more_known))]
fn add_name(names: &mut BTreeSet<Text>, name: Text) -> Result<(), AllocError>
    ensures { OnOk result ((other : List ℕ) → knows_name names.new other ≡ (knows_name names.old other || bytes_eq name other)) }
{
    names.insert(name)?;
    Ok(())
}

/// The names of the labels.
#[tactic(auto, using(crate::proofs::KnownNames::known_next))]
fn names_of(alloc: Global, labels: &[Pair]) -> Result<BTreeSet<Text>, AllocError>
    ensures { IfOk result (λ names. KnowsNames names labels.now) }
{
    let mut names = BTreeSet::new(alloc);
    for label in labels {
        add_name(&mut names, label.name.copy(alloc)?)?;
    }
    Ok(names)
}

/// The names of the labels and one more, once the labels are many.
#[tactic(auto, using(crate::proofs::KnownNames::known_with))]
fn names_with(
    alloc: Global,
    names: Option<BTreeSet<Text>>,
    labels: &[Pair],
    name: &Text,
) -> Result<Option<BTreeSet<Text>>, AllocError>
    requires { IfSome names (λ names. KnowsNames names labels.now) }
    ensures { IfOk result (λ more. IfSome more (λ names. (pair : Pair) → pair.name ≡ name.now → KnowsNames names (labels.now ++ pair ∷ []))) }
{
    let mut names = match names {
        Some(names) => names,
        None if labels.len() < FEW => return Ok(None),
        None => names_of(alloc, labels)?,
    };
    add_name(&mut names, name.copy(alloc)?)?;
    Ok(Some(names))
}
