// Labels that are chosen where they stand.
ghost use Rattle.std.specs.Prelude.{◌≡◌, ◌++◌, [], filter, OnOk};
ghost use Rattle.pr_labels.specs.Edits.{key_labels};
ghost use Rattle.pr_labels.specs.Order.{labels_eq};
ghost use Rattle.pr_agg.specs.private.Chosen.{is_in_key, pairs_at};

use indexmap::Equivalent;
use pr_labels::words_crate::Text;
use pr_labels::{Labels, ListedNames, METRIC_LABEL, Pair};
use std::alloc::{AllocError, Global};
use std::hash::{Hash, Hasher};
use std::marker::Model;

/// The labels by which an element is grouped or matched, where they stand: they are looked up by,
/// or are a key themselves, and no label set is made for them. Contracts see the list of the pairs.
#[derive(Drop)]
pub struct ChosenLabels<'a> {
    places: Vec<&'a Pair>,
}

impl<'a> Model for ChosenLabels<'a> {
    ghost use Rattle.std.specs.Prelude.{List};
    ghost use Rattle.pr_labels.specs.declared.pair.Pair.{Pair};
    ghost use Rattle.pr_agg.specs.private.Chosen.{pairs_at};

    ghost Value = { List Pair };

    ghost view = { λ c. pairs_at c.places.items };
}

impl<'a> PartialEq for ChosenLabels<'a> {
    ghost use Rattle.std.proofs.Common.{rules};
    ghost use Rattle.std.specs.Cmp.Rules.{comparing};
    ghost use Rattle.pr_labels.specs.Order.{labels_eq};

    ghost eq = { labels_eq };

    ghost laws = { Prim.search (comparing, rules) };

    fn eq(&self, other: &ChosenLabels<'a>) -> bool {
        self.places == other.places
    }
}

impl<'a> Eq for ChosenLabels<'a> {
    ghost use Rattle.std.proofs.Common.{rules};
    ghost use Rattle.std.specs.Cmp.Rules.{comparing};

    ghost laws = { Prim.search (comparing, rules) };
}

impl<'a> Hash for ChosenLabels<'a> {
    ghost use Rattle.std.specs.Hash as fed;
    ghost use Rattle.pr_labels.specs.Order.{pair_input, labels_alike};

    ghost hash_input = { fed.slice pair_input };

    ghost respects_eq = { labels_alike.fed };

    fn hash<H: Hasher>(&self, state: &mut H) {
        self.places.as_slice().hash(state);
    }
}

// Whether the pairs at places are these.
fn are_pairs(places: &[&Pair], pairs: &[Pair]) -> bool
    ensures { result ≡ labels_eq (pairs_at places.now) pairs.now }
{
    let mut rest = pairs;
    for place in places {
        match rest.split_first() {
            Some((pair, more)) if **place == *pair => rest = more,
            _ => return false,
        }
    }
    rest.is_empty()
}

impl<'a> Equivalent<Labels> for &ChosenLabels<'a> {
    ghost use Rattle.pr_labels.specs.Order.{labels_alike, labels_eq};
    ghost use Rattle.pr_agg.specs.private.Chosen.{labels_equiv};

    ghost equivalent = { λ q. labels_eq q.now };

    ghost respects_hash = { λ q. labels_alike.fed q.now };

    ghost respects_eq = { λ q. labels_equiv.congr q.now };

    fn equivalent(&self, key: &Labels) -> bool {
        are_pairs(&self.places, key.pairs())
    }
}

// Whether the key has the pair: on the names, or without them and the metric's name.
#[tactic(auto, unfolding(crate::specs::private::Chosen::is_in_key))]
fn is_in_key(on: bool, names: &ListedNames<'_>, pair: &Pair) -> bool
    ensures { result ≡ is_in_key on names.now pair.now }
{
    let listed = names.has(pair);
    if on {
        listed
    } else {
        !listed && pair.name.as_str() != METRIC_LABEL
    }
}

// Puts the places of the key's pairs at the end.
fn push_places<'a>(
    places: &mut Vec<&'a Pair>,
    on: bool,
    names: &ListedNames<'_>,
    pairs: &'a [Pair],
) -> Result<(), AllocError>
    ensures { OnOk result (pairs_at places.new.items ≡ pairs_at places.old.items ++ filter (is_in_key on names.now) pairs.now) }
{
    for pair in pairs {
        if is_in_key(on, names, pair) {
            places.push(pair)?;
        }
    }
    Ok(())
}

impl<'a> ChosenLabels<'a> {
    /// No labels.
    pub fn new(alloc: Global) -> ChosenLabels<'a>
        ensures { result ≡ [] }
    {
        ChosenLabels {
            places: Vec::new(alloc),
        }
    }

    /// Chooses the labels of a set on the names, or those without them and the metric's name, in
    /// place of those before.
    pub fn choose(&mut self, on: bool, names: &[Text], labels: &'a Labels) -> Result<(), AllocError>
        ensures { OnOk result (self.new ≡ key_labels on labels.now names.now) }
    {
        let pairs = labels.pairs();
        let listed = ListedNames::of(*self.places.allocator(), names, pairs.len())?;
        self.places.clear();
        push_places(&mut self.places, on, &listed, pairs)?;
        Ok(())
    }
}
