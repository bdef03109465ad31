// Labels that are kept by name in an ordered map, so that one of many is found, taken out or put
// in after a few steps.
ghost use Rattle.std.specs.Prelude.{◌≡◌, IfOk, OnOk};
ghost use Rattle.pr_labels.specs.Edits.{set_label, without_name};
ghost use Rattle.pr_labels.specs.LabelSet.{IsLabel, IsLabelSet, pair_of};
ghost use Rattle.pr_manager.specs.spec_world.Scrapes.{has};
ghost use Rattle.pr_engine.specs.private.ByName.{labels_in};

use pr_labels::{Labels, Pair};
use pr_words::Text;
use std::alloc::{AllocError, Global};
use std::collections::BTreeMap;

// Puts a label in, instead of the one with its name.
#[tactic(auto, using(crate::proofs::ByName::put_in_map, crate::proofs::ByName::set_stays_put))]
pub(crate) fn put(
    alloc: Global,
    named: &mut BTreeMap<Text, Text>,
    name: Text,
    value: &Text,
) -> Result<(), AllocError>
    requires set { IsLabelSet (labels_in named.old.entries) }
    requires label { IsLabel (pair_of name value.now) }
    ensures put { OnOk result (labels_in named.new.entries ≡ set_label (labels_in named.old.entries) name value.now) }
    ensures set { OnOk result (IsLabelSet (labels_in named.new.entries)) }
{
    named.insert(name, value.copy(alloc)?)?;
    Ok(())
}

// Takes a name out, where it is there.
#[tactic(auto, using(crate::proofs::ByName::taken_out, crate::proofs::ByName::set_stays_taken))]
pub(crate) fn take_out(named: &mut BTreeMap<Text, Text>, name: &Text)
    requires { IsLabelSet (labels_in named.old.entries) }
    ensures taken { labels_in named.new.entries ≡ without_name (labels_in named.old.entries) name.now }
    ensures set { IsLabelSet (labels_in named.new.entries) }
{
    named.remove(name);
}

// Whether a name is there.
#[tactic(auto, using(crate::proofs::ByName::found))]
pub(crate) fn is_in(named: &BTreeMap<Text, Text>, name: &Text) -> bool
    ensures { result ≡ has (labels_in named.now.entries) name.now }
{
    named.contains_key(name)
}

/// The labels of a set by name.
pub(crate) fn by_name(alloc: Global, pairs: &[Pair]) -> Result<BTreeMap<Text, Text>, AllocError>
    requires { IsLabelSet pairs.now }
    ensures { IfOk result (λ named. labels_in named.entries ≡ pairs.now) }
{
    let mut named = BTreeMap::new(alloc);
    let mut rest = pairs;
    'naming: while let Some((pair, after)) = rest.split_first() {
        put(alloc, &mut named, pair.name.copy(alloc)?, &pair.value)?;
        rest = after;
    }
    Ok(named)
}

// The pairs of the labels, in order of name.
fn pairs_of(alloc: Global, named: BTreeMap<Text, Text>) -> Result<Vec<Pair>, AllocError>
    ensures { IfOk result (λ v. v.items ≡ labels_in named.entries) }
{
    let mut pairs = Vec::with_capacity(alloc, named.len())?;
    for (name, value) in named {
        pairs.push(Pair { name, value })?;
    }
    Ok(pairs)
}

/// The label set of the labels.
pub(crate) fn labels_of(alloc: Global, named: BTreeMap<Text, Text>) -> Result<Labels, AllocError>
    requires { IsLabelSet (labels_in named.entries) }
    ensures { IfOk result (λ l. l ≡ labels_in named.entries) }
{
    Labels::from_distinct(pairs_of(alloc, named)?)
}
