// The labels of a sample under a target.
ghost use Rattle.std.specs.Prelude.{◌≡◌, ◌||◌, false, fold, IfOk, OnOk};
ghost use Rattle.std.specs.List.{list_any};
ghost use Rattle.pr_labels.specs.Edits.{set_label};
ghost use Rattle.pr_labels.specs.LabelSet.{IsLabel, IsLabelSet};
ghost use Rattle.pr_manager.specs.spec_world.Scrapes.{exported, free_name, has, is_free, metric_of, renamed, scraped_labels, with_free_name};
ghost use Rattle.pr_engine.specs.private.ByName.{labels_in};

use crate::scrape::by_name::{by_name, is_in, labels_of, put, take_out};
use pr_labels::{Labels, METRIC_LABEL, Pair};
use pr_words::Text;
use std::alloc::{AllocError, Global};
use std::collections::BTreeMap;

fn exported(alloc: Global, name: &str) -> Result<Text, AllocError>
    ensures { IfOk result (λ t. t ≡ exported name.now) }
{
    let mut text = String::from_str(alloc, "exported_")?;
    text.push_str(name)?;
    Ok(Text::new(text))
}

fn has(labels: &Labels, name: &Text) -> bool
    ensures { result ≡ has labels.now name.now }
{
    labels.get(name.as_str()).is_some()
}

// A name that neither the target nor the labels so far have.
fn is_free(target: &Labels, named: &BTreeMap<Text, Text>, name: &Text) -> bool
    ensures { result ≡ is_free target.now (labels_in named.now.entries) name.now }
{
    !has(target, name) && !is_in(named, name)
}

// The name with `exported_` before it, as often as it takes until it is free.
fn free_name(
    alloc: Global,
    target: &Labels,
    named: &BTreeMap<Text, Text>,
    name: &Text,
) -> Result<Text, AllocError>
    ensures { IfOk result (λ t. t ≡ free_name target.now (labels_in named.now.entries) name.now) }
{
    let mut free = exported(alloc, name.as_str())?;
    let tries = target.pairs().len() + named.len();
    for _try in 0..tries {
        if is_free(target, named, &free) {
            return Ok(free);
        }
        free = exported(alloc, free.as_str())?;
    }
    Ok(free)
}

// Gives a label another name, where the target has its name.
fn rename(
    alloc: Global,
    target: &Labels,
    named: &mut BTreeMap<Text, Text>,
    pair: &Pair,
) -> Result<(), AllocError>
    requires set { IsLabelSet (labels_in named.old.entries) }
    requires label { IsLabel pair.now }
    ensures renamed { OnOk result (labels_in named.new.entries ≡ with_free_name target.now (labels_in named.old.entries) pair.now) }
    ensures set { OnOk result (IsLabelSet (labels_in named.new.entries)) }
{
    if !has(target, &pair.name) {
        return Ok(());
    }
    let free = free_name(alloc, target, named, &pair.name)?;
    take_out(named, &pair.name);
    put(alloc, named, free, &pair.value)
}

// The same of each of a set's labels.
fn rename_all(
    alloc: Global,
    target: &Labels,
    named: &mut BTreeMap<Text, Text>,
    pairs: &[Pair],
) -> Result<(), AllocError>
    requires set { IsLabelSet (labels_in named.old.entries) }
    requires labels { IsLabelSet pairs.now }
    ensures renamed { OnOk result (labels_in named.new.entries ≡ fold (with_free_name target.now) (labels_in named.old.entries) pairs.now) }
    ensures set { OnOk result (IsLabelSet (labels_in named.new.entries)) }
{
    let mut rest = pairs;
    'renaming: while let Some((pair, after)) = rest.split_first() {
        rename(alloc, target, named, pair)?;
        rest = after;
    }
    Ok(())
}

// Whether the target has one of the names.
fn has_any(target: &Labels, pairs: &[Pair]) -> bool
    ensures { result ≡ list_any (λ p. has target.now p.name) pairs.now }
{
    pairs.iter().any(|pair| has(target, &pair.name))
}

// Where the target has none of the names, as is usual, the set is shared as it is. Else its labels
// are kept by name while they are renamed, so that many take little longer than their sorting.
fn renamed(alloc: Global, target: &Labels, labels: &Labels) -> Result<Labels, AllocError>
    ensures { IfOk result (λ l. l ≡ renamed target.now labels.now) }
{
    let pairs = labels.pairs();
    if !has_any(target, pairs) {
        return labels.copy(alloc);
    }
    let mut named = by_name(alloc, pairs)?;
    rename_all(alloc, target, &mut named, pairs)?;
    labels_of(alloc, named)
}

/// The labels of a sample that a target offers: those that the target has too are renamed, and the
/// target's are set.
pub(crate) fn scraped_labels(
    alloc: Global,
    target: &Labels,
    labels: &Labels,
) -> Result<Labels, AllocError>
    ensures { IfOk result (λ l. l ≡ scraped_labels target.now labels.now) }
{
    renamed(alloc, target, labels)?.union(alloc, target)
}

/// The target's labels with a metric's name.
pub(crate) fn metric_of(alloc: Global, target: &Labels, name: &str) -> Result<Labels, AllocError>
    ensures { IfOk result (λ l. l ≡ metric_of target.now name.now) }
{
    let mut labels = target.copy(alloc)?;
    labels.assign(alloc, METRIC_LABEL, name)?;
    Ok(labels)
}
