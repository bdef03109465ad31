// Labels and annotations: maps of names to texts.
ghost use Rattle.std.specs.Prelude.{◌≡◌, ◌++◌, ◌∷◌, [], OnOk, IfOk, map, List};
ghost use Rattle.std.specs.List.{flat_map};
ghost use Rattle.std.specs.Option.{option_copied};
ghost use Rattle.pr_yaml.specs.Tree.{tree_of, entry_tree_of};
ghost use Rattle.pr_rulefile.specs.Problems.{by_text};
ghost use Rattle.pr_rulefile.specs.Nodes.{line_of, text_of};
ghost use Rattle.pr_rulefile.specs.Labels.{is_free_name, name_problems, template_problems, label_problems, labels_problems, label_value, put_label, put_labels, pairs_of};

use crate::fields::access::{fields_of, key_of, line_of, text_of, value_of};
use crate::fields::found::{push, push_bad_label};
use crate::fields::problem::{Problem, ProblemKind};
use crate::fields::templates::template_fault;
use pr_labels::{METRIC_LABEL, Pair, is_label_name};
use pr_words::{Items, Text};
use pr_yaml::{MapEntry, Node};
use std::alloc::{AllocError, Global};
use std::collections::BTreeMap;

fn is_free_name(name: &str) -> bool
    ensures { result ≡ is_free_name name.now }
{
    is_label_name(name.as_bytes()) && name != METRIC_LABEL
}

#[tactic(auto, unfolding(crate::specs::Labels::name_problems))]
fn name_problems(
    alloc: Global,
    entry: &MapEntry,
    found: &mut Vec<Problem>,
) -> Result<(), AllocError>
    ensures { OnOk result (found.new.items ≡ found.old.items ++ name_problems (entry_tree_of entry.now)) }
{
    if is_free_name(key_of(entry)) {
        return Ok(());
    }
    push_bad_label(alloc, found, line_of(value_of(entry)), key_of(entry))
}

fn template_problems(
    alloc: Global,
    templates: bool,
    line: u32,
    text: &str,
    found: &mut Vec<Problem>,
) -> Result<(), AllocError>
    ensures { OnOk result (found.new.items ≡ found.old.items ++ template_problems templates line text.now) }
{
    if !templates {
        return Ok(());
    }
    match template_fault(alloc, text)? {
        Some(at) => push(found, line, ProblemKind::BadTemplate { at }),
        None => Ok(()),
    }
}

// A text is wanted, which is a template where those are.
fn value_problems(
    alloc: Global,
    templates: bool,
    node: &Node,
    found: &mut Vec<Problem>,
) -> Result<(), AllocError>
    ensures { OnOk result (found.new.items ≡ found.old.items ++ by_text (template_problems templates) (line_of (tree_of node.now)) (text_of (tree_of node.now))) }
{
    match text_of(node) {
        Some(text) => template_problems(alloc, templates, line_of(node), text, found),
        None => push(found, line_of(node), ProblemKind::WantText),
    }
}

#[tactic(auto, unfolding(crate::specs::Labels::label_problems))]
fn label_problems(
    alloc: Global,
    templates: bool,
    entry: &MapEntry,
    found: &mut Vec<Problem>,
) -> Result<(), AllocError>
    ensures { OnOk result (found.new.items ≡ found.old.items ++ label_problems templates (entry_tree_of entry.now)) }
{
    name_problems(alloc, entry, found)?;
    let value = value_of(entry);
    if value.is_absent() {
        return Ok(());
    }
    value_problems(alloc, templates, value, found)
}

fn each_label(
    alloc: Global,
    templates: bool,
    entries: &[MapEntry],
    found: &mut Vec<Problem>,
) -> Result<(), AllocError>
    ensures { OnOk result (found.new.items ≡ found.old.items ++ flat_map (label_problems templates) (map entry_tree_of entries.now)) }
{
    let mut rest = entries;
    'fields: while let Some((entry, after)) = rest.split_first() {
        label_problems(alloc, templates, entry, found)?;
        rest = after;
    }
    Ok(())
}

/// A map of names of labels to texts is wanted, or of names to templates.
#[tactic(auto, unfolding(crate::specs::Labels::labels_problems))]
pub fn labels_problems(
    alloc: Global,
    templates: bool,
    node: &Node,
    found: &mut Vec<Problem>,
) -> Result<(), AllocError>
    ensures { OnOk result (found.new.items ≡ found.old.items ++ labels_problems templates (tree_of node.now)) }
{
    match fields_of(node) {
        Some(entries) => each_label(alloc, templates, entries, found),
        None => push(found, line_of(node), ProblemKind::WantMap),
    }
}

/// The text of a value that is there.
pub fn label_value(node: &Node) -> Option<&str>
    ensures { option_copied result ≡ label_value (tree_of node.now) }
{
    if node.is_absent() {
        None
    } else {
        text_of(node)
    }
}

fn put_label(
    alloc: Global,
    labels: &mut BTreeMap<Text, Text>,
    entry: &MapEntry,
) -> Result<(), AllocError>
    ensures { OnOk result (labels.new.entries ≡ put_label labels.old.entries (entry_tree_of entry.now)) }
{
    if let Some(value) = label_value(value_of(entry)) {
        let name = Text::from_str(alloc, key_of(entry))?;
        labels.insert(name, Text::from_str(alloc, value)?)?;
    }
    Ok(())
}

/// Puts labels among those so far. They win over labels of their names.
#[tactic(auto, unfolding(crate::specs::Labels::put_labels))]
pub fn put_labels(
    alloc: Global,
    labels: &mut BTreeMap<Text, Text>,
    entries: &[MapEntry],
) -> Result<(), AllocError>
    ensures { OnOk result (labels.new.entries ≡ put_labels labels.old.entries (map entry_tree_of entries.now)) }
{
    let mut rest = entries;
    'fields: while let Some((entry, after)) = rest.split_first() {
        put_label(alloc, labels, entry)?;
        rest = after;
    }
    Ok(())
}

/// The pairs of labels, in order of name.
pub fn pairs_of(alloc: Global, labels: BTreeMap<Text, Text>) -> Result<Items<Pair>, AllocError>
    ensures { IfOk result (λ ps. ps ≡ pairs_of labels.entries) }
{
    let mut pairs = Items::empty(alloc);
    for (name, value) in labels {
        pairs.push(Pair { name, value })?;
    }
    Ok(pairs)
}
