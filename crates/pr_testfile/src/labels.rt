// Labels, annotations and texts.
ghost use Rattle.std.specs.Prelude.{◌≡◌, ◌++◌, ◌∷◌, [], OnOk, IfOk, map};
ghost use Rattle.std.specs.List.{filter_map};
ghost use Rattle.pr_ast.specs.pr_labels.Edits.{first_fault};
ghost use Rattle.pr_yaml.specs.Tree.{tree_of, entry_tree_of};
ghost use Rattle.pr_rulefile.specs.Nodes.{text_of, field, text_or_empty};
ghost use Rattle.pr_testfile.specs.Labels.{notes_of, unless_faulty, label_set};

use pr_ast::labels::{LabelFault, Labels, Pair};
use pr_rulefile::fields::{field, pairs_of, put_labels, text_of};
use pr_words::{Items, Text};
use pr_yaml::{MapEntry, Node};
use std::alloc::{AllocError, Global};
use std::collections::BTreeMap;

/// The annotations of a map.
#[tactic(auto, unfolding(crate::specs::Labels::notes_of))]
pub(crate) fn notes_of(alloc: Global, entries: &[MapEntry]) -> Result<Items<Pair>, AllocError>
    ensures { IfOk result (λ ps. ps ≡ notes_of (map entry_tree_of entries.now)) }
{
    let mut notes = BTreeMap::new(alloc);
    put_labels(alloc, &mut notes, entries)?;
    pairs_of(alloc, notes)
}

// The label set of pairs; none where one of them has a fault.
#[tactic(auto, using(crate::proofs::LabelSets::no_fault, crate::proofs::LabelSets::bad_name, crate::proofs::LabelSets::name_twice))]
fn unless_faulty(alloc: Global, pairs: &[Pair]) -> Result<Labels, AllocError>
    ensures { IfOk result (λ l. l ≡ unless_faulty pairs.now (first_fault pairs.now)) }
{
    match Labels::from_pairs(alloc, pairs) {
        Ok(labels) => Ok(labels),
        Err(LabelFault::BadName { .. }) => Ok(Labels::empty(alloc)),
        Err(LabelFault::Twice { .. }) => Ok(Labels::empty(alloc)),
        Err(LabelFault::Memory) => Err(AllocError),
    }
}

/// The label set of a map.
#[tactic(auto, unfolding(crate::specs::Labels::label_set))]
pub(crate) fn label_set(alloc: Global, entries: &[MapEntry]) -> Result<Labels, AllocError>
    ensures { IfOk result (λ l. l ≡ label_set (map entry_tree_of entries.now)) }
{
    let pairs = notes_of(alloc, entries)?;
    unless_faulty(alloc, pairs.as_slice())
}

/// The text of the field of this name, empty where it has none.
pub(crate) fn text_under<'a>(key: &str, entries: &'a [MapEntry]) -> &'a str
    ensures { result.now ≡ text_or_empty (field key.now (map entry_tree_of entries.now)) }
{
    match field(key, entries) {
        Some(node) => match text_of(node) {
            Some(text) => text,
            None => "",
        },
        None => "",
    }
}

fn put_text(alloc: Global, node: &Node, texts: &mut Items<Text>) -> Result<(), AllocError>
    ensures { OnOk result (texts.new ≡ texts.old ++ filter_map text_of (tree_of node.now ∷ [])) }
{
    match text_of(node) {
        Some(text) => texts.push(Text::from_str(alloc, text)?),
        None => Ok(()),
    }
}

/// The texts of a list.
pub(crate) fn texts_of(alloc: Global, items: &[Node]) -> Result<Items<Text>, AllocError>
    ensures { IfOk result (λ ts. ts ≡ filter_map text_of (map tree_of items.now)) }
{
    let mut texts = Items::empty(alloc);
    let mut rest = items;
    'items: while let Some((item, after)) = rest.split_first() {
        put_text(alloc, item, &mut texts)?;
        rest = after;
    }
    Ok(texts)
}
