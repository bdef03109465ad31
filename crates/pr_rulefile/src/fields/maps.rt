//! Maps that have fields of their own, and lists of what is alike.
ghost use Rattle.std.specs.Prelude.{◌≡◌, ◌++◌, ◌∷◌, [], ℕ, List, OnOk, map, Option, Some, None, is_some};
ghost use Rattle.std.specs.Option.{option_map};
ghost use Rattle.std.specs.List.{flat_map};
ghost use Rattle.pr_yaml.specs.Tree.{Tree, EntryTree, tree_of, entry_tree_of};
ghost use Rattle.pr_rulefile.specs.declared.fields.problem.Problem.{Problem};
ghost use Rattle.pr_rulefile.specs.Maps.{form_problems, required, wrong_by, map_in_problems, map_problems, list_problems, texts_problems};
ghost use Rattle.pr_rulefile.specs.Scalars.{text_problems};

use crate::fields::access::{fields_of, items_of, key_line_of, key_of, line_of, value_of};
use crate::fields::found::{push, push_missing, push_unknown};
use crate::fields::problem::{Problem, ProblemKind};
use crate::fields::scalars::text_problems;
use pr_yaml::{MapEntry, Node};
use std::alloc::{AllocError, Global};

/// What is looked at: what is wrong with it goes behind what was found.
pub trait ItemForm {
    /// What is wrong with a node.
    ghost wrong: { Self → Tree → List Problem };

    fn look(&self, alloc: Global, node: &Node, found: &mut Vec<Problem>) -> Result<(), AllocError>
        ensures { OnOk result (found.new.items ≡ found.old.items ++ wrong self.now (tree_of node.now)) };
}

/// The fields of a map: their names, and what is wrong with their values.
pub trait MapForm {
    /// What is wrong with the value of a field, by its name; none where no field has it.
    ghost fields: { Self → List ℕ → Option (Tree → List Problem) };

    /// What is missing in a map with these fields that begins at the line.
    ghost missing: { Self → ℕ → List EntryTree → List Problem };

    /// Whether a field has the name.
    fn has(&self, key: &str) -> bool
        ensures { result ≡ is_some (fields self.now key.now) };

    /// Looks at the value of the field of this name.
    fn look_at(
        &self,
        alloc: Global,
        key: &str,
        node: &Node,
        found: &mut Vec<Problem>,
    ) -> Result<(), AllocError>
        ensures { OnOk result (found.new.items ≡ found.old.items ++ wrong_by (tree_of node.now) (fields self.now key.now)) };

    /// Looks for what is missing.
    fn look_for_missing(
        &self,
        alloc: Global,
        line: u32,
        entries: &[MapEntry],
        found: &mut Vec<Problem>,
    ) -> Result<(), AllocError>
        ensures { OnOk result (found.new.items ≡ found.old.items ++ missing self.now line (map entry_tree_of entries.now)) };
}

/// A field that has to be there.
pub fn require(
    alloc: Global,
    line: u32,
    name: &str,
    value: Option<&Node>,
    found: &mut Vec<Problem>,
) -> Result<(), AllocError>
    ensures { OnOk result (found.new.items ≡ found.old.items ++ required line name.now (option_map (λ n. tree_of n.now) value.entry)) }
{
    match value {
        Some(_node) => Ok(()),
        None => push_missing(alloc, found, line, name),
    }
}

#[tactic(auto, using(crate::proofs::Forms::known, crate::proofs::Forms::unknown))]
fn form_problems<F: MapForm>(
    alloc: Global,
    form: &F,
    entry: &MapEntry,
    found: &mut Vec<Problem>,
) -> Result<(), AllocError>
    ensures { OnOk result (found.new.items ≡ found.old.items ++ form_problems (F.fields form.now) (entry_tree_of entry.now)) }
{
    if !form.has(key_of(entry)) {
        return push_unknown(alloc, found, key_line_of(entry), key_of(entry));
    }
    if value_of(entry).is_absent() {
        return Ok(());
    }
    form.look_at(alloc, key_of(entry), value_of(entry), found)
}

fn each_field<F: MapForm>(
    alloc: Global,
    form: &F,
    entries: &[MapEntry],
    found: &mut Vec<Problem>,
) -> Result<(), AllocError>
    ensures { OnOk result (found.new.items ≡ found.old.items ++ flat_map (form_problems (F.fields form.now)) (map entry_tree_of entries.now)) }
{
    let mut rest = entries;
    'fields: while let Some((entry, after)) = rest.split_first() {
        form_problems(alloc, form, entry, found)?;
        rest = after;
    }
    Ok(())
}

fn map_in_problems<F: MapForm>(
    alloc: Global,
    form: &F,
    line: u32,
    entries: &[MapEntry],
    found: &mut Vec<Problem>,
) -> Result<(), AllocError>
    ensures { OnOk result (found.new.items ≡ found.old.items ++ map_in_problems (F.missing form.now) (F.fields form.now) line (map entry_tree_of entries.now)) }
{
    form.look_for_missing(alloc, line, entries, found)?;
    each_field(alloc, form, entries, found)
}

/// A map with these fields is wanted.
#[tactic(auto, unfolding(crate::specs::Maps::map_problems))]
pub fn map_problems<F: MapForm>(
    alloc: Global,
    form: &F,
    node: &Node,
    found: &mut Vec<Problem>,
) -> Result<(), AllocError>
    ensures { OnOk result (found.new.items ≡ found.old.items ++ map_problems (F.missing form.now) (F.fields form.now) (tree_of node.now)) }
{
    match fields_of(node) {
        Some(entries) => map_in_problems(alloc, form, line_of(node), entries, found),
        None => push(found, line_of(node), ProblemKind::WantMap),
    }
}

fn each_item<F: ItemForm>(
    alloc: Global,
    form: &F,
    items: &[Node],
    found: &mut Vec<Problem>,
) -> Result<(), AllocError>
    ensures { OnOk result (found.new.items ≡ found.old.items ++ flat_map (F.wrong form.now) (map tree_of items.now)) }
{
    let mut rest = items;
    'items: while let Some((item, after)) = rest.split_first() {
        form.look(alloc, item, found)?;
        rest = after;
    }
    Ok(())
}

/// A list of such items is wanted.
#[tactic(auto, unfolding(crate::specs::Maps::list_problems))]
pub fn list_problems<F: ItemForm>(
    alloc: Global,
    form: &F,
    node: &Node,
    found: &mut Vec<Problem>,
) -> Result<(), AllocError>
    ensures { OnOk result (found.new.items ≡ found.old.items ++ list_problems (F.wrong form.now) (tree_of node.now)) }
{
    match items_of(node) {
        Some(items) => each_item(alloc, form, items, found),
        None => push(found, line_of(node), ProblemKind::WantList),
    }
}

/// Any text will do.
pub(crate) struct AnyText;

impl ItemForm for AnyText {
    ghost use Rattle.pr_rulefile.specs.Scalars.{text_problems};

    ghost wrong = { λ _ t. text_problems t };

    fn look(
        &self,
        _alloc: Global,
        node: &Node,
        found: &mut Vec<Problem>,
    ) -> Result<(), AllocError> {
        text_problems(node, found)
    }
}

/// A list of texts is wanted.
pub fn texts_problems(
    alloc: Global,
    node: &Node,
    found: &mut Vec<Problem>,
) -> Result<(), AllocError>
    ensures { OnOk result (found.new.items ≡ found.old.items ++ texts_problems (tree_of node.now)) }
{
    list_problems(alloc, &AnyText, node, found)
}
