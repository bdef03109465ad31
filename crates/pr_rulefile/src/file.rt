// The fields of a file.
ghost use Rattle.std.specs.Prelude.{◌≡◌, ◌++◌, List, OnOk, map};
ghost use Rattle.std.specs.List.{flat_map, filter_map};
ghost use Rattle.pr_yaml.specs.Tree.{tree_of, entry_tree_of};
ghost use Rattle.pr_rulefile.specs.Nodes.{items_in};
ghost use Rattle.spec_rules.specs.Definitions.{Group};
ghost use Rattle.pr_rulefile.specs.Groups.{group_of};
ghost use Rattle.pr_rulefile.specs.File.{groups_value_problems, file_field_problems, file_problems, groups_under, file_groups};

use crate::fields::{
    Problem, ProblemKind, fields_of, items_of, key_line_of, key_of, line_of, push, push_unknown,
    value_of,
};
use crate::gather::GroupSink;
use crate::group::each_group;
use pr_yaml::{MapEntry, Node};
use std::alloc::{AllocError, Global};

fn groups_at<G: GroupSink>(
    alloc: Global,
    node: &Node,
    groups: &mut G,
    found: &mut Vec<Problem>,
) -> Result<(), AllocError>
    ensures groups { OnOk result ((more : List Group) → G.comes_to groups.new more ≡ G.comes_to groups.old (filter_map group_of (items_in (tree_of node.now)) ++ more)) }
    ensures problems { OnOk result (found.new.items ≡ found.old.items ++ groups_value_problems (tree_of node.now)) }
{
    match items_of(node) {
        Some(items) => each_group(alloc, items, groups, found),
        None => push(found, line_of(node), ProblemKind::WantList),
    }
}

// The groups under a field of a file.
#[tactic(auto, using(crate::proofs::Trees::no_groups), unfolding(crate::specs::File::file_field_problems, crate::specs::File::groups_under))]
fn file_field<G: GroupSink>(
    alloc: Global,
    entry: &MapEntry,
    groups: &mut G,
    found: &mut Vec<Problem>,
) -> Result<(), AllocError>
    ensures groups { OnOk result ((more : List Group) → G.comes_to groups.new more ≡ G.comes_to groups.old (groups_under (entry_tree_of entry.now) ++ more)) }
    ensures problems { OnOk result (found.new.items ≡ found.old.items ++ file_field_problems (entry_tree_of entry.now)) }
{
    if key_of(entry) == "groups" {
        if value_of(entry).is_absent() {
            return Ok(());
        }
        groups_at(alloc, value_of(entry), groups, found)
    } else {
        push_unknown(alloc, found, key_line_of(entry), key_of(entry))
    }
}

fn each_file_field<G: GroupSink>(
    alloc: Global,
    entries: &[MapEntry],
    groups: &mut G,
    found: &mut Vec<Problem>,
) -> Result<(), AllocError>
    ensures groups { OnOk result ((more : List Group) → G.comes_to groups.new more ≡ G.comes_to groups.old (flat_map groups_under (map entry_tree_of entries.now) ++ more)) }
    ensures problems { OnOk result (found.new.items ≡ found.old.items ++ flat_map file_field_problems (map entry_tree_of entries.now)) }
{
    let mut rest = entries;
    'fields: while let Some((entry, after)) = rest.split_first() {
        file_field(alloc, entry, groups, found)?;
        rest = after;
    }
    Ok(())
}

/// The groups of a file, one after another. What is wrong with it goes behind what was found.
#[tactic(auto, using(crate::proofs::FieldsTrees::no_fields), unfolding(crate::specs::File::file_problems, crate::specs::File::file_groups))]
pub(crate) fn file_at<G: GroupSink>(
    alloc: Global,
    node: &Node,
    groups: &mut G,
    found: &mut Vec<Problem>,
) -> Result<(), AllocError>
    ensures groups { OnOk result ((more : List Group) → G.comes_to groups.new more ≡ G.comes_to groups.old (file_groups (tree_of node.now) ++ more)) }
    ensures problems { OnOk result (found.new.items ≡ found.old.items ++ file_problems (tree_of node.now)) }
{
    if node.is_absent() {
        return Ok(());
    }
    match fields_of(node) {
        Some(entries) => each_file_field(alloc, entries, groups, found),
        None => push(found, line_of(node), ProblemKind::WantMap),
    }
}
