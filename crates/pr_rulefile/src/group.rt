// Groups of rules.
ghost use Rattle.std.specs.Prelude.{◌≡◌, ◌++◌, ◌∷◌, [], ◌||◌, OnOk, IfOk, map, codes, Option, Some, None, List, ℕ};
ghost use Rattle.std.specs.List.{flat_map, filter_map, list_any};
ghost use Rattle.std.specs.Option.{option_copied, option_map};
ghost use Rattle.std.specs.Str.{bytes_eq};
ghost use Rattle.pr_words.specs.Names.{knows};
ghost use Rattle.pr_yaml.specs.Tree.{tree_of, entry_tree_of};
ghost use Rattle.pr_rulefile.specs.Nodes.{line_of, text_of, items_of, written};
ghost use Rattle.pr_rulefile.specs.Problems.{by_items};
ghost use Rattle.pr_rulefile.specs.Rules.{rule_problems, rule_of};
ghost use Rattle.spec_rules.specs.Definitions.{rule_of_def, Group, group_of_def};
ghost use Rattle.pr_rulefile.specs.Groups.{no_name, and_name, group_name, by_name, group_name_problems, is_alert_rule, has_alerts, group_value_problems, group_field_problems, group_in_problems, group_problems, name_of, groups_problems, rules_by, rules_under, group_in, group_of};

use crate::fields::{
    Problem, ProblemKind, fields_in, fields_of, items_of, items_under, key_line_of, key_of,
    labels_problems, limit_problems, limit_under, line_of, push, push_duplicate, push_missing,
    push_unknown, span_problems, span_under, text_of, text_problems, value_of, written,
    written_text,
};
use crate::gather::GroupSink;
use crate::keys::{GroupField, group_field};
use crate::rule::rule_at;
use pr_words::{Items, Text};
use pr_yaml::{MapEntry, Node};
use spec_rules::{GroupDef, RuleDef};
use std::alloc::{AllocError, Global};
use std::collections::BTreeSet;

fn is_known(names: &BTreeSet<&[u8]>, name: &str) -> bool
    ensures { result ≡ knows names.now name.now }
{
    names.contains(name.as_bytes())
}

#[tactic(auto, using(pr_labels::proofs::KnownNames::more_known))]
fn add_name<'a>(names: &mut BTreeSet<&'a [u8]>, name: &'a str) -> Result<(), AllocError>
    ensures { OnOk result ((other : List ℕ) → knows names.new other ≡ (knows names.old other || bytes_eq name.now other)) }
{
    names.insert(name.as_bytes())?;
    Ok(())
}

#[tactic(auto, unfolding(crate::specs::Groups::group_name))]
fn group_name(entries: &[MapEntry]) -> Option<&str>
    ensures { option_copied result ≡ group_name (map entry_tree_of entries.now) }
{
    match written("name", entries) {
        Some(node) => text_of(node),
        None => None,
    }
}

#[tactic(auto, unfolding(crate::specs::Groups::name_of))]
fn name_of(node: &Node) -> Option<&str>
    ensures { option_copied result ≡ name_of (tree_of node.now) }
{
    group_name(fields_in(node))
}

// The names with that of one more group.
fn add_group<'a>(names: &mut BTreeSet<&'a [u8]>, node: &'a Node) -> Result<(), AllocError>
    ensures { OnOk result (knows names.new ≡ and_name (knows names.old) (name_of (tree_of node.now))) }
{
    match name_of(node) {
        Some(name) => add_name(names, name),
        None => Ok(()),
    }
}

fn known_problems(
    alloc: Global,
    names: &BTreeSet<&[u8]>,
    node: &Node,
    found: &mut Vec<Problem>,
) -> Result<(), AllocError>
    ensures { OnOk result (found.new.items ≡ found.old.items ++ by_name (knows names.now) (line_of (tree_of node.now)) (text_of (tree_of node.now))) }
{
    match text_of(node) {
        Some(name) => {
            if is_known(names, name) {
                push_duplicate(alloc, found, line_of(node), name)
            } else {
                Ok(())
            }
        }
        None => Ok(()),
    }
}

#[tactic(auto, unfolding(crate::specs::Groups::group_name_problems))]
fn name_problems(
    alloc: Global,
    names: &BTreeSet<&[u8]>,
    line: u32,
    entries: &[MapEntry],
    found: &mut Vec<Problem>,
) -> Result<(), AllocError>
    ensures { OnOk result (found.new.items ≡ found.old.items ++ group_name_problems (knows names.now) line (written (codes "name") (map entry_tree_of entries.now))) }
{
    match written("name", entries) {
        Some(node) => known_problems(alloc, names, node, found),
        None => push_missing(alloc, found, line, "name"),
    }
}

#[tactic(auto, unfolding(crate::specs::Groups::is_alert_rule))]
fn is_alert_rule(node: &Node) -> bool
    ensures { result ≡ is_alert_rule (tree_of node.now) }
{
    written("alert", fields_in(node)).is_some()
}

fn any_alert(items: &[Node]) -> bool
    ensures { result ≡ list_any is_alert_rule (map tree_of items.now) }
{
    let mut rest = items;
    'items: while let Some((item, after)) = rest.split_first() {
        if is_alert_rule(item) {
            return true;
        }
        rest = after;
    }
    false
}

#[tactic(auto, unfolding(crate::specs::Groups::has_alerts))]
fn has_alerts(entries: &[MapEntry]) -> bool
    ensures { result ≡ has_alerts (map entry_tree_of entries.now) }
{
    any_alert(items_under("rules", entries))
}

// The rules of a group, behind those so far.
fn each_rule(
    alloc: Global,
    group: &[MapEntry],
    items: &[Node],
    rules: &mut Items<RuleDef>,
    found: &mut Vec<Problem>,
) -> Result<(), AllocError>
    ensures rules { OnOk result (map rule_of_def rules.new ≡ map rule_of_def rules.old ++ filter_map (rule_of (map entry_tree_of group.now)) (map tree_of items.now)) }
    ensures problems { OnOk result (found.new.items ≡ found.old.items ++ flat_map rule_problems (map tree_of items.now)) }
{
    let mut rest = items;
    'items: while let Some((item, after)) = rest.split_first() {
        if let Some(rule) = rule_at(alloc, group, item, found)? {
            rules.push(rule)?;
        }
        rest = after;
    }
    Ok(())
}

fn rules_at(
    alloc: Global,
    group: &[MapEntry],
    node: &Node,
    rules: &mut Items<RuleDef>,
    found: &mut Vec<Problem>,
) -> Result<(), AllocError>
    ensures rules { OnOk result (map rule_of_def rules.new ≡ map rule_of_def rules.old ++ rules_by (map entry_tree_of group.now) (tree_of node.now) (Some GroupField.Rules)) }
    ensures problems { OnOk result (found.new.items ≡ found.old.items ++ by_items (flat_map rule_problems) (line_of (tree_of node.now)) (items_of (tree_of node.now))) }
{
    match items_of(node) {
        Some(items) => each_rule(alloc, group, items, rules, found),
        None => push(found, line_of(node), ProblemKind::WantList),
    }
}

// A field of a group that is there. Its rules go behind those so far.
#[tactic(auto, unfolding(crate::specs::Groups::group_value_problems))]
fn group_value(
    alloc: Global,
    alerts: bool,
    group: &[MapEntry],
    node: &Node,
    field: GroupField,
    rules: &mut Items<RuleDef>,
    found: &mut Vec<Problem>,
) -> Result<(), AllocError>
    ensures rules { OnOk result (map rule_of_def rules.new ≡ map rule_of_def rules.old ++ rules_by (map entry_tree_of group.now) (tree_of node.now) (Some field)) }
    ensures problems { OnOk result (found.new.items ≡ found.old.items ++ group_value_problems alerts (tree_of node.now) field) }
{
    match field {
        GroupField::Name => text_problems(node, found),
        GroupField::Interval => span_problems(node, found),
        GroupField::Limit => limit_problems(node, found),
        GroupField::Labels => labels_problems(alloc, alerts, node, found),
        GroupField::Rules => rules_at(alloc, group, node, rules, found),
    }
}

#[tactic(auto, using(crate::proofs::Trees::no_rules), unfolding(crate::specs::Groups::group_field_problems, crate::specs::Groups::rules_under))]
fn group_field_at(
    alloc: Global,
    alerts: bool,
    group: &[MapEntry],
    entry: &MapEntry,
    rules: &mut Items<RuleDef>,
    found: &mut Vec<Problem>,
) -> Result<(), AllocError>
    ensures rules { OnOk result (map rule_of_def rules.new ≡ map rule_of_def rules.old ++ rules_under (map entry_tree_of group.now) (entry_tree_of entry.now)) }
    ensures problems { OnOk result (found.new.items ≡ found.old.items ++ group_field_problems alerts (entry_tree_of entry.now)) }
{
    let Some(field) = group_field(key_of(entry)) else {
        return push_unknown(alloc, found, key_line_of(entry), key_of(entry));
    };
    if value_of(entry).is_absent() {
        return Ok(());
    }
    group_value(alloc, alerts, group, value_of(entry), field, rules, found)
}

fn each_group_field(
    alloc: Global,
    alerts: bool,
    group: &[MapEntry],
    found: &mut Vec<Problem>,
) -> Result<Items<RuleDef>, AllocError>
    ensures rules { IfOk result (λ rs. map rule_of_def rs ≡ flat_map (rules_under (map entry_tree_of group.now)) (map entry_tree_of group.now)) }
    ensures problems { OnOk result (found.new.items ≡ found.old.items ++ flat_map (group_field_problems alerts) (map entry_tree_of group.now)) }
{
    let mut rules = Items::empty(alloc);
    let mut rest = group;
    'fields: while let Some((entry, after)) = rest.split_first() {
        group_field_at(alloc, alerts, group, entry, &mut rules, found)?;
        rest = after;
    }
    Ok(rules)
}

#[tactic(auto, unfolding(crate::specs::Groups::group_in_problems, crate::specs::Groups::group_in))]
fn group_in(
    alloc: Global,
    names: &BTreeSet<&[u8]>,
    line: u32,
    entries: &[MapEntry],
    found: &mut Vec<Problem>,
) -> Result<GroupDef, AllocError>
    ensures group { IfOk result (λ g. group_of_def g ≡ group_in (map entry_tree_of entries.now)) }
    ensures problems { OnOk result (found.new.items ≡ found.old.items ++ group_in_problems (knows names.now) line (map entry_tree_of entries.now)) }
{
    name_problems(alloc, names, line, entries, found)?;
    let rules = each_group_field(alloc, has_alerts(entries), entries, found)?;
    Ok(GroupDef {
        name: Text::from_str(alloc, written_text("name", entries))?,
        interval: span_under("interval", entries),
        limit: limit_under("limit", entries).unwrap_or(0),
        rules,
    })
}

#[tactic(auto, unfolding(crate::specs::Groups::group_problems, crate::specs::Groups::group_of))]
fn group_at(
    alloc: Global,
    names: &BTreeSet<&[u8]>,
    node: &Node,
    found: &mut Vec<Problem>,
) -> Result<Option<GroupDef>, AllocError>
    ensures group { IfOk result (λ g. option_map group_of_def g ≡ group_of (tree_of node.now)) }
    ensures problems { OnOk result (found.new.items ≡ found.old.items ++ group_problems (knows names.now) (tree_of node.now)) }
{
    match fields_of(node) {
        Some(entries) => Ok(Some(group_in(alloc, names, line_of(node), entries, found)?)),
        None => {
            push(found, line_of(node), ProblemKind::WantMap)?;
            Ok(None)
        }
    }
}

/// The groups of a file, one after another. What is wrong with them goes behind what was found.
pub(crate) fn each_group<G: GroupSink>(
    alloc: Global,
    items: &[Node],
    groups: &mut G,
    found: &mut Vec<Problem>,
) -> Result<(), AllocError>
    ensures groups { OnOk result ((more : List Group) → G.comes_to groups.new more ≡ G.comes_to groups.old (filter_map group_of (map tree_of items.now) ++ more)) }
    ensures problems { OnOk result (found.new.items ≡ found.old.items ++ groups_problems no_name (map tree_of items.now)) }
{
    let mut names = BTreeSet::new(alloc);
    let mut rest = items;
    'items: while let Some((item, after)) = rest.split_first() {
        if let Some(group) = group_at(alloc, &names, item, found)? {
            groups.put(group)?;
        }
        add_group(&mut names, item)?;
        rest = after;
    }
    Ok(())
}
