// Rules.
ghost use Rattle.std.specs.Prelude.{◌≡◌, ◌++◌, ◌∷◌, [], OnOk, IfOk, map, codes, Option, unwrap_or};
ghost use Rattle.std.specs.List.{flat_map};
ghost use Rattle.std.specs.Option.{option_map};
ghost use Rattle.pr_ast.specs.Tree.{tree_of as expression_tree};
ghost use Rattle.pr_yaml.specs.Tree.{tree_of, entry_tree_of};
ghost use Rattle.pr_rulefile.specs.Problems.{by_text};
ghost use Rattle.pr_rulefile.specs.Scalars.{span_problems, span_under};
ghost use Rattle.pr_rulefile.specs.Labels.{labels_problems};
ghost use Rattle.pr_rulefile.specs.Nodes.{line_of, text_of, field};
ghost use Rattle.pr_rulefile.specs.Rules.{naming_by, naming_of, is_alert, records_only, naming_problems, recorded_problems, for_alerts, rule_value_problems, rule_field_problems, rule_in_problems, rule_problems, rule_labels, rule_notes, rule_with, rule_in, rule_of};
ghost use Rattle.spec_rules.specs.Definitions.{rule_of_def, name_key};

use crate::fields::{
    Problem, ProblemKind, expression_under, fields_of, fields_under, key_line_of, key_of,
    labels_problems, line_of, pairs_of, push, push_not_for_recording, push_unknown, put_labels,
    span_problems, span_under, text_of, text_problems, value_of, written, written_text,
};
use crate::keys::{Naming, RuleField, rule_field};
use pr_ast::time::Span;
use pr_labels::{Pair, is_metric_name};
use pr_parse::grammar::no_span;
use pr_parse::types::Checked;
use pr_words::{Items, Text};
use pr_yaml::{MapEntry, Node};
use spec_rules::RuleDef;
use std::alloc::{AllocError, Global};
use std::collections::BTreeMap;

fn naming_by(recorded: bool, alert: bool) -> Naming
    ensures { result ≡ naming_by recorded alert }
{
    match (recorded, alert) {
        (false, false) => Naming::Neither,
        (true, false) => Naming::Record,
        (false, true) => Naming::Alert,
        (true, true) => Naming::Both,
    }
}

#[tactic(auto, unfolding(crate::specs::Rules::naming_of))]
fn naming_of(entries: &[MapEntry]) -> Naming
    ensures { result ≡ naming_of (map entry_tree_of entries.now) }
{
    naming_by(
        written("record", entries).is_some(),
        written("alert", entries).is_some(),
    )
}

fn is_alert(naming: Naming) -> bool
    ensures { result ≡ is_alert naming }
{
    match naming {
        Naming::Alert | Naming::Both => true,
        Naming::Neither | Naming::Record => false,
    }
}

fn records_only(naming: Naming) -> bool
    ensures { result ≡ records_only naming }
{
    match naming {
        Naming::Record => true,
        Naming::Neither | Naming::Alert | Naming::Both => false,
    }
}

fn naming_problems(line: u32, naming: Naming, found: &mut Vec<Problem>) -> Result<(), AllocError>
    ensures { OnOk result (found.new.items ≡ found.old.items ++ naming_problems line naming) }
{
    match naming {
        Naming::Neither => push(found, line, ProblemKind::NoName),
        Naming::Both => push(found, line, ProblemKind::TwoNames),
        Naming::Record | Naming::Alert => Ok(()),
    }
}

fn recorded_problems(line: u32, name: &str, found: &mut Vec<Problem>) -> Result<(), AllocError>
    ensures { OnOk result (found.new.items ≡ found.old.items ++ recorded_problems line name.now) }
{
    if name.is_empty() || is_metric_name(name.as_bytes()) {
        Ok(())
    } else {
        push(found, line, ProblemKind::BadName)
    }
}

fn record_problems(node: &Node, found: &mut Vec<Problem>) -> Result<(), AllocError>
    ensures { OnOk result (found.new.items ≡ found.old.items ++ by_text recorded_problems (line_of (tree_of node.now)) (text_of (tree_of node.now))) }
{
    match text_of(node) {
        Some(name) => recorded_problems(line_of(node), name, found),
        None => push(found, line_of(node), ProblemKind::WantText),
    }
}

fn for_problems(
    alloc: Global,
    naming: Naming,
    entry: &MapEntry,
    found: &mut Vec<Problem>,
) -> Result<(), AllocError>
    ensures { OnOk result (found.new.items ≡ found.old.items ++ for_alerts naming (entry_tree_of entry.now) (span_problems (entry_tree_of entry.now).value)) }
{
    if records_only(naming) {
        push_not_for_recording(alloc, found, key_line_of(entry), key_of(entry))
    } else {
        span_problems(value_of(entry), found)
    }
}

fn annotation_problems(
    alloc: Global,
    naming: Naming,
    entry: &MapEntry,
    found: &mut Vec<Problem>,
) -> Result<(), AllocError>
    ensures { OnOk result (found.new.items ≡ found.old.items ++ for_alerts naming (entry_tree_of entry.now) (labels_problems (is_alert naming) (entry_tree_of entry.now).value)) }
{
    if records_only(naming) {
        push_not_for_recording(alloc, found, key_line_of(entry), key_of(entry))
    } else {
        labels_problems(alloc, is_alert(naming), value_of(entry), found)
    }
}

// What is wrong with the value of a field that is there. The expression is looked at with the rule.
#[tactic(auto, unfolding(crate::specs::Rules::rule_value_problems))]
fn rule_value_problems(
    alloc: Global,
    naming: Naming,
    entry: &MapEntry,
    field: RuleField,
    found: &mut Vec<Problem>,
) -> Result<(), AllocError>
    ensures { OnOk result (found.new.items ≡ found.old.items ++ rule_value_problems naming (entry_tree_of entry.now) field) }
{
    match field {
        RuleField::Record => record_problems(value_of(entry), found),
        RuleField::Alert => text_problems(value_of(entry), found),
        RuleField::Expr => Ok(()),
        RuleField::Labels => labels_problems(alloc, is_alert(naming), value_of(entry), found),
        RuleField::For | RuleField::KeepFiringFor => for_problems(alloc, naming, entry, found),
        RuleField::Annotations => annotation_problems(alloc, naming, entry, found),
    }
}

#[tactic(auto, unfolding(crate::specs::Rules::rule_field_problems))]
fn rule_field_problems(
    alloc: Global,
    naming: Naming,
    entry: &MapEntry,
    found: &mut Vec<Problem>,
) -> Result<(), AllocError>
    ensures { OnOk result (found.new.items ≡ found.old.items ++ rule_field_problems naming (entry_tree_of entry.now)) }
{
    let Some(field) = rule_field(key_of(entry)) else {
        return push_unknown(alloc, found, key_line_of(entry), key_of(entry));
    };
    if value_of(entry).is_absent() {
        return Ok(());
    }
    rule_value_problems(alloc, naming, entry, field, found)
}

fn each_rule_field(
    alloc: Global,
    naming: Naming,
    entries: &[MapEntry],
    found: &mut Vec<Problem>,
) -> Result<(), AllocError>
    ensures { OnOk result (found.new.items ≡ found.old.items ++ flat_map (rule_field_problems naming) (map entry_tree_of entries.now)) }
{
    let mut rest = entries;
    'fields: while let Some((entry, after)) = rest.split_first() {
        rule_field_problems(alloc, naming, entry, found)?;
        rest = after;
    }
    Ok(())
}

fn name_key(alert: bool) -> &'static str
    ensures { result.now ≡ name_key alert }
{
    if alert { "alert" } else { "record" }
}

#[tactic(auto, unfolding(crate::specs::Rules::rule_labels))]
fn rule_labels(
    alloc: Global,
    group: &[MapEntry],
    entries: &[MapEntry],
) -> Result<Items<Pair>, AllocError>
    ensures { IfOk result (λ ps. ps ≡ rule_labels (map entry_tree_of group.now) (map entry_tree_of entries.now)) }
{
    let mut labels = BTreeMap::new(alloc);
    put_labels(alloc, &mut labels, fields_under("labels", group))?;
    put_labels(alloc, &mut labels, fields_under("labels", entries))?;
    pairs_of(alloc, labels)
}

#[tactic(auto, unfolding(crate::specs::Rules::rule_notes))]
fn rule_notes(alloc: Global, entries: &[MapEntry]) -> Result<Items<Pair>, AllocError>
    ensures { IfOk result (λ ps. ps ≡ rule_notes (map entry_tree_of entries.now)) }
{
    let mut notes = BTreeMap::new(alloc);
    put_labels(alloc, &mut notes, fields_under("annotations", entries))?;
    pairs_of(alloc, notes)
}

// How long an alert of a rule is pending.
fn held_for(entries: &[MapEntry]) -> Span
    ensures { result ≡ unwrap_or (span_under (field (codes "for") (map entry_tree_of entries.now))) 0 }
{
    match span_under("for", entries) {
        Some(span) => span,
        None => no_span(),
    }
}

// How long it keeps firing after it is over.
fn kept_for(entries: &[MapEntry]) -> Span
    ensures { result ≡ unwrap_or (span_under (field (codes "keep_firing_for") (map entry_tree_of entries.now))) 0 }
{
    match span_under("keep_firing_for", entries) {
        Some(span) => span,
        None => no_span(),
    }
}

// The rule of these fields, in a group of those.
#[tactic(auto, unfolding(crate::specs::Rules::rule_with))]
fn rule_with(
    alloc: Global,
    group: &[MapEntry],
    entries: &[MapEntry],
    expr: Checked,
) -> Result<RuleDef, AllocError>
    ensures { IfOk result (λ r. rule_of_def r ≡ rule_with (map entry_tree_of group.now) (map entry_tree_of entries.now) (expression_tree expr)) }
{
    let alert = is_alert(naming_of(entries));
    let name = Text::from_str(alloc, written_text(name_key(alert), entries))?;
    let labels = rule_labels(alloc, group, entries)?;
    let notes = rule_notes(alloc, entries)?;
    Ok(RuleDef {
        name,
        alert,
        expr,
        labels,
        hold: held_for(entries),
        keep: kept_for(entries),
        notes,
    })
}

#[tactic(auto, unfolding(crate::specs::Rules::rule_in_problems, crate::specs::Rules::rule_in))]
fn rule_in(
    alloc: Global,
    group: &[MapEntry],
    line: u32,
    entries: &[MapEntry],
    found: &mut Vec<Problem>,
) -> Result<Option<RuleDef>, AllocError>
    ensures rule { IfOk result (λ r. option_map rule_of_def r ≡ rule_in (map entry_tree_of group.now) line (map entry_tree_of entries.now)) }
    ensures problems { OnOk result (found.new.items ≡ found.old.items ++ rule_in_problems line (map entry_tree_of entries.now)) }
{
    let naming = naming_of(entries);
    naming_problems(line, naming, found)?;
    let expr = expression_under(alloc, line, entries, found)?;
    each_rule_field(alloc, naming, entries, found)?;
    match expr {
        Some(expr) => Ok(Some(rule_with(alloc, group, entries, expr)?)),
        None => Ok(None),
    }
}

/// The rule that a node is, in a group of these fields. What is wrong with it goes behind what was
/// found.
#[tactic(auto, unfolding(crate::specs::Rules::rule_problems, crate::specs::Rules::rule_of))]
pub(crate) fn rule_at(
    alloc: Global,
    group: &[MapEntry],
    node: &Node,
    found: &mut Vec<Problem>,
) -> Result<Option<RuleDef>, AllocError>
    ensures rule { IfOk result (λ r. option_map rule_of_def r ≡ rule_of (map entry_tree_of group.now) (tree_of node.now)) }
    ensures problems { OnOk result (found.new.items ≡ found.old.items ++ rule_problems (tree_of node.now)) }
{
    match fields_of(node) {
        Some(entries) => rule_in(alloc, group, line_of(node), entries, found),
        None => {
            push(found, line_of(node), ProblemKind::WantMap)?;
            Ok(None)
        }
    }
}
