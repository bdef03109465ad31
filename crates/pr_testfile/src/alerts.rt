// Checks of alerts, and the alerts that are expected.
ghost use Rattle.std.specs.Prelude.{◌≡◌, ◌++◌, ◌∷◌, [], OnOk, IfOk, map, codes};
ghost use Rattle.std.specs.List.{filter_map};
ghost use Rattle.std.specs.Ordering.{ordering_then};
ghost use Rattle.pr_ast.specs.pr_labels.Edits.{set_label};
ghost use Rattle.pr_ast.specs.pr_labels.Order.{labels_cmp};
ghost use Rattle.pr_yaml.specs.Tree.{tree_of, entry_tree_of};
ghost use Rattle.pr_rulefile.specs.Order.{ordered};
ghost use Rattle.pr_testfile.specs.Labels.{label_set};
ghost use Rattle.pr_testfile.specs.Alerts.{found_in, found_of, is_found_before, founds_of, time_under, alert_in, alert_of};

use crate::fields::{AlertField, ExpectedField, alert_field, expected_field};
use crate::labels::{label_set, notes_of, text_under};
use crate::tests::AlertCheck;
use crate::words::exp_annotations;
use pr_ast::labels::Labels;
use pr_ast::time::Ms;
use pr_num::Num;
use pr_rulefile::alerts_crate::RuleElement;
use pr_rulefile::fields::{
    ItemForm, MapForm, Problem, field, fields_of, fields_under, items_under, labels_problems,
    list_problems, map_problems, require, span_problems, span_under, text_problems,
};
use pr_words::{Items, Text};
use pr_yaml::{MapEntry, Node};
use std::alloc::{AllocError, Global};
use std::cmp::Ordering;

// An alert that is expected.
struct ExpectedForm;

impl MapForm for ExpectedForm {
    ghost use Rattle.pr_rulefile.specs.Maps.{none_missing};
    ghost use Rattle.pr_testfile.specs.Alerts.{expected_fields};

    ghost fields = { λ _ key. expected_fields key };

    ghost missing = { λ _ line es. none_missing line es };

    fn has(&self, key: &str) -> bool {
        match expected_field(key) {
            Some(_field) => true,
            None => false,
        }
    }

    fn look_at(
        &self,
        alloc: Global,
        key: &str,
        node: &Node,
        found: &mut Vec<Problem>,
    ) -> Result<(), AllocError> {
        match expected_field(key) {
            Some(ExpectedField::ExpLabels) => labels_problems(alloc, false, node, found),
            Some(ExpectedField::ExpAnnotations) => labels_problems(alloc, false, node, found),
            None => Ok(()),
        }
    }

    fn look_for_missing(
        &self,
        _alloc: Global,
        _line: u32,
        _entries: &[MapEntry],
        _found: &mut Vec<Problem>,
    ) -> Result<(), AllocError> {
        Ok(())
    }
}

// Lists of alerts that are expected.
struct ExpectedItems;

impl ItemForm for ExpectedItems {
    ghost use Rattle.pr_testfile.specs.Alerts.{expected_problems};

    ghost wrong = { λ _ t. expected_problems t };

    fn look(&self, alloc: Global, node: &Node, found: &mut Vec<Problem>) -> Result<(), AllocError> {
        map_problems(alloc, &ExpectedForm, node, found)
    }
}

// The check of an alert.
struct AlertForm;

impl MapForm for AlertForm {
    ghost use Rattle.pr_testfile.specs.Alerts.{alert_missing, alert_fields};

    ghost fields = { λ _ key. alert_fields key };

    ghost missing = { λ _ line es. alert_missing line es };

    fn has(&self, key: &str) -> bool {
        match alert_field(key) {
            Some(_field) => true,
            None => false,
        }
    }

    fn look_at(
        &self,
        alloc: Global,
        key: &str,
        node: &Node,
        found: &mut Vec<Problem>,
    ) -> Result<(), AllocError> {
        match alert_field(key) {
            Some(AlertField::EvalTime) => span_problems(node, found),
            Some(AlertField::AlertName) => text_problems(node, found),
            Some(AlertField::ExpAlerts) => list_problems(alloc, &ExpectedItems, node, found),
            None => Ok(()),
        }
    }

    fn look_for_missing(
        &self,
        alloc: Global,
        line: u32,
        entries: &[MapEntry],
        found: &mut Vec<Problem>,
    ) -> Result<(), AllocError> {
        require(alloc, line, "eval_time", field("eval_time", entries), found)?;
        require(alloc, line, "alertname", field("alertname", entries), found)
    }
}

/// Lists of checks of alerts.
pub(crate) struct AlertItems;

impl ItemForm for AlertItems {
    ghost use Rattle.pr_testfile.specs.Alerts.{alert_problems};

    ghost wrong = { λ _ t. alert_problems t };

    fn look(&self, alloc: Global, node: &Node, found: &mut Vec<Problem>) -> Result<(), AllocError> {
        map_problems(alloc, &AlertForm, node, found)
    }
}

// The label set of a map, with the name of an alert.
fn named(alloc: Global, entries: &[MapEntry], name: &str) -> Result<Labels, AllocError>
    ensures { IfOk result (λ l. l ≡ set_label (label_set (map entry_tree_of entries.now)) (codes "alertname") name.now) }
{
    let mut labels = label_set(alloc, entries)?;
    labels.assign(alloc, "alertname", name)?;
    Ok(labels)
}

#[tactic(auto, unfolding(crate::specs::Alerts::found_in))]
fn put_found(
    alloc: Global,
    name: &str,
    node: &Node,
    founds: &mut Vec<RuleElement>,
) -> Result<(), AllocError>
    ensures { OnOk result (founds.new.items ≡ founds.old.items ++ filter_map (found_of name.now) (tree_of node.now ∷ [])) }
{
    match fields_of(node) {
        Some(entries) => {
            let labels = named(alloc, fields_under("exp_labels", entries), name)?;
            let notes = notes_of(alloc, fields_under(exp_annotations(), entries))?;
            founds.push(RuleElement {
                labels,
                notes,
                value: Num::NaN,
            })?;
            Ok(())
        }
        None => Ok(()),
    }
}

fn compare(a: &RuleElement, b: &RuleElement) -> Ordering
    ensures { result ≡ ordering_then (labels_cmp a.now.labels b.now.labels) (labels_cmp a.now.notes b.now.notes) }
{
    a.labels
        .cmp(&b.labels)
        .then(a.notes.as_slice().cmp(b.notes.as_slice()))
}

/// Alerts in label order, and those of equal labels in order of their annotations.
///
/// # Errors
/// Where memory runs out.
pub fn founds_in_order(mut founds: Vec<RuleElement>) -> Result<Items<RuleElement>, AllocError>
    ensures { IfOk result (λ list. list ≡ ordered is_found_before founds.items) }
{
    founds.sort_by(|a, b| compare(a, b))?;
    Ok(Items::new(founds))
}

#[tactic(auto, unfolding(crate::specs::Alerts::founds_of))]
fn founds_of(alloc: Global, name: &str, items: &[Node]) -> Result<Items<RuleElement>, AllocError>
    ensures { IfOk result (λ list. list ≡ founds_of name.now (map tree_of items.now)) }
{
    let mut founds = Vec::new(alloc);
    let mut rest = items;
    'items: while let Some((item, after)) = rest.split_first() {
        put_found(alloc, name, item, &mut founds)?;
        rest = after;
    }
    founds_in_order(founds)
}

/// When a check with these fields is made.
pub(crate) fn time_under(entries: &[MapEntry]) -> Ms
    ensures { result ≡ time_under (map entry_tree_of entries.now) }
{
    match span_under("eval_time", entries) {
        Some(span) => Ms::new(span.get()).unwrap(),
        None => Ms::new(0).unwrap(),
    }
}

#[tactic(auto, unfolding(crate::specs::Alerts::alert_in))]
fn put_alert(alloc: Global, node: &Node, alerts: &mut Items<AlertCheck>) -> Result<(), AllocError>
    ensures { OnOk result (alerts.new ≡ alerts.old ++ filter_map alert_of (tree_of node.now ∷ [])) }
{
    match fields_of(node) {
        Some(entries) => {
            let name = text_under("alertname", entries);
            let expected = founds_of(alloc, name, items_under("exp_alerts", entries))?;
            alerts.push(AlertCheck {
                time: time_under(entries),
                name: Text::from_str(alloc, name)?,
                expected,
            })
        }
        None => Ok(()),
    }
}

/// The checks of a list.
pub(crate) fn alerts_of(alloc: Global, items: &[Node]) -> Result<Items<AlertCheck>, AllocError>
    ensures { IfOk result (λ list. list ≡ filter_map alert_of (map tree_of items.now)) }
{
    let mut alerts = Items::empty(alloc);
    let mut rest = items;
    'items: while let Some((item, after)) = rest.split_first() {
        put_alert(alloc, item, &mut alerts)?;
        rest = after;
    }
    Ok(alerts)
}
