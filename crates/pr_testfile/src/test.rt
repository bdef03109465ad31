// Tests.
ghost use Rattle.std.specs.Prelude.{◌≡◌, ◌++◌, ◌∷◌, [], Some, OnOk, IfOk, map, unwrap_or};
ghost use Rattle.std.specs.List.{filter_map};
ghost use Rattle.pr_yaml.specs.Tree.{tree_of, entry_tree_of};
ghost use Rattle.pr_rulefile.specs.Nodes.{field, fields_under, text_or_empty};
ghost use Rattle.pr_testfile.specs.Words.{external_labels, external_url};
ghost use Rattle.pr_testfile.specs.Labels.{label_set};
ghost use Rattle.pr_testfile.specs.Tests.{test_interval, test_problems, plain_test, test_in, test_of};

use crate::alerts::{AlertItems, alerts_of};
use crate::checks::{CheckItems, checks_of};
use crate::fields::{TestField, test_field};
use crate::inputs::Input;
use crate::labels::{label_set, text_under};
use crate::scalars::{interval_or, interval_problems};
use crate::series::{inputs_problems, series_of};
use crate::tests::Test;
use crate::words::{
    alert_rule_test, external_labels, external_url, input_series, promql_expr_test,
};
use pr_ast::time::Span;
use pr_rulefile::fields::{
    ItemForm, MapForm, Problem, field, fields_in, fields_of, fields_under, items_under,
    labels_problems, list_problems, map_problems, text_problems,
};
use pr_rulefile::tmpl::External;
use pr_words::{Items, Text};
use pr_yaml::{MapEntry, Node};
use std::alloc::{AllocError, Global};

// A test, the values of whose series stand at the multiples of the interval, where one is told.
#[derive(Drop)]
struct TestForm {
    interval: Option<Span>,
}

impl MapForm for TestForm {
    ghost use Rattle.pr_rulefile.specs.Maps.{none_missing};
    ghost use Rattle.pr_testfile.specs.Tests.{test_fields};

    ghost fields = { λ f key. test_fields f.interval key };

    ghost missing = { λ _ line es. none_missing line es };

    fn has(&self, key: &str) -> bool {
        match test_field(key) {
            Some(_field) => true,
            None => false,
        }
    }

    fn look_at(
        &self,
        alloc: Global,
        key: &str,
        node: &Node,
        found: &mut Vec<Problem>,
    ) -> Result<(), AllocError> {
        match test_field(key) {
            Some(TestField::Interval) => interval_problems(node, found),
            Some(TestField::Name) => text_problems(node, found),
            Some(TestField::InputSeries) => inputs_problems(alloc, self.interval, node, found),
            Some(TestField::AlertRuleTest) => list_problems(alloc, &AlertItems, node, found),
            Some(TestField::PromqlExprTest) => list_problems(alloc, &CheckItems, node, found),
            Some(TestField::ExternalLabels) => labels_problems(alloc, false, node, found),
            Some(TestField::ExternalUrl) => text_problems(node, found),
            None => Ok(()),
        }
    }

    fn look_for_missing(
        &self,
        _alloc: Global,
        _line: u32,
        _entries: &[MapEntry],
        _found: &mut Vec<Problem>,
    ) -> Result<(), AllocError> {
        Ok(())
    }
}

/// Lists of tests, in a file with that interval, where one is told.
#[derive(Drop)]
pub(crate) struct TestItems {
    pub(crate) interval: Option<Span>,
}

impl ItemForm for TestItems {
    ghost use Rattle.pr_testfile.specs.Tests.{test_problems};

    ghost wrong = { λ f t. test_problems f.interval t };

    fn look(&self, alloc: Global, node: &Node, found: &mut Vec<Problem>) -> Result<(), AllocError> {
        test_problems(alloc, self.interval, node, found)
    }
}

// The interval of a test with these fields, in a file with that interval.
fn test_interval(default: Option<Span>, entries: &[MapEntry]) -> Option<Span>
    ensures { result ≡ test_interval default (map entry_tree_of entries.now) }
{
    interval_or(default, field("interval", entries))
}

#[tactic(auto, unfolding(crate::specs::Tests::test_problems))]
fn test_problems(
    alloc: Global,
    default: Option<Span>,
    node: &Node,
    found: &mut Vec<Problem>,
) -> Result<(), AllocError>
    ensures { OnOk result (found.new.items ≡ found.old.items ++ test_problems default (tree_of node.now)) }
{
    let interval = test_interval(default, fields_in(node));
    map_problems(alloc, &TestForm { interval }, node, found)
}

fn external_in(alloc: Global, entries: &[MapEntry]) -> Result<External, AllocError>
    ensures labels { IfOk result (λ x. x.labels ≡ label_set (fields_under (field external_labels (map entry_tree_of entries.now)))) }
    ensures url { IfOk result (λ x. x.url ≡ text_or_empty (field external_url (map entry_tree_of entries.now))) }
{
    let labels = label_set(alloc, fields_under(external_labels(), entries))?;
    let url = Text::from_str(alloc, text_under(external_url(), entries))?;
    Ok(External { labels, url })
}

fn interval_of_test(default: Span, entries: &[MapEntry]) -> Span
    ensures { result ≡ unwrap_or (test_interval (Some default) (map entry_tree_of entries.now)) default }
{
    match test_interval(Some(default), entries) {
        Some(interval) => interval,
        None => default,
    }
}

#[tactic(auto, unfolding(crate::specs::Tests::test_in))]
fn put_test(
    alloc: Global,
    default: Span,
    node: &Node,
    tests: &mut Items<Test>,
) -> Result<(), AllocError>
    ensures { OnOk result (map plain_test tests.new ≡ map plain_test tests.old ++ filter_map (test_of default) (tree_of node.now ∷ [])) }
{
    match fields_of(node) {
        Some(entries) => {
            let interval = interval_of_test(default, entries);
            let series = series_of(alloc, interval, items_under(input_series(), entries))?;
            let alerts = alerts_of(alloc, items_under(alert_rule_test(), entries))?;
            let exprs = checks_of(alloc, items_under(promql_expr_test(), entries))?;
            let external = external_in(alloc, entries)?;
            tests.push(Test {
                input: Input { interval, series },
                alerts,
                exprs,
                external,
            })
        }
        None => Ok(()),
    }
}

/// The tests of a list, in a file with that interval.
pub(crate) fn tests_of(
    alloc: Global,
    default: Span,
    items: &[Node],
) -> Result<Items<Test>, AllocError>
    ensures { IfOk result (λ list. map plain_test list ≡ filter_map (test_of default) (map tree_of items.now)) }
{
    let mut tests = Items::empty(alloc);
    let mut rest = items;
    'items: while let Some((item, after)) = rest.split_first() {
        put_test(alloc, default, item, &mut tests)?;
        rest = after;
    }
    Ok(tests)
}
