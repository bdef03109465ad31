// Lengths of time above 0, series, values, numbers.
ghost use Rattle.std.specs.Prelude.{◌≡◌, ◌++◌, [], OnOk, IfOk, option_map, unwrap_or};
ghost use Rattle.pr_ast.specs.pr_labels.SeriesReading.{series_labels};
ghost use Rattle.pr_yaml.specs.Tree.{tree_of};
ghost use Rattle.pr_testfile.specs.Scalars.{interval_of, interval_problems, interval_in, interval_or, series_problems, series_in, labels_under, values_problems, stretches_under, number_problems, number_under, fuzzy_problems};

use crate::inputs::{Stretch, Values, number_of, read_values};
use pr_ast::labels::Labels;
use pr_ast::labels::series::{TextFault, read_series_text};
use pr_ast::time::Span;
use pr_num::Num;
use pr_rulefile::fields::{Problem, ProblemKind, line_of, push, short_span, text_of};
use pr_words::Items;
use pr_yaml::Node;
use std::alloc::{AllocError, Global};

#[tactic(auto, unfolding(crate::specs::Scalars::interval_of))]
fn interval_of(text: &str) -> Option<Span>
    ensures { result ≡ interval_of text.now }
{
    match short_span(text) {
        Some(span) => { if span.get() > 0 { Some(span) } else { None } }
        None => None,
    }
}

/// An interval is wanted.
#[tactic(auto, unfolding(crate::specs::Scalars::interval_problems))]
pub(crate) fn interval_problems(node: &Node, found: &mut Vec<Problem>) -> Result<(), AllocError>
    ensures { OnOk result (found.new.items ≡ found.old.items ++ interval_problems (tree_of node.now)) }
{
    match text_of(node) {
        Some(text) => match interval_of(text) {
            Some(_span) => Ok(()),
            None => push(found, line_of(node), ProblemKind::BadSpan),
        },
        None => push(found, line_of(node), ProblemKind::WantText),
    }
}

fn interval_in(node: &Node) -> Option<Span>
    ensures { result ≡ interval_in (tree_of node.now) }
{
    match text_of(node) {
        Some(text) => interval_of(text),
        None => None,
    }
}

/// The interval that a value writes, or this one where there is no value.
pub(crate) fn interval_or(default: Option<Span>, value: Option<&Node>) -> Option<Span>
    ensures { result ≡ interval_or default (option_map (λ n. tree_of n.now) value.entry) }
{
    match value {
        Some(node) => interval_in(node),
        None => default,
    }
}

fn series_labels(alloc: Global, text: &str) -> Result<Option<Labels>, AllocError>
    ensures { IfOk result (λ labels. labels ≡ series_labels text.now) }
{
    match read_series_text(alloc, text) {
        Ok(labels) => Ok(Some(labels)),
        Err(TextFault::BadLabels { .. }) => Ok(None),
        Err(TextFault::Memory) => Err(AllocError),
    }
}

/// A series text is wanted.
#[tactic(auto, unfolding(crate::specs::Scalars::series_problems))]
pub(crate) fn series_problems(
    alloc: Global,
    node: &Node,
    found: &mut Vec<Problem>,
) -> Result<(), AllocError>
    ensures { OnOk result (found.new.items ≡ found.old.items ++ series_problems (tree_of node.now)) }
{
    match text_of(node) {
        Some(text) => match series_labels(alloc, text)? {
            Some(_labels) => Ok(()),
            None => push(found, line_of(node), ProblemKind::BadSeries),
        },
        None => push(found, line_of(node), ProblemKind::WantText),
    }
}

/// The label set of the series text that a value is.
pub(crate) fn series_in(alloc: Global, node: &Node) -> Result<Option<Labels>, AllocError>
    ensures { IfOk result (λ labels. labels ≡ series_in (tree_of node.now)) }
{
    match text_of(node) {
        Some(text) => series_labels(alloc, text),
        None => Ok(None),
    }
}

/// The label set of the series text that stands under a field.
pub(crate) fn labels_under(
    alloc: Global,
    value: Option<&Node>,
) -> Result<Option<Labels>, AllocError>
    ensures { IfOk result (λ labels. labels ≡ labels_under (option_map (λ n. tree_of n.now) value.entry)) }
{
    match value {
        Some(node) => series_in(alloc, node),
        None => Ok(None),
    }
}

/// The same, or no labels where there is none.
pub(crate) fn labels_or_none(alloc: Global, value: Option<&Node>) -> Result<Labels, AllocError>
    ensures { IfOk result (λ l. l ≡ unwrap_or (labels_under (option_map (λ n. tree_of n.now) value.entry)) []) }
{
    match labels_under(alloc, value)? {
        Some(labels) => Ok(labels),
        None => Ok(Labels::empty(alloc)),
    }
}

/// The values of a series are wanted.
#[tactic(auto, unfolding(crate::specs::Scalars::values_problems))]
pub(crate) fn values_problems(
    alloc: Global,
    interval: Option<Span>,
    node: &Node,
    found: &mut Vec<Problem>,
) -> Result<(), AllocError>
    ensures { OnOk result (found.new.items ≡ found.old.items ++ values_problems interval (tree_of node.now)) }
{
    match text_of(node) {
        Some(text) => match read_values(alloc, interval, text.as_bytes())? {
            Values::Stretches { .. } => Ok(()),
            Values::TooMany => push(found, line_of(node), ProblemKind::TooManyValues),
            Values::Bad => push(found, line_of(node), ProblemKind::BadValues),
        },
        None => push(found, line_of(node), ProblemKind::WantText),
    }
}

/// The stretches of the values that stand under a field.
pub(crate) fn stretches_under(
    alloc: Global,
    interval: Option<Span>,
    value: Option<&Node>,
) -> Result<Items<Stretch>, AllocError>
    ensures { IfOk result (λ list. list ≡ stretches_under interval (option_map (λ n. tree_of n.now) value.entry)) }
{
    match value {
        Some(node) => match text_of(node) {
            Some(text) => match read_values(alloc, interval, text.as_bytes())? {
                Values::Stretches { list } => Ok(list),
                Values::TooMany | Values::Bad => Ok(Items::empty(alloc)),
            },
            None => Ok(Items::empty(alloc)),
        },
        None => Ok(Items::empty(alloc)),
    }
}

/// A number is wanted.
#[tactic(auto, unfolding(crate::specs::Scalars::number_problems))]
pub(crate) fn number_problems(node: &Node, found: &mut Vec<Problem>) -> Result<(), AllocError>
    ensures { OnOk result (found.new.items ≡ found.old.items ++ number_problems (tree_of node.now)) }
{
    match text_of(node) {
        Some(text) => match number_of(text.as_bytes()) {
            Some(_value) => Ok(()),
            None => push(found, line_of(node), ProblemKind::BadValue),
        },
        None => push(found, line_of(node), ProblemKind::WantText),
    }
}

/// The number that stands under a field, NaN where there is none.
pub(crate) fn number_under(value: Option<&Node>) -> Num
    ensures { result ≡ number_under (option_map (λ n. tree_of n.now) value.entry) }
{
    match value {
        Some(node) => match text_of(node) {
            Some(text) => match number_of(text.as_bytes()) {
                Some(value) => value,
                None => Num::NaN,
            },
            None => Num::NaN,
        },
        None => Num::NaN,
    }
}

/// The word `false` is wanted.
#[tactic(auto, unfolding(crate::specs::Scalars::fuzzy_problems))]
pub(crate) fn fuzzy_problems(node: &Node, found: &mut Vec<Problem>) -> Result<(), AllocError>
    ensures { OnOk result (found.new.items ≡ found.old.items ++ fuzzy_problems (tree_of node.now)) }
{
    match text_of(node) {
        Some(text) => {
            if text == "false" {
                Ok(())
            } else {
                push(found, line_of(node), ProblemKind::FuzzyCompare)
            }
        }
        None => push(found, line_of(node), ProblemKind::WantText),
    }
}
