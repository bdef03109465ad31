// The series of a test.
ghost use Rattle.std.specs.Prelude.{◌≡◌, ◌++◌, ◌∷◌, [], Some, OnOk, IfOk, map};
ghost use Rattle.std.specs.List.{filter_map};
ghost use Rattle.pr_yaml.specs.Tree.{tree_of};
ghost use Rattle.pr_testfile.specs.Series.{inputs_problems, series_with, input_of};

use crate::fields::{SeriesField, series_field};
use crate::inputs::InputSeries;
use crate::repeats::duplicate_problems;
use crate::scalars::{labels_or_none, series_problems, stretches_under, values_problems};
use pr_ast::time::Span;
use pr_rulefile::fields::{
    ItemForm, MapForm, Problem, field, fields_of, items_in, list_problems, map_problems, require,
};
use pr_words::Items;
use pr_yaml::{MapEntry, Node};
use std::alloc::{AllocError, Global};

// A series of a test, whose values stand at the multiples of the interval, where one is told.
#[derive(Drop)]
struct SeriesForm {
    interval: Option<Span>,
}

impl MapForm for SeriesForm {
    ghost use Rattle.pr_testfile.specs.Series.{input_missing, input_fields};

    ghost fields = { λ f key. input_fields f.interval key };

    ghost missing = { λ _ line es. input_missing line es };

    fn has(&self, key: &str) -> bool {
        match series_field(key) {
            Some(_field) => true,
            None => false,
        }
    }

    fn look_at(
        &self,
        alloc: Global,
        key: &str,
        node: &Node,
        found: &mut Vec<Problem>,
    ) -> Result<(), AllocError> {
        match series_field(key) {
            Some(SeriesField::Series) => series_problems(alloc, node, found),
            Some(SeriesField::Values) => values_problems(alloc, self.interval, node, found),
            None => Ok(()),
        }
    }

    fn look_for_missing(
        &self,
        alloc: Global,
        line: u32,
        entries: &[MapEntry],
        found: &mut Vec<Problem>,
    ) -> Result<(), AllocError> {
        require(alloc, line, "series", field("series", entries), found)?;
        require(alloc, line, "values", field("values", entries), found)
    }
}

// Lists of such series.
#[derive(Drop)]
struct SeriesItems {
    interval: Option<Span>,
}

impl ItemForm for SeriesItems {
    ghost use Rattle.pr_testfile.specs.Series.{input_problems};

    ghost wrong = { λ f t. input_problems f.interval t };

    fn look(&self, alloc: Global, node: &Node, found: &mut Vec<Problem>) -> Result<(), AllocError> {
        let form = SeriesForm {
            interval: self.interval,
        };
        map_problems(alloc, &form, node, found)
    }
}

/// The series of a test are wanted: what is wrong with each, and those that stand twice.
#[tactic(auto, unfolding(crate::specs::Series::inputs_problems))]
pub(crate) fn inputs_problems(
    alloc: Global,
    interval: Option<Span>,
    node: &Node,
    found: &mut Vec<Problem>,
) -> Result<(), AllocError>
    ensures { OnOk result (found.new.items ≡ found.old.items ++ inputs_problems interval (tree_of node.now)) }
{
    list_problems(alloc, &SeriesItems { interval }, node, found)?;
    duplicate_problems(alloc, items_in(node), found)
}

#[tactic(auto, unfolding(crate::specs::Series::series_with))]
fn put_series(
    alloc: Global,
    interval: Span,
    node: &Node,
    series: &mut Items<InputSeries>,
) -> Result<(), AllocError>
    ensures { OnOk result (series.new ≡ series.old ++ filter_map (input_of (Some interval)) (tree_of node.now ∷ [])) }
{
    match fields_of(node) {
        Some(entries) => {
            let labels = labels_or_none(alloc, field("series", entries))?;
            let values = stretches_under(alloc, Some(interval), field("values", entries))?;
            series.push(InputSeries { labels, values })
        }
        None => Ok(()),
    }
}

/// The series of a list, whose values stand at the multiples of the interval.
pub(crate) fn series_of(
    alloc: Global,
    interval: Span,
    items: &[Node],
) -> Result<Items<InputSeries>, AllocError>
    ensures { IfOk result (λ list. list ≡ filter_map (input_of (Some interval)) (map tree_of items.now)) }
{
    let mut series = Items::empty(alloc);
    let mut rest = items;
    'items: while let Some((item, after)) = rest.split_first() {
        put_series(alloc, interval, item, &mut series)?;
        rest = after;
    }
    Ok(series)
}
