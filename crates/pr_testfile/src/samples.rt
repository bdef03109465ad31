// Samples that are expected.
ghost use Rattle.std.specs.Prelude.{◌≡◌, ◌++◌, ◌∷◌, [], OnOk, IfOk, map};
ghost use Rattle.std.specs.List.{filter_map};
ghost use Rattle.pr_yaml.specs.Tree.{tree_of};
ghost use Rattle.pr_rulefile.specs.Order.{ordered};
ghost use Rattle.pr_testfile.specs.Samples.{is_item_before, sample_in, sample_of, samples_of};

use crate::fields::{SampleField, sample_field};
use crate::scalars::{labels_or_none, number_problems, number_under, series_problems};
use pr_ast::labels::Item;
use pr_num::Num;
use pr_rulefile::fields::{ItemForm, MapForm, Problem, field, fields_of, map_problems, require};
use pr_words::Items;
use pr_yaml::{MapEntry, Node};
use std::alloc::{AllocError, Global};

// A sample that is expected.
struct SampleForm;

impl MapForm for SampleForm {
    ghost use Rattle.pr_testfile.specs.Samples.{sample_missing, sample_fields};

    ghost fields = { λ _ key. sample_fields key };

    ghost missing = { λ _ line es. sample_missing line es };

    fn has(&self, key: &str) -> bool {
        match sample_field(key) {
            Some(_field) => true,
            None => false,
        }
    }

    fn look_at(
        &self,
        alloc: Global,
        key: &str,
        node: &Node,
        found: &mut Vec<Problem>,
    ) -> Result<(), AllocError> {
        match sample_field(key) {
            Some(SampleField::Labels) => series_problems(alloc, node, found),
            Some(SampleField::Value) => number_problems(node, found),
            None => Ok(()),
        }
    }

    fn look_for_missing(
        &self,
        alloc: Global,
        line: u32,
        entries: &[MapEntry],
        found: &mut Vec<Problem>,
    ) -> Result<(), AllocError> {
        require(alloc, line, "value", field("value", entries), found)
    }
}

/// Lists of samples that are expected.
pub(crate) struct SampleItems;

impl ItemForm for SampleItems {
    ghost use Rattle.pr_testfile.specs.Samples.{sample_problems};

    ghost wrong = { λ _ t. sample_problems t };

    fn look(&self, alloc: Global, node: &Node, found: &mut Vec<Problem>) -> Result<(), AllocError> {
        map_problems(alloc, &SampleForm, node, found)
    }
}

#[tactic(auto, unfolding(crate::specs::Samples::sample_in))]
fn put_sample(alloc: Global, node: &Node, samples: &mut Vec<Item<Num>>) -> Result<(), AllocError>
    ensures { OnOk result (samples.new.items ≡ samples.old.items ++ filter_map sample_of (tree_of node.now ∷ [])) }
{
    match fields_of(node) {
        Some(entries) => {
            let labels = labels_or_none(alloc, field("labels", entries))?;
            samples.push(Item {
                labels,
                value: number_under(field("value", entries)),
            })?;
            Ok(())
        }
        None => Ok(()),
    }
}

// Samples in label order; those of equal labels stay in theirs.
fn samples_in_order(mut samples: Vec<Item<Num>>) -> Result<Items<Item<Num>>, AllocError>
    ensures { IfOk result (λ list. list ≡ ordered is_item_before samples.items) }
{
    samples.sort_by(|a, b| a.labels.cmp(&b.labels))?;
    Ok(Items::new(samples))
}

/// The samples of a list, in their order.
#[tactic(auto, unfolding(crate::specs::Samples::samples_of))]
pub(crate) fn samples_of(alloc: Global, items: &[Node]) -> Result<Items<Item<Num>>, AllocError>
    ensures { IfOk result (λ list. list ≡ samples_of (map tree_of items.now)) }
{
    let mut samples = Vec::new(alloc);
    let mut rest = items;
    'items: while let Some((item, after)) = rest.split_first() {
        put_sample(alloc, item, &mut samples)?;
        rest = after;
    }
    samples_in_order(samples)
}
