// Series that stand twice in a test.
ghost use Rattle.std.specs.Prelude.{◌≡◌, ◌++◌, ◌||◌, List, OnOk, IfOk, map, option_map, Some};
ghost use Rattle.pr_ast.specs.pr_labels.declared.pair.Pair.{Pair};
ghost use Rattle.pr_ast.specs.pr_labels.Order.{labels_eq};
ghost use Rattle.pr_yaml.specs.Tree.{tree_of};
ghost use Rattle.pr_testfile.specs.Scalars.{labels_under};
ghost use Rattle.pr_testfile.specs.Series.{no_series, and_series, by_labels, repeat_problems, series_of, duplicate_problems};
ghost use Rattle.pr_testfile.specs.private.Known.{knows_labels, line_under};

use crate::scalars::labels_under;
use pr_ast::labels::Labels;
use pr_rulefile::fields::{Problem, ProblemKind, field, fields_in, line_of, push};
use pr_yaml::Node;
use std::alloc::{AllocError, Global};
use std::collections::BTreeSet;

fn is_known(sets: &BTreeSet<Labels>, labels: &Labels) -> bool
    ensures { result ≡ knows_labels sets.now labels.now }
{
    sets.contains(labels)
}

#[tactic(auto, using(crate::proofs::KnownSets::more_known))]
fn add_labels(sets: &mut BTreeSet<Labels>, labels: Labels) -> Result<(), AllocError>
    ensures { OnOk result ((other : List Pair) → knows_labels sets.new other ≡ (knows_labels sets.old other || labels_eq labels other)) }
{
    sets.insert(labels)?;
    Ok(())
}

fn series_of(node: &Node) -> Option<&Node>
    ensures { option_map (λ n. tree_of n.now) result ≡ series_of (tree_of node.now) }
{
    field("series", fields_in(node))
}

fn labels_of_item(alloc: Global, node: &Node) -> Result<Option<Labels>, AllocError>
    ensures { IfOk result (λ labels. labels ≡ labels_under (series_of (tree_of node.now))) }
{
    labels_under(alloc, series_of(node))
}

fn line_of_series(node: &Node) -> u32
    ensures { result ≡ line_under (series_of (tree_of node.now)) }
{
    match series_of(node) {
        Some(value) => line_of(value),
        None => 0,
    }
}

fn tell_repeat(
    sets: &BTreeSet<Labels>,
    line: u32,
    labels: &Labels,
    found: &mut Vec<Problem>,
) -> Result<(), AllocError>
    ensures { OnOk result (found.new.items ≡ found.old.items ++ by_labels (knows_labels sets.now) line (Some labels.now)) }
{
    if is_known(sets, labels) {
        push(found, line, ProblemKind::DuplicateSeries)
    } else {
        Ok(())
    }
}

// One more series: whether one before has its labels, which are then known too.
#[tactic(auto, using(crate::proofs::KnownSets::told))]
fn one_more(
    alloc: Global,
    sets: &mut BTreeSet<Labels>,
    node: &Node,
    found: &mut Vec<Problem>,
) -> Result<(), AllocError>
    ensures problems { OnOk result (found.new.items ≡ found.old.items ++ repeat_problems (knows_labels sets.old) (series_of (tree_of node.now))) }
    ensures known { OnOk result (knows_labels sets.new ≡ and_series (knows_labels sets.old) (labels_under (series_of (tree_of node.now)))) }
{
    match labels_of_item(alloc, node)? {
        Some(labels) => {
            tell_repeat(sets, line_of_series(node), &labels, found)?;
            add_labels(sets, labels)
        }
        None => Ok(()),
    }
}

/// Series whose labels one before them has.
#[tactic(auto, unfolding(crate::specs::Series::duplicate_problems))]
pub(crate) fn duplicate_problems(
    alloc: Global,
    items: &[Node],
    found: &mut Vec<Problem>,
) -> Result<(), AllocError>
    ensures { OnOk result (found.new.items ≡ found.old.items ++ duplicate_problems no_series (map tree_of items.now)) }
{
    let mut sets = BTreeSet::new(alloc);
    let mut rest = items;
    'items: while let Some((item, after)) = rest.split_first() {
        one_more(alloc, &mut sets, item, found)?;
        rest = after;
    }
    Ok(())
}
