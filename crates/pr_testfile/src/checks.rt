// Checks of expressions.
ghost use Rattle.std.specs.Prelude.{◌≡◌, ◌++◌, ◌∷◌, [], OnOk, IfOk, map};
ghost use Rattle.std.specs.List.{filter_map};
ghost use Rattle.std.specs.Option.{option_map};
ghost use Rattle.pr_ast.specs.Tree.{tree_of as expression_tree};
ghost use Rattle.pr_yaml.specs.Tree.{tree_of, entry_tree_of};
ghost use Rattle.pr_testfile.specs.Checks.{plain_check, check_with, expr_in, check_in, check_of};

use crate::alerts::time_under;
use crate::fields::{CheckField, check_field};
use crate::samples::{SampleItems, samples_of};
use crate::tests::ExprCheck;
use pr_rulefile::fields::{
    ItemForm, MapForm, Problem, expression_value_problems, field, fields_of, items_under,
    list_problems, map_problems, require, span_problems, text_of, typed_expression, written,
    written_text,
};
use pr_rulefile::types::Checked;
use pr_words::{Items, Text};
use pr_yaml::{MapEntry, Node};
use std::alloc::{AllocError, Global};

// The check of an expression.
struct CheckForm;

impl MapForm for CheckForm {
    ghost use Rattle.pr_testfile.specs.Checks.{check_missing, check_fields};

    ghost fields = { λ _ key. check_fields key };

    ghost missing = { λ _ line es. check_missing line es };

    fn has(&self, key: &str) -> bool {
        match check_field(key) {
            Some(_field) => true,
            None => false,
        }
    }

    fn look_at(
        &self,
        alloc: Global,
        key: &str,
        node: &Node,
        found: &mut Vec<Problem>,
    ) -> Result<(), AllocError> {
        match check_field(key) {
            Some(CheckField::Expr) => expression_value_problems(alloc, node, found),
            Some(CheckField::EvalTime) => span_problems(node, found),
            Some(CheckField::ExpSamples) => list_problems(alloc, &SampleItems, node, found),
            None => Ok(()),
        }
    }

    fn look_for_missing(
        &self,
        alloc: Global,
        line: u32,
        entries: &[MapEntry],
        found: &mut Vec<Problem>,
    ) -> Result<(), AllocError> {
        require(alloc, line, "eval_time", field("eval_time", entries), found)?;
        require(alloc, line, "expr", written("expr", entries), found)
    }
}

/// Lists of checks of expressions.
pub(crate) struct CheckItems;

impl ItemForm for CheckItems {
    ghost use Rattle.pr_testfile.specs.Checks.{check_problems};

    ghost wrong = { λ _ t. check_problems t };

    fn look(&self, alloc: Global, node: &Node, found: &mut Vec<Problem>) -> Result<(), AllocError> {
        map_problems(alloc, &CheckForm, node, found)
    }
}

#[tactic(auto, using(crate::proofs::Exprs::some_tree, crate::proofs::Exprs::no_tree))]
fn expr_in(alloc: Global, value: Option<&Node>) -> Result<Option<Checked>, AllocError>
    ensures { IfOk result (λ o. option_map expression_tree o ≡ expr_in (option_map (λ n. tree_of n.now) value.entry)) }
{
    match value {
        Some(node) => match text_of(node) {
            Some(text) => match typed_expression(alloc, text)? {
                Ok(checked) => Ok(Some(checked)),
                Err(_) => Ok(None),
            },
            None => Ok(None),
        },
        None => Ok(None),
    }
}

// The check of a map with this expression.
#[tactic(auto, unfolding(crate::specs::Checks::check_with))]
fn check_with(alloc: Global, entries: &[MapEntry], expr: Checked) -> Result<ExprCheck, AllocError>
    ensures { IfOk result (λ c. plain_check c ≡ check_with (map entry_tree_of entries.now) (expression_tree expr)) }
{
    let text = Text::from_str(alloc, written_text("expr", entries))?;
    let expected = samples_of(alloc, items_under("exp_samples", entries))?;
    Ok(ExprCheck {
        time: time_under(entries),
        text,
        expr,
        expected,
    })
}

#[tactic(auto, unfolding(crate::specs::Checks::check_in))]
fn put_check(alloc: Global, node: &Node, exprs: &mut Items<ExprCheck>) -> Result<(), AllocError>
    ensures { OnOk result (map plain_check exprs.new ≡ map plain_check exprs.old ++ filter_map check_of (tree_of node.now ∷ [])) }
{
    match fields_of(node) {
        Some(entries) => match expr_in(alloc, written("expr", entries))? {
            Some(expr) => exprs.push(check_with(alloc, entries, expr)?),
            None => Ok(()),
        },
        None => Ok(()),
    }
}

/// The checks of a list.
pub(crate) fn checks_of(alloc: Global, items: &[Node]) -> Result<Items<ExprCheck>, AllocError>
    ensures { IfOk result (λ list. map plain_check list ≡ filter_map check_of (map tree_of items.now)) }
{
    let mut exprs = Items::empty(alloc);
    let mut rest = items;
    'items: while let Some((item, after)) = rest.split_first() {
        put_check(alloc, item, &mut exprs)?;
        rest = after;
    }
    Ok(exprs)
}
