// Expressions.
ghost use Rattle.std.specs.Prelude.{◌≡◌, ◌++◌, OnOk, IfOk, map, codes, Option};
ghost use Rattle.std.specs.Option.{option_map};
ghost use Rattle.pr_ast.specs.Tree.{tree_of as expression_tree};
ghost use Rattle.pr_yaml.specs.Tree.{tree_of, entry_tree_of};
ghost use Rattle.pr_rulefile.specs.declared.fields.problem.ProblemKind.TheVariants.{Expression};
ghost use Rattle.pr_rulefile.specs.Nodes.{line_of, text_of, written};
ghost use Rattle.pr_rulefile.specs.Expressions.{typed_expression, tree_answered, by_written, expression_under, expression_problems, tree_found, expression_value_problems};

use crate::fields::access::{line_of, says_nothing, text_of, written};
use crate::fields::found::{push, push_missing};
use crate::fields::problem::{Problem, ProblemKind};
use pr_parse::types::Checked;
use pr_parse::{QueryError, read_expression};
use pr_yaml::{MapEntry, Node};
use std::alloc::{AllocError, Global};

/// The expression that a text is, or what is wrong with it first.
#[tactic(auto, unfolding(crate::specs::Expressions::typed_expression))]
pub fn typed_expression(
    alloc: Global,
    text: &str,
) -> Result<Result<Checked, ProblemKind>, AllocError>
    ensures { IfOk result (λ r. tree_answered r ≡ typed_expression text.now) }
{
    match read_expression(alloc, text) {
        Ok(checked) => Ok(Ok(checked)),
        Err(QueryError::Fault { at, kind }) => Ok(Err(ProblemKind::Expression { kind, at })),
        Err(QueryError::Memory) => Err(AllocError),
    }
}

/// The same of a value that is there.
pub fn expression_in(
    alloc: Global,
    node: &Node,
    found: &mut Vec<Problem>,
) -> Result<Option<Checked>, AllocError>
    ensures tree { IfOk result (λ o. option_map expression_tree o ≡ tree_found (by_written (line_of (tree_of node.now)) (text_of (tree_of node.now)))) }
    ensures problems { OnOk result (found.new.items ≡ found.old.items ++ expression_problems (by_written (line_of (tree_of node.now)) (text_of (tree_of node.now)))) }
{
    let Some(text) = text_of(node) else {
        push(found, line_of(node), ProblemKind::WantText)?;
        return Ok(None);
    };
    match typed_expression(alloc, text)? {
        Ok(checked) => Ok(Some(checked)),
        Err(kind) => {
            push(found, line_of(node), kind)?;
            Ok(None)
        }
    }
}

/// What is wrong with the expression that a value is. An empty one is told as missing.
#[tactic(auto, unfolding(crate::specs::Expressions::expression_value_problems))]
pub fn expression_value_problems(
    alloc: Global,
    node: &Node,
    found: &mut Vec<Problem>,
) -> Result<(), AllocError>
    ensures { OnOk result (found.new.items ≡ found.old.items ++ expression_value_problems (tree_of node.now)) }
{
    if says_nothing(node) {
        return Ok(());
    }
    let _expression = expression_in(alloc, node, found)?;
    Ok(())
}

/// The expression under the field `expr` of a map with these fields, which begins at the line.
#[tactic(auto, unfolding(crate::specs::Expressions::expression_under))]
pub fn expression_under(
    alloc: Global,
    line: u32,
    entries: &[MapEntry],
    found: &mut Vec<Problem>,
) -> Result<Option<Checked>, AllocError>
    ensures tree { IfOk result (λ o. option_map expression_tree o ≡ tree_found (expression_under line (written (codes "expr") (map entry_tree_of entries.now)))) }
    ensures problems { OnOk result (found.new.items ≡ found.old.items ++ expression_problems (expression_under line (written (codes "expr") (map entry_tree_of entries.now)))) }
{
    match written("expr", entries) {
        Some(node) => expression_in(alloc, node, found),
        None => {
            push_missing(alloc, found, line, "expr")?;
            Ok(None)
        }
    }
}
