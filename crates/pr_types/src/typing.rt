//! The type of an expression.
ghost use Rattle.std.specs.Prelude.{◌≡◌, ◌∷◌, [], ◌++◌, OnOk};
ghost use Rattle.pr_ast.specs.Tree.{tree_of, trees_of};
ghost use Rattle.pr_types.specs.Selectors.{tests_of, checked_tests};
ghost use Rattle.pr_types.specs.Typed.{go_on, start, typed, operands};
ghost use Rattle.pr_types.specs.private.Answered.{Answers, Offers};
ghost use Rattle.pr_types.specs.private.Built.{Adds};

use crate::building::Built;
use crate::kind::{TypeError, TypeFault, ValueType};
use crate::operation::{instant, typed_operation, typed_subquery};
use crate::selection::checked_tests;
use crate::signature::Operand;
use crate::texts::{content, typed_aggregation, typed_call};
use pr_ast::words_crate::Items;
use pr_ast::{Expr, ExprKind, Selector};
use std::alloc::Global;

/// Where an expression starts.
pub(crate) fn start(e: &Expr) -> usize
    ensures { result ≡ start (tree_of e.now) }
{
    match &e.kind {
        ExprKind::Number { .. }
        | ExprKind::Text { .. }
        | ExprKind::Select { .. }
        | ExprKind::Range { .. }
        | ExprKind::Sub { .. }
        | ExprKind::Neg { .. }
        | ExprKind::Binary { .. }
        | ExprKind::Call { .. }
        | ExprKind::Aggregate { .. } => e.place.start,
    }
}

/// An answer that took no memory.
fn plain(found: Result<ValueType, TypeFault>) -> Result<ValueType, TypeError>
    ensures { Answers found result }
{
    Ok(found?)
}

/// The type of a selector, whose matchers are built.
fn select(
    alloc: Global,
    at: usize,
    selector: &Selector,
    gives: ValueType,
    built: &mut Built,
) -> Result<ValueType, TypeError>
    ensures typed { Answers (go_on (λ tests. Ok gives) (checked_tests at selector.now)) result }
    ensures selectors { OnOk result (built.new.selectors ≡ built.old.selectors ++ tests_of selector.now ∷ []) }
    ensures patterns { OnOk result (built.new.patterns ≡ built.old.patterns) }
{
    let matchers = checked_tests(alloc, at, selector)?;
    built.selectors.push(matchers)?;
    Ok(gives)
}

/// The type of an expression with its start.
#[cycle(typing)]
fn operand_of(alloc: Global, e: &Expr, built: &mut Built) -> Result<Operand, TypeError>
    ensures typed { Offers (tree_of e.now) result }
    ensures built { OnOk result (Adds (tree_of e.now) built.old built.new) }
{
    let gives = type_of(alloc, e, built)?;
    Ok(Operand {
        at: start(e),
        gives,
    })
}

/// The same of each argument.
#[cycle(typing)]
fn operands_of(alloc: Global, args: &[Expr], built: &mut Built) -> Result<Items<Operand>, TypeError>
    ensures typed { Answers (operands (trees_of args.now)) result }
    ensures built { OnOk result (Adds (trees_of args.now) built.old built.new) }
{
    let mut found = Items::empty(alloc);
    for arg in args {
        let operand = operand_of(alloc, arg, built)?;
        found.push(operand)?;
    }
    Ok(found)
}

/// The type of an expression, or its first fault. What it has of matchers and patterns is built.
#[cycle(typing)]
pub(crate) fn type_of(alloc: Global, e: &Expr, built: &mut Built) -> Result<ValueType, TypeError>
    ensures typed { Answers (typed (tree_of e.now)) result }
    ensures built { OnOk result (Adds (tree_of e.now) built.old built.new) }
{
    let at = e.place.start;
    match &e.kind {
        ExprKind::Number { .. } => Ok(ValueType::Scalar),
        ExprKind::Text { .. } => Ok(ValueType::Text),
        ExprKind::Select { selector } => select(alloc, at, selector, ValueType::Vector, built),
        ExprKind::Range { selector, .. } => select(alloc, at, selector, ValueType::Range, built),
        ExprKind::Sub { inner, step, .. } => {
            let operand = operand_of(alloc, inner, built)?;
            plain(typed_subquery(at, *step, operand))
        }
        ExprKind::Neg { inner } => {
            let operand = operand_of(alloc, inner, built)?;
            plain(instant(operand))
        }
        ExprKind::Binary {
            op,
            with_bool,
            matching,
            left,
            right,
        } => {
            let one = operand_of(alloc, left, built)?;
            let other = operand_of(alloc, right, built)?;
            plain(typed_operation(at, *op, *with_bool, matching, one, other))
        }
        ExprKind::Call { func, args } => {
            let operands = operands_of(alloc, args, built)?;
            typed_call(alloc, at, *func, args, operands.as_slice(), built)
        }
        ExprKind::Aggregate {
            op,
            param,
            inner,
            ..
        } => match param {
            Some(first) => {
                let one = operand_of(alloc, first, built)?;
                let other = operand_of(alloc, inner, built)?;
                typed_aggregation(at, *op, content(first), &[one, other])
            }
            None => {
                let one = operand_of(alloc, inner, built)?;
                typed_aggregation(at, *op, content(inner), &[one])
            }
        },
    }
}
