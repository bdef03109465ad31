//! Texts among arguments: patterns, and names of labels.
ghost use Rattle.std.specs.Prelude.{◌≡◌, ◌++◌, ◌∷◌, [], OnOk};
ghost use Rattle.pr_ast.specs.Tree.{tree_of, trees_of};
ghost use Rattle.pr_types.specs.Typed.{content, content_at, label_fault, go_on, pattern_at, unless, replaces, joins, counts_values, typed_call, typed_aggregation};
ghost use Rattle.pr_types.specs.private.Answered.{Answers};
ghost use Rattle.pr_types.specs.private.Built.{own_patterns};

use crate::building::Built;
use crate::kind::{TypeError, TypeKind, ValueType};
use crate::selection::pattern_error;
use crate::signature::{Operand, Signature};
use pr_ast::labels::is_label_name;
use pr_ast::{AggOp, Expr, ExprKind, Func};
use pr_match::Pattern;
use std::alloc::Global;

/// The content of a text; nothing for every other expression.
pub fn content(e: &Expr) -> &str
    ensures { result.now ≡ content (tree_of e.now) }
{
    match &e.kind {
        ExprKind::Text { text } => text.as_str(),
        _ => "",
    }
}

/// The content of the argument at a place, from 0 on; nothing where that is no text.
pub fn content_at(args: &[Expr], place: usize) -> &str
    ensures { result.now ≡ content_at (trees_of args.now) place }
{
    match args.get(place) {
        Some(arg) => content(arg),
        None => "",
    }
}

fn label_fault(name: &str) -> Option<TypeKind>
    ensures { result ≡ label_fault name.now }
{
    if is_label_name(name.as_bytes()) {
        None
    } else {
        Some(TypeKind::BadLabel)
    }
}

/// The type, unless the text that should be the name of a label is none.
pub(crate) fn labelled(at: usize, name: &str, gives: ValueType) -> Result<ValueType, TypeError>
    ensures { Answers (unless at (label_fault name.now) gives) result }
{
    match label_fault(name) {
        None => Ok(gives),
        Some(kind) => Err(TypeError::Fault { at, kind }),
    }
}

/// Whether a function takes a pattern.
pub(crate) fn replaces(func: Func) -> bool
    ensures { result ≡ replaces func }
{
    matches!(func, Func::LabelReplace)
}

fn joins(func: Func) -> bool
    ensures { result ≡ joins func }
{
    matches!(func, Func::LabelJoin)
}

fn counts_values(op: AggOp) -> bool
    ensures { result ≡ counts_values op }
{
    matches!(op, AggOp::CountValues)
}

fn pattern_of(alloc: Global, at: usize, text: &str) -> Result<Pattern, TypeError>
    ensures { Answers (pattern_at at text.now) result }
{
    match Pattern::build(alloc, text) {
        Ok(pattern) => Ok(pattern),
        Err(error) => Err(pattern_error(at, error)),
    }
}

/// The type of a `label_replace` with this pattern and this label, or its fault. The pattern is
/// built.
fn replaced(
    alloc: Global,
    at: usize,
    pattern: &str,
    label: &str,
    gives: ValueType,
    built: &mut Built,
) -> Result<ValueType, TypeError>
    ensures typed { Answers (go_on (λ p. unless at (label_fault label.now) gives) (pattern_at at pattern.now)) result }
    ensures selectors { OnOk result (built.new.selectors ≡ built.old.selectors) }
    ensures patterns { OnOk result (built.new.patterns ≡ built.old.patterns ++ pattern.now ∷ []) }
{
    let made = pattern_of(alloc, at, pattern)?;
    let found = labelled(at, label, gives)?;
    built.patterns.push(made)?;
    Ok(found)
}

/// The type of a call whose operands have types, or its fault. The pattern of `label_replace` is
/// built.
pub(crate) fn typed_call(
    alloc: Global,
    at: usize,
    func: Func,
    args: &[Expr],
    operands: &[Operand],
    built: &mut Built,
) -> Result<ValueType, TypeError>
    ensures typed { Answers (typed_call at func (trees_of args.now) operands.now) result }
    ensures selectors { OnOk result (built.new.selectors ≡ built.old.selectors) }
    ensures patterns { OnOk result (built.new.patterns ≡ built.old.patterns ++ own_patterns func (trees_of args.now)) }
{
    let gives = Signature::of_func(func).accepted(at, operands)?;
    if replaces(func) {
        return replaced(
            alloc,
            at,
            content_at(args, 4),
            content_at(args, 1),
            gives,
            built,
        );
    }
    if joins(func) {
        return labelled(at, content_at(args, 1), gives);
    }
    Ok(gives)
}

/// The type of an aggregation whose operands have types, or its fault. `label` is the content of
/// its first operand.
pub(crate) fn typed_aggregation(
    at: usize,
    op: AggOp,
    label: &str,
    operands: &[Operand],
) -> Result<ValueType, TypeError>
    ensures { Answers (typed_aggregation at op label.now operands.now) result }
{
    let gives = Signature::of_agg(op).accepted(at, operands)?;
    if counts_values(op) {
        return labelled(at, label, gives);
    }
    Ok(gives)
}
