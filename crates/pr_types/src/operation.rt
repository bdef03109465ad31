//! The types of operations.
ghost use Rattle.std.specs.Prelude.{◌≡◌, true};
ghost use Rattle.std.specs.List.{list_any};
ghost use Rattle.pr_types.specs.Operations.{compares, is_set, is_scalar, is_grouped_card, is_grouped, has_name, copies_key, operation_fault, is_instant, instant, over_times, operation_type};
ghost use Rattle.pr_types.specs.Typed.{typed_operation, step_fault, typed_subquery};

use crate::kind::{TypeFault, TypeKind, ValueType};
use crate::signature::{Operand, is_type, wanting};
use pr_ast::BinOp;
use pr_ast::labels::{Card, Matching};
use pr_ast::time::Span;
use pr_ast::words_crate::Text;

/// Whether an operator is a comparison. (Prometheus: Operators, "Comparison binary operators".)
pub fn compares(op: BinOp) -> bool
    ensures { result ≡ compares op }
{
    matches!(
        op,
        BinOp::Equal
            | BinOp::NotEqual
            | BinOp::LessEqual
            | BinOp::Less
            | BinOp::GreaterEqual
            | BinOp::Greater
    )
}

fn is_set(op: BinOp) -> bool
    ensures { result ≡ is_set op }
{
    matches!(op, BinOp::Or | BinOp::And | BinOp::Unless)
}

fn is_scalar(value_type: ValueType) -> bool
    ensures { result ≡ is_scalar value_type }
{
    matches!(value_type, ValueType::Scalar)
}

fn is_grouped(matching: &Option<Matching>) -> bool
    ensures { result ≡ is_grouped matching.now }
{
    match matching {
        Some(found) => matches!(found.card, Card::ManyToOne | Card::OneToMany),
        None => false,
    }
}

fn has_name(names: &[Text], name: &Text) -> bool
    ensures { result ≡ has_name names.now name.now }
{
    for other in names {
        if name == other {
            return true;
        }
    }
    false
}

fn has_any(names: &[Text], others: &[Text]) -> bool
    ensures { result ≡ list_any (has_name names.now) others.now }
{
    for other in others {
        if has_name(names, other) {
            return true;
        }
    }
    false
}

fn copies_key(matching: &Option<Matching>) -> bool
    ensures { result ≡ copies_key matching.now }
{
    match matching {
        Some(found) => found.on && has_any(found.names.as_slice(), found.include.as_slice()),
        None => false,
    }
}

#[tactic(auto, unfolding(crate::specs::Operations::operation_fault))]
fn operation_fault(
    op: BinOp,
    with_bool: bool,
    matching: &Option<Matching>,
    left: ValueType,
    right: ValueType,
) -> Option<TypeKind>
    ensures { result ≡ operation_fault op with_bool matching.now left right }
{
    let both = is_scalar(left) && is_scalar(right);
    let either = is_scalar(left) || is_scalar(right);
    if compares(op) && !with_bool && both {
        return Some(TypeKind::BoolNeeded);
    }
    if with_bool && !compares(op) {
        return Some(TypeKind::BoolMisplaced);
    }
    if is_set(op) && either {
        return Some(TypeKind::SetOnScalar);
    }
    if is_set(op) && is_grouped(matching) {
        return Some(TypeKind::GroupOnSet);
    }
    if matching.is_some() && either {
        return Some(TypeKind::MatchOnScalar);
    }
    if copies_key(matching) {
        return Some(TypeKind::CopiedInOn);
    }
    None
}

fn is_instant(value_type: ValueType) -> bool
    ensures { result ≡ is_instant value_type }
{
    matches!(value_type, ValueType::Scalar | ValueType::Vector)
}

/// The type of an operand of an operator or a sign, which is a scalar or a vector.
pub(crate) fn instant(operand: Operand) -> Result<ValueType, TypeFault>
    ensures { result ≡ instant operand }
{
    if is_instant(operand.gives) {
        Ok(operand.gives)
    } else {
        Err(wanting(operand.at, ValueType::Vector))
    }
}

fn over_times(operand: Operand) -> Result<ValueType, TypeFault>
    ensures { result ≡ over_times operand }
{
    if is_type(operand.gives, ValueType::Vector) {
        Ok(ValueType::Range)
    } else {
        Err(wanting(operand.at, ValueType::Vector))
    }
}

fn step_fault(step: Option<Span>) -> Option<TypeKind>
    ensures { result ≡ step_fault step }
{
    match step {
        Some(span) if span.get() == 0 => Some(TypeKind::ZeroStep),
        _ => None,
    }
}

/// The type of a subquery over an operand, which is a vector, or its first fault. (Prometheus:
/// Querying basics, "Subquery".)
pub(crate) fn typed_subquery(
    at: usize,
    step: Option<Span>,
    operand: Operand,
) -> Result<ValueType, TypeFault>
    ensures { result ≡ typed_subquery at step operand }
{
    let gives = over_times(operand)?;
    match step_fault(step) {
        Some(kind) => Err(TypeFault { at, kind }),
        None => Ok(gives),
    }
}

fn operation_type(left: ValueType, right: ValueType) -> ValueType
    ensures { result ≡ operation_type left right }
{
    if is_scalar(left) && is_scalar(right) {
        ValueType::Scalar
    } else {
        ValueType::Vector
    }
}

/// The type of an operation, or its first fault. (Prometheus: Operators, "Binary operators".)
pub(crate) fn typed_operation(
    at: usize,
    op: BinOp,
    with_bool: bool,
    matching: &Option<Matching>,
    left: Operand,
    right: Operand,
) -> Result<ValueType, TypeFault>
    ensures { result ≡ typed_operation at op with_bool matching.now left right }
{
    let one = instant(left)?;
    let other = instant(right)?;
    match operation_fault(op, with_bool, matching, one, other) {
        Some(kind) => Err(TypeFault { at, kind }),
        None => Ok(operation_type(one, other)),
    }
}
