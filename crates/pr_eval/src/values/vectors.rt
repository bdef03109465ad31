// What is made of vectors, as the answer of a node.
ghost use Rattle.std.specs.Prelude.{◌≡◌, List, IfOk, IfSome, MatchResult, Ok, Err, Result};
ghost use Rattle.pr_num.specs.declared.value.Num.{Num};
ghost use Rattle.pr_num.specs.Arithmetic.{negated};
ghost use Rattle.pr_labels.specs.declared.item.Item.{Item};
ghost use Rattle.pr_range.specs.spec_vectors.declared.function_fault.FunctionFault.{FunctionFault};
ghost use Rattle.pr_range.specs.spec_vectors.declared.match_fault.MatchFault.{MatchFault};
ghost use Rattle.pr_range.specs.spec_vectors.Functions.{mapped};
ghost use Rattle.pr_range.specs.spec_vectors.Matching.{joined};
ghost use Rattle.pr_range.specs.spec_vectors.Operators.{kept_where};
ghost use Rattle.pr_range.specs.spec_vectors.private.Laws.{IsVector};
ghost use Rattle.spec_meaning.specs.private.Laws.{IsAnswer};
ghost use Rattle.spec_meaning.specs.Answers.{function_at, joined_at, scalar_at};
ghost use Rattle.spec_meaning.specs.Operations.{between_vectors, negated_value, operated, with_scalar};
ghost use Rattle.spec_meaning.specs.Operators.{by_all_labels, is_filter, matching_of, operator_of, result_of};
ghost use Rattle.pr_fn.specs.private.Faults.{function_told};
ghost use Rattle.pr_join.specs.private.Faults.{match_told};
ghost use Rattle.pr_eval.specs.private.Answers.{AnswersTo};
ghost use Rattle.pr_eval.specs.private.Besides.{holds_beside, result_beside};

use crate::values::error::EvalError;
use crate::values::operators::{Beside, is_filter, operator_of, result_of};
use pr_ast::{BinOp, Place};
use pr_fn::{FnFault, map_values};
use pr_join::{JoinFault, and, join, or, unless};
use pr_labels::words_crate::Items;
use pr_labels::{Card, Item, Matching};
use pr_num::Num;
use spec_meaning::{FaultKind, Value};
use std::alloc::Global;

/// A vector as an answer.
pub fn vector(items: Vec<Item<Num>>) -> Value
    ensures { result ≡ Value.Vector items.items }
{
    Value::Vector {
        items: Items::new(items),
    }
}

/// A vector that a function made, or its fault.
///
/// # Errors
/// `Fault` with the fault of the function at this place, or `Memory` where memory ran out.
pub fn made_at(place: Place, made: Result<Vec<Item<Num>>, FnFault>) -> Result<Value, EvalError>
    ensures answer { (meant : Result (List (Item Num)) FunctionFault) → MatchResult made (λ v. meant ≡ Ok v.items) (λ e. IfSome (function_told e) (λ f. meant ≡ Err f)) → AnswersTo (function_at place meant) result }
    ensures vector { IfOk made (λ v. IsVector v.items) → IfOk result IsAnswer }
{
    match made {
        Ok(items) => Ok(vector(items)),
        Err(FnFault::SameLabels { labels }) => Err(EvalError::Fault {
            place,
            kind: FaultKind::SameLabels { labels },
        }),
        Err(FnFault::TooWide) => Err(EvalError::Fault {
            place,
            kind: FaultKind::TooWide,
        }),
        Err(FnFault::Memory) => Err(EvalError::Memory),
    }
}

// A vector that was joined, or the fault.
fn joined_at(place: Place, made: Result<Vec<Item<Num>>, JoinFault>) -> Result<Value, EvalError>
    ensures answer { (meant : Result (List (Item Num)) MatchFault) → MatchResult made (λ v. meant ≡ Ok v.items) (λ e. IfSome (match_told e) (λ f. meant ≡ Err f)) → AnswersTo (joined_at place meant) result }
    ensures vector { IfOk made (λ v. IsVector v.items) → IfOk result IsAnswer }
{
    match made {
        Ok(items) => Ok(vector(items)),
        Err(JoinFault::ManyToMany { key }) => Err(EvalError::Fault {
            place,
            kind: FaultKind::ManyToMany { key },
        }),
        Err(JoinFault::NotUnique { labels }) => Err(EvalError::Fault {
            place,
            kind: FaultKind::NotUnique { labels },
        }),
        Err(JoinFault::TooWide) => Err(EvalError::Fault {
            place,
            kind: FaultKind::TooWide,
        }),
        Err(JoinFault::Memory) => Err(EvalError::Memory),
    }
}

// Each value with the other sign, without the metric's name.
fn negated_vector(alloc: Global, place: Place, items: &[Item<Num>]) -> Result<Value, EvalError>
    ensures answer { AnswersTo (function_at place (mapped (λ v. Ok (negated v)) items.now)) result }
    ensures vector { IfOk result IsAnswer }
{
    let made = map_values(alloc, items, &|v: Num| Ok(v.neg()));
    made_at(place, made)
}

/// The value with the other sign.
pub fn negated_value(alloc: Global, place: Place, value: &Value) -> Result<Value, EvalError>
    ensures answer { AnswersTo (negated_value place value.now) result }
    ensures vector { IfOk result IsAnswer }
{
    match value {
        Value::Scalar { value } => Ok(Value::Scalar { value: value.neg() }),
        Value::Vector { items } => negated_vector(alloc, place, items.as_slice()),
    }
}

// The elements of whose values the comparison holds.
fn kept_where(beside: &Beside, mut items: Vec<Item<Num>>) -> Vec<Item<Num>>
    ensures { result.items ≡ kept_where (holds_beside beside.now) items.items }
{
    items.retain(|e| beside.holds(&e.value));
    items
}

// What the operator gives of each value, without the metric's name.
fn each_beside(
    alloc: Global,
    place: Place,
    beside: &Beside,
    items: &[Item<Num>],
) -> Result<Value, EvalError>
    ensures answer { AnswersTo (function_at place (mapped (result_beside beside.now) items.now)) result }
    ensures vector { IfOk result IsAnswer }
{
    let made = map_values(alloc, items, &|v: Num| beside.result(&v));
    made_at(place, made)
}

// A vector with a scalar.
fn with_scalar(
    alloc: Global,
    place: Place,
    filters: bool,
    beside: &Beside,
    items: Vec<Item<Num>>,
) -> Result<Value, EvalError>
    ensures answer { AnswersTo (with_scalar place filters (holds_beside beside.now) (result_beside beside.now) items.items) result }
    ensures vector { IsVector items.items → IfOk result IsAnswer }
{
    if filters {
        Ok(vector(kept_where(beside, items)))
    } else {
        each_beside(alloc, place, beside, &items)
    }
}

fn scalars(place: Place, op: BinOp, left: &Num, right: &Num) -> Result<Value, EvalError>
    ensures answer { AnswersTo (scalar_at place (result_of op left.now right.now)) result }
    ensures vector { IfOk result IsAnswer }
{
    match result_of(op, left, right) {
        Ok(value) => Ok(Value::Scalar { value }),
        Err(_) => Err(EvalError::Fault {
            place,
            kind: FaultKind::TooWide,
        }),
    }
}

// The values of two vectors under an operator.
fn joined(
    alloc: Global,
    place: Place,
    op: BinOp,
    with_bool: bool,
    how: &Matching,
    left: &[Item<Num>],
    right: &[Item<Num>],
) -> Result<Value, EvalError>
    ensures answer { AnswersTo (joined_at place (joined how.now (is_filter op with_bool) (operator_of op with_bool) left.now right.now)) result }
    ensures vector { IfOk result IsAnswer }
{
    let keep_name = is_filter(op, with_bool);
    let made = join(
        alloc,
        left,
        right,
        how,
        keep_name,
        &|a: Num, b: Num| { operator_of(op, with_bool, &a, &b) },
    );
    joined_at(place, made)
}

// Two vectors.
fn between_vectors(
    alloc: Global,
    place: Place,
    op: BinOp,
    with_bool: bool,
    how: &Matching,
    left: &[Item<Num>],
    right: &[Item<Num>],
) -> Result<Value, EvalError>
    ensures answer { AnswersTo (between_vectors place op with_bool how.now left.now right.now) result }
    ensures vector { IsVector left.now → IfOk result IsAnswer }
{
    match op {
        BinOp::Or => Ok(vector(or(alloc, left, right, how)?)),
        BinOp::And => Ok(vector(and(alloc, left, right, how)?)),
        BinOp::Unless => Ok(vector(unless(alloc, left, right, how)?)),
        _ => joined(alloc, place, op, with_bool, how, left, right),
    }
}

fn by_all_labels(alloc: Global) -> Matching
    ensures { result ≡ by_all_labels }
{
    Matching {
        on: false,
        names: Items::empty(alloc),
        card: Card::OneToOne,
        include: Items::empty(alloc),
    }
}

fn vectors(
    alloc: Global,
    place: Place,
    op: BinOp,
    with_bool: bool,
    matching: &Option<Matching>,
    left: &[Item<Num>],
    right: &[Item<Num>],
) -> Result<Value, EvalError>
    ensures answer { AnswersTo (between_vectors place op with_bool (matching_of matching.now) left.now right.now) result }
    ensures vector { IsVector left.now → IfOk result IsAnswer }
{
    match matching {
        Some(how) => between_vectors(alloc, place, op, with_bool, how, left, right),
        None => {
            let how = by_all_labels(alloc);
            between_vectors(alloc, place, op, with_bool, &how, left, right)
        }
    }
}

/// What an operator gives of its operands' values.
pub fn operated(
    alloc: Global,
    place: Place,
    op: BinOp,
    with_bool: bool,
    matching: &Option<Matching>,
    left: Value,
    right: Value,
) -> Result<Value, EvalError>
    ensures answer { AnswersTo (operated place op with_bool matching.now left right) result }
    ensures vector { IsAnswer left → IsAnswer right → IfOk result IsAnswer }
{
    let filters = is_filter(op, with_bool);
    match left {
        Value::Scalar { value: x } => match right {
            Value::Scalar { value: y } => scalars(place, op, &x, &y),
            Value::Vector { items } => {
                let beside = Beside {
                    op,
                    scalar: x,
                    scalar_is_left: true,
                };
                with_scalar(alloc, place, filters, &beside, items.into_vec())
            }
        },
        Value::Vector { items } => match right {
            Value::Scalar { value: y } => {
                let beside = Beside {
                    op,
                    scalar: y,
                    scalar_is_left: false,
                };
                with_scalar(alloc, place, filters, &beside, items.into_vec())
            }
            Value::Vector { items: others } => vectors(
                alloc,
                place,
                op,
                with_bool,
                matching,
                items.as_slice(),
                others.as_slice(),
            ),
        },
    }
}
