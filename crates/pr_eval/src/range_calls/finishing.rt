// What is made of the answers of series, as the answer of a node.
ghost use Rattle.std.specs.Prelude.{◌≡◌, ◌∷◌, [], pos, List, map, length, IfOk, Err, Result};
ghost use Rattle.pr_num.specs.declared.value.Num.{Num};
ghost use Rattle.pr_num.specs.Arithmetic.{whole_of};
ghost use Rattle.pr_labels.specs.declared.item.Item.{Item};
ghost use Rattle.pr_range.specs.spec_vectors.declared.range.AskFault.{AskFault};
ghost use Rattle.pr_range.specs.spec_vectors.Functions.{told_apart};
ghost use Rattle.pr_range.specs.spec_vectors.private.Laws.{IsVector};
ghost use Rattle.pr_range.specs.spec_vectors.Vectors.{element};
ghost use Rattle.pr_fn.specs.private.Rows.{without_metric};
ghost use Rattle.spec_meaning.specs.declared.fault.Fault.{Fault};
ghost use Rattle.spec_meaning.specs.declared.value.Value.{Value};
ghost use Rattle.spec_meaning.specs.Absence.{absent_of};
ghost use Rattle.spec_meaning.specs.private.Laws.{IsAnswer};
ghost use Rattle.spec_meaning.specs.Answers.{function_at, go_on};
ghost use Rattle.spec_meaning.specs.Calls.{vector_at};
ghost use Rattle.pr_eval.specs.private.Answers.{AnswersTo};
ghost use Rattle.pr_eval.specs.private.Answering.{FaultIs, relabelled, fault_placed};

use crate::values::{EvalError, made_at, vector};
use pr_ast::Place;
use pr_fn::without_metrics;
use pr_labels::{Item, Labels};
use pr_num::Num;
use pr_range::RangeFault;
use pr_range::vectors_crate::RangeFn;
use spec_meaning::{FaultKind, Value};
use std::alloc::{AllocError, Global};

fn fault_at(place: Place, kind: FaultKind) -> EvalError
    ensures { result ≡ EvalError.Fault place kind }
{
    EvalError::Fault { place, kind }
}

/// A fault of a range, at the place of the call or of the range.
pub(crate) fn error_of(place: Place, range_place: Place, fault: RangeFault) -> EvalError
    ensures told { (meant : Result (List (Item Num)) AskFault) (next : List (Item Num) → Result Value Fault) → FaultIs meant fault
        → AnswersTo (go_on next (fault_placed place range_place meant)) (Err result) }
    ensures memory { fault ≡ RangeFault.Memory → result ≡ EvalError.Memory }
{
    match fault {
        RangeFault::TooWide => fault_at(place, FaultKind::TooWide),
        RangeFault::RangeTooLong { have } => fault_at(
            range_place,
            FaultKind::RangeTooLong { have },
        ),
        RangeFault::Memory => EvalError::Memory,
    }
}

// The elements without the metric's name, or the labels that two of them come to have.
fn unnamed(alloc: Global, place: Place, items: &[Item<Num>]) -> Result<Value, EvalError>
    ensures answer { AnswersTo (function_at place (told_apart (map without_metric items.now))) result }
    ensures vector { IfOk result IsAnswer }
{
    made_at(place, without_metrics(alloc, items))
}

/// The answers of all series, told apart by the labels that the function leaves them.
pub(crate) fn finished(
    alloc: Global,
    place: Place,
    func: RangeFn,
    items: Vec<Item<Num>>,
) -> Result<Value, EvalError>
    requires { IsVector items.items }
    ensures answer { AnswersTo (function_at place (told_apart (relabelled func items.items))) result }
    ensures vector { IfOk result IsAnswer }
{
    match func {
        RangeFn::LastOverTime => Ok(vector(items)),
        _ => unnamed(alloc, place, &items),
    }
}

// One element of value 1.
fn one_element(alloc: Global, labels: &Labels) -> Result<Vec<Item<Num>>, AllocError>
    ensures { IfOk result (λ v. v.items ≡ element labels.now (whole_of (pos 1)) ∷ []) }
{
    let labels = labels.copy(alloc)?;
    let mut elements = Vec::new(alloc);
    elements.push(Item {
        labels,
        value: Num::whole(1),
    })?;
    Ok(elements)
}

/// One element of value 1 with these labels where nothing answered, and else nothing.
pub(crate) fn absence(alloc: Global, labels: &Labels, count: usize) -> Result<Value, EvalError>
    ensures answer { (items : List (Item Num)) → length items ≡ count → AnswersTo (vector_at (absent_of labels.now items)) result }
    ensures vector { IfOk result IsAnswer }
{
    if count > 0 {
        return Ok(vector(Vec::new(alloc)));
    }
    Ok(vector(one_element(alloc, labels)?))
}
