// Aggregations, by the values of their arguments.
ghost use Rattle.std.specs.Prelude.{◌≡◌, ◌≢◌, ◌++◌, ◌∷◌, ◌<◌, ◌^◌, [], List, true, IfOk, OnOk, None, length};
ghost use Rattle.pr_labels.specs.Names.{is_label_name};
ghost use Rattle.pr_range.specs.spec_history.declared.entry.Entry.{Entry};
ghost use Rattle.pr_ast.specs.Tree.{Tree, aggregate, more, none, tree_of};
ghost use Rattle.spec_meaning.specs.pr_types.private.Built.{patterns_in, tests_in};
ghost use Rattle.spec_meaning.specs.pr_types.Typed.{content, content_at};
ghost use Rattle.pr_range.specs.spec_vectors.declared.range.RangeFn.{RangeFn};
ghost use Rattle.spec_meaning.specs.private.Laws.{IsAnswer};
ghost use Rattle.spec_meaning.specs.Aggregations.{summed_up};
ghost use Rattle.spec_meaning.specs.Meaning.{given, meaning};
ghost use Rattle.pr_eval.specs.private.Answers.{AnswersTo};
ghost use Rattle.pr_eval.specs.private.Evaluated.{IsEvaluated, MayTake, kept_by};
ghost use Rattle.pr_eval.specs.private.Parts.{IsPartAt, IsValued, counts_after};

use crate::evaluate::eval_at;
use crate::parts::{lemma_is_aggregate, lemma_is_aggregate_by, lemma_stands_at};
use crate::scope::Scope;
use crate::values::{EvalError, aggregated};
use pr_ast::{AggOp, Expr, Place};
use pr_labels::Grouping;
use pr_labels::words_crate::Steps;
use pr_range::Ranges;
use spec_meaning::Value;
use spec_meaning::types::{SelectorCounts, content};
use std::alloc::{AllocError, Global};
use std::sync::ledger::Ledger;

/// Puts a value behind others.
pub(crate) fn push_value(values: &mut Vec<Value>, value: Value) -> Result<(), AllocError>
    ensures { OnOk result (values.new.items ≡ values.old.items ++ value ∷ []) }
{
    values.push(value)?;
    Ok(())
}

// An aggregation of a vector alone.
fn aggregated_one(
    alloc: Global,
    place: Place,
    op: AggOp,
    by: &Grouping,
    vector: Value,
) -> Result<Value, EvalError>
    requires op { op ≢ AggOp.CountValues }
    requires vector { IsAnswer vector }
    ensures answer { (ts : Tree) → AnswersTo (summed_up place op by.now ts (given None vector ∷ [])) result }
    ensures vector { IfOk result IsAnswer }
{
    let mut values = Vec::new(alloc);
    push_value(&mut values, vector)?;
    aggregated(alloc, place, op, by, "", &values)
}

// An aggregation with a parameter, whose value is given beside it.
fn aggregated_two(
    alloc: Global,
    place: Place,
    op: AggOp,
    by: &Grouping,
    param: &Expr,
    number: Value,
    vector: Value,
) -> Result<Value, EvalError>
    requires label { op ≡ AggOp.CountValues → is_label_name (content (tree_of param.now)) ≡ true }
    requires number { IsAnswer number }
    requires vector { IsAnswer vector }
    ensures answer { (ts : Tree) → (op ≡ AggOp.CountValues → content_at ts 0 ≡ content (tree_of param.now)) → AnswersTo (summed_up place op by.now ts (given None number ∷ given None vector ∷ [])) result }
    ensures vector { IfOk result IsAnswer }
{
    let mut values = Vec::new(alloc);
    push_value(&mut values, number)?;
    push_value(&mut values, vector)?;
    aggregated(alloc, place, op, by, content(param), &values)
}

// An aggregation without a parameter.
#[cycle(evaluation)]
pub(crate) fn aggregation<R: Ranges, G: Ledger>(
    scope: &Scope<'_>,
    e: &Expr,
    op: AggOp,
    by: &Grouping,
    inner: &Expr,
    number: &mut SelectorCounts,
    ranges: &mut R,
    reads: &mut Steps<G>,
) -> Result<Value, EvalError>
    requires tree { tree_of e.now ≡ aggregate e.now.place op by.now (more none (tree_of inner.now)) }
    requires part { IsPartAt (tree_of scope.now.checked.now) number.old (tree_of e.now) }
    requires valued { IsValued (tree_of e.now) }
    requires few { length (tests_in (tree_of scope.now.checked.now)) < 2 ^ 64 }
    requires few_patterns { length (patterns_in (tree_of scope.now.checked.now)) < 2 ^ 64 }
    requires step { 0 < scope.now.step }
    ensures count { OnOk result (number.new ≡ counts_after number.old (tree_of e.now)) }
    ensures vector { IfOk result IsAnswer }
    ensures answer { (history : List Entry) (func : RangeFn) → MayTake scope.now.head.now scope.now.inside history func (tree_of e.now) scope.now.time number.old.ranges (R.fits ranges.old history) (R.last ranges.old)
        → AnswersTo (meaning scope.now.step history (tree_of e.now) scope.now.time) result }
    ensures taken { (history : List Entry) (func : RangeFn) → MayTake scope.now.head.now scope.now.inside history func (tree_of e.now) scope.now.time number.old.ranges (R.fits ranges.old history) (R.last ranges.old)
        → IsEvaluated R.keeps scope.now.inside scope.now.step history func (tree_of e.now) scope.now.time number.old.ranges (kept_by (R.last ranges.old) (R.passed ranges.old)) (kept_by (R.last ranges.new) (R.passed ranges.new))
        (R.fits ranges.new history) reads.old reads.new result }
{
    lemma_is_aggregate(e, op, by, inner);
    lemma_stands_at(scope.checked, inner, *number);
    match eval_at(scope, inner, number, ranges, reads) {
        Ok(vector) => aggregated_one(scope.alloc, e.place, op, by, vector),
        Err(error) => Err(error),
    }
}

// One with a parameter, which stands first.
#[cycle(evaluation)]
pub(crate) fn aggregation_by<R: Ranges, G: Ledger>(
    scope: &Scope<'_>,
    e: &Expr,
    op: AggOp,
    by: &Grouping,
    param: &Expr,
    inner: &Expr,
    number: &mut SelectorCounts,
    ranges: &mut R,
    reads: &mut Steps<G>,
) -> Result<Value, EvalError>
    requires tree { tree_of e.now ≡ aggregate e.now.place op by.now (more (more none (tree_of param.now)) (tree_of inner.now)) }
    requires part { IsPartAt (tree_of scope.now.checked.now) number.old (tree_of e.now) }
    requires valued { IsValued (tree_of e.now) }
    requires few { length (tests_in (tree_of scope.now.checked.now)) < 2 ^ 64 }
    requires few_patterns { length (patterns_in (tree_of scope.now.checked.now)) < 2 ^ 64 }
    requires step { 0 < scope.now.step }
    ensures count { OnOk result (number.new ≡ counts_after number.old (tree_of e.now)) }
    ensures vector { IfOk result IsAnswer }
    ensures answer { (history : List Entry) (func : RangeFn) → MayTake scope.now.head.now scope.now.inside history func (tree_of e.now) scope.now.time number.old.ranges (R.fits ranges.old history) (R.last ranges.old)
        → AnswersTo (meaning scope.now.step history (tree_of e.now) scope.now.time) result }
    ensures taken { (history : List Entry) (func : RangeFn) → MayTake scope.now.head.now scope.now.inside history func (tree_of e.now) scope.now.time number.old.ranges (R.fits ranges.old history) (R.last ranges.old)
        → IsEvaluated R.keeps scope.now.inside scope.now.step history func (tree_of e.now) scope.now.time number.old.ranges (kept_by (R.last ranges.old) (R.passed ranges.old)) (kept_by (R.last ranges.new) (R.passed ranges.new))
        (R.fits ranges.new history) reads.old reads.new result }
{
    lemma_is_aggregate_by(e, op, by, param, inner);
    lemma_stands_at(scope.checked, param, *number);
    match eval_at(scope, param, number, ranges, reads) {
        Ok(a) => {
            lemma_stands_at(scope.checked, inner, *number);
            match eval_at(scope, inner, number, ranges, reads) {
                Ok(b) => aggregated_two(scope.alloc, e.place, op, by, param, a, b),
                Err(error) => Err(error),
            }
        }
        Err(error) => Err(error),
    }
}
