// Signs and operations.
ghost use Rattle.std.specs.Prelude.{◌≡◌, ◌<◌, ◌^◌, List, IfOk, OnOk, length};
ghost use Rattle.pr_range.specs.spec_history.declared.entry.Entry.{Entry};
ghost use Rattle.pr_ast.specs.Tree.{binary, neg, tree_of};
ghost use Rattle.spec_meaning.specs.pr_types.private.Built.{patterns_in, tests_in};
ghost use Rattle.pr_range.specs.spec_vectors.declared.range.RangeFn.{RangeFn};
ghost use Rattle.spec_meaning.specs.private.Laws.{IsAnswer};
ghost use Rattle.spec_meaning.specs.Meaning.{meaning};
ghost use Rattle.pr_eval.specs.private.Answers.{AnswersTo};
ghost use Rattle.pr_eval.specs.private.Evaluated.{IsEvaluated, MayTake, kept_by};
ghost use Rattle.pr_eval.specs.private.Parts.{IsPartAt, IsValued, counts_after};

use crate::evaluate::eval_at;
use crate::parts::{lemma_is_binary, lemma_is_neg, lemma_stands_at};
use crate::scope::Scope;
use crate::values::{EvalError, negated_value, operated};
use pr_ast::{BinOp, Expr};
use pr_labels::Matching;
use pr_labels::words_crate::Steps;
use pr_range::Ranges;
use spec_meaning::Value;
use spec_meaning::types::SelectorCounts;
use std::sync::ledger::Ledger;

// The negation of what its operand gives.
#[cycle(evaluation)]
pub(crate) fn negation<R: Ranges, G: Ledger>(
    scope: &Scope<'_>,
    e: &Expr,
    inner: &Expr,
    number: &mut SelectorCounts,
    ranges: &mut R,
    reads: &mut Steps<G>,
) -> Result<Value, EvalError>
    requires tree { tree_of e.now ≡ neg e.now.place (tree_of inner.now) }
    requires part { IsPartAt (tree_of scope.now.checked.now) number.old (tree_of e.now) }
    requires valued { IsValued (tree_of e.now) }
    requires few { length (tests_in (tree_of scope.now.checked.now)) < 2 ^ 64 }
    requires few_patterns { length (patterns_in (tree_of scope.now.checked.now)) < 2 ^ 64 }
    requires step { 0 < scope.now.step }
    ensures count { OnOk result (number.new ≡ counts_after number.old (tree_of e.now)) }
    ensures vector { IfOk result IsAnswer }
    ensures answer { (history : List Entry) (func : RangeFn) → MayTake scope.now.head.now scope.now.inside history func (tree_of e.now) scope.now.time number.old.ranges (R.fits ranges.old history) (R.last ranges.old)
        → AnswersTo (meaning scope.now.step history (tree_of e.now) scope.now.time) result }
    ensures taken { (history : List Entry) (func : RangeFn) → MayTake scope.now.head.now scope.now.inside history func (tree_of e.now) scope.now.time number.old.ranges (R.fits ranges.old history) (R.last ranges.old)
        → IsEvaluated R.keeps scope.now.inside scope.now.step history func (tree_of e.now) scope.now.time number.old.ranges (kept_by (R.last ranges.old) (R.passed ranges.old)) (kept_by (R.last ranges.new) (R.passed ranges.new))
        (R.fits ranges.new history) reads.old reads.new result }
{
    lemma_is_neg(e, inner);
    lemma_stands_at(scope.checked, inner, *number);
    match eval_at(scope, inner, number, ranges, reads) {
        Ok(value) => negated_value(scope.alloc, e.place, &value),
        Err(error) => Err(error),
    }
}

// An operator between what its operands give, the left one first.
#[cycle(evaluation)]
pub(crate) fn operation<R: Ranges, G: Ledger>(
    scope: &Scope<'_>,
    e: &Expr,
    op: BinOp,
    with_bool: bool,
    matching: &Option<Matching>,
    left: &Expr,
    right: &Expr,
    number: &mut SelectorCounts,
    ranges: &mut R,
    reads: &mut Steps<G>,
) -> Result<Value, EvalError>
    requires tree { tree_of e.now ≡ binary e.now.place op with_bool matching.now (tree_of left.now) (tree_of right.now) }
    requires part { IsPartAt (tree_of scope.now.checked.now) number.old (tree_of e.now) }
    requires valued { IsValued (tree_of e.now) }
    requires few { length (tests_in (tree_of scope.now.checked.now)) < 2 ^ 64 }
    requires few_patterns { length (patterns_in (tree_of scope.now.checked.now)) < 2 ^ 64 }
    requires step { 0 < scope.now.step }
    ensures count { OnOk result (number.new ≡ counts_after number.old (tree_of e.now)) }
    ensures vector { IfOk result IsAnswer }
    ensures answer { (history : List Entry) (func : RangeFn) → MayTake scope.now.head.now scope.now.inside history func (tree_of e.now) scope.now.time number.old.ranges (R.fits ranges.old history) (R.last ranges.old)
        → AnswersTo (meaning scope.now.step history (tree_of e.now) scope.now.time) result }
    ensures taken { (history : List Entry) (func : RangeFn) → MayTake scope.now.head.now scope.now.inside history func (tree_of e.now) scope.now.time number.old.ranges (R.fits ranges.old history) (R.last ranges.old)
        → IsEvaluated R.keeps scope.now.inside scope.now.step history func (tree_of e.now) scope.now.time number.old.ranges (kept_by (R.last ranges.old) (R.passed ranges.old)) (kept_by (R.last ranges.new) (R.passed ranges.new))
        (R.fits ranges.new history) reads.old reads.new result }
{
    lemma_is_binary(e, op, with_bool, matching, left, right);
    lemma_stands_at(scope.checked, left, *number);
    match eval_at(scope, left, number, ranges, reads) {
        Ok(a) => {
            lemma_stands_at(scope.checked, right, *number);
            match eval_at(scope, right, number, ranges, reads) {
                Ok(b) => operated(scope.alloc, e.place, op, with_bool, matching, a, b),
                Err(error) => Err(error),
            }
        }
        Err(error) => Err(error),
    }
}
