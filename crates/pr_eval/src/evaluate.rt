// Expressions.
ghost use Rattle.std.specs.Prelude.{◌≡◌, ◌≢◌, ◌+◌, ◌<◌, ◌≤◌, ◌^◌, false, List, IfOk, OnOk, Err, is_ok, length};
ghost use Rattle.pr_range.specs.spec_history.declared.entry.Entry.{Entry};
ghost use Rattle.pr_ast.specs.Tree.{tree_of};
ghost use Rattle.spec_meaning.specs.pr_types.private.Built.{tests_in, patterns_in};
ghost use Rattle.pr_range.specs.spec_vectors.declared.range.RangeFn.{RangeFn};
ghost use Rattle.spec_meaning.specs.private.Laws.{IsAnswer};
ghost use Rattle.spec_meaning.specs.private.Cost.{cost};
ghost use Rattle.spec_meaning.specs.Meaning.{meaning};
ghost use Rattle.pr_eval.specs.declared.values.error.EvalError.TheVariants.{Memory};
ghost use Rattle.pr_eval.specs.private.Answers.{AnswersTo};
ghost use Rattle.pr_eval.specs.private.Evaluated.{AreAllAsked, IsEvaluated, MayBegin, MayTake, asks_of, kept_by, passed_outside};
ghost use Rattle.pr_eval.specs.private.Parts.{IsPartAt, IsValued, counts_after};

use crate::aggregate::{aggregation, aggregation_by};
use crate::call::call;
use crate::operators::{negation, operation};
use crate::parts::{lemma_is_number, lemma_is_range, lemma_is_sub, lemma_is_text, lemma_stands_at};
use crate::scope::Scope;
use crate::selected::selected;
use crate::values::EvalError;
use pr_ast::time::{Ms, Span};
use pr_ast::{Expr, ExprKind};
use pr_labels::words_crate::{Items, Steps};
use pr_range::Ranges;
use pr_range::head::Head;
use spec_meaning::Value;
use spec_meaning::types::{Checked, SelectorCounts};
use std::alloc::Global;
use std::sync::ledger::Ledger;

// The value of a part of an expression. Its first selector, range selector and pattern have these
// numbers in the whole, which are counted up by as many as the part has.
#[cycle(evaluation)]
pub(crate) fn eval_at<R: Ranges, G: Ledger>(
    scope: &Scope<'_>,
    e: &Expr,
    number: &mut SelectorCounts,
    ranges: &mut R,
    reads: &mut Steps<G>,
) -> Result<Value, EvalError>
    requires part { IsPartAt (tree_of scope.now.checked.now) number.old (tree_of e.now) }
    requires valued { IsValued (tree_of e.now) }
    requires few { length (tests_in (tree_of scope.now.checked.now)) < 2 ^ 64 }
    requires few_patterns { length (patterns_in (tree_of scope.now.checked.now)) < 2 ^ 64 }
    requires step { 0 < scope.now.step }
    ensures count { OnOk result (number.new ≡ counts_after number.old (tree_of e.now)) }
    ensures vector { IfOk result IsAnswer }
    ensures answer { (history : List Entry) (func : RangeFn) → MayTake scope.now.head.now scope.now.inside history func (tree_of e.now) scope.now.time number.old.ranges (R.fits ranges.old history) (R.last ranges.old)
        → AnswersTo (meaning scope.now.step history (tree_of e.now) scope.now.time) result }
    ensures taken { (history : List Entry) (func : RangeFn) → MayTake scope.now.head.now scope.now.inside history func (tree_of e.now) scope.now.time number.old.ranges (R.fits ranges.old history) (R.last ranges.old)
        → IsEvaluated R.keeps scope.now.inside scope.now.step history func (tree_of e.now) scope.now.time number.old.ranges (kept_by (R.last ranges.old) (R.passed ranges.old)) (kept_by (R.last ranges.new) (R.passed ranges.new))
        (R.fits ranges.new history) reads.old reads.new result }
{
    match &e.kind {
        ExprKind::Number { value } => {
            lemma_is_number(e, *value);
            Ok(Value::Scalar { value: *value })
        }
        ExprKind::Text { text } => {
            lemma_is_text(e, text);
            Ok(Value::Vector {
                items: Items::empty(scope.alloc),
            })
        }
        ExprKind::Select { selector } => selected(scope, e, selector, number, reads),
        ExprKind::Neg { inner } => negation(scope, e, inner, number, ranges, reads),
        ExprKind::Binary {
            op,
            with_bool,
            matching,
            left,
            right,
        } => operation(
            scope, e, *op, *with_bool, matching, left, right, number, ranges, reads,
        ),
        ExprKind::Call { func, args } => call(scope, e, *func, args, number, ranges, reads),
        ExprKind::Aggregate {
            op,
            grouping,
            param: None,
            inner,
        } => aggregation(scope, e, *op, grouping, inner, number, ranges, reads),
        ExprKind::Aggregate {
            op,
            grouping,
            param: Some(param),
            inner,
        } => aggregation_by(scope, e, *op, grouping, param, inner, number, ranges, reads),
        ExprKind::Range { selector, span } => {
            lemma_is_range(e, selector, *span);
            unreachable!()
        }
        ExprKind::Sub {
            inner,
            span,
            step,
            offset,
        } => {
            lemma_is_sub(e, inner, *span, *step, *offset);
            unreachable!()
        }
    }
}

/// What a checked expression gives at a time, over a head: a scalar, a vector in label order, or
/// the first fault in the order of the text with the place of its node. It is what the expression
/// means over each history that the head stands for, as long as nothing was forgotten that it looks
/// at, and `ranges` may be asked. A sample is read for each series that a selector chooses, and for
/// a range selector those of its range that were not passed for it. The step is that of subqueries
/// which give none; it is not 0. (Prometheus: Querying basics, and Operators; the order of faults
/// is own choice.)
///
/// # Errors
/// `Fault` with the first fault, or `Memory` where memory runs out. What `ranges` keep is true
/// afterwards but for want of memory.
pub fn eval<R: Ranges, G: Ledger>(
    alloc: Global,
    e: &Checked,
    head: &Head,
    time: Ms,
    step: Span,
    ranges: &mut R,
    reads: &mut Steps<G>,
) -> Result<Value, EvalError>
    requires { 0 < step }
    ensures answer { (history : List Entry) → MayBegin head.now history (tree_of e.now) time (R.fits ranges.old history) (R.last ranges.old)
        → AnswersTo (meaning step history (tree_of e.now) time) result }
    ensures vector { IfOk result IsAnswer }
    ensures reads { (history : List Entry) → MayBegin head.now history (tree_of e.now) time (R.fits ranges.old history) (R.last ranges.old)
        → reads.new ≤ reads.old + cost step history (passed_outside false history (R.passed ranges.old)) (tree_of e.now) 0 time }
    ensures fits { (history : List Entry) → MayBegin head.now history (tree_of e.now) time (R.fits ranges.old history) (R.last ranges.old)
        → result ≢ Err Memory → R.fits ranges.new history }
    ensures asked { (history : List Entry) → MayBegin head.now history (tree_of e.now) time (R.fits ranges.old history) (R.last ranges.old)
        → result ≢ Err Memory → AreAllAsked R.keeps history (is_ok result) (asks_of history (tree_of e.now) time) 0 (kept_by (R.last ranges.old) (R.passed ranges.old)) (kept_by (R.last ranges.new) (R.passed ranges.new)) }
{
    let counts = e.counts();
    let _selectors = counts.selectors;
    let _patterns = counts.patterns;
    let scope = Scope {
        alloc,
        checked: e,
        head,
        time,
        step,
        inside: false,
    };
    let mut number = SelectorCounts {
        selectors: 0,
        ranges: 0,
        patterns: 0,
    };
    let whole = e.expr();
    lemma_stands_at(e, whole, number);
    eval_at(&scope, whole, &mut number, ranges, reads)
}
