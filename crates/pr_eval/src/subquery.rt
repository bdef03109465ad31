// Subqueries: an expression at many times, as series.
ghost use Rattle.std.specs.Prelude.{◌≡◌, ◌<◌, ◌<ℤ◌, ◌^◌, ◌++◌, ◌∷◌, [], ℕ, List, Option, Some, pos, true, false, cond, unwrap_or, length, nat_lt, sum_by, IfOk, OnOk, Err, Result};
ghost use Rattle.std.specs.BTreeMap.{IsOrdered};
ghost use Rattle.pr_labels.specs.Order.{labels_cmp};
ghost use Rattle.pr_range.specs.spec_history.declared.entry.Entry.{Entry};
ghost use Rattle.pr_ast.specs.private.Steps.{is_step};
ghost use Rattle.pr_ast.specs.Tree.{Tree, sub, tree_of};
ghost use Rattle.spec_meaning.specs.pr_types.declared.counting.SelectorCounts.{SelectorCounts};
ghost use Rattle.spec_meaning.specs.pr_types.private.Built.{tests_in, patterns_in};
ghost use Rattle.pr_range.specs.spec_vectors.declared.range.RangeFn.{RangeFn};
ghost use Rattle.pr_range.specs.spec_vectors.Ranges.{longest};
ghost use Rattle.pr_range.specs.spec_vectors.private.Laws.{IsVector};
ghost use Rattle.spec_meaning.specs.private.Laws.{IsAnswer};
ghost use Rattle.spec_meaning.specs.private.Cost.{cost, nothing_passed};
ghost use Rattle.spec_meaning.specs.Given.{elements_in};
ghost use Rattle.spec_meaning.specs.Meaning.{meaning, ranges as series_meant};
ghost use Rattle.spec_meaning.specs.Subqueries.{Taken, at_each, multiples};
ghost use Rattle.pr_eval.specs.private.Taken.{AreTaken, taken};
ghost use Rattle.pr_eval.specs.private.Times.{AreTimesWithin};
ghost use Rattle.pr_eval.specs.private.Answers.{AnswersTo};
ghost use Rattle.pr_eval.specs.private.Evaluated.{IsEvaluated, MayTake, kept_by};
ghost use Rattle.pr_eval.specs.private.Looks.{KeepsFor};
ghost use Rattle.pr_eval.specs.private.Parts.{IsPartAt, IsValued, counts_after};
ghost use Rattle.pr_eval.specs.private.Ranged.{AreSeries};
ghost use Rattle.pr_eval.specs.private.Subqueries.{AreSeriesGathered, MayTakeEach, TakesInside, range_of};

use crate::evaluate::eval_at;
use crate::parts::lemma_stands_at;
use crate::range_calls::{SubqueryRange, SubqueryTimes, no_series, subquery_times, take_elements};
use crate::scope::Scope;
use crate::values::EvalError;
use pr_ast::time::{Ms, Span};
use pr_ast::{Expr, Place};
use pr_labels::words_crate::{Items, Steps};
use pr_labels::{Item, Labels};
use pr_num::Num;
use pr_range::Ranges;
use pr_range::history::Spot;
use spec_meaning::types::{Checked, SelectorCounts, counts_in};
use spec_meaning::{FaultKind, Value};
use std::alloc::{AllocError, Global};
use std::collections::BTreeMap;
use std::sync::ledger::Ledger;

/// The most times of a subquery.
const LONGEST: u64 = 1 << 20;

/// What a subquery gives: its range, and the series that were gathered at its times.
#[derive(Drop)]
pub(crate) struct SubquerySeries {
    pub(crate) range: SubqueryRange,
    pub(crate) series: BTreeMap<Labels, Items<Spot>>,
}

// The elements of a vector; a scalar has none.
fn elements_in(alloc: Global, value: Value) -> Vec<Item<Num>>
    requires { IsAnswer value }
    ensures elements { result.items ≡ elements_in value }
    ensures vector { IsVector result.items }
{
    match value {
        Value::Scalar { .. } => Vec::new(alloc),
        Value::Vector { items } => items.into_vec(),
    }
}

// Puts what the expression of a subquery gives at one more time into the series.
fn take_value(
    alloc: Global,
    series: &mut BTreeMap<Labels, Items<Spot>>,
    time: Ms,
    value: Value,
) -> Result<(), AllocError>
    requires vector { IsAnswer value }
    requires ordered { IsOrdered labels_cmp series.old }
    ensures taken { (ts : List Taken) → AreTaken ts series.old → OnOk result (AreTaken (ts ++ taken time (elements_in value) ∷ []) series.new) }
    ensures ordered { OnOk result (IsOrdered labels_cmp series.new) }
{
    let items = elements_in(alloc, value);
    take_elements(alloc, series, time, items)
}

// The step of a subquery: its own, or the one of those that give none.
fn step_or(step: Option<Span>, default: Span) -> Span
    requires own { is_step step ≡ true }
    requires default { 0 < default }
    ensures value { result ≡ unwrap_or step default }
    ensures some { 0 < result }
{
    match step {
        Some(own) => own,
        None => default,
    }
}

// The range of a subquery at a time.
fn range_of(place: Place, span: Span, offset: Span, time: Ms) -> SubqueryRange
    ensures range { result ≡ range_of place span offset time }
    ensures to { result.to <ℤ pos (2 ^ 42) }
{
    let to = time.minus(offset);
    SubqueryRange {
        place,
        from: to - span.get() as i64,
        to,
    }
}

// The times of a subquery in its range.
fn times_in(range: &SubqueryRange, step: Span) -> SubqueryTimes
    requires step { 0 < step }
    requires to { range.now.to <ℤ pos (2 ^ 42) }
    ensures times { result ≡ multiples step range.now.from range.now.to }
    ensures within { AreTimesWithin range.now.from range.now.to result }
{
    let SubqueryRange { from, to, .. } = *range;
    subquery_times(step, from, to)
}

// The numbers behind a part that was evaluated at numbers of its own.
fn numbers_behind(checked: &Checked, e: &Expr, at: SelectorCounts) -> SelectorCounts
    requires part { IsPartAt (tree_of checked.now) at (tree_of e.now) }
    requires few { length (tests_in (tree_of checked.now)) < 2 ^ 64 }
    requires few_patterns { length (patterns_in (tree_of checked.now)) < 2 ^ 64 }
    ensures { result ≡ counts_after at (tree_of e.now) }
{
    let own = counts_in(e);
    SelectorCounts {
        selectors: at.selectors + own.selectors,
        ranges: at.ranges + own.ranges,
        patterns: at.patterns + own.patterns,
    }
}

// Too many times, told at the place of the subquery.
fn too_many(place: Place, have: u64) -> EvalError
    ensures { result ≡ EvalError.Fault place (FaultKind.RangeTooLong have) }
{
    EvalError::Fault {
        place,
        kind: FaultKind::RangeTooLong { have },
    }
}

// The value of the expression of a subquery at one of its times.
#[cycle(evaluation)]
fn value_at<R: Ranges, G: Ledger>(
    scope: &Scope<'_>,
    inner: &Expr,
    at: SelectorCounts,
    time: Ms,
    ranges: &mut R,
    reads: &mut Steps<G>,
) -> Result<Value, EvalError>
    requires part { IsPartAt (tree_of scope.now.checked.now) at (tree_of inner.now) }
    requires valued { IsValued (tree_of inner.now) }
    requires few { length (tests_in (tree_of scope.now.checked.now)) < 2 ^ 64 }
    requires few_patterns { length (patterns_in (tree_of scope.now.checked.now)) < 2 ^ 64 }
    requires step { 0 < scope.now.step }
    ensures vector { IfOk result IsAnswer }
    ensures answer { (history : List Entry) → KeepsFor scope.now.head.now history (tree_of inner.now) time → R.fits ranges.old history
        → AnswersTo (meaning scope.now.step history (tree_of inner.now) time) result }
    ensures taken { (history : List Entry) → KeepsFor scope.now.head.now history (tree_of inner.now) time → R.fits ranges.old history
        → TakesInside (cost scope.now.step history nothing_passed (tree_of inner.now) at.ranges time) (kept_by (R.last ranges.old) (R.passed ranges.old)) (kept_by (R.last ranges.new) (R.passed ranges.new))
        (R.fits ranges.new history) reads.old reads.new result }
{
    let then = Scope {
        time,
        inside: true,
        ..*scope
    };
    let mut number = at;
    eval_at(&then, inner, &mut number, ranges, reads)
}

// The series of the expression of a subquery at each of its times, one after another. The first
// fault ends.
#[cycle(evaluation)]
fn gathered<R: Ranges, G: Ledger>(
    scope: &Scope<'_>,
    inner: &Expr,
    at: SelectorCounts,
    times: &SubqueryTimes,
    ranges: &mut R,
    reads: &mut Steps<G>,
) -> Result<BTreeMap<Labels, Items<Spot>>, EvalError>
    requires part { IsPartAt (tree_of scope.now.checked.now) at (tree_of inner.now) }
    requires valued { IsValued (tree_of inner.now) }
    requires few { length (tests_in (tree_of scope.now.checked.now)) < 2 ^ 64 }
    requires few_patterns { length (patterns_in (tree_of scope.now.checked.now)) < 2 ^ 64 }
    requires step { 0 < scope.now.step }
    ensures ordered { IfOk result (IsOrdered labels_cmp) }
    ensures answer { (history : List Entry) → MayTakeEach scope.now.head.now history (tree_of inner.now) times.now (R.fits ranges.old history)
        → AreSeriesGathered (at_each (meaning scope.now.step history (tree_of inner.now)) times.now) result }
    ensures taken { (history : List Entry) → MayTakeEach scope.now.head.now history (tree_of inner.now) times.now (R.fits ranges.old history)
        → TakesInside (sum_by (cost scope.now.step history nothing_passed (tree_of inner.now) at.ranges) times.now) (kept_by (R.last ranges.old) (R.passed ranges.old)) (kept_by (R.last ranges.new) (R.passed ranges.new))
        (R.fits ranges.new history) reads.old reads.new result }
{
    let mut series = no_series(scope.alloc);
    let count = times.count();
    for number in 0..count {
        let time = times.at(number);
        match value_at(scope, inner, at, time, ranges, reads) {
            Ok(value) => take_value(scope.alloc, &mut series, time, value)?,
            Err(error) => return Err(error),
        }
    }
    Ok(series)
}

/// The series of a subquery, whose expression is evaluated at each of its times in turn: the
/// multiples of its step in its range. The first fault ends. Inside a subquery nothing that stays
/// is asked of ranges. (Prometheus: Querying basics, Subquery. Own choice: too many times are told
/// before any is taken, at the place of the subquery.)
///
/// # Errors
/// `RangeTooLong` with the number of times, where it is above 2^20; or the first fault of the
/// expression, or `Memory`.
#[cycle(evaluation)]
pub(crate) fn series_of<R: Ranges, G: Ledger>(
    scope: &Scope<'_>,
    inner: &Expr,
    e: &Expr,
    span: Span,
    step: Option<Span>,
    offset: Span,
    number: &mut SelectorCounts,
    ranges: &mut R,
    reads: &mut Steps<G>,
) -> Result<SubquerySeries, EvalError>
    requires tree { tree_of e.now ≡ sub e.now.place (tree_of inner.now) span step offset }
    requires part { IsPartAt (tree_of scope.now.checked.now) number.old (tree_of e.now) }
    requires valued { IsValued (tree_of inner.now) }
    requires few { length (tests_in (tree_of scope.now.checked.now)) < 2 ^ 64 }
    requires few_patterns { length (patterns_in (tree_of scope.now.checked.now)) < 2 ^ 64 }
    requires step { 0 < scope.now.step }
    ensures count { OnOk result (number.new ≡ counts_after number.old (tree_of e.now)) }
    ensures ordered { IfOk result (λ s. IsOrdered labels_cmp s.series) }
    ensures answer { (history : List Entry) (func : RangeFn) → MayTake scope.now.head.now scope.now.inside history func (tree_of e.now) scope.now.time number.old.ranges (R.fits ranges.old history) (R.last ranges.old)
        → AreSeries (series_meant scope.now.step history (tree_of e.now) scope.now.time) result }
    ensures taken { (history : List Entry) (func : RangeFn) → MayTake scope.now.head.now scope.now.inside history func (tree_of e.now) scope.now.time number.old.ranges (R.fits ranges.old history) (R.last ranges.old)
        → IsEvaluated R.keeps scope.now.inside scope.now.step history func (tree_of e.now) scope.now.time number.old.ranges (kept_by (R.last ranges.old) (R.passed ranges.old)) (kept_by (R.last ranges.new) (R.passed ranges.new))
        (R.fits ranges.new history) reads.old reads.new result }
{
    let range = range_of(e.place, span, offset, scope.time);
    let step = step_or(step, scope.step);
    let times = times_in(&range, step);
    let count = times.count();
    if count > LONGEST {
        return Err(too_many(e.place, count));
    }
    let at = *number;
    lemma_stands_at(scope.checked, inner, at);
    match gathered(scope, inner, at, &times, ranges, reads) {
        Ok(series) => {
            *number = numbers_behind(scope.checked, inner, at);
            Ok(SubquerySeries { range, series })
        }
        Err(error) => Err(error),
    }
}
