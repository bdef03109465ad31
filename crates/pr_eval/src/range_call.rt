// Calls of functions of ranges.
ghost use Rattle.std.specs.Prelude.{◌≡◌, ◌≢◌, ◌+◌, ◌<◌, ◌≤◌, ◌^◌, ℕ, true, [], List, IfOk, OnOk, Err, Ok, Some, None, Option, Result, length, slice_get, take};
ghost use Rattle.std.specs.BTreeMap.{IsOrdered};
ghost use Rattle.pr_labels.specs.Order.{labels_cmp};
ghost use Rattle.pr_range.specs.spec_history.declared.entry.Entry.{Entry};
ghost use Rattle.pr_ast.specs.Tree.{call, more, none, range as range_tree, tree_of, trees_of};
ghost use Rattle.spec_meaning.specs.pr_types.declared.kind.ValueType.TheVariants.{Range, Scalar};
ghost use Rattle.spec_meaning.specs.pr_types.private.Built.{patterns_in, tests_in};
ghost use Rattle.spec_meaning.specs.pr_types.Selectors.{tests_of};
ghost use Rattle.spec_meaning.specs.pr_types.Typed.{typed};
ghost use Rattle.pr_range.specs.spec_vectors.declared.range.RangeFn.{RangeFn};
ghost use Rattle.pr_range.specs.spec_vectors.declared.range.RangeFn.TheVariants.{PredictLinear};
ghost use Rattle.spec_meaning.specs.declared.fault.Fault.{Fault};
ghost use Rattle.spec_meaning.specs.private.Laws.{IsAnswer};
ghost use Rattle.spec_meaning.specs.Answers.{go_on};
ghost use Rattle.spec_meaning.specs.Calls.{value_of_call};
ghost use Rattle.spec_meaning.specs.Given.{Ranged, range_at};
ghost use Rattle.spec_meaning.specs.Meaning.{meaning, operands, ranges as series_meant};
ghost use Rattle.spec_meaning.specs.Selection.{chosen_by};
ghost use Rattle.pr_eval.specs.declared.values.error.EvalError.TheVariants.{Memory};
ghost use Rattle.pr_eval.specs.private.Answers.{AnswersTo};
ghost use Rattle.pr_eval.specs.private.RangeCallsAsking.{AreAsked, MayAskEach, asked_by, asks_cost, numbers_chosen, passed_by};
ghost use Rattle.pr_eval.specs.private.Asking.{asked_for, range_fn, takes_range};
ghost use Rattle.pr_eval.specs.private.Evaluated.{IsEvaluated, MayTake, kept_by};
ghost use Rattle.pr_eval.specs.private.Parts.{IsPartAt, IsValued, counts_after};
ghost use Rattle.pr_eval.specs.private.Ranged.{AreRangeOperands, AreSeries, HasItsArgument, call_in, made_of, number_of_value, prediction_by, quantile_by, use_alone};

use crate::evaluate::eval_at;
use crate::parts::{
    lemma_all_stand_at, lemma_are_pair, lemma_arg_stands_at, lemma_is_a_range, lemma_is_alone,
    lemma_is_range, lemma_is_range_call, lemma_is_sub, lemma_stands_at,
};
use crate::range_calls::{
    RangeAt, RangeCall, absent_over_selector, absent_over_series, over_selector, over_series,
};
use crate::scope::Scope;
use crate::subquery::{SubquerySeries, series_of};
use crate::values::{EvalError, labels_of_argument};
use pr_ast::time::Span;
use pr_ast::{Expr, ExprKind, Func, Place, Selector};
use pr_labels::Labels;
use pr_labels::words_crate::Steps;
use pr_num::Num;
use pr_range::Ranges;
use pr_range::vectors_crate::RangeFn;
use spec_meaning::Value;
use spec_meaning::types::SelectorCounts;
use std::alloc::{AllocError, Global};
use std::sync::ledger::Ledger;

/// What is made of a range: what a function gives of its series, or one element with these labels
/// where none has a value.
#[derive(Drop)]
pub(crate) enum RangeUse {
    Answers { call: RangeCall },
    Absence { place: Place, labels: Labels },
}

/// The operands of a function of a range, in the order of the text: the range alone, behind a
/// scalar, or before one.
#[derive(Drop)]
pub(crate) enum RangeOperands<'a> {
    Alone { range: &'a Expr },
    Behind { scalar: &'a Expr, range: &'a Expr },
    Before { range: &'a Expr, scalar: &'a Expr },
}

// The function that a call asks ranges for, where it takes one; `absent_over_time` asks whether
// there is a value.
fn range_fn(func: Func) -> Option<RangeFn>
    ensures { result ≡ range_fn func }
{
    match func {
        Func::AbsentOverTime => Some(RangeFn::PresentOverTime),
        Func::Rate => Some(RangeFn::Rate),
        Func::Increase => Some(RangeFn::Increase),
        Func::Delta => Some(RangeFn::Delta),
        Func::Irate => Some(RangeFn::Irate),
        Func::Idelta => Some(RangeFn::Idelta),
        Func::Deriv => Some(RangeFn::Deriv),
        Func::PredictLinear => Some(RangeFn::PredictLinear),
        Func::Changes => Some(RangeFn::Changes),
        Func::Resets => Some(RangeFn::Resets),
        Func::SumOverTime => Some(RangeFn::SumOverTime),
        Func::AvgOverTime => Some(RangeFn::AvgOverTime),
        Func::MinOverTime => Some(RangeFn::MinOverTime),
        Func::MaxOverTime => Some(RangeFn::MaxOverTime),
        Func::CountOverTime => Some(RangeFn::CountOverTime),
        Func::LastOverTime => Some(RangeFn::LastOverTime),
        Func::PresentOverTime => Some(RangeFn::PresentOverTime),
        Func::QuantileOverTime => Some(RangeFn::QuantileOverTime),
        _ => None,
    }
}

/// Whether a function is one of a range.
pub(crate) fn takes_range(func: Func) -> bool
    ensures { result ≡ takes_range func }
{
    range_fn(func).is_some()
}

fn asked_for(func: Func) -> RangeFn
    ensures { result ≡ asked_for func }
{
    range_fn(func).unwrap_or(RangeFn::PresentOverTime)
}

// The operands of a call of a function of a range.
fn range_operands<'a>(e: &Expr, func: Func, args: &'a [Expr]) -> RangeOperands<'a>
    requires tree { tree_of e.now ≡ call e.now.place func (trees_of args.now) }
    requires valued { IsValued (tree_of e.now) }
    requires range { takes_range func ≡ true }
    ensures { AreRangeOperands func (trees_of args.now) result }
{
    match func {
        Func::QuantileOverTime => match args {
            [scalar, range] => RangeOperands::Behind { scalar, range },
            _ => unreachable!(),
        },
        Func::PredictLinear => match args {
            [range, scalar] => RangeOperands::Before { range, scalar },
            _ => unreachable!(),
        },
        _ => match args {
            [range] => RangeOperands::Alone { range },
            _ => unreachable!(),
        },
    }
}

fn number_of(value: &Value) -> Num
    ensures { result ≡ number_of_value value.now }
{
    match value {
        Value::Scalar { value } => *value,
        Value::Vector { .. } => Num::NaN,
    }
}

fn quantile_by(place: Place, value: &Value) -> RangeUse
    ensures { result ≡ quantile_by place value.now }
{
    RangeUse::Answers {
        call: RangeCall {
            place,
            func: RangeFn::QuantileOverTime,
            arg: Some(number_of(value)),
        },
    }
}

fn prediction_by(place: Place, value: &Value) -> RangeUse
    ensures { result ≡ prediction_by place value.now }
{
    RangeUse::Answers {
        call: RangeCall {
            place,
            func: RangeFn::PredictLinear,
            arg: Some(number_of(value)),
        },
    }
}

// What a function of a range alone makes of it.
fn use_alone(alloc: Global, place: Place, func: Func, args: &[Expr]) -> Result<RangeUse, AllocError>
    ensures { IfOk result (λ u. u ≡ use_alone place func (trees_of args.now)) }
{
    match func {
        Func::AbsentOverTime => Ok(RangeUse::Absence {
            place,
            labels: labels_of_argument(alloc, args)?,
        }),
        _ => Ok(RangeUse::Answers {
            call: RangeCall {
                place,
                func: asked_for(func),
                arg: None,
            },
        }),
    }
}

// What is made of the series that a range selector chooses.
fn over_chosen<R: Ranges, G: Ledger>(
    scope: &Scope<'_>,
    made: &RangeUse,
    range: &RangeAt<'_>,
    ranges: &mut R,
    reads: &mut Steps<G>,
) -> Result<Value, EvalError>
    requires matchers { range.now.matchers.now ≡ tests_of range.now.selector.now }
    requires argument { HasItsArgument made.now }
    ensures answer { (history : List Entry) → MayAskEach scope.now.head.now history (asked_by (call_in made.now) range.now) (R.fits ranges.old history) (R.last ranges.old) range.now.node
        → AnswersTo (made_of made.now (Some (range_at history range.now.place range.now.selector.now range.now.span range.now.time))) result }
    ensures vector { IfOk result IsAnswer }
    ensures reads { (history : List Entry) → MayAskEach scope.now.head.now history (asked_by (call_in made.now) range.now) (R.fits ranges.old history) (R.last ranges.old) range.now.node
        → reads.new ≤ reads.old + asks_cost history (asked_by (call_in made.now) range.now) (passed_by history (R.passed ranges.old) range.now.node) (chosen_by range.now.selector.now history) }
    ensures fits { (history : List Entry) → MayAskEach scope.now.head.now history (asked_by (call_in made.now) range.now) (R.fits ranges.old history) (R.last ranges.old) range.now.node
        → result ≢ Err Memory → R.fits ranges.new history }
    ensures asked { (history : List Entry) → MayAskEach scope.now.head.now history (asked_by (call_in made.now) range.now) (R.fits ranges.old history) (R.last ranges.old) range.now.node
        → OnOk result (AreAsked history R.keeps range.now.node (asked_by (call_in made.now) range.now) (numbers_chosen history range.now.selector.now)
        (R.last ranges.old) (R.last ranges.new) (R.passed ranges.old) (R.passed ranges.new)) }
    ensures until { (history : List Entry) → MayAskEach scope.now.head.now history (asked_by (call_in made.now) range.now) (R.fits ranges.old history) (R.last ranges.old) range.now.node
        → result ≢ Err Memory → (n : ℕ) × AreAsked history R.keeps range.now.node (asked_by (call_in made.now) range.now) (take n (numbers_chosen history range.now.selector.now))
        (R.last ranges.old) (R.last ranges.new) (R.passed ranges.old) (R.passed ranges.new) }
{
    match made {
        RangeUse::Answers { call } => {
            over_selector(scope.alloc, call, range, scope.head, ranges, reads)
        }
        RangeUse::Absence { place, labels } => absent_over_selector(
            scope.alloc,
            *place,
            labels,
            range,
            scope.head,
            ranges,
            reads,
        ),
    }
}

// What is made of a range selector, whose numbers are these.
fn over_selected<R: Ranges, G: Ledger>(
    scope: &Scope<'_>,
    made: &RangeUse,
    e: &Expr,
    selector: &Selector,
    span: Span,
    at: SelectorCounts,
    ranges: &mut R,
    reads: &mut Steps<G>,
) -> Result<Value, EvalError>
    requires tree { tree_of e.now ≡ range_tree e.now.place selector.now span }
    requires argument { HasItsArgument made.now }
    requires part { IsPartAt (tree_of scope.now.checked.now) at (tree_of e.now) }
    ensures vector { IfOk result IsAnswer }
    ensures answer { (history : List Entry) → MayTake scope.now.head.now scope.now.inside history (call_in made.now).func (tree_of e.now) scope.now.time at.ranges (R.fits ranges.old history) (R.last ranges.old)
        → AnswersTo (go_on (made_of made.now) (series_meant scope.now.step history (tree_of e.now) scope.now.time)) result }
    ensures taken { (history : List Entry) → MayTake scope.now.head.now scope.now.inside history (call_in made.now).func (tree_of e.now) scope.now.time at.ranges (R.fits ranges.old history) (R.last ranges.old)
        → IsEvaluated R.keeps scope.now.inside scope.now.step history (call_in made.now).func (tree_of e.now) scope.now.time at.ranges (kept_by (R.last ranges.old) (R.passed ranges.old)) (kept_by (R.last ranges.new) (R.passed ranges.new))
        (R.fits ranges.new history) reads.old reads.new result }
{
    lemma_is_range(e, selector, span);
    let range = RangeAt {
        place: e.place,
        selector,
        span,
        matchers: scope.checked.matchers(at.selectors),
        time: scope.time,
        node: at.ranges,
        inside: scope.inside,
    };
    over_chosen(scope, made, &range, ranges, reads)
}

// The numbers behind a range selector.
fn behind_range(
    scope: &Scope<'_>,
    e: &Expr,
    selector: &Selector,
    span: Span,
    at: SelectorCounts,
) -> SelectorCounts
    requires tree { tree_of e.now ≡ range_tree e.now.place selector.now span }
    requires part { IsPartAt (tree_of scope.now.checked.now) at (tree_of e.now) }
    requires few { length (tests_in (tree_of scope.now.checked.now)) < 2 ^ 64 }
    ensures { result ≡ counts_after at (tree_of e.now) }
{
    lemma_is_range(e, selector, span);
    SelectorCounts {
        selectors: at.selectors + 1,
        ranges: at.ranges + 1,
        patterns: at.patterns,
    }
}

// What is made of the series that a subquery gathered.
fn over_gathered(
    alloc: Global,
    made: &RangeUse,
    gathered: SubquerySeries,
) -> Result<Value, EvalError>
    requires argument { HasItsArgument made.now }
    requires ordered { IsOrdered labels_cmp gathered.series }
    ensures answer { (meant : Result (Option Ranged) Fault) → AreSeries meant (Ok gathered) → AnswersTo (go_on (made_of made.now) meant) result }
    ensures vector { IfOk result IsAnswer }
{
    let SubquerySeries { range, series } = gathered;
    match made {
        RangeUse::Answers { call } => over_series(alloc, call, &range, series),
        RangeUse::Absence { place, labels } => {
            absent_over_series(alloc, *place, labels, &range, series)
        }
    }
}

// What is made of a range.
#[cycle(evaluation)]
fn over_range<R: Ranges, G: Ledger>(
    scope: &Scope<'_>,
    made: &RangeUse,
    e: &Expr,
    number: &mut SelectorCounts,
    ranges: &mut R,
    reads: &mut Steps<G>,
) -> Result<Value, EvalError>
    requires argument { HasItsArgument made.now }
    requires typed { typed (tree_of e.now) ≡ Ok Range }
    requires part { IsPartAt (tree_of scope.now.checked.now) number.old (tree_of e.now) }
    requires few { length (tests_in (tree_of scope.now.checked.now)) < 2 ^ 64 }
    requires few_patterns { length (patterns_in (tree_of scope.now.checked.now)) < 2 ^ 64 }
    requires step { 0 < scope.now.step }
    ensures count { OnOk result (number.new ≡ counts_after number.old (tree_of e.now)) }
    ensures vector { IfOk result IsAnswer }
    ensures answer { (history : List Entry) → MayTake scope.now.head.now scope.now.inside history (call_in made.now).func (tree_of e.now) scope.now.time number.old.ranges (R.fits ranges.old history) (R.last ranges.old)
        → AnswersTo (go_on (made_of made.now) (series_meant scope.now.step history (tree_of e.now) scope.now.time)) result }
    ensures taken { (history : List Entry) → MayTake scope.now.head.now scope.now.inside history (call_in made.now).func (tree_of e.now) scope.now.time number.old.ranges (R.fits ranges.old history) (R.last ranges.old)
        → IsEvaluated R.keeps scope.now.inside scope.now.step history (call_in made.now).func (tree_of e.now) scope.now.time number.old.ranges (kept_by (R.last ranges.old) (R.passed ranges.old)) (kept_by (R.last ranges.new) (R.passed ranges.new))
        (R.fits ranges.new history) reads.old reads.new result }
{
    lemma_is_a_range(e);
    match &e.kind {
        ExprKind::Range { selector, span } => {
            let at = *number;
            *number = behind_range(scope, e, selector, *span, at);
            over_selected(scope, made, e, selector, *span, at, ranges, reads)
        }
        ExprKind::Sub {
            inner,
            span,
            step,
            offset,
        } => {
            let inner: &Expr = inner;
            lemma_is_sub(e, inner, *span, *step, *offset);
            match series_of(
                scope, inner, e, *span, *step, *offset, number, ranges, reads,
            ) {
                Ok(series) => over_gathered(scope.alloc, made, series),
                Err(error) => Err(error),
            }
        }
        _ => unreachable!(),
    }
}

// `predict_linear`: its range stands before its scalar. The series of a range selector have no
// fault before that of the scalar, so they are asked after it.
#[cycle(evaluation)]
fn prediction<R: Ranges, G: Ledger>(
    scope: &Scope<'_>,
    place: Place,
    args: &[Expr],
    e: &Expr,
    scalar: &Expr,
    number: &mut SelectorCounts,
    ranges: &mut R,
    reads: &mut Steps<G>,
) -> Result<Value, EvalError>
    requires args { trees_of args.now ≡ more (more none (tree_of e.now)) (tree_of scalar.now) }
    requires typed { typed (tree_of e.now) ≡ Ok Range }
    requires scalar { typed (tree_of scalar.now) ≡ Ok Scalar }
    requires part { IsPartAt (tree_of scope.now.checked.now) number.old (trees_of args.now) }
    requires few { length (tests_in (tree_of scope.now.checked.now)) < 2 ^ 64 }
    requires few_patterns { length (patterns_in (tree_of scope.now.checked.now)) < 2 ^ 64 }
    requires step { 0 < scope.now.step }
    ensures count { OnOk result (number.new ≡ counts_after number.old (trees_of args.now)) }
    ensures vector { IfOk result IsAnswer }
    ensures answer { (history : List Entry) → MayTake scope.now.head.now scope.now.inside history PredictLinear (trees_of args.now) scope.now.time number.old.ranges (R.fits ranges.old history) (R.last ranges.old)
        → let ts = trees_of args.now in AnswersTo (go_on (value_of_call history place Func.PredictLinear ts scope.now.time) (operands scope.now.step history ts scope.now.time)) result }
    ensures taken { (history : List Entry) → MayTake scope.now.head.now scope.now.inside history PredictLinear (trees_of args.now) scope.now.time number.old.ranges (R.fits ranges.old history) (R.last ranges.old)
        → IsEvaluated R.keeps scope.now.inside scope.now.step history PredictLinear (trees_of args.now) scope.now.time number.old.ranges (kept_by (R.last ranges.old) (R.passed ranges.old)) (kept_by (R.last ranges.new) (R.passed ranges.new))
        (R.fits ranges.new history) reads.old reads.new result }
{
    lemma_is_a_range(e);
    lemma_are_pair(args, e, scalar);
    lemma_stands_at(scope.checked, e, *number);
    match &e.kind {
        ExprKind::Range { selector, span } => {
            lemma_is_range(e, selector, *span);
            let at = *number;
            *number = behind_range(scope, e, selector, *span, at);
            lemma_arg_stands_at(scope.checked, scalar, *number);
            match eval_at(scope, scalar, number, ranges, reads) {
                Ok(value) => {
                    let made = prediction_by(place, &value);
                    over_selected(scope, &made, e, selector, *span, at, ranges, reads)
                }
                Err(error) => Err(error),
            }
        }
        ExprKind::Sub {
            inner,
            span,
            step,
            offset,
        } => {
            let inner: &Expr = inner;
            lemma_is_sub(e, inner, *span, *step, *offset);
            match series_of(
                scope, inner, e, *span, *step, *offset, number, ranges, reads,
            ) {
                Ok(series) => {
                    lemma_arg_stands_at(scope.checked, scalar, *number);
                    match eval_at(scope, scalar, number, ranges, reads) {
                        Ok(value) => {
                            let made = prediction_by(place, &value);
                            over_gathered(scope.alloc, &made, series)
                        }
                        Err(error) => Err(error),
                    }
                }
                Err(error) => Err(error),
            }
        }
        _ => unreachable!(),
    }
}

/// A call of a function of a range. Operands are taken in the order of the text, and the series of
/// a range selector are asked behind them all.
#[cycle(evaluation)]
pub(crate) fn range_call<R: Ranges, G: Ledger>(
    scope: &Scope<'_>,
    e: &Expr,
    func: Func,
    args: &[Expr],
    number: &mut SelectorCounts,
    ranges: &mut R,
    reads: &mut Steps<G>,
) -> Result<Value, EvalError>
    requires tree { tree_of e.now ≡ call e.now.place func (trees_of args.now) }
    requires range { takes_range func ≡ true }
    requires part { IsPartAt (tree_of scope.now.checked.now) number.old (tree_of e.now) }
    requires valued { IsValued (tree_of e.now) }
    requires few { length (tests_in (tree_of scope.now.checked.now)) < 2 ^ 64 }
    requires few_patterns { length (patterns_in (tree_of scope.now.checked.now)) < 2 ^ 64 }
    requires step { 0 < scope.now.step }
    ensures count { OnOk result (number.new ≡ counts_after number.old (tree_of e.now)) }
    ensures vector { IfOk result IsAnswer }
    ensures answer { (history : List Entry) (func : RangeFn) → MayTake scope.now.head.now scope.now.inside history func (tree_of e.now) scope.now.time number.old.ranges (R.fits ranges.old history) (R.last ranges.old)
        → AnswersTo (meaning scope.now.step history (tree_of e.now) scope.now.time) result }
    ensures taken { (history : List Entry) (func : RangeFn) → MayTake scope.now.head.now scope.now.inside history func (tree_of e.now) scope.now.time number.old.ranges (R.fits ranges.old history) (R.last ranges.old)
        → IsEvaluated R.keeps scope.now.inside scope.now.step history func (tree_of e.now) scope.now.time number.old.ranges (kept_by (R.last ranges.old) (R.passed ranges.old)) (kept_by (R.last ranges.new) (R.passed ranges.new))
        (R.fits ranges.new history) reads.old reads.new result }
{
    lemma_is_range_call(e, func, args);
    lemma_all_stand_at(scope.checked, args, *number);
    match range_operands(e, func, args) {
        RangeOperands::Alone { range } => {
            lemma_is_alone(args, range);
            lemma_stands_at(scope.checked, range, *number);
            let made = use_alone(scope.alloc, e.place, func, args)?;
            over_range(scope, &made, range, number, ranges, reads)
        }
        RangeOperands::Behind { scalar, range } => {
            lemma_are_pair(args, scalar, range);
            lemma_arg_stands_at(scope.checked, scalar, *number);
            match eval_at(scope, scalar, number, ranges, reads) {
                Ok(value) => {
                    lemma_stands_at(scope.checked, range, *number);
                    let made = quantile_by(e.place, &value);
                    over_range(scope, &made, range, number, ranges, reads)
                }
                Err(error) => Err(error),
            }
        }
        RangeOperands::Before { range, scalar } => {
            prediction(scope, e.place, args, range, scalar, number, ranges, reads)
        }
    }
}
