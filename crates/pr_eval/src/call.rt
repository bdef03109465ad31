// Calls.
ghost use Rattle.std.specs.Prelude.{◌≡◌, ◌<◌, ◌^◌, ℕ, true, false, [], List, IfOk, IfSome, OnOk, Some, None, length, slice_get};
ghost use Rattle.std.specs.Option.{option_copied};
ghost use Rattle.pr_labels.specs.Names.{is_label_name};
ghost use Rattle.pr_range.specs.spec_history.declared.entry.Entry.{Entry};
ghost use Rattle.pr_range.specs.pr_head.private.Holds.{Holds};
ghost use Rattle.pr_ast.specs.Tree.{call, more, none, select, tree_of, trees_of};
ghost use Rattle.spec_meaning.specs.pr_types.Typed.{content_at};
ghost use Rattle.spec_meaning.specs.pr_types.private.Built.{own_patterns, patterns_in, tests_in};
ghost use Rattle.pr_range.specs.spec_vectors.declared.range.RangeFn.{RangeFn};
ghost use Rattle.spec_meaning.specs.private.Laws.{IsAnswer};
ghost use Rattle.spec_meaning.specs.Calls.{value_of_call};
ghost use Rattle.spec_meaning.specs.Meaning.{meaning, operands};
ghost use Rattle.pr_eval.specs.private.Answers.{AnswersTo};
ghost use Rattle.pr_eval.specs.private.Calls.{is_plain_call};
ghost use Rattle.pr_eval.specs.private.Plain.{all_plain};
ghost use Rattle.pr_eval.specs.private.Asking.{takes_range};
ghost use Rattle.pr_eval.specs.private.Evaluated.{IsEvaluated, MayTake, kept_by};
ghost use Rattle.pr_eval.specs.private.Operands.{AreGiven};
ghost use Rattle.pr_eval.specs.private.Parts.{IsPartAt, IsValued, counts_after, with_patterns};

use crate::aggregate::push_value;
use crate::evaluate::eval_at;
use crate::parts::{lemma_arg_stands_at, lemma_args_stand_at, lemma_is_among, lemma_is_call};
use crate::range_call::{range_call, takes_range};
use crate::scope::Scope;
use crate::selected::{stamped_selector, timestamps};
use crate::values::{EvalError, value_of_call};
use pr_ast::time::Ms;
use pr_ast::{Expr, Func, Place};
use pr_fn::matching::Pattern;
use pr_labels::words_crate::Steps;
use pr_range::Ranges;
use spec_meaning::Value;
use spec_meaning::types::{Checked, SelectorCounts};
use std::alloc::Global;
use std::sync::ledger::Ledger;

// The pattern of a call that takes one, which stands at the next number.
fn own_pattern<'a>(
    checked: &'a Checked,
    func: Func,
    args: &[Expr],
    number: &mut SelectorCounts,
) -> Option<&'a Pattern>
    requires few { length (patterns_in (tree_of checked.now)) < 2 ^ 64 }
    requires pattern { func ≡ Func.LabelReplace → slice_get (patterns_in (tree_of checked.now)) number.old.patterns ≡ Some (content_at (trees_of args.now) 4) }
    ensures pattern { func ≡ Func.LabelReplace → option_copied result ≡ Some (content_at (trees_of args.now) 4) }
    ensures count { number.new ≡ with_patterns number.old (own_patterns func (trees_of args.now)) }
{
    match func {
        Func::LabelReplace => {
            let place = number.patterns;
            number.patterns = place + 1;
            Some(checked.pattern(place))
        }
        _ => None,
    }
}

// What a call gives whose arguments are no ranges.
fn called_with(
    alloc: Global,
    checked: &Checked,
    place: Place,
    func: Func,
    args: &[Expr],
    time: Ms,
    given: &[Value],
    number: &mut SelectorCounts,
) -> Result<Value, EvalError>
    requires plain { is_plain_call func (trees_of args.now) ≡ true }
    requires replaced { func ≡ Func.LabelReplace → is_label_name (content_at (trees_of args.now) 1) ≡ true }
    requires joined { func ≡ Func.LabelJoin → is_label_name (content_at (trees_of args.now) 1) ≡ true }
    requires few { length (patterns_in (tree_of checked.now)) < 2 ^ 64 }
    requires pattern { func ≡ Func.LabelReplace → slice_get (patterns_in (tree_of checked.now)) number.old.patterns ≡ Some (content_at (trees_of args.now) 4) }
    ensures count { number.new ≡ with_patterns number.old (own_patterns func (trees_of args.now)) }
    ensures answer { (history : List Entry) → AnswersTo (value_of_call history place func (trees_of args.now) time (all_plain given.now)) result }
    ensures vector { IfOk result IsAnswer }
{
    let pattern = own_pattern(checked, func, args, number);
    value_of_call(alloc, place, func, args, pattern, time, given)
}

// The values of the arguments of a call, in order.
#[cycle(evaluation)]
fn operands<R: Ranges, G: Ledger>(
    scope: &Scope<'_>,
    args: &[Expr],
    number: &mut SelectorCounts,
    ranges: &mut R,
    reads: &mut Steps<G>,
    given: &mut Vec<Value>,
) -> Result<(), EvalError>
    requires none { given.old.items ≡ [] }
    requires part { IsPartAt (tree_of scope.now.checked.now) number.old (trees_of args.now) }
    requires valued { (i : ℕ) (a : Expr) → slice_get args.now i ≡ Some a → IsValued (tree_of a) }
    requires few { length (tests_in (tree_of scope.now.checked.now)) < 2 ^ 64 }
    requires few_patterns { length (patterns_in (tree_of scope.now.checked.now)) < 2 ^ 64 }
    requires step { 0 < scope.now.step }
    ensures count { OnOk result (number.new ≡ counts_after number.old (trees_of args.now)) }
    ensures answer { (history : List Entry) (func : RangeFn) → MayTake scope.now.head.now scope.now.inside history func (trees_of args.now) scope.now.time number.old.ranges (R.fits ranges.old history) (R.last ranges.old)
        → AreGiven (operands scope.now.step history (trees_of args.now) scope.now.time) given.new.items result }
    ensures taken { (history : List Entry) (func : RangeFn) → MayTake scope.now.head.now scope.now.inside history func (trees_of args.now) scope.now.time number.old.ranges (R.fits ranges.old history) (R.last ranges.old)
        → IsEvaluated R.keeps scope.now.inside scope.now.step history func (trees_of args.now) scope.now.time number.old.ranges (kept_by (R.last ranges.old) (R.passed ranges.old)) (kept_by (R.last ranges.new) (R.passed ranges.new))
        (R.fits ranges.new history) reads.old reads.new result }
{
    for arg in args {
        lemma_arg_stands_at(scope.checked, arg, *number);
        lemma_is_among(args, arg);
        match eval_at(scope, arg, number, ranges, reads) {
            Ok(value) => push_value(given, value)?,
            Err(error) => return Err(error),
        }
    }
    Ok(())
}

// A call whose arguments are no ranges, by their values.
#[cycle(evaluation)]
fn plain_call<R: Ranges, G: Ledger>(
    scope: &Scope<'_>,
    e: &Expr,
    func: Func,
    args: &[Expr],
    number: &mut SelectorCounts,
    ranges: &mut R,
    reads: &mut Steps<G>,
) -> Result<Value, EvalError>
    requires tree { tree_of e.now ≡ call e.now.place func (trees_of args.now) }
    requires plain { is_plain_call func (trees_of args.now) ≡ true }
    requires part { IsPartAt (tree_of scope.now.checked.now) number.old (tree_of e.now) }
    requires valued { IsValued (tree_of e.now) }
    requires few { length (tests_in (tree_of scope.now.checked.now)) < 2 ^ 64 }
    requires few_patterns { length (patterns_in (tree_of scope.now.checked.now)) < 2 ^ 64 }
    requires step { 0 < scope.now.step }
    ensures count { OnOk result (number.new ≡ counts_after number.old (tree_of e.now)) }
    ensures vector { IfOk result IsAnswer }
    ensures answer { (history : List Entry) (func : RangeFn) → MayTake scope.now.head.now scope.now.inside history func (tree_of e.now) scope.now.time number.old.ranges (R.fits ranges.old history) (R.last ranges.old)
        → AnswersTo (meaning scope.now.step history (tree_of e.now) scope.now.time) result }
    ensures taken { (history : List Entry) (func : RangeFn) → MayTake scope.now.head.now scope.now.inside history func (tree_of e.now) scope.now.time number.old.ranges (R.fits ranges.old history) (R.last ranges.old)
        → IsEvaluated R.keeps scope.now.inside scope.now.step history func (tree_of e.now) scope.now.time number.old.ranges (kept_by (R.last ranges.old) (R.passed ranges.old)) (kept_by (R.last ranges.new) (R.passed ranges.new))
        (R.fits ranges.new history) reads.old reads.new result }
{
    lemma_is_call(e, func, args);
    lemma_args_stand_at(scope.checked, args, *number);
    let mut given = Vec::new(scope.alloc);
    match operands(scope, args, number, ranges, reads, &mut given) {
        Ok(()) => called_with(
            scope.alloc,
            scope.checked,
            e.place,
            func,
            args,
            scope.time,
            &given,
            number,
        ),
        Err(error) => Err(error),
    }
}

// A call. What a function of a range, and `timestamp` of a selector, are given is no value.
#[cycle(evaluation)]
pub(crate) fn call<R: Ranges, G: Ledger>(
    scope: &Scope<'_>,
    e: &Expr,
    func: Func,
    args: &[Expr],
    number: &mut SelectorCounts,
    ranges: &mut R,
    reads: &mut Steps<G>,
) -> Result<Value, EvalError>
    requires tree { tree_of e.now ≡ call e.now.place func (trees_of args.now) }
    requires part { IsPartAt (tree_of scope.now.checked.now) number.old (tree_of e.now) }
    requires valued { IsValued (tree_of e.now) }
    requires few { length (tests_in (tree_of scope.now.checked.now)) < 2 ^ 64 }
    requires few_patterns { length (patterns_in (tree_of scope.now.checked.now)) < 2 ^ 64 }
    requires step { 0 < scope.now.step }
    ensures count { OnOk result (number.new ≡ counts_after number.old (tree_of e.now)) }
    ensures vector { IfOk result IsAnswer }
    ensures answer { (history : List Entry) (func : RangeFn) → MayTake scope.now.head.now scope.now.inside history func (tree_of e.now) scope.now.time number.old.ranges (R.fits ranges.old history) (R.last ranges.old)
        → AnswersTo (meaning scope.now.step history (tree_of e.now) scope.now.time) result }
    ensures taken { (history : List Entry) (func : RangeFn) → MayTake scope.now.head.now scope.now.inside history func (tree_of e.now) scope.now.time number.old.ranges (R.fits ranges.old history) (R.last ranges.old)
        → IsEvaluated R.keeps scope.now.inside scope.now.step history func (tree_of e.now) scope.now.time number.old.ranges (kept_by (R.last ranges.old) (R.passed ranges.old)) (kept_by (R.last ranges.new) (R.passed ranges.new))
        (R.fits ranges.new history) reads.old reads.new result }
{
    if takes_range(func) {
        return range_call(scope, e, func, args, number, ranges, reads);
    }
    match stamped_selector(func, args) {
        Some(stamped) => timestamps(scope, e, &stamped, number, reads),
        None => plain_call(scope, e, func, args, number, ranges, reads),
    }
}
