// Functions of the series of a subquery.
ghost use Rattle.std.specs.Prelude.{◌≡◌, ◌++◌, [], List, map, option_to_list, is_some, None, Ok, IfOk, OnOk, MatchResult};
ghost use Rattle.std.specs.BTreeMap.{IsOrdered};
ghost use Rattle.pr_labels.specs.Order.{labels_cmp};
ghost use Rattle.pr_range.specs.spec_vectors.declared.range.RangeFn.TheVariants.{PresentOverTime};
ghost use Rattle.pr_range.specs.spec_vectors.private.Laws.{IsVector};
ghost use Rattle.pr_range.specs.spec_vectors.Vectors.{element};
ghost use Rattle.spec_meaning.specs.Absence.{absent_of};
ghost use Rattle.spec_meaning.specs.private.Laws.{IsAnswer};
ghost use Rattle.spec_meaning.specs.Answers.{go_on};
ghost use Rattle.spec_meaning.specs.Calls.{vector_at};
ghost use Rattle.spec_meaning.specs.RangeCalls.{answers_over, over_ranges, question};
ghost use Rattle.spec_meaning.specs.Subqueries.{Taken};
ghost use Rattle.pr_range.specs.private.Asks.{HasArgument, takes_argument};
ghost use Rattle.pr_eval.specs.private.Answers.{AnswersTo};
ghost use Rattle.pr_eval.specs.private.Answering.{FaultIs, elements_of};
ghost use Rattle.pr_eval.specs.private.Taken.{AreAllWithin, AreTaken, ranged_of, series_in};
ghost use Rattle.pr_eval.specs.private.Times.{AreTimesWithin};

use crate::range_calls::call::RangeCall;
use crate::range_calls::finishing::{absence, error_of, finished};
use crate::values::EvalError;
use pr_ast::Place;
use pr_labels::words_crate::Items;
use pr_labels::{Item, Labels};
use pr_num::Num;
use pr_range::history::Spot;
use pr_range::vectors_crate::{Ask, RangeFn};
use pr_range::{RangeFault, over_list};
use spec_meaning::Value;
use std::alloc::{AllocError, Global};
use std::collections::BTreeMap;

/// The range of a subquery: above one moment and at most another, in milliseconds.
#[derive(Clone, Copy, Debug)]
pub struct SubqueryRange {
    /// The place of the subquery.
    pub place: Place,
    pub from: i64,
    pub to: i64,
}

// What each series is asked.
fn ask_in(range: &SubqueryRange, func: RangeFn, arg: Option<Num>) -> Ask
    ensures { result ≡ question func arg (ranged_of range.now []) }
{
    let SubqueryRange { from, to, .. } = *range;
    Ask {
        from,
        to,
        func,
        arg,
        inside: false,
    }
}

// Puts an answer at the end, if there is one.
fn push_element(
    elements: &mut Vec<Item<Num>>,
    labels: Labels,
    given: Option<Num>,
) -> Result<(), AllocError>
    ensures { OnOk result (elements.new.items ≡ elements.old.items ++ map (element labels) (option_to_list given)) }
{
    if let Some(value) = given {
        elements.push(Item { labels, value })?;
    }
    Ok(())
}

// The answers of the series, in label order.
fn elements(
    alloc: Global,
    ask: &Ask,
    series: BTreeMap<Labels, Items<Spot>>,
) -> Result<Vec<Item<Num>>, RangeFault>
    requires argument { HasArgument ask.now }
    requires ordered { IsOrdered labels_cmp series }
    ensures answer { AreAllWithin ask.now.from ask.now.to (series_in series) → let meant = elements_of ask.now (series_in series) in
        MatchResult result (λ v. meant ≡ Ok v.items) (FaultIs meant) }
    ensures vector { IfOk result (λ v. IsVector v.items) }
{
    let mut elements = Vec::new(alloc);
    for (labels, spots) in series {
        match over_list(alloc, spots.as_slice(), ask) {
            Ok(given) => {
                if push_element(&mut elements, labels, given).is_err() {
                    return Err(RangeFault::Memory);
                }
            }
            Err(fault) => return Err(fault),
        }
    }
    Ok(elements)
}

/// A function of the series that a subquery gathered, in label order. The first fault ends: a
/// series with too many values has the place of the subquery, a value that is too wide and equal
/// labels, which are told last, that of the call. (Prometheus: Querying, Functions, and Querying
/// basics, Subquery; the order of faults is own choice.)
///
/// # Errors
/// `Fault` with the first fault, or `Memory` where memory runs out.
pub fn over_series(
    alloc: Global,
    call: &RangeCall,
    range: &SubqueryRange,
    series: BTreeMap<Labels, Items<Spot>>,
) -> Result<Value, EvalError>
    requires argument { is_some call.now.arg ≡ takes_argument call.now.func }
    requires ordered { IsOrdered labels_cmp series }
    ensures answer { (ts : List Taken) → AreTaken ts series → AreTimesWithin range.now.from range.now.to (map (λ t. t.time) ts)
        → AnswersTo (over_ranges call.now.place call.now.func call.now.arg (ranged_of range.now ts)) result }
    ensures vector { IfOk result IsAnswer }
{
    let ask = ask_in(range, call.func, call.arg);
    match elements(alloc, &ask, series) {
        Ok(items) => finished(alloc, call.place, call.func, items),
        Err(fault) => Err(error_of(call.place, range.place, fault)),
    }
}

/// `absent_over_time` of the series that a subquery gathered: one element of value 1 with these
/// labels where there is no value, and else nothing. (Prometheus: Querying, Functions,
/// `absent_over_time`.)
///
/// # Errors
/// `Fault` with `RangeTooLong` at the subquery for the first series with too many values, or
/// `Memory` where memory runs out.
pub fn absent_over_series(
    alloc: Global,
    place: Place,
    labels: &Labels,
    range: &SubqueryRange,
    series: BTreeMap<Labels, Items<Spot>>,
) -> Result<Value, EvalError>
    requires { IsOrdered labels_cmp series }
    ensures answer { (ts : List Taken) → AreTaken ts series → AreTimesWithin range.now.from range.now.to (map (λ t. t.time) ts)
        → let r = ranged_of range.now ts in
        AnswersTo (go_on (λ items. vector_at (absent_of labels.now items)) (answers_over place r.place (question PresentOverTime None r) r.series)) result }
    ensures vector { IfOk result IsAnswer }
{
    let ask = ask_in(range, RangeFn::PresentOverTime, None);
    match elements(alloc, &ask, series) {
        Ok(items) => absence(alloc, labels, items.len()),
        Err(fault) => Err(error_of(place, range.place, fault)),
    }
}
