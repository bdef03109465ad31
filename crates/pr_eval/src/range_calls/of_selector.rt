// Functions of the series that a range selector chooses.
ghost use Rattle.std.specs.Prelude.{◌≡◌, ◌≢◌, ◌+◌, ◌<◌, ◌≤◌, ◌≤ℤ◌, ℕ, List, map, is_some, length, take, None, Ok, Err, IfOk, OnOk, MatchResult};
ghost use Rattle.std.specs.List.{All};
ghost use Rattle.pr_range.specs.spec_history.declared.entry.Entry.{Entry};
ghost use Rattle.spec_meaning.specs.pr_types.Selectors.{tests_of};
ghost use Rattle.pr_range.specs.spec_vectors.declared.range.RangeFn.TheVariants.{PresentOverTime};
ghost use Rattle.spec_meaning.specs.Absence.{absent_of};
ghost use Rattle.spec_meaning.specs.private.Laws.{IsAnswer};
ghost use Rattle.spec_meaning.specs.Answers.{go_on};
ghost use Rattle.spec_meaning.specs.Calls.{vector_at};
ghost use Rattle.spec_meaning.specs.Given.{range_at, series_within};
ghost use Rattle.spec_meaning.specs.RangeCalls.{answers_over, over_ranges, question};
ghost use Rattle.spec_meaning.specs.Selection.{chosen_by};
ghost use Rattle.pr_range.specs.spec_vectors.private.Laws.{IsVector};
ghost use Rattle.pr_range.specs.private.Asks.{HasArgument, takes_argument};
ghost use Rattle.pr_eval.specs.declared.values.error.EvalError.TheVariants.{Memory};
ghost use Rattle.pr_eval.specs.private.Answers.{AnswersTo};
ghost use Rattle.pr_eval.specs.private.Answering.{FaultIs, elements_of, answer_element};
ghost use Rattle.pr_eval.specs.private.RangeCallsAsking.{AreAsked, MayAskEach, asked_by, asks_cost, numbers_chosen, passed_by, presence};

use crate::range_calls::asking::{RangeAnswer, ask_each};
use crate::range_calls::call::{RangeAt, RangeCall};
use crate::range_calls::choose::{chosen_series, labels_of_series};
use crate::range_calls::finishing::{absence, error_of, finished};
use crate::values::EvalError;
use pr_ast::Place;
use pr_labels::words_crate::Steps;
use pr_labels::{Item, Labels};
use pr_num::Num;
use pr_range::head::Head;
use pr_range::vectors_crate::{Ask, RangeFn};
use pr_range::{RangeFault, Ranges};
use spec_meaning::Value;
use std::alloc::{AllocError, Global};
use std::sync::ledger::Ledger;

// What is asked of a range selector at its time.
fn asked_by(call: &RangeCall, range: &RangeAt<'_>) -> Ask
    ensures asked { result ≡ asked_by call.now range.now }
    ensures ordered { result.from ≤ℤ result.to }
{
    let to = range.time.minus(range.selector.offset);
    Ask {
        from: to - range.span.get() as i64,
        to,
        func: call.func,
        arg: call.arg,
        inside: range.inside,
    }
}

fn answer_element(alloc: Global, head: &Head, answer: &RangeAnswer) -> Result<Item<Num>, AllocError>
    requires { answer.now.series < length head.now }
    ensures { IfOk result (λ e. e ≡ answer_element head.now answer.now) }
{
    Ok(Item {
        labels: labels_of_series(head, answer.series).copy(alloc)?,
        value: answer.value,
    })
}

// The answers with the labels of their series.
fn items_of(
    alloc: Global,
    head: &Head,
    answers: &[RangeAnswer],
) -> Result<Vec<Item<Num>>, AllocError>
    requires { All (λ x. x.series < length head.now) answers.now }
    ensures { IfOk result (λ v. v.items ≡ map (answer_element head.now) answers.now) }
{
    let mut items = Vec::with_capacity(alloc, answers.len())?;
    for answer in answers {
        items.push(answer_element(alloc, head, answer)?)?;
    }
    Ok(items)
}

// The answers of the series that a range selector chooses.
fn answers_to<R: Ranges, G: Ledger>(
    alloc: Global,
    range: &RangeAt<'_>,
    ask: &Ask,
    head: &Head,
    ranges: &mut R,
    reads: &mut Steps<G>,
) -> Result<Vec<RangeAnswer>, RangeFault>
    requires matchers { range.now.matchers.now ≡ tests_of range.now.selector.now }
    requires ordered { ask.now.from ≤ℤ ask.now.to }
    requires argument { HasArgument ask.now }
    ensures answer { (history : List Entry) → MayAskEach head.now history ask.now (R.fits ranges.old history) (R.last ranges.old) range.now.node
        → let meant = elements_of ask.now (map (series_within history ask.now.from ask.now.to) (chosen_by range.now.selector.now history)) in
        MatchResult result (λ v. meant ≡ Ok (map (answer_element head.now) v.items)) (FaultIs meant) }
    ensures known { IfOk result (λ v. All (λ x. x.series < length head.now) v.items) }
    ensures vector { IfOk result (λ v. IsVector (map (answer_element head.now) v.items)) }
    ensures reads { (history : List Entry) → MayAskEach head.now history ask.now (R.fits ranges.old history) (R.last ranges.old) range.now.node
        → reads.new ≤ reads.old + asks_cost history ask.now (passed_by history (R.passed ranges.old) range.now.node) (chosen_by range.now.selector.now history) }
    ensures fits { (history : List Entry) → MayAskEach head.now history ask.now (R.fits ranges.old history) (R.last ranges.old) range.now.node
        → result ≢ Err RangeFault.Memory → R.fits ranges.new history }
    ensures asked { (history : List Entry) → MayAskEach head.now history ask.now (R.fits ranges.old history) (R.last ranges.old) range.now.node
        → OnOk result (AreAsked history R.keeps range.now.node ask.now (numbers_chosen history range.now.selector.now)
        (R.last ranges.old) (R.last ranges.new) (R.passed ranges.old) (R.passed ranges.new)) }
    ensures until { (history : List Entry) → MayAskEach head.now history ask.now (R.fits ranges.old history) (R.last ranges.old) range.now.node
        → result ≢ Err RangeFault.Memory → (n : ℕ) × AreAsked history R.keeps range.now.node ask.now (take n (numbers_chosen history range.now.selector.now))
        (R.last ranges.old) (R.last ranges.new) (R.passed ranges.old) (R.passed ranges.new) }
{
    match chosen_series(alloc, head, range.selector, range.matchers) {
        Ok(numbers) => ask_each(alloc, head, range.node, &numbers, ask, ranges, reads),
        Err(_) => Err(RangeFault::Memory),
    }
}

// The same, of what a call asks.
fn answers<R: Ranges, G: Ledger>(
    alloc: Global,
    call: &RangeCall,
    range: &RangeAt<'_>,
    head: &Head,
    ranges: &mut R,
    reads: &mut Steps<G>,
) -> Result<Vec<RangeAnswer>, RangeFault>
    requires matchers { range.now.matchers.now ≡ tests_of range.now.selector.now }
    requires argument { is_some call.now.arg ≡ takes_argument call.now.func }
    ensures answer { (history : List Entry) → MayAskEach head.now history (asked_by call.now range.now) (R.fits ranges.old history) (R.last ranges.old) range.now.node
        → let a = asked_by call.now range.now in let meant = elements_of a (map (series_within history a.from a.to) (chosen_by range.now.selector.now history)) in
        MatchResult result (λ v. meant ≡ Ok (map (answer_element head.now) v.items)) (FaultIs meant) }
    ensures known { IfOk result (λ v. All (λ x. x.series < length head.now) v.items) }
    ensures vector { IfOk result (λ v. IsVector (map (answer_element head.now) v.items)) }
    ensures reads { (history : List Entry) → MayAskEach head.now history (asked_by call.now range.now) (R.fits ranges.old history) (R.last ranges.old) range.now.node
        → reads.new ≤ reads.old + asks_cost history (asked_by call.now range.now) (passed_by history (R.passed ranges.old) range.now.node) (chosen_by range.now.selector.now history) }
    ensures fits { (history : List Entry) → MayAskEach head.now history (asked_by call.now range.now) (R.fits ranges.old history) (R.last ranges.old) range.now.node
        → result ≢ Err RangeFault.Memory → R.fits ranges.new history }
    ensures asked { (history : List Entry) → MayAskEach head.now history (asked_by call.now range.now) (R.fits ranges.old history) (R.last ranges.old) range.now.node
        → OnOk result (AreAsked history R.keeps range.now.node (asked_by call.now range.now) (numbers_chosen history range.now.selector.now)
        (R.last ranges.old) (R.last ranges.new) (R.passed ranges.old) (R.passed ranges.new)) }
    ensures until { (history : List Entry) → MayAskEach head.now history (asked_by call.now range.now) (R.fits ranges.old history) (R.last ranges.old) range.now.node
        → result ≢ Err RangeFault.Memory → (n : ℕ) × AreAsked history R.keeps range.now.node (asked_by call.now range.now) (take n (numbers_chosen history range.now.selector.now))
        (R.last ranges.old) (R.last ranges.new) (R.passed ranges.old) (R.passed ranges.new) }
{
    let ask = asked_by(call, range);
    answers_to(alloc, range, &ask, head, ranges, reads)
}

/// A function of the series that a range selector chooses, each asked once, in label order, of what
/// answers ranges. The first fault ends: a range with too many values has the place of the range
/// selector, a value that is too wide and equal labels, which are told last, that of the call.
/// (Prometheus: Querying, Functions; the order of faults is own choice.)
///
/// What is kept of ranges stays true of the history but for want of memory. Those that were asked
/// are all of the chosen series where there is an answer, and some first ones of them where there
/// is a fault.
///
/// # Errors
/// `Fault` with the first fault, or `Memory` where memory runs out.
pub fn over_selector<R: Ranges, G: Ledger>(
    alloc: Global,
    call: &RangeCall,
    range: &RangeAt<'_>,
    head: &Head,
    ranges: &mut R,
    reads: &mut Steps<G>,
) -> Result<Value, EvalError>
    requires matchers { range.now.matchers.now ≡ tests_of range.now.selector.now }
    requires argument { is_some call.now.arg ≡ takes_argument call.now.func }
    ensures answer { (history : List Entry) → MayAskEach head.now history (asked_by call.now range.now) (R.fits ranges.old history) (R.last ranges.old) range.now.node
        → AnswersTo (over_ranges call.now.place call.now.func call.now.arg (range_at history range.now.place range.now.selector.now range.now.span range.now.time)) result }
    ensures vector { IfOk result IsAnswer }
    ensures reads { (history : List Entry) → MayAskEach head.now history (asked_by call.now range.now) (R.fits ranges.old history) (R.last ranges.old) range.now.node
        → reads.new ≤ reads.old + asks_cost history (asked_by call.now range.now) (passed_by history (R.passed ranges.old) range.now.node) (chosen_by range.now.selector.now history) }
    ensures fits { (history : List Entry) → MayAskEach head.now history (asked_by call.now range.now) (R.fits ranges.old history) (R.last ranges.old) range.now.node
        → result ≢ Err Memory → R.fits ranges.new history }
    ensures asked { (history : List Entry) → MayAskEach head.now history (asked_by call.now range.now) (R.fits ranges.old history) (R.last ranges.old) range.now.node
        → OnOk result (AreAsked history R.keeps range.now.node (asked_by call.now range.now) (numbers_chosen history range.now.selector.now)
        (R.last ranges.old) (R.last ranges.new) (R.passed ranges.old) (R.passed ranges.new)) }
    ensures until { (history : List Entry) → MayAskEach head.now history (asked_by call.now range.now) (R.fits ranges.old history) (R.last ranges.old) range.now.node
        → result ≢ Err Memory → (n : ℕ) × AreAsked history R.keeps range.now.node (asked_by call.now range.now) (take n (numbers_chosen history range.now.selector.now))
        (R.last ranges.old) (R.last ranges.new) (R.passed ranges.old) (R.passed ranges.new) }
{
    match answers(alloc, call, range, head, ranges, reads) {
        Ok(answers) => {
            let items = items_of(alloc, head, &answers)?;
            finished(alloc, call.place, call.func, items)
        }
        Err(fault) => Err(error_of(call.place, range.place, fault)),
    }
}

/// `absent_over_time` of the series that a range selector chooses: one element of value 1 with
/// these labels where none of them has a value in the range, and else nothing. The series are asked
/// as those of any function of a range, for `PresentOverTime`. (Prometheus: Querying, Functions,
/// `absent_over_time`.)
///
/// # Errors
/// `Fault` with `RangeTooLong` at the range for the first series with too many values, or `Memory`
/// where memory runs out.
pub fn absent_over_selector<R: Ranges, G: Ledger>(
    alloc: Global,
    place: Place,
    labels: &Labels,
    range: &RangeAt<'_>,
    head: &Head,
    ranges: &mut R,
    reads: &mut Steps<G>,
) -> Result<Value, EvalError>
    requires { range.now.matchers.now ≡ tests_of range.now.selector.now }
    ensures answer { (history : List Entry) → MayAskEach head.now history (asked_by (presence place) range.now) (R.fits ranges.old history) (R.last ranges.old) range.now.node
        → let r = range_at history range.now.place range.now.selector.now range.now.span range.now.time in
        AnswersTo (go_on (λ items. vector_at (absent_of labels.now items)) (answers_over place r.place (question PresentOverTime None r) r.series)) result }
    ensures vector { IfOk result IsAnswer }
    ensures reads { (history : List Entry) → MayAskEach head.now history (asked_by (presence place) range.now) (R.fits ranges.old history) (R.last ranges.old) range.now.node
        → reads.new ≤ reads.old + asks_cost history (asked_by (presence place) range.now) (passed_by history (R.passed ranges.old) range.now.node) (chosen_by range.now.selector.now history) }
    ensures fits { (history : List Entry) → MayAskEach head.now history (asked_by (presence place) range.now) (R.fits ranges.old history) (R.last ranges.old) range.now.node
        → result ≢ Err Memory → R.fits ranges.new history }
    ensures asked { (history : List Entry) → MayAskEach head.now history (asked_by (presence place) range.now) (R.fits ranges.old history) (R.last ranges.old) range.now.node
        → OnOk result (AreAsked history R.keeps range.now.node (asked_by (presence place) range.now) (numbers_chosen history range.now.selector.now)
        (R.last ranges.old) (R.last ranges.new) (R.passed ranges.old) (R.passed ranges.new)) }
    ensures until { (history : List Entry) → MayAskEach head.now history (asked_by (presence place) range.now) (R.fits ranges.old history) (R.last ranges.old) range.now.node
        → result ≢ Err Memory → (n : ℕ) × AreAsked history R.keeps range.now.node (asked_by (presence place) range.now) (take n (numbers_chosen history range.now.selector.now))
        (R.last ranges.old) (R.last ranges.new) (R.passed ranges.old) (R.passed ranges.new) }
{
    let call = RangeCall {
        place,
        func: RangeFn::PresentOverTime,
        arg: None,
    };
    match answers(alloc, &call, range, head, ranges, reads) {
        Ok(answers) => absence(alloc, labels, answers.len()),
        Err(fault) => Err(error_of(place, range.place, fault)),
    }
}
