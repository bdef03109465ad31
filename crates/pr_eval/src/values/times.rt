// Times and dates.
ghost use Rattle.std.specs.Prelude.{◌≡◌, List, Ok, Err, IfOk, map, Result};
ghost use Rattle.pr_range.specs.spec_history.declared.spot.Spot.{Spot};
ghost use Rattle.pr_range.specs.spec_vectors.Functions.{mapped, told_apart};
ghost use Rattle.pr_range.specs.spec_vectors.Calendar.{calendar_of};
ghost use Rattle.spec_meaning.specs.private.Laws.{IsAnswer};
ghost use Rattle.spec_meaning.specs.Answers.{function_at};
ghost use Rattle.spec_meaning.specs.Calls.{calendars, seconds_of, with_time};
ghost use Rattle.spec_meaning.specs.Given.{elements_given};
ghost use Rattle.pr_eval.specs.private.Answers.{AnswersTo};
ghost use Rattle.pr_eval.specs.private.Plain.{all_plain};
ghost use Rattle.pr_eval.specs.private.Timed.{stamp_of};

use crate::values::arguments::elements_given;
use crate::values::error::EvalError;
use crate::values::vectors::made_at;
use pr_ast::Place;
use pr_ast::time::Ms;
use pr_fn::{Part, calendar, map_values, without_metrics};
use pr_labels::{Item, Labels};
use pr_num::{Nano, Num};
use pr_range::history::Spot;
use spec_meaning::Value;
use std::alloc::{AllocError, Global};

/// A time in seconds.
pub fn seconds_of(time: Ms) -> Num
    ensures { result ≡ seconds_of time }
{
    match Nano::new(i128::from(time.get()) * 1_000_000) {
        Some(units) => Num::Finite(units),
        None => unreachable!(),
    }
}

// A field of the date of each value.
fn fields(alloc: Global, place: Place, part: Part, items: &[Item<Num>]) -> Result<Value, EvalError>
    ensures answer { AnswersTo (function_at place (mapped (λ v. Ok (calendar_of part v)) items.now)) result }
    ensures vector { IfOk result IsAnswer }
{
    let made = map_values(alloc, items, &|v: Num| Ok(calendar(part, v)));
    made_at(place, made)
}

/// A field of the dates that are given, and of the time of the query where none is.
pub(crate) fn dates(
    alloc: Global,
    place: Place,
    part: Part,
    time: Ms,
    given: &[Value],
) -> Result<Value, EvalError>
    ensures answer { AnswersTo (function_at place (calendars part time (all_plain given.now))) result }
    ensures vector { IfOk result IsAnswer }
{
    if given.is_empty() {
        let now = Item {
            labels: Labels::empty(alloc),
            value: seconds_of(time),
        };
        return fields(alloc, place, part, &[now]);
    }
    fields(alloc, place, part, elements_given(given, 0))
}

/// The time of the query for each element.
pub(crate) fn query_times(
    alloc: Global,
    place: Place,
    time: Ms,
    given: &[Value],
) -> Result<Value, EvalError>
    ensures answer { AnswersTo (function_at place (mapped (λ v. Ok (seconds_of time)) (elements_given (all_plain given.now) 0))) result }
    ensures vector { IfOk result IsAnswer }
{
    let items = elements_given(given, 0);
    let seconds = seconds_of(time);
    let made = map_values(alloc, items, &|_v: Num| Ok(seconds));
    made_at(place, made)
}

// Each series with the time of its value, in seconds.
fn times_of(alloc: Global, items: Vec<Item<Spot>>) -> Result<Vec<Item<Num>>, AllocError>
    ensures { IfOk result (λ v. v.items ≡ map stamp_of items.items) }
{
    let mut times = Vec::new(alloc);
    for item in items {
        times.push(Item {
            labels: item.labels,
            value: seconds_of(item.value.time),
        })?;
    }
    Ok(times)
}

/// What `timestamp` gives of a selector: the time of each value that it shows, in seconds, without
/// the metric's name. (Prometheus: Querying, Functions, `timestamp`.)
///
/// # Errors
/// `Fault` where two elements have equal labels without their names, or `Memory` where memory runs
/// out.
pub fn stamped(alloc: Global, place: Place, items: Vec<Item<Spot>>) -> Result<Value, EvalError>
    ensures answer { AnswersTo (function_at place (told_apart (map with_time items.items))) result }
    ensures vector { IfOk result IsAnswer }
{
    let times = times_of(alloc, items)?;
    made_at(place, without_metrics(alloc, &times))
}
