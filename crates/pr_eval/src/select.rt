// The series that a selector chooses, and what they show.
ghost use Rattle.std.specs.Prelude.{◌≡◌, ◌+◌, ◌<◌, ◌≤◌, ◌++◌, ◌∷◌, [], List, map, IfOk, OnOk, length, cond, None};
ghost use Rattle.std.specs.List.{All};
ghost use Rattle.pr_labels.specs.Rising.{IsRising};
ghost use Rattle.pr_range.specs.spec_history.declared.entry.Entry.{Entry};
ghost use Rattle.pr_range.specs.spec_history.Lookback.{is_recent};
ghost use Rattle.pr_range.specs.pr_head.private.Holds.{Holds};
ghost use Rattle.pr_range.specs.pr_head.private.Reads.{shown_of, spot_shown};
ghost use Rattle.spec_meaning.specs.pr_types.Selectors.{tests_of};
ghost use Rattle.spec_meaning.specs.Selection.{chosen_by, moment_of, selected_spots, valued};
ghost use Rattle.pr_eval.specs.private.Looks.{KeepsAt};
ghost use Rattle.pr_eval.specs.private.Reading.{items_read};

use crate::range_calls::{chosen_series, labels_of_series};
use pr_ast::Selector;
use pr_ast::time::Ms;
use pr_fn::matching::Matcher;
use pr_labels::Item;
use pr_labels::words_crate::Steps;
use pr_num::{Num, Point};
use pr_range::head::{Head, Timed};
use pr_range::history::Spot;
use std::alloc::{AllocError, Global};
use std::sync::ledger::Ledger;

/// Five minutes, in milliseconds.
const LOOKBACK: u64 = 300_000;

fn is_recent(x: i64, time: Ms) -> bool
    ensures { result ≡ is_recent x time }
{
    if x < 0 {
        return false;
    }
    let now = x as u64;
    let then = time.get();
    now < then + LOOKBACK && then <= now
}

// What a sample shows at a moment: its value with its time, where it is recent and no marker.
fn spot_of(x: i64, sample: &Timed) -> Option<Spot>
    ensures { result ≡ cond (is_recent x sample.now.time) (shown_of sample.now) None }
{
    if !is_recent(x, sample.time) {
        return None;
    }
    let value: Num = sample.number()?;
    Some(Spot {
        time: sample.time,
        value,
    })
}

// What a series shows at a moment, by its newest sample until then.
fn spot_shown(x: i64, newest: Option<Timed>) -> Option<Spot>
    ensures { result ≡ spot_shown x newest }
{
    match newest {
        Some(Timed { time, point }) => {
            let point: Point = point;
            spot_of(x, &Timed { time, point })
        }
        None => None,
    }
}

// Puts what a series shows at the end, where it shows something.
fn push_read<G: Ledger>(
    alloc: Global,
    head: &Head,
    series: usize,
    x: i64,
    items: &mut Vec<Item<Spot>>,
    reads: &mut Steps<G>,
) -> Result<(), AllocError>
    requires { series < length head.now }
    ensures items { OnOk result (items.new.items ≡ items.old.items ++ items_read head.now x (series ∷ [])) }
    ensures reads { reads.new ≡ reads.old + 1 }
{
    match spot_shown(x, head.newest_at(series, x, reads)) {
        Some(spot) => {
            items.push(Item {
                labels: labels_of_series(head, series).copy(alloc)?,
                value: spot,
            })?;
            Ok(())
        }
        None => Ok(()),
    }
}

// What these series show at a moment, with its time. One read a series.
fn read_all<G: Ledger>(
    alloc: Global,
    head: &Head,
    numbers: &[usize],
    x: i64,
    reads: &mut Steps<G>,
) -> Result<Vec<Item<Spot>>, AllocError>
    requires { All (λ i. i < length head.now) numbers.now }
    ensures items { IfOk result (λ v. v.items ≡ items_read head.now x numbers.now) }
    ensures reads { reads.new ≤ reads.old + length numbers.now }
{
    let mut items = Vec::with_capacity(alloc, numbers.len())?;
    for series in numbers {
        push_read(alloc, head, *series, x, &mut items, reads)?;
    }
    Ok(items)
}

/// The chosen series with what they show at a time less the offset, each with the time of its
/// value.
#[tactic(auto, using(crate::proofs::Reading::spots_are, crate::proofs::Reading::spots_rise, crate::proofs::Reading::as_many))]
pub(crate) fn selected_spots<G: Ledger>(
    alloc: Global,
    head: &Head,
    selector: &Selector,
    matchers: &[Matcher],
    time: Ms,
    reads: &mut Steps<G>,
) -> Result<Vec<Item<Spot>>, AllocError>
    requires { matchers.now ≡ tests_of selector.now }
    ensures items { (history : List Entry) → KeepsAt head.now history (moment_of selector.now time) → IfOk result (λ v. v.items ≡ selected_spots history selector.now time) }
    ensures rising { IfOk result (λ v. IsRising (map (λ e. e.labels) v.items)) }
    ensures reads { (history : List Entry) → Holds head.now history → reads.new ≤ reads.old + length (chosen_by selector.now history) }
{
    let numbers = chosen_series(alloc, head, selector, matchers)?;
    let moment = time.minus(selector.offset);
    let items = read_all(alloc, head, &numbers, moment, reads)?;
    Ok(items)
}

/// The same series with their values alone.
pub(crate) fn valued(alloc: Global, items: Vec<Item<Spot>>) -> Result<Vec<Item<Num>>, AllocError>
    ensures { IfOk result (λ v. v.items ≡ map valued items.items) }
{
    let mut values = Vec::with_capacity(alloc, items.len())?;
    for item in items {
        values.push(Item {
            labels: item.labels,
            value: item.value.value,
        })?;
    }
    Ok(values)
}
