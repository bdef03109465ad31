// The samples of a test, put into a head place by place.
ghost use Rattle.std.specs.Prelude.{◌≡◌, ℕ, ◌+◌, ◌*◌, ◌<◌, ◌∷◌, [], List, length, slice_get, Some, IfOk, IfSome, OnOk};
ghost use Rattle.std.specs.List.{filter_map};
ghost use Rattle.spec_tests.specs.pr_testfile.declared.inputs.input.InputSeries.{InputSeries};
ghost use Rattle.pr_slide.specs.spec_history.declared.entry.Entry.{Entry};
ghost use Rattle.pr_slide.specs.pr_head.private.Holds.{Holds, sets_of};
ghost use Rattle.pr_slide.specs.pr_head.private.Intake.{HasTaken};
ghost use Rattle.spec_tests.specs.pr_testfile.Series.{entries_at, entry_at};
ghost use Rattle.pr_unit.specs.private.Feeding.{HasFed, IsAt, IsFeeding};

use crate::feeding::numbers::number_of;
use crate::feeding::progress::{Progress, next_point};
use pr_ast::labels::Labels;
use pr_ast::time::Ms;
use pr_num::Point;
use pr_slide::head::{Append, Head};
use spec_tests::testfile::inputs::InputSeries;
use std::alloc::{AllocError, Global};
use std::marker::Model;

// How far a series has come, and its number in the head, which it has from its first sample on.
#[derive(Clone, Copy, Drop)]
struct SeriesFeed {
    progress: Progress,
    number: Option<usize>,
}

/// How far the series of a test have come. Contracts see that of each. A series is found in the
/// head by its number, without a search.
#[derive(Drop)]
pub struct Feed {
    each: Vec<SeriesFeed>,
}

impl Model for Feed {
    ghost use Rattle.std.specs.Prelude.{List, map};
    ghost use Rattle.pr_unit.specs.declared.feeding.progress.Progress.{Progress};

    ghost Value = { List Progress };

    ghost view = { λ f. map (λ s. s.progress) f.each.items };
}

// Appends a sample by the number of its series, where that is known.
fn append_by(
    head: &mut Head,
    labels: &Labels,
    number: Option<usize>,
    time: Ms,
    point: Point,
) -> Result<Append, AllocError>
    requires { IfSome number (λ n. slice_get (sets_of head.old) n ≡ Some labels.now) }
    ensures { (history : List Entry) → Holds head.old history
        → OnOk result (HasTaken head.old head.new history ((record { labels = labels.now; time = time; point = point }) ∷ [])) }
{
    match number {
        Some(known) => head.append_at(known, time, point),
        None => head.append(labels, time, point),
    }
}

// Puts a sample into the head, whatever is answered to it, and notes the number of its series.
fn put(
    head: &mut Head,
    labels: &Labels,
    number: &mut Option<usize>,
    time: Ms,
    point: Point,
) -> Result<(), AllocError>
    ensures { (history : List Entry) → Holds head.old history
        → OnOk result (HasTaken head.old head.new history ((record { labels = labels.now; time = time; point = point }) ∷ [])) }
{
    *number = number_of(head, labels, *number);
    match append_by(head, labels, *number, time, point) {
        Ok(_answer) => Ok(()),
        Err(error) => Err(error),
    }
}

// Puts what a series has at the next place.
fn put_next(
    head: &mut Head,
    series: &InputSeries,
    one: &mut SeriesFeed,
    time: Ms,
) -> Result<(), AllocError>
    ensures taken { (interval place : ℕ) (history : List Entry) → IsAt series.now.values place one.old.progress → time ≡ place * interval → Holds head.old history
        → OnOk result (HasTaken head.old head.new history (filter_map (entry_at interval place) (series.now ∷ []))) }
    ensures at { (place : ℕ) → IsAt series.now.values place one.old.progress → IsAt series.now.values (place + 1) one.new.progress }
{
    match next_point(series.values.as_slice(), &mut one.progress) {
        Some(point) => put(head, &series.labels, &mut one.number, time, point),
        None => Ok(()),
    }
}

impl Feed {
    /// All series stand at their first place.
    pub fn new(alloc: Global, series: &[InputSeries]) -> Result<Feed, AllocError>
        ensures { IfOk result (λ f. HasFed series.now 0 f) }
    {
        let mut each = Vec::new(alloc);
        for _one in series {
            each.push(SeriesFeed {
                progress: Progress {
                    stretch: 0,
                    within: 0,
                },
                number: None,
            })?;
        }
        Ok(Feed { each })
    }

    // Puts what the series with a number has at the next place.
    fn put_one(
        &mut self,
        head: &mut Head,
        series: &[InputSeries],
        number: usize,
        time: Ms,
    ) -> Result<(), AllocError>
        requires { number < length series.now }
        ensures taken { (interval place : ℕ) (history : List Entry) (s : InputSeries) → IsFeeding series.now place number self.old → slice_get series.now number ≡ Some s
            → time ≡ place * interval → Holds head.old history → OnOk result (HasTaken head.old head.new history (filter_map (entry_at interval place) (s ∷ []))) }
        ensures fed { (place : ℕ) → IsFeeding series.now place number self.old → OnOk result (IsFeeding series.now place (number + 1) self.new) }
    {
        if number >= self.each.len() {
            return Ok(());
        }
        let mut one = self.each[number];
        put_next(head, &series[number], &mut one, time)?;
        self.each[number] = one;
        Ok(())
    }

    /// Puts what all series have at the next place, in their order, whatever is answered to each
    /// sample. The place then lies behind.
    ///
    /// # Errors
    /// Want of memory: then it is used no more.
    pub fn put_place(
        &mut self,
        head: &mut Head,
        series: &[InputSeries],
        time: Ms,
    ) -> Result<(), AllocError>
        ensures taken { (interval place : ℕ) (history : List Entry) → HasFed series.now place self.old → time ≡ place * interval → Holds head.old history
            → OnOk result (HasTaken head.old head.new history (entries_at interval series.now place)) }
        ensures fed { (place : ℕ) → HasFed series.now place self.old → OnOk result (HasFed series.now (place + 1) self.new) }
    {
        'series: for number in 0..series.len() {
            self.put_one(head, series, number, time)?;
        }
        Ok(())
    }
}
