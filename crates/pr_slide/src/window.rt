// One window: the values of the last range of a series.
ghost use Rattle.std.specs.Prelude.{◌≡◌, ◌≢◌, ◌+◌, ◌-◌, ◌*◌, ◌<◌, ◌≤◌, ◌++◌, ◌∷◌, [], ℕ, List, OnOk, Some, Err, length, max, slice_get, true};
ghost use Rattle.pr_head.specs.pr_labels.declared.pair.Pair.{Pair};
ghost use Rattle.pr_head.specs.private.Stored.{Stored, count_of, position_of};
ghost use Rattle.pr_range.specs.spec_vectors.declared.range.RangeFn.{RangeFn};
ghost use Rattle.pr_range.specs.spec_vectors.Ranges.{over};
ghost use Rattle.pr_range.specs.declared.fault.RangeFault.TheVariants.{Memory};
ghost use Rattle.pr_range.specs.private.Answers.{AnswersAsk};
ghost use Rattle.pr_range.specs.private.Asks.{HasArgument, remembered};
ghost use Rattle.pr_range.specs.private.Spots.{AreWithin, samples_between, spots_of};
ghost use Rattle.pr_slide.specs.private.Kinds.{GoOn, is_told, kept_in, saved_in, tells};
ghost use Rattle.pr_slide.specs.private.Successions.{is_rising};
ghost use Rattle.pr_slide.specs.private.Windows.{last_in, slid_spots};

use crate::spots::Spots;
use pr_head::history::Spot;
use pr_head::words_crate::Steps;
use pr_head::{Head, Timed};
use pr_num::Num;
use pr_range::{Ask, RangeFault, RangeFn};
use std::alloc::{AllocError, Global};
use std::sync::ledger::Ledger;

/// What is kept of a series for a range selector: the function and the range of its last ask, how
/// many samples of the series were passed, and the values of those of them that are after the start
/// of the range.
#[derive(Drop)]
pub struct SeriesWindow {
    pub(crate) func: RangeFn,
    pub(crate) from: i64,
    pub(crate) to: i64,
    pub(crate) passed: u64,
    pub(crate) spots: Spots,
}

// Puts the value of a sample at the end, if it has one.
fn push_spot<L: Ledger>(
    spots: &mut Spots,
    sample: &Timed,
    looks: &mut Steps<L>,
) -> Result<(), AllocError>
    ensures items { OnOk result (kept_in spots.new ≡ kept_in spots.old ++ spots_of (sample.now ∷ [])) }
    ensures told { OnOk result (GoOn spots.old spots.new) }
    ensures looks { looks.new + saved_in spots.new ≤ looks.old + saved_in spots.old + 3 }
{
    let number: Option<Num> = sample.number();
    match number {
        Some(value) => {
            let spot = Spot {
                time: sample.time,
                value,
            };
            spots.push(spot, looks)?;
            Ok(())
        }
        None => Ok(()),
    }
}

// One sample of a series that is held, put at the end if it has a value.
fn push_at<G: Ledger, L: Ledger>(
    spots: &mut Spots,
    head: &Head,
    series: usize,
    place: u64,
    reads: &mut Steps<G>,
    looks: &mut Steps<L>,
) -> Result<(), AllocError>
    ensures spots { (e : List Pair × Stored) → slice_get head.now series ≡ Some e → e.1.first ≤ place → place < count_of e.1
        → OnOk result (kept_in spots.new ≡ kept_in spots.old ++ spots_of (samples_between e.1 place (place + 1))) }
    ensures told { OnOk result (GoOn spots.old spots.new) }
    ensures reads { reads.new ≡ reads.old + 1 }
    ensures looks { looks.new + saved_in spots.new ≤ looks.old + saved_in spots.old + 3 }
{
    match head.sample(series, place, reads) {
        Some(sample) => push_spot(spots, &sample, looks),
        None => Ok(()),
    }
}

// Puts the values of the samples of a series, from one place to another, at the end.
fn push_between<G: Ledger, L: Ledger>(
    spots: &mut Spots,
    head: &Head,
    series: usize,
    from: u64,
    to: u64,
    reads: &mut Steps<G>,
    looks: &mut Steps<L>,
) -> Result<(), AllocError>
    ensures spots { (e : List Pair × Stored) → slice_get head.now series ≡ Some e → e.1.first ≤ from → to ≤ count_of e.1
        → OnOk result (kept_in spots.new ≡ kept_in spots.old ++ spots_of (samples_between e.1 from to)) }
    ensures told { OnOk result (GoOn spots.old spots.new) }
    ensures reads { reads.new ≤ reads.old + (to - from) }
    ensures looks { looks.new + saved_in spots.new + 3 * reads.old ≤ looks.old + saved_in spots.old + 3 * reads.new }
{
    for place in from..to {
        push_at(spots, head, series, place, reads, looks)?;
    }
    Ok(())
}

impl SeriesWindow {
    /// Nothing was passed yet.
    pub(crate) fn new(alloc: Global, func: RangeFn) -> SeriesWindow
        ensures passed { result.passed ≡ 0 }
        ensures spots { kept_in result.spots ≡ [] }
        ensures saved { saved_in result.spots ≡ 0 }
        ensures told { tells func result.spots ≡ is_told func }
    {
        SeriesWindow {
            func,
            from: 0,
            to: 0,
            passed: 0,
            spots: Spots::new(alloc, func),
        }
    }

    // Goes on to a later range: the values that are not after its start go, and what was not passed
    // yet comes, be it late or not.
    fn slide<G: Ledger, L: Ledger>(
        &mut self,
        head: &Head,
        series: usize,
        ask: &Ask,
        reads: &mut Steps<G>,
        looks: &mut Steps<L>,
    ) -> Result<(), AllocError>
        requires there { series < length head.now }
        ensures last { OnOk result (last_in self.new ≡ remembered ask.now) }
        ensures passed { (e : List Pair × Stored) → slice_get head.now series ≡ Some e → OnOk result (self.new.passed ≡ position_of e.1 ask.now.to) }
        ensures spots { (e : List Pair × Stored) → slice_get head.now series ≡ Some e → e.1.first ≤ position_of e.1 ask.now.from → position_of e.1 ask.now.to ≤ count_of e.1
            → OnOk result (kept_in self.new.spots ≡ slid_spots e.1 ask.now self.old.passed (kept_in self.old.spots)) }
        ensures told { OnOk result ((func : RangeFn) → tells func self.old.spots ≡ true → is_rising (kept_in self.new.spots) ≡ true → tells func self.new.spots ≡ true) }
        ensures looks { looks.new + saved_in self.new.spots + 3 * reads.old ≤ looks.old + saved_in self.old.spots + 3 * reads.new }
        ensures reads { (e : List Pair × Stored) → slice_get head.now series ≡ Some e
            → reads.new ≤ reads.old + (position_of e.1 ask.now.to - max (position_of e.1 ask.now.from) self.old.passed) }
    {
        let Ask {
            from: start,
            to: end,
            func,
            ..
        } = *ask;
        let from = head.position_not_before(series, start, self.passed);
        let to = head.position_near(series, end, self.passed);
        self.spots.drop_until(start, looks);
        push_between(&mut self.spots, head, series, from, to, reads, looks)?;
        self.func = func;
        self.from = start;
        self.to = end;
        self.passed = to;
        Ok(())
    }

    // Nothing is kept any more, as before the first ask.
    fn forget(&mut self, alloc: Global)
        ensures passed { self.new.passed ≡ 0 }
        ensures spots { kept_in self.new.spots ≡ [] }
        ensures saved { saved_in self.new.spots ≡ 0 }
    {
        self.passed = 0;
        self.spots = Spots::new(alloc, self.func);
    }

    /// Goes on to a later range, and answers its function.
    pub(crate) fn ask<G: Ledger, L: Ledger>(
        &mut self,
        alloc: Global,
        head: &Head,
        series: usize,
        ask: &Ask,
        reads: &mut Steps<G>,
        looks: &mut Steps<L>,
    ) -> Result<Option<Num>, RangeFault>
        requires there { series < length head.now }
        requires argument { HasArgument ask.now }
        ensures answer { (e : List Pair × Stored) → slice_get head.now series ≡ Some e → e.1.first ≤ position_of e.1 ask.now.from → position_of e.1 ask.now.to ≤ count_of e.1
            → AreWithin ask.now.from ask.now.to (slid_spots e.1 ask.now self.old.passed (kept_in self.old.spots))
            → AnswersAsk (over ask.now (slid_spots e.1 ask.now self.old.passed (kept_in self.old.spots))) result }
        ensures last { result ≢ Err Memory → last_in self.new ≡ remembered ask.now }
        ensures passed { (e : List Pair × Stored) → slice_get head.now series ≡ Some e → result ≢ Err Memory → self.new.passed ≡ position_of e.1 ask.now.to }
        ensures spots { (e : List Pair × Stored) → slice_get head.now series ≡ Some e → e.1.first ≤ position_of e.1 ask.now.from → position_of e.1 ask.now.to ≤ count_of e.1
            → result ≢ Err Memory → kept_in self.new.spots ≡ slid_spots e.1 ask.now self.old.passed (kept_in self.old.spots) }
        ensures told { result ≢ Err Memory → is_told ask.now.func ≡ true → tells ask.now.func self.old.spots ≡ true → is_rising (kept_in self.new.spots) ≡ true → tells ask.now.func self.new.spots ≡ true }
        ensures looks { tells ask.now.func self.new.spots ≡ true → looks.new + saved_in self.new.spots + 3 * reads.old ≤ looks.old + saved_in self.old.spots + 3 * reads.new + 1 }
        ensures reads { (e : List Pair × Stored) → slice_get head.now series ≡ Some e
            → reads.new ≤ reads.old + (position_of e.1 ask.now.to - max (position_of e.1 ask.now.from) self.old.passed) }
    {
        match self.slide(head, series, ask, reads, looks) {
            Ok(()) => {
                self.spots.give_back(alloc, ask.func);
                self.spots.answer(alloc, ask, looks)
            }
            Err(_) => {
                self.forget(alloc);
                Err(RangeFault::Memory)
            }
        }
    }
}
