// The windows of one range selector.
ghost use Rattle.std.specs.Prelude.{◌≡◌, ◌≢◌, ◌+◌, ◌-◌, ◌*◌, ◌<◌, ◌≤◌, ◌++◌, ◌∷◌, [], ℕ, List, OnOk, Some, None, Err, cond, is_some, length, max, nat_eq, slice_get, true, unwrap_or};
ghost use Rattle.std.specs.Map.{keys_of, lookup};
ghost use Rattle.pr_head.specs.pr_labels.declared.pair.Pair.{Pair};
ghost use Rattle.pr_head.specs.private.Stored.{Stored, count_of, position_of};
ghost use Rattle.pr_range.specs.spec_vectors.Ranges.{over};
ghost use Rattle.pr_range.specs.declared.fault.RangeFault.TheVariants.{Memory};
ghost use Rattle.pr_range.specs.private.Answers.{AnswersAsk};
ghost use Rattle.pr_range.specs.private.Asks.{HasArgument, remembered};
ghost use Rattle.pr_range.specs.private.Spots.{AreWithin};
ghost use Rattle.pr_slide.specs.declared.window.SeriesWindow.{SeriesWindow};
ghost use Rattle.pr_slide.specs.private.Kinds.{saved_in, tells};
ghost use Rattle.pr_slide.specs.private.Windows.{IsPutIn, passed_in, saved_by, slid_spots, spots_in};

use crate::window::SeriesWindow;
use indexmap::IndexMap;
use pr_head::Head;
use pr_head::words_crate::Steps;
use pr_num::Num;
use pr_range::{Ask, RangeFault};
use std::alloc::Global;
use std::marker::Model;
use std::sync::ledger::Ledger;

/// The windows of a range selector, by the numbers of their series. Contracts see the number of the
/// selector and the windows.
#[derive(Drop)]
pub struct Node {
    number: usize,
    windows: IndexMap<usize, SeriesWindow>,
    // The place behind the window of the last ask: mostly that of the next one is there.
    next: usize,
}

impl Model for Node {
    ghost use Rattle.std.specs.Prelude.{ℕ, List};
    ghost use Rattle.pr_slide.specs.declared.window.SeriesWindow.{SeriesWindow};

    ghost Value = { ℕ × List (ℕ × SeriesWindow) };

    ghost view = { λ n. (n.number, n.windows.entries) };
}

impl Node {
    /// No windows yet.
    pub(crate) fn new(alloc: Global, number: usize) -> Node
        ensures { result ≡ (number, []) }
    {
        Node {
            number,
            windows: IndexMap::new(alloc),
            next: 0,
        }
    }

    /// The number of the range selector.
    pub(crate) fn number(&self) -> usize
        ensures { result ≡ self.now.0 }
    {
        self.number
    }

    /// Goes on under a new number, if there is one, and answers whether there is.
    pub(crate) fn go_on(&mut self, number: Option<usize>) -> bool
        ensures there { result ≡ is_some number }
        ensures under { self.new ≡ (unwrap_or number self.old.0, self.old.1) }
    {
        match number {
            Some(number) => {
                self.number = number;
                true
            }
            None => false,
        }
    }

    // Whether the window at a place is that of a series.
    fn stands_at(&self, place: usize, series: usize) -> bool
        ensures { result ≡ true → slice_get (keys_of self.now.1) place ≡ Some series }
    {
        match self.windows.get_index(place) {
            Some((found, _)) => *found == series,
            None => false,
        }
    }

    // The place of a series' window, or one behind all where it has none. It is looked for first
    // where it mostly is.
    fn place_of(&self, series: usize) -> usize
        ensures there { result < length self.now.1 → slice_get (keys_of self.now.1) result ≡ Some series }
        ensures none { length self.now.1 ≤ result → lookup (nat_eq series) self.now.1 ≡ None }
    {
        if self.stands_at(self.next, series) {
            return self.next;
        }
        match self.windows.get_index_of(&series) {
            Some(place) => place,
            None => self.windows.len(),
        }
    }

    // The same, and the next one is looked for behind it. Behind the last one is the first.
    fn go_to(&mut self, series: usize) -> usize
        ensures same { self.new ≡ self.old }
        ensures there { result < length self.old.1 → slice_get (keys_of self.old.1) result ≡ Some series }
        ensures none { length self.old.1 ≤ result → lookup (nat_eq series) self.old.1 ≡ None }
    {
        let place = self.place_of(series);
        let behind = place.saturating_add(1);
        self.next = if behind < self.windows.len() {
            behind
        } else {
            0
        };
        place
    }

    // The first ask for a series: a window of its own.
    fn begin<G: Ledger, L: Ledger>(
        &mut self,
        alloc: Global,
        head: &Head,
        series: usize,
        ask: &Ask,
        reads: &mut Steps<G>,
        looks: &mut Steps<L>,
    ) -> Result<Option<Num>, RangeFault>
        requires there { series < length head.now }
        requires argument { HasArgument ask.now }
        requires unknown { lookup (nat_eq series) self.old.1 ≡ None }
        ensures number { self.new.0 ≡ self.old.0 }
        ensures answer { (e : List Pair × Stored) → slice_get head.now series ≡ Some e → e.1.first ≤ position_of e.1 ask.now.from → position_of e.1 ask.now.to ≤ count_of e.1
            → AreWithin ask.now.from ask.now.to (slid_spots e.1 ask.now 0 []) → AnswersAsk (over ask.now (slid_spots e.1 ask.now 0 [])) result }
        ensures put { (e : List Pair × Stored) → slice_get head.now series ≡ Some e → e.1.first ≤ position_of e.1 ask.now.from → position_of e.1 ask.now.to ≤ count_of e.1
            → result ≢ Err Memory → IsPutIn e.1 ask.now series self.old.1 self.new.1 }
        ensures reads { (e : List Pair × Stored) → slice_get head.now series ≡ Some e
            → reads.new ≤ reads.old + (position_of e.1 ask.now.to - max (position_of e.1 ask.now.from) 0) }
        ensures looks { (w : SeriesWindow) → lookup (nat_eq series) self.new.1 ≡ Some w → tells ask.now.func w.spots ≡ true → result ≢ Err Memory → looks.new + saved_in w.spots + 3 * reads.old ≤ looks.old + 3 * reads.new + 1 }
    {
        let mut window = SeriesWindow::new(alloc, ask.func);
        let answer = window.ask(alloc, head, series, ask, reads, looks);
        match self.windows.insert(series, window) {
            Ok(_) => answer,
            Err(_) => Err(RangeFault::Memory),
        }
    }

    /// Goes on to a later range of a series, and answers its function.
    pub(crate) fn ask<G: Ledger, L: Ledger>(
        &mut self,
        alloc: Global,
        head: &Head,
        series: usize,
        ask: &Ask,
        reads: &mut Steps<G>,
        looks: &mut Steps<L>,
    ) -> Result<Option<Num>, RangeFault>
        requires there { series < length head.now }
        requires argument { HasArgument ask.now }
        ensures number { self.new.0 ≡ self.old.0 }
        ensures answer { (e : List Pair × Stored) → slice_get head.now series ≡ Some e → e.1.first ≤ position_of e.1 ask.now.from → position_of e.1 ask.now.to ≤ count_of e.1
            → AreWithin ask.now.from ask.now.to (slid_spots e.1 ask.now (passed_in (lookup (nat_eq series) self.old.1)) (spots_in (lookup (nat_eq series) self.old.1)))
            → AnswersAsk (over ask.now (slid_spots e.1 ask.now (passed_in (lookup (nat_eq series) self.old.1)) (spots_in (lookup (nat_eq series) self.old.1)))) result }
        ensures put { (e : List Pair × Stored) → slice_get head.now series ≡ Some e → e.1.first ≤ position_of e.1 ask.now.from → position_of e.1 ask.now.to ≤ count_of e.1
            → result ≢ Err Memory → IsPutIn e.1 ask.now series self.old.1 self.new.1 }
        ensures reads { (e : List Pair × Stored) → slice_get head.now series ≡ Some e
            → reads.new ≤ reads.old + (position_of e.1 ask.now.to - max (position_of e.1 ask.now.from) (passed_in (lookup (nat_eq series) self.old.1))) }
        ensures looks { (w : SeriesWindow) → lookup (nat_eq series) self.new.1 ≡ Some w → tells ask.now.func w.spots ≡ true → result ≢ Err Memory → looks.new + saved_in w.spots + 3 * reads.old ≤ looks.old + saved_by (lookup (nat_eq series) self.old.1) + 3 * reads.new + 1 }
    {
        let place = self.go_to(series);
        match self.windows.get_index_mut(place) {
            Some(window) => window.ask(alloc, head, series, ask, reads, looks),
            None => self.begin(alloc, head, series, ask, reads, looks),
        }
    }
}
