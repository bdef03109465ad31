// Ranges that go on.
ghost use Rattle.std.specs.Prelude.{◌≡◌, ◌≢◌, ◌+◌, ◌-◌, ◌*◌, ◌<◌, ◌≤◌, ◌≤ℤ◌, ◌++◌, ◌∷◌, [], ℕ, List, Option, Some, None, Err, IfOk, IfSome, OnOk, false, is_some, length, max, slice_get, true, unwrap_or};
ghost use Rattle.pr_head.specs.pr_labels.declared.pair.Pair.{Pair};
ghost use Rattle.pr_head.specs.spec_history.declared.entry.Entry.{Entry};
ghost use Rattle.pr_head.specs.spec_history.private.Laws.{entries_until};
ghost use Rattle.pr_head.specs.private.Stored.{Stored, count_of, position_of};
ghost use Rattle.pr_range.specs.spec_vectors.Ranges.{over};
ghost use Rattle.pr_range.specs.declared.fault.RangeFault.TheVariants.{Memory};
ghost use Rattle.pr_range.specs.private.Answers.{AnswersAsk};
ghost use Rattle.pr_range.specs.private.Asks.{AreMoved, HasArgument, IsAskAnswer, IsReadyToAsk, MayAsk};
ghost use Rattle.pr_range.specs.private.Carried.{IsOnce};
ghost use Rattle.pr_range.specs.private.Spots.{AreWithin};
ghost use Rattle.pr_slide.specs.private.Places.{IsNodePlace};
ghost use Rattle.pr_slide.specs.private.Carried.{carried, number_from};
ghost use Rattle.pr_slide.specs.declared.window.SeriesWindow.{SeriesWindow};
ghost use Rattle.pr_slide.specs.private.Kinds.{is_told, saved_in, tells};
ghost use Rattle.pr_slide.specs.private.Windows.{AreWindowsOf, IsPut, found, last_asks, passed_in, passed_of, saved_of, slid_spots, spots_in};

use crate::newer::number_near;
use crate::node::Node;
use crate::places::Places;
use pr_head::Head;
use pr_head::words_crate::Steps;
use pr_num::Num;
use pr_range::{Ask, PlainRanges, RangeFault, Ranges};
use std::alloc::{AllocError, Global};
use std::marker::{Brand, Model};
use std::sync::ledger::{Blank, Ledger};

/// Ranges that go on. The values of the last range of each range selector and series are kept, and
/// an ask reads only the samples that came after them, late ones among them. An ask inside a
/// subquery is read from the head anew, and leaves what is kept.
///
/// After want of memory it is used no more.
#[derive(Drop)]
pub struct SlidingRanges {
    nodes: Vec<Node>,
    places: Places,
    // The place of the range selector that was asked last: mostly the next ask is for the same one.
    near: usize,
    alloc: Global,
}

impl Model for SlidingRanges {
    ghost use Rattle.pr_slide.specs.private.Windows.{Nodes};
    ghost use Rattle.pr_slide.specs.private.Places.{AreStandingAt, numbers_of};

    ghost Value = { Nodes };

    ghost view = { λ r. r.nodes.items };

    ghost invariant = { λ r. AreStandingAt r.places (numbers_of r.nodes.items) };
}

// Gives the windows of a range selector their new number, if they go on, and answers whether they
// do. The number is looked for first behind the one that was found last.
fn renumber(node: &mut Node, from: &[Option<usize>], behind: &mut usize) -> bool
    ensures there { IsOnce from.now → result ≡ is_some (number_from node.old.0 from.now) }
    ensures under { IsOnce from.now → node.new ≡ (unwrap_or (number_from node.old.0 from.now) node.old.0, node.old.1) }
{
    let number = number_near(from, *behind, node.number());
    if let Some(found) = number {
        *behind = found.saturating_add(1);
    }
    node.go_on(number)
}

// Gives the windows that go on their new numbers, and lets the others go. Range selectors mostly
// keep their order, and then this goes over both lists once.
fn renumber_all(nodes: &mut Vec<Node>, from: &[Option<usize>])
    requires once { IsOnce from.now }
    ensures { nodes.new.items ≡ carried from.now nodes.old.items }
{
    let mut behind = 0;
    nodes.retain_mut(|node| renumber(node, from, &mut behind));
}

impl SlidingRanges {
    /// Nothing was asked yet.
    pub fn new(alloc: Global) -> SlidingRanges
        ensures empty { result ≡ [] }
        ensures fits { (history : List Entry) → AreWindowsOf result history }
    {
        SlidingRanges {
            nodes: Vec::new(alloc),
            places: Places::new(alloc),
            near: 0,
            alloc,
        }
    }

    // Whether the windows of a range selector stand at a place.
    fn stands_at(&self, place: usize, node: usize) -> bool
        ensures { result ≡ true → IsNodePlace node place self.now }
    {
        match self.nodes.get(place) {
            Some(found) => found.number() == node,
            None => false,
        }
    }

    // Where the windows of a range selector stand, if it is where those of the last ask do, or the
    // place behind. Behind the last one is the first.
    fn place_near(&self, node: usize) -> Option<usize>
        ensures { IfSome result (λ i. IsNodePlace node i self.now) }
    {
        if self.stands_at(self.near, node) {
            return Some(self.near);
        }
        let behind = self.near.saturating_add(1);
        let next = if behind < self.nodes.len() { behind } else { 0 };
        if self.stands_at(next, node) {
            Some(next)
        } else {
            None
        }
    }

    // The same by the number, be it that there are none yet.
    fn place_by_number(&mut self, node: usize) -> Result<usize, AllocError>
        ensures place { IfOk result (λ i. IsNodePlace node i self.new) }
        ensures same { OnOk result ((k q : ℕ) → found self.new k q ≡ found self.old k q) }
    {
        self.places.note_all(&self.nodes)?;
        match self.places.place_of(node) {
            Some(place) => Ok(place),
            None => {
                self.nodes.push(Node::new(self.alloc, node))?;
                Ok(self.nodes.len() - 1)
            }
        }
    }

    // Where the windows of a range selector stand, be it that there are none yet.
    fn place_for(&mut self, node: usize) -> Result<usize, AllocError>
        ensures place { IfOk result (λ i. IsNodePlace node i self.new) }
        ensures same { OnOk result ((k q : ℕ) → found self.new k q ≡ found self.old k q) }
    {
        match self.place_near(node) {
            Some(place) => Ok(place),
            None => self.place_by_number(node),
        }
    }

    // An ask of the windows at a place.
    fn ask_at<G: Ledger, L: Ledger>(
        &mut self,
        head: &Head,
        place: usize,
        node: usize,
        series: usize,
        ask: &Ask,
        reads: &mut Steps<G>,
        looks: &mut Steps<L>,
    ) -> Result<Option<Num>, RangeFault>
        requires there { series < length head.now }
        requires argument { HasArgument ask.now }
        requires place { IsNodePlace node place self.old }
        ensures answer { (e : List Pair × Stored) → slice_get head.now series ≡ Some e → e.1.first ≤ position_of e.1 ask.now.from → position_of e.1 ask.now.to ≤ count_of e.1
            → AreWithin ask.now.from ask.now.to (slid_spots e.1 ask.now (passed_in (found self.old node series)) (spots_in (found self.old node series)))
            → AnswersAsk (over ask.now (slid_spots e.1 ask.now (passed_in (found self.old node series)) (spots_in (found self.old node series)))) result }
        ensures put { (e : List Pair × Stored) → slice_get head.now series ≡ Some e → e.1.first ≤ position_of e.1 ask.now.from → position_of e.1 ask.now.to ≤ count_of e.1
            → result ≢ Err Memory → IsPut e.1 ask.now node series self.old self.new }
        ensures reads { (e : List Pair × Stored) → slice_get head.now series ≡ Some e
            → reads.new ≤ reads.old + (position_of e.1 ask.now.to - max (position_of e.1 ask.now.from) (passed_in (found self.old node series))) }
        ensures looks { (w : SeriesWindow) → found self.new node series ≡ Some w → tells ask.now.func w.spots ≡ true → result ≢ Err Memory → looks.new + saved_in w.spots + 3 * reads.old ≤ looks.old + saved_of self.old node series + 3 * reads.new + 1 }
    {
        self.near = place;
        self.nodes[place].ask(self.alloc, head, series, ask, reads, looks)
    }

    // An ask outside subqueries: the window goes on.
    fn ask_outside<G: Ledger, L: Ledger>(
        &mut self,
        head: &Head,
        node: usize,
        series: usize,
        ask: &Ask,
        reads: &mut Steps<G>,
        looks: &mut Steps<L>,
    ) -> Result<Option<Num>, RangeFault>
        requires there { series < length head.now }
        requires argument { HasArgument ask.now }
        ensures answer { (e : List Pair × Stored) → slice_get head.now series ≡ Some e → e.1.first ≤ position_of e.1 ask.now.from → position_of e.1 ask.now.to ≤ count_of e.1
            → AreWithin ask.now.from ask.now.to (slid_spots e.1 ask.now (passed_in (found self.old node series)) (spots_in (found self.old node series)))
            → AnswersAsk (over ask.now (slid_spots e.1 ask.now (passed_in (found self.old node series)) (spots_in (found self.old node series)))) result }
        ensures put { (e : List Pair × Stored) → slice_get head.now series ≡ Some e → e.1.first ≤ position_of e.1 ask.now.from → position_of e.1 ask.now.to ≤ count_of e.1
            → result ≢ Err Memory → IsPut e.1 ask.now node series self.old self.new }
        ensures reads { (e : List Pair × Stored) → slice_get head.now series ≡ Some e
            → reads.new ≤ reads.old + (position_of e.1 ask.now.to - max (position_of e.1 ask.now.from) (passed_in (found self.old node series))) }
        ensures looks { (w : SeriesWindow) → found self.new node series ≡ Some w → tells ask.now.func w.spots ≡ true → result ≢ Err Memory → looks.new + saved_in w.spots + 3 * reads.old ≤ looks.old + saved_of self.old node series + 3 * reads.new + 1 }
    {
        match self.place_for(node) {
            Ok(place) => self.ask_at(head, place, node, series, ask, reads, looks),
            Err(_) => Err(RangeFault::Memory),
        }
    }
}

impl SlidingRanges {
    /// The same as `ask` of the trait, outside subqueries, with the looks that it takes: each value
    /// that is handed out to be gone over, or is moved, is one, and so is each call for combining.
    ///
    /// Where what is kept with the values tells the function, there are three at most for each sample
    /// that is read and one for the ask, and what is saved up counts. So it does not go over its
    /// window. The other functions do: the last value, the last two, quantiles and lines.
    pub fn ask_counted<G: Ledger, L: Ledger>(
        &mut self,
        head: &Head,
        node: usize,
        series: usize,
        ask: &Ask,
        reads: &mut Steps<G>,
        looks: &mut Steps<L>,
    ) -> Result<Option<Num>, RangeFault>
        requires there { series < length head.now }
        requires ordered { ask.now.from ≤ℤ ask.now.to }
        requires outside { ask.now.inside ≡ false }
        requires argument { HasArgument ask.now }
        ensures answer { (history : List Entry) (labels : List Pair) → MayAsk head.now history series labels ask.now → AreWindowsOf self.old history → IsReadyToAsk (last_asks self.old) node series ask.now
            → IsAskAnswer history labels ask.now (passed_of self.old node series) reads.old reads.new result }
        ensures fits { (history : List Entry) (labels : List Pair) → MayAsk head.now history series labels ask.now → AreWindowsOf self.old history → IsReadyToAsk (last_asks self.old) node series ask.now
            → result ≢ Err Memory → AreWindowsOf self.new history }
        ensures moved { (history : List Entry) (labels : List Pair) → MayAsk head.now history series labels ask.now → AreWindowsOf self.old history → IsReadyToAsk (last_asks self.old) node series ask.now
            → result ≢ Err Memory → AreMoved true node series ask.now (entries_until history labels ask.now.to) (last_asks self.old) (last_asks self.new) (passed_of self.old) (passed_of self.new) }
        ensures looks { (history : List Entry) (labels : List Pair) → MayAsk head.now history series labels ask.now → AreWindowsOf self.old history → IsReadyToAsk (last_asks self.old) node series ask.now
            → is_told ask.now.func ≡ true → result ≢ Err Memory
            → looks.new + saved_of self.new node series ≤ looks.old + saved_of self.old node series + 3 * (reads.new - reads.old) + 1 }
    {
        self.ask_outside(head, node, series, ask, reads, looks)
    }

    // The same, where nobody asks how many looks it takes.
    fn ask_uncounted<G: Ledger, L: Ledger>(
        &mut self,
        head: &Head,
        node: usize,
        series: usize,
        ask: &Ask,
        reads: &mut Steps<G>,
        blank: Blank,
    ) -> Result<Option<Num>, RangeFault>
        requires there { series < length head.now }
        requires ordered { ask.now.from ≤ℤ ask.now.to }
        requires outside { ask.now.inside ≡ false }
        requires argument { HasArgument ask.now }
        requires name { blank.name ≡ L.name }
        requires parts { blank.parts ≡ L.parts }
        requires some { 0 < L.parts }
        ensures answer { (history : List Entry) (labels : List Pair) → MayAsk head.now history series labels ask.now → AreWindowsOf self.old history → IsReadyToAsk (last_asks self.old) node series ask.now
            → IsAskAnswer history labels ask.now (passed_of self.old node series) reads.old reads.new result }
        ensures fits { (history : List Entry) (labels : List Pair) → MayAsk head.now history series labels ask.now → AreWindowsOf self.old history → IsReadyToAsk (last_asks self.old) node series ask.now
            → result ≢ Err Memory → AreWindowsOf self.new history }
        ensures moved { (history : List Entry) (labels : List Pair) → MayAsk head.now history series labels ask.now → AreWindowsOf self.old history → IsReadyToAsk (last_asks self.old) node series ask.now
            → result ≢ Err Memory → AreMoved true node series ask.now (entries_until history labels ask.now.to) (last_asks self.old) (last_asks self.new) (passed_of self.old) (passed_of self.new) }
    {
        let mut looks: Steps<L> = Steps::new(blank);
        self.ask_counted(head, node, series, ask, reads, &mut looks)
    }
}

impl Ranges for SlidingRanges {
    ghost use Rattle.std.specs.Prelude.{true};
    ghost use Rattle.pr_slide.specs.private.Windows.{AreWindowsOf, last_asks, passed_of};
    ghost use Rattle.pr_slide.specs.private.Growing.{fits_more};

    ghost keeps = { true };

    ghost last = { last_asks };

    ghost passed = { passed_of };

    ghost fits = { AreWindowsOf };

    fn empty(alloc: Global) -> SlidingRanges {
        SlidingRanges::new(alloc)
    }

    fn ask<G: Ledger>(
        &mut self,
        head: &Head,
        node: usize,
        series: usize,
        ask: &Ask,
        reads: &mut Steps<G>,
    ) -> Result<Option<Num>, RangeFault> {
        if ask.inside {
            return PlainRanges::new(self.alloc).ask(head, node, series, ask, reads);
        }
        self.ask_uncounted::<G, Brand>(head, node, series, ask, reads, Blank::new(1))
    }

    fn carry(&mut self, old: SlidingRanges, from: &[Option<usize>]) {
        let mut nodes = old.nodes;
        renumber_all(&mut nodes, from);
        self.nodes = nodes;
        self.places = Places::new(self.alloc);
        self.near = 0;
    }

    ghost stays = { λ r history e lawful h. fits_more r history e h };
}
