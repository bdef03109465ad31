mod select;

use crate::index::Index;
use crate::series::Series;
use crate::timed::Timed;
use indexmap::IndexMap;
use pr_labels::Labels;
use pr_labels::words_crate::Steps;
use spec_history::Append;
use spec_history::num::Point;
use spec_history::time::Ms;
use std::alloc::{AllocError, Global};
use std::marker::Model;
use std::sync::ledger::Ledger;

/// The samples that are held. Contracts see the list of the series, each with its labels and what
/// is held of it.
#[derive(Drop)]
pub struct Head {
    series: IndexMap<Labels, Series>,
    index: Index,
    // No held sample is older.
    oldest: u64,
    // The number after that of the series that last got a sample other than its first: the next
    // sample is mostly of the series with this number.
    next: usize,
    alloc: Global,
}

impl Model for Head {
    ghost use Rattle.std.specs.Prelude.{List};
    ghost use Rattle.pr_labels.specs.declared.pair.Pair.{Pair};
    ghost use Rattle.pr_head.specs.private.Stored.{Stored};

    ghost Value = { List (List Pair × Stored) };

    ghost view = { λ h. h.series.entries };

    ghost use Rattle.pr_head.specs.private.Holds.{sets_of};
    ghost use Rattle.pr_head.specs.private.Index.{IsIndexed};
    ghost use Rattle.pr_head.specs.private.Oldest.{AreSince};

    ghost invariant = { λ h. IsIndexed h.index.all h.index.by_label (sets_of h.series.entries) × AreSince h.oldest h.series.entries };
}

ghost use Rattle.std.specs.Prelude.{◌≡◌, ◌↔◌, ◌+◌, ◌<◌, ◌≤◌, ◌≤ℤ◌, true, ◌++◌, ◌∷◌, [], ℤ, length, max, slice_get, List, Some, None, IfOk, IfSome, IfNone, OnOk, OnErr, option_and_then};
ghost use Rattle.std.specs.Map.{lookup};
ghost use Rattle.std.specs.Option.{option_copied, option_map};
ghost use Rattle.indexmap.specs.IndexMap.{set_value_at};
ghost use Rattle.pr_labels.specs.declared.pair.Pair.{Pair};
ghost use Rattle.pr_labels.specs.Order.{labels_eq};
ghost use Rattle.spec_history.specs.declared.entry.Entry.{Entry};
ghost use Rattle.spec_history.specs.Admission.{admit, put};
ghost use Rattle.spec_history.specs.private.Laws.{IsLawful};
ghost use Rattle.spec_history.specs.Lookback.{is_after};
ghost use Rattle.pr_head.specs.private.Stored.{Stored, admission, after_push, begun, count_of, newest_at, position_of, sample_at, trimmed};
ghost use Rattle.pr_head.specs.private.Oldest.{AreSince};
ghost use Rattle.pr_head.specs.private.Holds.{entry_of, sets_of, Holds, IsWhole};

// The earlier of two times.
fn earlier(a: u64, b: u64) -> u64
    ensures first { result ≤ a }
    ensures second { result ≤ b }
{
    if a < b { a } else { b }
}

// Whether a time is later than a moment.
fn is_later(moment: i64, time: u64) -> bool
    ensures { result ≡ is_after moment time }
{
    moment < 0 || time > moment as u64
}

// A time before which no held sample of these series stands.
fn oldest_of(series: &IndexMap<Labels, Series>) -> u64
    ensures { AreSince result series.now.entries }
{
    let mut oldest = u64::MAX;
    for number in 0..series.len() {
        oldest = earlier(oldest, series[number].oldest());
    }
    oldest
}

impl Head {
    /// No series yet: it stands for the empty history, of which nothing is forgotten.
    pub fn new(alloc: Global) -> Head
        ensures empty { result ≡ [] }
        ensures holds { Holds result [] }
        ensures whole { (history : List Entry) (x : ℤ) → IsWhole result history x }
    {
        Head {
            series: IndexMap::new(alloc),
            index: Index::new(alloc),
            oldest: u64::MAX,
            next: 0,
            alloc,
        }
    }

    /// How many series there are.
    pub fn series_count(&self) -> usize
        ensures { result ≡ length self.now }
    {
        self.series.len()
    }

    /// The labels of a series.
    pub fn labels(&self, series: usize) -> Option<&Labels>
        ensures { option_copied result ≡ option_map (λ e. e.0) (slice_get self.now series) }
    {
        match self.series.get_index(series) {
            Some((labels, _)) => Some(labels),
            None => None,
        }
    }

    // What is held of a series.
    fn held(&self, series: usize) -> Option<&Series>
        ensures { option_copied result ≡ option_map (λ e. e.1) (slice_get self.now series) }
    {
        match self.series.get_index(series) {
            Some((_, held)) => Some(held),
            None => None,
        }
    }

    /// How many samples of a series were ever added.
    pub fn count(&self, series: usize) -> Option<u64>
        ensures { result ≡ option_map (λ e. count_of e.1) (slice_get self.now series) }
    {
        match self.held(series) {
            Some(held) => Some(held.count()),
            None => None,
        }
    }

    /// The place of the first sample of a series that is held.
    pub fn first(&self, series: usize) -> Option<u64>
        ensures { result ≡ option_map (λ e. e.1.first) (slice_get self.now series) }
    {
        match self.held(series) {
            Some(held) => Some(held.first()),
            None => None,
        }
    }

    /// The place of the first held sample of a series above a time, or the count.
    pub fn position(&self, series: usize, time: i64) -> Option<u64>
        ensures { result ≡ option_map (λ e. position_of e.1 time) (slice_get self.now series) }
    {
        match self.held(series) {
            Some(held) => Some(held.position(time)),
            None => None,
        }
    }

    /// The place of the first held sample of a series above a time, or the count; 0 for an unknown
    /// series. It is found at once where it is a place that is given, or the next one: so where a
    /// later time is asked of a series that is little longer than before.
    pub fn position_near(&self, series: usize, time: i64, near: u64) -> u64
        ensures known { (e : List Pair × Stored) → slice_get self.now series ≡ Some e → result ≡ position_of e.1 time }
        ensures unknown { slice_get self.now series ≡ None → result ≡ 0 }
    {
        match self.held(series) {
            Some(held) => held.position_near(time, near),
            None => 0,
        }
    }

    /// The place of the first held sample of a series above a time, or the count, but not before a
    /// place that is given; that place for an unknown series. It takes one look where the place is
    /// the count or above, or the sample there is above the time.
    pub fn position_not_before(&self, series: usize, time: i64, place: u64) -> u64
        ensures known { (e : List Pair × Stored) → slice_get self.now series ≡ Some e → result ≡ max (position_of e.1 time) place }
        ensures unknown { slice_get self.now series ≡ None → result ≡ place }
    {
        match self.held(series) {
            Some(held) => held.position_not_before(time, place),
            None => place,
        }
    }

    /// The held sample of a series at a place. One step.
    pub fn sample<G: Ledger>(
        &self,
        series: usize,
        index: u64,
        reads: &mut Steps<G>,
    ) -> Option<Timed>
        ensures value { result ≡ option_and_then (λ e. sample_at e.1 index) (slice_get self.now series) }
        ensures step { reads.new ≡ reads.old + 1 }
    {
        reads.tick();
        match self.held(series) {
            Some(held) => held.sample(index),
            None => None,
        }
    }

    /// The newest held sample of a series at or before a time. One step.
    pub fn newest_at<G: Ledger>(
        &self,
        series: usize,
        time: i64,
        reads: &mut Steps<G>,
    ) -> Option<Timed>
        ensures value { result ≡ option_and_then (λ e. newest_at e.1 time) (slice_get self.now series) }
        ensures step { reads.new ≡ reads.old + 1 }
    {
        reads.tick();
        match self.held(series) {
            Some(held) => held.newest_at(time),
            None => None,
        }
    }

    /// The number of the series with these labels, where there is one. (Series are numbered from 0
    /// in order of arrival.)
    pub fn number(&self, labels: &Labels) -> Option<usize>
        ensures found { IfSome result (λ i. slice_get (sets_of self.now) i ≡ Some labels.now) }
        ensures within { IfSome result (λ i. i < length self.now) }
        ensures none { IfNone result (lookup (labels_eq labels.now) self.now ≡ None) }
    {
        self.series.get_index_of(labels)
    }

    /// Whether the series with a number has these labels.
    pub fn has_labels(&self, series: usize, labels: &Labels) -> bool
        ensures { result ≡ true ↔ slice_get (sets_of self.now) series ≡ Some labels.now }
    {
        match self.labels(series) {
            Some(found) => *found == *labels,
            None => false,
        }
    }

    // The number of the series with these labels. It looks first at the series that mostly comes
    // next.
    fn number_near(&self, labels: &Labels) -> Option<usize>
        ensures found { IfSome result (λ i. slice_get (sets_of self.now) i ≡ Some labels.now) }
        ensures within { IfSome result (λ i. i < length self.now) }
        ensures none { IfNone result (lookup (labels_eq labels.now) self.now ≡ None) }
    {
        if self.has_labels(self.next, labels) {
            Some(self.next)
        } else {
            self.number(labels)
        }
    }

    // A series that is not there yet, with its first sample.
    fn add(&mut self, labels: Labels, sample: &Timed) -> Result<(), AllocError>
        requires { lookup (labels_eq labels) self.old ≡ None }
        ensures ok { OnOk result (self.new ≡ self.old ++ (labels, begun sample.now) ∷ []) }
        ensures err { OnErr result (self.new ≡ self.old) }
    {
        let series = Series::begin(self.alloc, sample)?;
        self.series.reserve(1)?;
        self.index.add(&labels, self.series.len())?;
        self.series.insert(labels, series)?;
        self.oldest = earlier(self.oldest, sample.time.get());
        Ok(())
    }

    // What becomes of a sample of a series.
    fn admit(&self, series: usize, sample: &Timed) -> Append
        requires { series < length self.now }
        ensures { (e : List Pair × Stored) → slice_get self.now series ≡ Some e → result ≡ admission e.1 sample.now }
    {
        self.series[series].admit(sample)
    }

    // One more sample of a series, later than its last.
    fn push(&mut self, series: usize, sample: &Timed) -> Result<(), AllocError>
        requires there { series < length self.old }
        requires later { (e : List Pair × Stored) → slice_get self.old series ≡ Some e → e.1.last.time < sample.now.time }
        ensures ok { (e : List Pair × Stored) → slice_get self.old series ≡ Some e → OnOk result (self.new ≡ set_value_at self.old series (after_push e.1 sample.now)) }
        ensures err { OnErr result (self.new ≡ self.old) }
    {
        self.series[series].push(sample)?;
        self.oldest = earlier(self.oldest, sample.time.get());
        self.next = series.saturating_add(1);
        Ok(())
    }

    /// Adds a sample to its series, unless it is refused, and answers what became of it. Nothing is
    /// forgotten on the way. Without memory nothing has changed. (Own choice: a sample is added at
    /// a later time alone; out-of-order samples are refused.)
    pub fn append(&mut self, labels: &Labels, time: Ms, point: Point) -> Result<Append, AllocError>
        ensures answer { (history : List Entry) → Holds self.old history → IfOk result (λ a. a ≡ admit history labels.now time point) }
        ensures holds { (history : List Entry) → Holds self.old history → OnOk result (Holds self.new (put history (entry_of labels.now time point))) }
        ensures whole { (history : List Entry) (x : ℤ) → Holds self.old history → IsWhole self.old history x
            → OnOk result (IsWhole self.new (put history (entry_of labels.now time point)) x) }
        ensures err { OnErr result (self.new ≡ self.old) }
    {
        match self.number_near(labels) {
            Some(series) => self.append_at(series, time, point),
            None => {
                self.add(labels.copy(self.alloc)?, &Timed { time, point })?;
                Ok(Append::Added)
            }
        }
    }

    /// Adds a sample to the series with a number, as `append` does to the series with its labels.
    /// It finds the series by no search. Without memory nothing has changed.
    pub fn append_at(&mut self, series: usize, time: Ms, point: Point) -> Result<Append, AllocError>
        requires { series < length self.old }
        ensures answer { (history : List Entry) (labels : List Pair) → Holds self.old history → slice_get (sets_of self.old) series ≡ Some labels
            → IfOk result (λ a. a ≡ admit history labels time point) }
        ensures holds { (history : List Entry) (labels : List Pair) → Holds self.old history → slice_get (sets_of self.old) series ≡ Some labels
            → OnOk result (Holds self.new (put history (entry_of labels time point))) }
        ensures whole { (history : List Entry) (labels : List Pair) (x : ℤ) → Holds self.old history → slice_get (sets_of self.old) series ≡ Some labels
            → IsWhole self.old history x → OnOk result (IsWhole self.new (put history (entry_of labels time point)) x) }
        ensures err { OnErr result (self.new ≡ self.old) }
    {
        let sample = Timed { time, point };
        match self.admit(series, &sample) {
            Append::Added => {
                self.push(series, &sample)?;
                Ok(Append::Added)
            }
            refused => Ok(refused),
        }
    }

    // Forgets the samples at or before a time, series by series.
    fn trim_each(&mut self, before: i64)
        ensures later { self.new ≡ trimmed before self.old }
        ensures holds { (history : List Entry) → Holds self.old history → Holds self.new history }
        ensures whole { (history : List Entry) (x y : ℤ) → IsLawful history → Holds self.old history → IsWhole self.old history x
            → x ≤ℤ y → before ≤ℤ y → IsWhole self.new history y }
    {
        'trimming: for series in 0..self.series.len() {
            self.series[series].trim(before);
        }
        self.oldest = oldest_of(&self.series);
    }

    /// Forgets the samples at or before a time. Each series keeps its labels, its count, its last
    /// time and its last point, so that an old sample is refused as before. Takes no memory, and
    /// looks at no series where each sample that is held is later. (Own choice: what no query can
    /// see is forgotten.)
    pub fn trim(&mut self, before: i64)
        ensures later { self.new ≡ trimmed before self.old }
        ensures holds { (history : List Entry) → Holds self.old history → Holds self.new history }
        // Nothing above the greater of the two moments is forgotten then.
        ensures whole { (history : List Entry) (x y : ℤ) → IsLawful history → Holds self.old history → IsWhole self.old history x
            → x ≤ℤ y → before ≤ℤ y → IsWhole self.new history y }
    {
        if is_later(before, self.oldest) {
            return;
        }
        self.trim_each(before);
    }
}
