// The samples of one series.
ghost use Rattle.std.specs.Prelude.{◌≡◌, true, ◌+◌, ◌<◌, ◌≤◌, drop, length, max, slice_get, IfOk, IfSome, OnOk, OnErr};
ghost use Rattle.std.specs.List.Sorted.{IsNonDecreasingBy};
ghost use Rattle.spec_history.specs.Lookback.{is_until};
ghost use Rattle.pr_head.specs.private.Stored.{admission, after_push, after_trim, begun, count_of, held_before, is_there_until, newest_at, position_of, sample_at};
ghost use Rattle.pr_head.specs.private.Oldest.{IsSince};

use crate::packed::Packed;
use crate::timed::Timed;
use spec_history::Append;
use spec_history::num::{Num, Point};
use spec_history::time::Ms;
use std::alloc::{AllocError, Global};
use std::collections::VecDeque;
use std::marker::Model;

/// The samples of a series that are held, how many came before them, and the last of all. Contracts
/// see these three.
#[derive(Drop)]
pub(crate) struct Series {
    first: u64,
    samples: VecDeque<Packed>,
    last_time: Ms,
    last_point: Point,
}

impl Model for Series {
    ghost use Rattle.pr_head.specs.private.Stored.{Stored, IsStored, stored, timed_at};

    ghost Value = { Stored };

    ghost view = { λ s. stored s.first s.samples.items (timed_at s.last_time s.last_point) };

    ghost invariant = { λ s. IsStored (stored s.first s.samples.items (timed_at s.last_time s.last_point)) };
}

// Takes the first samples away. Where none is left, their room is given back.
fn drop_first(samples: &mut VecDeque<Packed>, count: usize)
    ensures { samples.new.items ≡ drop count samples.old.items }
{
    for _ in 0..count {
        let _sample = samples.pop_front();
    }
    if samples.is_empty() {
        *samples = VecDeque::new(*samples.allocator());
    }
}

fn is_until(time: i64, at: Ms) -> bool
    ensures { result ≡ is_until time at }
{
    time >= 0 && at.get() <= time as u64
}

impl Series {
    /// A series with its first sample.
    pub(crate) fn begin(alloc: Global, sample: &Timed) -> Result<Series, AllocError>
        ensures { IfOk result (λ s. s ≡ begun sample.now) }
    {
        let mut samples = VecDeque::with_capacity(alloc, 1)?;
        samples.push_back(Packed::new(sample))?;
        Ok(Series {
            first: 0,
            samples,
            last_time: sample.time,
            last_point: sample.point,
        })
    }

    /// How many samples there ever were.
    pub(crate) fn count(&self) -> u64
        ensures { result ≡ count_of self.now }
    {
        let _newest = self.last_time.get();
        self.first + self.samples.len() as u64
    }

    /// How many came before those that are held.
    pub(crate) fn first(&self) -> u64
        ensures { result ≡ self.now.first }
    {
        self.first
    }

    /// The held sample at a place.
    pub(crate) fn sample(&self, place: u64) -> Option<Timed>
        ensures { result ≡ sample_at self.now place }
    {
        if place < self.first {
            return None;
        }
        self.held((place - self.first) as usize)
    }

    // The held sample with so many before it.
    fn held(&self, index: usize) -> Option<Timed>
        ensures { result ≡ slice_get self.now.held index }
    {
        match self.samples.get(index) {
            Some(sample) => Some(sample.sample()),
            None => None,
        }
    }

    /// What becomes of a sample.
    pub(crate) fn admit(&self, sample: &Timed) -> Append
        ensures { result ≡ admission self.now sample.now }
    {
        let last = self.last_time.get();
        let time = sample.time.get();
        if last < time {
            Append::Added
        } else if last == time {
            if self.last_point == sample.point {
                Append::Same
            } else {
                Append::Conflict {
                    kept: self.last_point,
                }
            }
        } else {
            Append::OutOfOrder {
                last: self.last_time,
            }
        }
    }

    /// One more sample, later than the last.
    pub(crate) fn push(&mut self, sample: &Timed) -> Result<(), AllocError>
        requires { self.old.last.time < sample.now.time }
        ensures ok { OnOk result (self.new ≡ after_push self.old sample.now) }
        ensures err { OnErr result (self.new ≡ self.old) }
    {
        let _value: Option<Num> = sample.number();
        self.samples.push_back(Packed::new(sample))?;
        self.last_time = sample.time;
        self.last_point = sample.point;
        Ok(())
    }

    // How many of the held samples are at or before a time: they come before the others.
    fn until(&self, time: i64) -> usize
        ensures place { self.now.first + result ≡ position_of self.now time }
        ensures held { result ≤ length self.now.held }
        ensures newest { newest_at self.now time ≡ held_before self.now.held result }
    {
        self.samples.partition_point(|s| is_until(time, s.time()))
    }

    /// The place of the first held sample above a time, or the count.
    pub(crate) fn position(&self, time: i64) -> u64
        ensures { result ≡ position_of self.now time }
    {
        let _newest = self.last_time.get();
        self.first + self.until(time) as u64
    }

    // Whether a held sample has so many before it, and is at or before a time.
    fn is_there_until(&self, time: i64, index: usize) -> bool
        ensures value { result ≡ is_there_until time (slice_get self.now.held index) }
        ensures within { result ≡ true → index < length self.now.held }
    {
        match self.samples.get(index) {
            Some(sample) => is_until(time, sample.time()),
            None => false,
        }
    }

    // How many of the held samples are at or before a time, where it is so many or one more. Only
    // the sample on the other side is looked at then.
    fn until_near(&self, time: i64, near: usize) -> Option<usize>
        ensures place { IfSome result (λ n. self.now.first + n ≡ position_of self.now time) }
        ensures held { IfSome result (λ n. n ≤ length self.now.held) }
    {
        let _newest = self.last_time.get();
        if self.is_there_until(time, near) {
            if self.is_there_until(time, near + 1) {
                None
            } else {
                Some(near + 1)
            }
        } else if near == 0 || self.is_there_until(time, near - 1) {
            Some(near)
        } else {
            None
        }
    }

    /// The same as `position`, found at once where it is this place or the next one.
    pub(crate) fn position_near(&self, time: i64, near: u64) -> u64
        ensures { result ≡ position_of self.now time }
    {
        if near < self.first {
            return self.position(time);
        }
        let _newest = self.last_time.get();
        match self.until_near(time, (near - self.first) as usize) {
            Some(until) => self.first + until as u64,
            None => self.position(time),
        }
    }

    /// The same as `position`, but not before a place that is given.
    pub(crate) fn position_not_before(&self, time: i64, place: u64) -> u64
        ensures { result ≡ max (position_of self.now time) place }
    {
        if place < self.first {
            return self.position(time);
        }
        if self.is_there_until(time, (place - self.first) as usize) {
            return self.position_near(time, place);
        }
        place
    }

    /// The newest held sample at or before a time.
    pub(crate) fn newest_at(&self, time: i64) -> Option<Timed>
        ensures { result ≡ newest_at self.now time }
    {
        let count = self.samples.len();
        if count > 0 && self.is_there_until(time, count - 1) {
            return self.held(count - 1);
        }
        let until = self.until(time);
        if until == 0 {
            return None;
        }
        self.held(until - 1)
    }

    /// A time before which no held sample stands: that of the first, or else the last that there
    /// is.
    pub(crate) fn oldest(&self) -> u64
        ensures { IsSince result self.now }
    {
        if self.samples.is_empty() {
            return u64::MAX;
        }
        match self.held(0) {
            Some(sample) => sample.time.get(),
            None => u64::MAX,
        }
    }

    /// Forgets the samples at or before a time; the last time and point stay. Takes no memory.
    pub(crate) fn trim(&mut self, before: i64)
        ensures trimmed { self.new ≡ after_trim self.old before }
        ensures rising { IsNonDecreasingBy (λ x. x.time) self.old.held }
    {
        let gone = self.until(before);
        self.first += gone as u64;
        drop_first(&mut self.samples, gone);
    }
}
