ghost use Rattle.std.specs.Prelude.{◌≡◌, ◌++◌, ◌≤◌, [], length, take, IfOk, OnOk, OnErr};
ghost use Rattle.circular_buffer.specs.Buffer.{buffer, keep_last};
ghost use Rattle.spec_alerts.specs.Receivers.{most_at_once, most_waiting};
ghost use Rattle.pr_queue.specs.private.Queues.{empty_queue, is_queue_for, next_batch, taken_in, with_coming, without_batch};

use crate::notice::{Notice, shares_of};
use circular_buffer::HeapCircularBuffer;
use spec_alerts::Sending;
use spec_alerts::notices::Batch;
use spec_alerts::words_crate::{Items, Text};
use std::alloc::{AllocError, Global};
use std::marker::Model;
use std::mem;

/// So many notices wait for a receiver at most. (Own choice.)
pub(crate) const MOST_WAITING: usize = 10_000;

/// So many notices a receiver is given at once. (Own choice.)
const MOST_AT_ONCE: usize = 64;

/// The queue of a receiver.
#[derive(Drop)]
pub(crate) struct Queue {
    name: Text,
    ring: HeapCircularBuffer<Notice>,
    dropped: u64,
    // Shares of the notices that are being offered: all queues have theirs before any takes them in.
    coming: Vec<Notice>,
}

impl Model for Queue {
    ghost use Rattle.std.specs.Prelude.{◌≡◌};
    ghost use Rattle.spec_alerts.specs.Receivers.{most_waiting};
    ghost use Rattle.pr_queue.specs.private.Queues.{Queued};

    ghost Value = { Queued };

    ghost view = { λ q. record { waiting = record { name = q.name; notices = q.ring.items; dropped = q.dropped }; coming = q.coming.items } };

    ghost invariant = { λ q. q.ring.capacity ≡ most_waiting };
}

// Puts notices at the end of a ring, which gives up its first ones where it is full.
fn append(ring: &mut HeapCircularBuffer<Notice>, notices: Vec<Notice>)
    ensures { ring.new ≡ buffer (keep_last ring.old.capacity (ring.old.items ++ notices.items)) ring.old.capacity }
{
    let _within = ring.len();
    for notice in notices {
        ring.push_back(notice);
    }
}

// Copies of the first notices of a ring.
fn first_copies(
    alloc: Global,
    ring: &HeapCircularBuffer<Notice>,
    count: usize,
) -> Result<Vec<Sending>, AllocError>
    requires { count ≤ length ring.now.items }
    ensures { IfOk result (λ v. v.items ≡ take count ring.now.items) }
{
    let mut copies = Vec::with_capacity(alloc, count)?;
    for place in 0..count {
        if let Some(notice) = ring.get(place) {
            copies.push(notice.copy(alloc)?)?;
        }
    }
    Ok(copies)
}

impl Queue {
    /// The queue of a receiver for which no notice waits.
    pub(crate) fn new(alloc: Global, name: &str) -> Result<Queue, AllocError>
        ensures { IfOk result (λ q. q.waiting ≡ empty_queue name.now) }
    {
        Ok(Queue {
            name: Text::from_str(alloc, name)?,
            ring: HeapCircularBuffer::with_capacity(alloc, MOST_WAITING)?,
            dropped: 0,
            coming: Vec::new(alloc),
        })
    }

    /// Whether the receiver has this name.
    pub(crate) fn is_for(&self, name: &str) -> bool
        ensures { result ≡ is_queue_for name.now self.now }
    {
        self.name.as_str() == name
    }

    /// Has shares of notices ready. Without memory there are some or none.
    pub(crate) fn prepare(&mut self, alloc: Global, notices: &[Notice]) -> Result<(), AllocError>
        ensures ok { OnOk result (self.new ≡ with_coming notices.now self.old) }
        ensures err { OnErr result (self.new ≡ self.old) }
    {
        self.coming = shares_of(alloc, notices)?;
        Ok(())
    }

    /// Takes in what it has ready, which are the last of so many notices.
    pub(crate) fn take_in(&mut self, alloc: Global, count: usize)
        ensures { self.new ≡ taken_in count self.old }
    {
        let room = MOST_WAITING - self.ring.len();
        let lost = count.saturating_sub(room);
        append(
            &mut self.ring,
            mem::replace(&mut self.coming, Vec::new(alloc)),
        );
        self.dropped = self.dropped.saturating_add(lost as u64);
    }

    /// Takes out the next batch. Without memory nothing is taken out.
    pub(crate) fn next_batch(&mut self, alloc: Global) -> Result<Batch, AllocError>
        ensures ok { IfOk result (λ b. b ≡ next_batch self.old.waiting) }
        ensures after { OnOk result (self.new.waiting ≡ without_batch self.old.waiting) }
        ensures err { OnErr result (self.new ≡ self.old) }
    {
        let waiting = self.ring.len();
        let count = waiting.min(MOST_AT_ONCE);
        let notices = Items::new(first_copies(alloc, &self.ring, count)?);
        self.ring.truncate_front(waiting - count);
        let dropped = mem::replace(&mut self.dropped, 0);
        Ok(Batch { notices, dropped })
    }
}
