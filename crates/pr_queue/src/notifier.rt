ghost use Rattle.std.specs.Prelude.{◌≡◌, ℕ, List, [], length, map, position, IfOk, OnOk, OnErr};
ghost use Rattle.circular_buffer.specs.Buffer.{keep_last};
ghost use Rattle.spec_alerts.specs.Receivers.{Receiver, after_add, after_flush, after_offer, batch_of, joins, most_waiting};
ghost use Rattle.pr_queue.specs.private.Queues.{is_queue_for, taken_in, waiting_in, with_coming};
ghost use Rattle.pr_queue.specs.private.Standing.{StandsFor};

use crate::notice::{Notice, notices_of};
use crate::queue::{MOST_WAITING, Queue};
use spec_alerts::Sending;
use spec_alerts::notices::{Batch, Joined};
use std::alloc::{AllocError, Global};
use std::marker::Model;

/// So many receivers there are at most. (Own choice.)
const MOST_RECEIVERS: usize = 64;

/// The queues of all receivers.
#[derive(Drop)]
pub struct Notifier {
    queues: Vec<Queue>,
    alloc: Global,
}

impl Model for Notifier {
    ghost use Rattle.std.specs.Prelude.{List};
    ghost use Rattle.pr_queue.specs.private.Queues.{ReceiverQueue, waiting_in};

    ghost Value = { List ReceiverQueue };

    ghost view = { λ n. waiting_in n.queues.items };
}

// Where the queue of a name stands.
fn place_of(queues: &[Queue], name: &str) -> Option<usize>
    ensures { result ≡ position (is_queue_for name.now) queues.now }
{
    queues.iter().position(|q| q.is_for(name))
}

// Has shares of notices ready at every queue.
fn prepare_all(alloc: Global, queues: &mut [Queue], notices: &[Notice]) -> Result<(), AllocError>
    ensures ok { OnOk result (queues.new ≡ map (with_coming notices.now) queues.old) }
    ensures waiting { waiting_in queues.new ≡ waiting_in queues.old }
{
    for queue in queues.iter_mut() {
        queue.prepare(alloc, notices)?;
    }
    Ok(())
}

// Every queue takes in what it has ready, which are the last of so many notices.
fn take_in_all(alloc: Global, queues: &mut [Queue], count: usize)
    ensures { queues.new ≡ map (taken_in count) queues.old }
{
    for queue in queues.iter_mut() {
        queue.take_in(alloc, count);
    }
}

// The same one after the other. Without memory nothing is taken in.
fn offer_all(
    alloc: Global,
    queues: &mut [Queue],
    notices: &[Notice],
    count: usize,
) -> Result<(), AllocError>
    ensures ok { OnOk result (queues.new ≡ map (taken_in count) (map (with_coming notices.now) queues.old)) }
    ensures err { OnErr result (waiting_in queues.new ≡ waiting_in queues.old) }
{
    prepare_all(alloc, queues, notices)?;
    take_in_all(alloc, queues, count);
    Ok(())
}

// The last notices, as many as wait at most.
fn last_notices(notices: &[Sending]) -> &[Sending]
    ensures { result.now ≡ keep_last most_waiting notices.now }
{
    &notices[notices.len().saturating_sub(MOST_WAITING)..]
}

impl Notifier {
    /// A notifier without receivers.
    pub fn new(alloc: Global) -> Notifier
        ensures { StandsFor result [] }
    {
        Notifier {
            queues: Vec::new(alloc),
            alloc,
        }
    }

    /// Forgets all receivers.
    pub fn clear(&mut self)
        ensures { StandsFor self.new [] }
    {
        self.queues = Vec::new(self.alloc);
    }

    /// Adds a receiver, for which the notices wait that are offered from now on. Nothing changes where
    /// the name is known, where there are 64 receivers, and without memory.
    ///
    /// # Errors
    /// Want of memory.
    pub fn add(&mut self, name: &str) -> Result<Joined, AllocError>
        ensures joined { IfOk result (λ joined. (rs : List Receiver) → StandsFor self.old rs → joined ≡ joins name.now rs) }
        ensures stands { OnOk result ((rs : List Receiver) → StandsFor self.old rs → StandsFor self.new (after_add name.now rs)) }
        ensures err { OnErr result (self.new ≡ self.old) }
    {
        if place_of(&self.queues, name).is_some() {
            return Ok(Joined::Known);
        }
        if self.queues.len() >= MOST_RECEIVERS {
            return Ok(Joined::Full);
        }
        let queue = Queue::new(self.alloc, name)?;
        self.queues.push(queue)?;
        Ok(Joined::New)
    }

    /// Offers notices to all receivers. Where more than 10,000 would wait for one, it loses the oldest,
    /// which are counted. Without memory nothing changes. The work grows with the number of receivers
    /// and of notices, of which the last 10,000 are copied once.
    ///
    /// # Errors
    /// Want of memory.
    pub fn offer(&mut self, notices: &[Sending]) -> Result<(), AllocError>
        ensures stands { OnOk result ((rs : List Receiver) → StandsFor self.old rs → StandsFor self.new (after_offer notices.now rs)) }
        ensures err { OnErr result (self.new ≡ self.old) }
    {
        if self.queues.is_empty() {
            return Ok(());
        }
        let shared = notices_of(self.alloc, last_notices(notices))?;
        offer_all(self.alloc, &mut self.queues, &shared, notices.len())
    }

    /// Takes out the next notices that wait for a receiver, at most 64, with the number of those that
    /// it lost since its last batch. None exactly where the name is unknown. Without memory nothing
    /// changes.
    ///
    /// # Errors
    /// Want of memory.
    pub fn flush(&mut self, name: &str) -> Result<Option<Batch>, AllocError>
        ensures batch { IfOk result (λ batch. (rs : List Receiver) → StandsFor self.old rs → batch ≡ batch_of name.now rs) }
        ensures stands { OnOk result ((rs : List Receiver) → StandsFor self.old rs → StandsFor self.new (after_flush name.now rs)) }
        ensures err { OnErr result (self.new ≡ self.old) }
    {
        match place_of(&self.queues, name) {
            Some(place) => Ok(Some(self.queues[place].next_batch(self.alloc)?)),
            None => Ok(None),
        }
    }
}
