// The numbers of those that none has taken yet, by what tells their kind.
ghost use Rattle.std.specs.Prelude.{◌≡◌, ◌++◌, ◌∷◌, [], List, ℕ, IfOk, OnOk, cond, drop};
ghost use Rattle.std.specs.Str.{bytes_eq};
ghost use Rattle.pr_group.specs.private.Waiting.{first_of_queue, waiting_for};

use crate::continued::key_bytes::KeyBytes;
use indexmap::IndexMap;
use std::alloc::{AllocError, Global};
use std::collections::VecDeque;
use std::marker::Model;

// Numbers that are taken from the front.
#[derive(Drop)]
struct Queue {
    numbers: VecDeque<usize>,
}

impl Model for Queue {
    ghost use Rattle.std.specs.Prelude.{ℕ, List};

    ghost Value = { List ℕ };

    ghost view = { λ q. q.numbers.items };
}

impl Queue {
    fn one(alloc: Global, number: usize) -> Result<Queue, AllocError>
        ensures { IfOk result (λ q. q ≡ number ∷ []) }
    {
        let mut numbers = VecDeque::new(alloc);
        numbers.push_back(number)?;
        Ok(Queue { numbers })
    }

    fn push(&mut self, number: usize) -> Result<(), AllocError>
        ensures { OnOk result (self.new ≡ self.old ++ number ∷ []) }
    {
        self.numbers.push_back(number)?;
        Ok(())
    }

    fn take_first(&mut self) -> Option<usize>
        ensures first { result ≡ first_of_queue self.old }
        ensures rest { self.new ≡ drop 1 self.old }
    {
        self.numbers.pop_front()
    }
}

/// Numbers by keys. Contracts see each key with its numbers, in order.
#[derive(Drop)]
pub struct NumbersByKey {
    queues: IndexMap<KeyBytes, Queue>,
}

impl Model for NumbersByKey {
    ghost use Rattle.std.specs.Prelude.{ℕ, List};

    ghost Value = { List (List ℕ × List ℕ) };

    ghost view = { λ w. w.queues.entries };
}

impl NumbersByKey {
    /// None yet.
    pub fn new(alloc: Global) -> NumbersByKey
        ensures { result ≡ [] }
    {
        NumbersByKey {
            queues: IndexMap::new(alloc),
        }
    }

    /// One more number waits, behind the others of its key.
    ///
    /// # Errors
    /// Where memory runs out.
    pub fn push(&mut self, alloc: Global, key: KeyBytes, number: usize) -> Result<(), AllocError>
        ensures { OnOk result ((q : List ℕ) → waiting_for self.new q ≡ cond (bytes_eq key q) (waiting_for self.old q ++ number ∷ []) (waiting_for self.old q)) }
    {
        match self.queues.get_mut(&key) {
            Some(queue) => queue.push(number),
            None => {
                self.queues.insert(key, Queue::one(alloc, number)?)?;
                Ok(())
            }
        }
    }

    /// The first number that waits under a key, which waits no more.
    pub fn take(&mut self, key: &KeyBytes) -> Option<usize>
        ensures first { result ≡ first_of_queue (waiting_for self.old key.now) }
        ensures rest { (q : List ℕ) → waiting_for self.new q ≡ cond (bytes_eq key.now q) (drop 1 (waiting_for self.old q)) (waiting_for self.old q) }
    {
        match self.queues.get_mut(key) {
            Some(queue) => queue.take_first(),
            None => None,
        }
    }
}
