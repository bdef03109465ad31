// Counting steps in proofs alone.
ghost use Rattle.std.specs.Prelude.{◌≡◌, ◌+◌, ◌<◌};

use std::marker::Model;
use std::mem::size_of;
use std::sync::ledger::{Blank, Book, Ledger, Share};

/// How many steps were taken: contracts see the number. It takes no bytes (`size` says so), and
/// only `tick` changes it, so a bound on it is a bound on how often the work was done that ticks.
#[derive(Drop)]
pub struct Steps<L: Ledger> {
    book: Book<L>,
    share: Share<L>,
}

impl<L: Ledger> Model for Steps<L> {
    ghost use Rattle.std.specs.Prelude.{ℕ, ◌<◌};

    ghost Value = { ℕ };

    ghost view = { λ s. s.book.total };

    ghost invariant = { λ s. 0 < s.share.parts };
}

impl<L: Ledger> Steps<L> {
    /// How many bytes a count of steps takes: none, so that counting costs nothing when a program
    /// runs.
    pub fn size() -> usize
        ensures { result ≡ 0 }
    {
        size_of::<Steps<L>>()
    }

    /// No steps yet. The ledger is the one that `L` stands for.
    pub fn new(blank: Blank) -> Steps<L>
        requires name { blank.name ≡ L.name }
        requires parts { blank.parts ≡ L.parts }
        requires some { 0 < L.parts }
        ensures { result ≡ 0 }
    {
        let (book, share) = blank.open::<L>();
        Steps { book, share }
    }

    /// One more step.
    pub fn tick(&mut self)
        ensures { self.new ≡ self.old + 1 }
    {
        self.book.add(&mut self.share, 1);
    }
}
