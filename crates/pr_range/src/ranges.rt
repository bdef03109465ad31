ghost use Rattle.std.specs.Prelude.{◌≡◌, ◌≢◌, ◌<◌, ◌≤ℤ◌, ◌++◌, ◌∷◌, [], Bool, ℕ, List, Option, Err, length};
ghost use Rattle.pr_head.specs.pr_labels.declared.pair.Pair.{Pair};
ghost use Rattle.pr_head.specs.spec_history.declared.entry.Entry.{Entry};
ghost use Rattle.pr_head.specs.spec_history.private.Laws.{IsLawful, entries_until};
ghost use Rattle.pr_range.specs.declared.fault.RangeFault.TheVariants.{Memory};
ghost use Rattle.pr_range.specs.private.Asks.{AreMoved, HasArgument, IsAskAnswer, IsReadyToAsk, LastAsks, MayAsk, Passed};
ghost use Rattle.pr_range.specs.private.Carried.{IsCarried, IsFresh, IsOnce};

use crate::fault::RangeFault;
use pr_head::Head;
use pr_head::words_crate::Steps;
use spec_vectors::Ask;
use spec_vectors::num::Num;
use std::alloc::Global;
use std::sync::ledger::Ledger;

/// What answers functions of ranges. It may keep something from one ask to the next.
///
/// Contracts see whether it remembers asks (`keeps`), the last ask outside subqueries of each node
/// and series (`last`), how many samples of a series were passed for a node (`passed`), and of
/// which histories what it keeps is true (`fits`).
pub trait Ranges {
    ghost keeps: { Bool };

    ghost last: { Self → LastAsks };

    ghost passed: { Self → Passed };

    ghost fits: { Self → List Entry → Type 0 };

    /// Nothing was asked yet.
    fn empty(alloc: Global) -> Self
    where
        Self: Sized,
        ensures fresh { IsFresh (last result) (passed result) }
        ensures fits { (history : List Entry) → fits result history };

    /// The function of the values of a series in a range, nothing where it has none there. `node`
    /// is the number of the range selector in its expression, and `series` that of the series in
    /// the head. A read of a sample is a step.
    ///
    /// What stands afterwards is known after each answer but want of memory.
    fn ask<G: Ledger>(
        &mut self,
        head: &Head,
        node: usize,
        series: usize,
        ask: &Ask,
        reads: &mut Steps<G>,
    ) -> Result<Option<Num>, RangeFault>
        requires there { series < length head.now }
        requires ordered { ask.now.from ≤ℤ ask.now.to }
        requires argument { HasArgument ask.now }
        ensures answer { (history : List Entry) (labels : List Pair) → MayAsk head.now history series labels ask.now → fits self.old history → IsReadyToAsk (last self.old) node series ask.now
            → IsAskAnswer history labels ask.now (passed self.old node series) reads.old reads.new result }
        ensures fits { (history : List Entry) (labels : List Pair) → MayAsk head.now history series labels ask.now → fits self.old history → IsReadyToAsk (last self.old) node series ask.now
            → result ≢ Err Memory → fits self.new history }
        ensures moved { (history : List Entry) (labels : List Pair) → MayAsk head.now history series labels ask.now → fits self.old history → IsReadyToAsk (last self.old) node series ask.now
            → result ≢ Err Memory → AreMoved keeps node series ask.now (entries_until history labels ask.now.to) (last self.old) (last self.new) (passed self.old) (passed self.new) };

    /// Goes on from an older value, in its storage: each range selector takes what the older one that
    /// is named for it has, and the others begin anew. What was kept before is let go. Takes no
    /// memory.
    fn carry(&mut self, old: Self, from: &[Option<usize>])
    where
        Self: Sized,
        requires once { IsOnce from.now }
        ensures carried { IsCarried from.now (last old) (last self.new) (passed old) (passed self.new) }
        ensures fits { (history : List Entry) → fits old history → fits self.new history };

    /// What is kept is true of each later history.
    ghost stays: { (s : Self) (history : List Entry) (e : Entry) → IsLawful (history ++ e ∷ []) → fits s history → fits s (history ++ e ∷ []) };
}
