// Ranges that are read anew.
ghost use Rattle.std.specs.Prelude.{◌≡◌, ◌≢◌, ◌<◌, ◌≤ℤ◌, ◌++◌, ◌∷◌, [], ℕ, List, Option, None, Err, false, length};
ghost use Rattle.pr_head.specs.pr_labels.declared.pair.Pair.{Pair};
ghost use Rattle.pr_head.specs.spec_history.declared.entry.Entry.{Entry};
ghost use Rattle.pr_range.specs.private.Asks.{HasArgument, IsAskAnswer, MayAsk};

use crate::fault::RangeFault;
use crate::over::over_list;
use crate::ranges::Ranges;
use crate::read::read_between;
use pr_head::Head;
use pr_head::words_crate::Steps;
use spec_vectors::Ask;
use spec_vectors::num::Num;
use std::alloc::Global;
use std::sync::ledger::Ledger;

/// Ranges that are read from the head anew at each ask. Nothing is kept, so every ask may come.
#[derive(Drop)]
pub struct PlainRanges {
    alloc: Global,
}

impl PlainRanges {
    /// Nothing is kept.
    pub fn new(alloc: Global) -> PlainRanges {
        PlainRanges { alloc }
    }
}

/// The function of the values of a series in a range, read from the head.
fn ask_plainly<G: Ledger>(
    alloc: Global,
    head: &Head,
    series: usize,
    ask: &Ask,
    reads: &mut Steps<G>,
) -> Result<Option<Num>, RangeFault>
    requires there { series < length head.now }
    requires ordered { ask.now.from ≤ℤ ask.now.to }
    requires argument { HasArgument ask.now }
    ensures { (history : List Entry) (labels : List Pair) → MayAsk head.now history series labels ask.now → IsAskAnswer history labels ask.now 0 reads.old reads.new result }
{
    let Ask {
        from: start,
        to: end,
        ..
    } = *ask;
    let from = head.position_near(series, start, 0);
    let to = head.position_near(series, end, from);
    match read_between(alloc, head, series, from, to, reads) {
        Ok(spots) => over_list(alloc, &spots, ask),
        Err(_) => Err(RangeFault::Memory),
    }
}

impl Ranges for PlainRanges {
    ghost use Rattle.std.specs.Prelude.{false, None};

    ghost keeps = { false };

    ghost last = { λ _ k s. None };

    ghost passed = { λ _ k s. 0 };

    ghost fits = { λ _ history. Unit {0} };

    fn empty(alloc: Global) -> PlainRanges {
        PlainRanges::new(alloc)
    }

    fn ask<G: Ledger>(
        &mut self,
        head: &Head,
        node: usize,
        series: usize,
        ask: &Ask,
        reads: &mut Steps<G>,
    ) -> Result<Option<Num>, RangeFault> {
        ask_plainly(self.alloc, head, series, ask, reads)
    }

    fn carry(&mut self, old: PlainRanges, from: &[Option<usize>]) {
        *self = old;
    }

    ghost stays = { λ s history e lawful h. tt };
}
