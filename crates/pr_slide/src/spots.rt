// The values of a window, oldest first, kept as its function needs them.
ghost use Rattle.std.specs.Prelude.{◌≡◌, ◌≤◌, ◌+◌, ◌++◌, ◌∷◌, [], OnOk, length, true};
ghost use Rattle.pr_range.specs.spec_vectors.declared.range.RangeFn.{RangeFn};
ghost use Rattle.pr_range.specs.spec_vectors.declared.range.RangeFn.TheVariants.{MaxOverTime, MinOverTime};
ghost use Rattle.pr_range.specs.spec_vectors.Ranges.{over};
ghost use Rattle.pr_range.specs.pr_window.private.Answers.{is_of_neighbours, is_of_total};
ghost use Rattle.pr_range.specs.private.Answers.{AnswersAsk};
ghost use Rattle.pr_range.specs.private.Asks.{HasArgument};
ghost use Rattle.pr_range.specs.private.Spots.{AreWithin};
ghost use Rattle.pr_slide.specs.private.Kinds.{is_greatest, is_least, is_successive, is_told, kept_in, saved_in, tells};
ghost use Rattle.pr_slide.specs.private.Later.{later};
ghost use Rattle.pr_slide.specs.private.Successions.{is_rising};

use crate::kept::Kept;
use crate::listed::Listed;
use crate::successive::Successive;
use pr_head::history::Spot;
use pr_head::words_crate::Steps;
use pr_num::{Num, Total};
use pr_range::window_crate::folds::{
    Greatest, Least, Summarize, Totals, is_of_neighbours, is_of_total,
};
use pr_range::{
    Ask, RangeFault, RangeFn, answer_from_extreme, answer_from_neighbours, answer_from_total,
    over_list,
};
use std::alloc::{AllocError, Global};
use std::marker::Model;
use std::sync::ledger::Ledger;

/// How values are kept.
#[derive(Drop)]
pub enum SpotStorage {
    /// In a list, which an ask goes over.
    Listed { spots: Listed },
    /// With their total.
    Totals { spots: Kept<Total, Totals> },
    /// With the greatest of them.
    Greatest { spots: Kept<Num, Greatest> },
    /// With the least of them.
    Least { spots: Kept<Num, Least> },
    /// With what is counted of them one after another.
    Successive { spots: Successive },
}

/// The values of a window. Contracts see how they are kept.
#[derive(Drop)]
pub struct Spots {
    kind: SpotStorage,
}

impl Model for Spots {
    ghost use Rattle.pr_slide.specs.declared.spots.SpotStorage.{SpotStorage};

    ghost Value = { SpotStorage };

    ghost view = { λ s. s.kind };
}

fn answer_listed(alloc: Global, spots: &[Spot], ask: &Ask) -> Result<Option<Num>, RangeFault>
    requires { HasArgument ask.now }
    ensures { AreWithin ask.now.from ask.now.to spots.now → AnswersAsk (over ask.now spots.now) result }
{
    over_list(alloc, spots, ask)
}

// A function that the summary of kept values does not tell goes over a list of them.
fn answer_unfolded<A: Copy, M: Summarize<A>, L: Ledger>(
    alloc: Global,
    spots: &Kept<A, M>,
    ask: &Ask,
    looks: &mut Steps<L>,
) -> Result<Option<Num>, RangeFault>
    requires { HasArgument ask.now }
    ensures answer { AreWithin ask.now.from ask.now.to spots.now.items → AnswersAsk (over ask.now spots.now.items) result }
    ensures looks { looks.new ≤ looks.old + length spots.now.items }
{
    match spots.listed(alloc, looks) {
        Ok(list) => answer_listed(alloc, &list, ask),
        Err(_) => Err(RangeFault::Memory),
    }
}

fn answer_total<L: Ledger>(
    alloc: Global,
    spots: &Kept<Total, Totals>,
    ask: &Ask,
    looks: &mut Steps<L>,
) -> Result<Option<Num>, RangeFault>
    requires { HasArgument ask.now }
    ensures answer { AreWithin ask.now.from ask.now.to spots.now.items → AnswersAsk (over ask.now spots.now.items) result }
    ensures told { is_of_total ask.now.func ≡ true → looks.new ≤ looks.old + 1 }
    ensures looks { looks.new ≤ looks.old + length spots.now.items + 1 }
{
    if is_of_total(ask.func) {
        answer_from_total(ask, spots.len(), spots.summary(looks))
    } else {
        answer_unfolded(alloc, spots, ask, looks)
    }
}

fn answer_greatest<L: Ledger>(
    alloc: Global,
    spots: &Kept<Num, Greatest>,
    ask: &Ask,
    looks: &mut Steps<L>,
) -> Result<Option<Num>, RangeFault>
    requires { HasArgument ask.now }
    ensures answer { AreWithin ask.now.from ask.now.to spots.now.items → AnswersAsk (over ask.now spots.now.items) result }
    ensures told { is_greatest ask.now.func ≡ true → looks.new ≤ looks.old + 1 }
    ensures looks { looks.new ≤ looks.old + length spots.now.items + 1 }
{
    match ask.func {
        RangeFn::MaxOverTime => answer_from_extreme(spots.len(), spots.summary(looks)),
        _ => answer_unfolded(alloc, spots, ask, looks),
    }
}

fn answer_least<L: Ledger>(
    alloc: Global,
    spots: &Kept<Num, Least>,
    ask: &Ask,
    looks: &mut Steps<L>,
) -> Result<Option<Num>, RangeFault>
    requires { HasArgument ask.now }
    ensures answer { AreWithin ask.now.from ask.now.to spots.now.items → AnswersAsk (over ask.now spots.now.items) result }
    ensures told { is_least ask.now.func ≡ true → looks.new ≤ looks.old + 1 }
    ensures looks { looks.new ≤ looks.old + length spots.now.items + 1 }
{
    match ask.func {
        RangeFn::MinOverTime => answer_from_extreme(spots.len(), spots.summary(looks)),
        _ => answer_unfolded(alloc, spots, ask, looks),
    }
}

fn answer_neighbours<L: Ledger>(
    alloc: Global,
    spots: &Successive,
    ask: &Ask,
    looks: &mut Steps<L>,
) -> Result<Option<Num>, RangeFault>
    requires { HasArgument ask.now }
    ensures answer { AreWithin ask.now.from ask.now.to spots.now.items → AnswersAsk (over ask.now spots.now.items) result }
    ensures told { is_successive ask.now.func ≡ true → spots.now.counted ≡ true → looks.new ≤ looks.old + 1 }
    ensures looks { looks.new ≤ looks.old + length spots.now.items + 1 }
{
    if !is_of_neighbours(ask.func) {
        return answer_listed(alloc, spots.all(looks), ask);
    }
    match spots.summary(looks) {
        Some(summary) => answer_from_neighbours(ask, spots.len(), Some(summary)),
        None => answer_listed(alloc, spots.all(looks), ask),
    }
}

// How the values of a function are kept.
fn kind_for(alloc: Global, func: RangeFn) -> SpotStorage
    ensures items { kept_in result ≡ [] }
    ensures saved { saved_in result ≡ 0 }
    ensures told { tells func result ≡ is_told func }
{
    match func {
        RangeFn::SumOverTime
        | RangeFn::AvgOverTime
        | RangeFn::CountOverTime
        | RangeFn::PresentOverTime => SpotStorage::Totals {
            spots: Kept::new(alloc),
        },
        RangeFn::MaxOverTime => SpotStorage::Greatest {
            spots: Kept::new(alloc),
        },
        RangeFn::MinOverTime => SpotStorage::Least {
            spots: Kept::new(alloc),
        },
        RangeFn::Rate | RangeFn::Increase | RangeFn::Delta | RangeFn::Changes | RangeFn::Resets =>
            SpotStorage::Successive {
                spots: Successive::new(alloc),
            },
        RangeFn::LastOverTime
        | RangeFn::QuantileOverTime
        | RangeFn::Irate
        | RangeFn::Idelta
        | RangeFn::Deriv
        | RangeFn::PredictLinear => SpotStorage::Listed {
            spots: Listed::new(alloc),
        },
    }
}

impl Spots {
    /// No values, kept for a function.
    pub(crate) fn new(alloc: Global, func: RangeFn) -> Spots
        ensures items { kept_in result ≡ [] }
        ensures saved { saved_in result ≡ 0 }
        ensures told { tells func result ≡ is_told func }
    {
        Spots {
            kind: kind_for(alloc, func),
        }
    }

    /// The function of the values.
    pub(crate) fn answer<L: Ledger>(
        &self,
        alloc: Global,
        ask: &Ask,
        looks: &mut Steps<L>,
    ) -> Result<Option<Num>, RangeFault>
        requires { HasArgument ask.now }
        ensures answer { AreWithin ask.now.from ask.now.to (kept_in self.now) → AnswersAsk (over ask.now (kept_in self.now)) result }
        ensures told { tells ask.now.func self.now ≡ true → looks.new ≤ looks.old + 1 }
        ensures looks { looks.new ≤ looks.old + length (kept_in self.now) + 1 }
    {
        match &self.kind {
            SpotStorage::Listed { spots } => answer_listed(alloc, spots.all(looks), ask),
            SpotStorage::Totals { spots } => answer_total(alloc, spots, ask, looks),
            SpotStorage::Greatest { spots } => answer_greatest(alloc, spots, ask, looks),
            SpotStorage::Least { spots } => answer_least(alloc, spots, ask, looks),
            SpotStorage::Successive { spots } => answer_neighbours(alloc, spots, ask, looks),
        }
    }

    // How many values there are.
    fn len(&self) -> usize
        ensures { result ≡ length (kept_in self.now) }
    {
        match &self.kind {
            SpotStorage::Listed { spots } => spots.len(),
            SpotStorage::Totals { spots } => spots.len(),
            SpotStorage::Greatest { spots } => spots.len(),
            SpotStorage::Least { spots } => spots.len(),
            SpotStorage::Successive { spots } => spots.len(),
        }
    }

    /// Gives the room back that no value needs any more, where there are none.
    pub(crate) fn give_back(&mut self, alloc: Global, func: RangeFn)
        ensures items { kept_in self.new ≡ kept_in self.old }
        ensures saved { saved_in self.new ≤ saved_in self.old }
        ensures told { is_told func ≡ true → tells func self.old ≡ true → tells func self.new ≡ true }
    {
        if self.len() == 0 {
            *self = Spots::new(alloc, func);
        }
    }

    /// One more value.
    pub(crate) fn push<L: Ledger>(
        &mut self,
        spot: Spot,
        looks: &mut Steps<L>,
    ) -> Result<(), AllocError>
        ensures items { OnOk result (kept_in self.new ≡ kept_in self.old ++ spot ∷ []) }
        ensures told { (func : RangeFn) → OnOk result (tells func self.old ≡ true → is_rising (kept_in self.old ++ spot ∷ []) ≡ true → tells func self.new ≡ true) }
        ensures looks { looks.new + saved_in self.new ≤ looks.old + saved_in self.old + 3 }
    {
        // Names the type of a value to the check.
        let _value: Num = spot.value;
        match &mut self.kind {
            SpotStorage::Listed { spots } => spots.push(spot),
            SpotStorage::Totals { spots } => spots.push(spot, looks),
            SpotStorage::Greatest { spots } => spots.push(spot, looks),
            SpotStorage::Least { spots } => spots.push(spot, looks),
            SpotStorage::Successive { spots } => spots.push(spot, looks),
        }
    }

    /// Lets the first values go that are not after a moment.
    pub(crate) fn drop_until<L: Ledger>(&mut self, time: i64, looks: &mut Steps<L>)
        ensures items { kept_in self.new ≡ later time (kept_in self.old) }
        ensures told { (func : RangeFn) → tells func self.new ≡ tells func self.old }
        ensures looks { looks.new + saved_in self.new ≤ looks.old + saved_in self.old }
    {
        match &mut self.kind {
            SpotStorage::Listed { spots } => spots.drop_until(time, looks),
            SpotStorage::Totals { spots } => spots.drop_until(time, looks),
            SpotStorage::Greatest { spots } => spots.drop_until(time, looks),
            SpotStorage::Least { spots } => spots.drop_until(time, looks),
            SpotStorage::Successive { spots } => spots.drop_until(time, looks),
        }
    }
}
