// Values in a list.
ghost use Rattle.std.specs.Prelude.{◌≡◌, ◌≤◌, ◌+◌, ◌-◌, ◌++◌, ◌∷◌, [], length, drop, OnOk, OnErr};
ghost use Rattle.pr_head.specs.spec_history.Lookback.{is_after};
ghost use Rattle.pr_slide.specs.private.Later.{later};

use pr_head::history::Spot;
use pr_head::words_crate::Steps;
use pr_num::Num;
use std::alloc::{AllocError, Global};
use std::marker::Model;
use std::sync::ledger::Ledger;

/// A list of values that grows at the end and shrinks from the front. Contracts see the values that
/// are left. Those that are gone stay in front of them while they are no more than the others.
///
/// A value that is moved counts as a look, and so does each one that is handed out. What is saved up
/// for moving them is as many looks as there are values, those that are gone among them.
#[derive(Drop)]
pub struct Listed {
    items: Vec<Spot>,
    gone: usize,
}

impl Model for Listed {
    ghost use Rattle.std.specs.Prelude.{◌+◌, ◌≤◌, length, drop};
    ghost use Rattle.pr_head.specs.spec_history.declared.spot.Spot.{Spot};
    ghost use Rattle.pr_range.specs.pr_window.private.Windows.{Windowed};

    ghost Value = { Windowed Spot };

    ghost view = { λ s. record { items = drop s.gone s.items.items; saved = length s.items.items } };

    ghost invariant = { λ s. s.gone + s.gone ≤ length s.items.items };
}

pub(crate) fn is_after(time: i64, spot: &Spot) -> bool
    ensures { result ≡ is_after time spot.now.time }
{
    time < 0 || (time as u64) < spot.time.get()
}

// How many of the first values are not after a moment.
fn leading(spots: &[Spot], time: i64) -> usize
    ensures rest { drop result spots.now ≡ later time spots.now }
    ensures within { result ≤ length spots.now }
{
    for (i, spot) in spots.iter().enumerate() {
        if is_after(time, spot) {
            return i;
        }
    }
    spots.len()
}

// So many looks. Where a program runs nothing is left of them.
fn look_at<L: Ledger>(count: usize, looks: &mut Steps<L>)
    ensures { looks.new ≡ looks.old + count }
{
    for _ in 0..count {
        looks.tick();
    }
}

// Takes the first values away, and moves the others.
fn take_away<L: Ledger>(spots: &mut Vec<Spot>, count: usize, looks: &mut Steps<L>)
    requires { count ≤ length spots.old.items }
    ensures items { spots.new.items ≡ drop count spots.old.items }
    ensures looks { looks.new ≡ looks.old + (length spots.old.items - count) }
{
    let left = spots.len() - count;
    look_at(left, looks);
    spots.copy_within(count.., 0);
    spots.truncate(left);
}

impl Listed {
    /// No values.
    pub(crate) fn new(alloc: Global) -> Listed
        ensures items { result.items ≡ [] }
        ensures saved { result.saved ≡ 0 }
    {
        Listed {
            items: Vec::new(alloc),
            gone: 0,
        }
    }

    /// How many values are left.
    pub(crate) fn len(&self) -> usize
        ensures { result ≡ length self.now.items }
    {
        self.items.len() - self.gone
    }

    /// The values that are left, for those that look at the first and the last ones alone.
    pub(crate) fn ends(&self) -> &[Spot]
        ensures { result.now ≡ self.now.items }
    {
        &self.items[self.gone..]
    }

    /// The values that are left, to go over them.
    pub(crate) fn all<L: Ledger>(&self, looks: &mut Steps<L>) -> &[Spot]
        ensures value { result.now ≡ self.now.items }
        ensures looks { looks.new ≡ looks.old + length self.now.items }
    {
        look_at(self.len(), looks);
        self.ends()
    }

    /// One more value.
    pub(crate) fn push(&mut self, spot: Spot) -> Result<(), AllocError>
        ensures items { OnOk result (self.new.items ≡ self.old.items ++ spot ∷ []) }
        ensures saved { self.new.saved ≤ self.old.saved + 1 }
    {
        // Names the type of a value to the check.
        let _value: Num = spot.value;
        self.items.push(spot)?;
        Ok(())
    }

    /// Lets the first values go that are not after a moment.
    pub(crate) fn drop_until<L: Ledger>(&mut self, time: i64, looks: &mut Steps<L>)
        ensures items { self.new.items ≡ later time self.old.items }
        ensures looks { looks.new + self.new.saved ≤ looks.old + self.old.saved }
    {
        let gone = self.gone + leading(&self.items[self.gone..], time);
        if gone > self.items.len() / 2 {
            take_away(&mut self.items, gone, looks);
            self.gone = 0;
        } else {
            self.gone = gone;
        }
    }
}
