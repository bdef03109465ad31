// Values with what they fold to, so that an ask need not go over them.
ghost use Rattle.std.specs.Prelude.{◌≡◌, ◌<◌, ◌≤◌, ◌+◌, take, ◌++◌, ◌∷◌, [], IfOk, OnOk, length};
ghost use Rattle.pr_range.specs.pr_window.private.Folding.{folded};
ghost use Rattle.pr_slide.specs.private.Later.{later};

use crate::listed::is_after;
use pr_head::history::Spot;
use pr_head::words_crate::Steps;
use pr_num::Num;
use pr_range::window_crate::folds::Summarize;
use pr_range::window_crate::{Fold, Window};
use std::alloc::{AllocError, Global};
use std::marker::Model;
use std::sync::ledger::Ledger;

/// Values that are kept with the summary of a fold. Contracts see the values, and how many calls for
/// combining are saved up. A call for combining is a look, and so is each value that is handed out.
#[derive(Drop)]
pub struct Kept<A, M: Fold<Spot, A>> {
    window: Window<Spot, A, M>,
}

impl<A, M: Fold<Spot, A>> Model for Kept<A, M> {
    ghost use Rattle.pr_head.specs.spec_history.declared.spot.Spot.{Spot};
    ghost use Rattle.pr_range.specs.pr_window.private.Windows.{Windowed};

    ghost Value = { Windowed Spot };

    ghost view = { λ s. s.window };
}

fn push_counted<A: Copy, M: Summarize<A>, L: Ledger>(
    window: &mut Window<Spot, A, M>,
    spot: Spot,
    looks: &mut Steps<L>,
) -> Result<(), AllocError>
    ensures items { OnOk result (window.new.items ≡ window.old.items ++ spot ∷ []) }
    ensures looks { looks.new + window.new.saved ≤ looks.old + window.old.saved + 2 }
{
    window.push(
        spot,
        &|s: &Spot| M::of_spot(s),
        &|a: &A, b: &A| M::of_parts(a, b),
        looks,
    )
}

fn drop_counted<A: Copy, M: Summarize<A>, L: Ledger>(
    window: &mut Window<Spot, A, M>,
    time: i64,
    looks: &mut Steps<L>,
)
    ensures items { window.new.items ≡ later time window.old.items }
    ensures looks { looks.new + window.new.saved ≤ looks.old + window.old.saved }
{
    window.drop_while(
        &|s: &Spot| !is_after(time, s),
        &|a: &A, b: &A| M::of_parts(a, b),
        looks,
    );
}

fn summary_counted<A: Copy, M: Summarize<A>, L: Ledger>(
    window: &Window<Spot, A, M>,
    looks: &mut Steps<L>,
) -> Option<A>
    ensures value { result ≡ folded M.lift M.combine window.now.items }
    ensures looks { looks.new ≤ looks.old + 1 }
{
    window.value(&|a: &A, b: &A| M::of_parts(a, b), looks)
}

// One value of a window, put at the end of a list of those before it.
fn push_item<A: Copy, M: Fold<Spot, A>, L: Ledger>(
    spots: &mut Vec<Spot>,
    window: &Window<Spot, A, M>,
    place: usize,
    looks: &mut Steps<L>,
) -> Result<(), AllocError>
    requires { place < length window.now.items }
    ensures items { OnOk result (spots.old.items ≡ take place window.now.items → spots.new.items ≡ take (place + 1) window.now.items) }
    ensures looks { looks.new ≡ looks.old + 1 }
{
    looks.tick();
    match window.item(place) {
        Some(spot) => {
            // Names the type of a value to the check.
            let _value: Num = spot.value;
            spots.push(*spot)?;
            Ok(())
        }
        None => Ok(()),
    }
}

impl<A: Copy, M: Summarize<A>> Kept<A, M> {
    /// No values.
    pub(crate) fn new(alloc: Global) -> Kept<A, M>
        ensures items { result.items ≡ [] }
        ensures saved { result.saved ≡ 0 }
    {
        Kept {
            window: Window::<Spot, A, M>::new(alloc),
        }
    }

    /// How many values there are.
    pub(crate) fn len(&self) -> usize
        ensures { result ≡ length self.now.items }
    {
        self.window.len()
    }

    /// One more value.
    pub(crate) fn push<L: Ledger>(
        &mut self,
        spot: Spot,
        looks: &mut Steps<L>,
    ) -> Result<(), AllocError>
        ensures items { OnOk result (self.new.items ≡ self.old.items ++ spot ∷ []) }
        ensures looks { looks.new + self.new.saved ≤ looks.old + self.old.saved + 2 }
    {
        push_counted::<A, M, L>(&mut self.window, spot, looks)
    }

    /// Lets the first values go that are not after a moment.
    pub(crate) fn drop_until<L: Ledger>(&mut self, time: i64, looks: &mut Steps<L>)
        ensures items { self.new.items ≡ later time self.old.items }
        ensures looks { looks.new + self.new.saved ≤ looks.old + self.old.saved }
    {
        drop_counted::<A, M, L>(&mut self.window, time, looks);
    }

    /// What the values fold to, where there are any, without going over them.
    pub(crate) fn summary<L: Ledger>(&self, looks: &mut Steps<L>) -> Option<A>
        ensures value { result ≡ folded M.lift M.combine self.now.items }
        ensures looks { looks.new ≤ looks.old + 1 }
    {
        summary_counted::<A, M, L>(&self.window, looks)
    }

    /// The values in a list of their own.
    pub(crate) fn listed<L: Ledger>(
        &self,
        alloc: Global,
        looks: &mut Steps<L>,
    ) -> Result<Vec<Spot>, AllocError>
        ensures items { IfOk result (λ v. v.items ≡ self.now.items) }
        ensures looks { looks.new ≤ looks.old + length self.now.items }
    {
        let mut spots = Vec::new(alloc);
        for place in 0..self.window.len() {
            push_item(&mut spots, &self.window, place, looks)?;
        }
        Ok(spots)
    }
}
