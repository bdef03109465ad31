// A window over a sequence, with the fold of its items.
ghost use Rattle.std.specs.Prelude.{◌≡◌, ◌≤◌, ◌+◌, ◌++◌, ◌∷◌, [], Bool, length, IfSome, IfNone, OnOk, OnErr, option_map, slice_get};
ghost use Rattle.pr_window.specs.private.Folding.{folded, Lifts, Combines};
ghost use Rattle.pr_window.specs.private.Windows.{Decides, drop_while};

use crate::counted::Counted;
use crate::fold::Fold;
use crate::held::Held;
use crate::kept::{both, drop_gone, first_summary, push_held, settle};
use spec_vectors::words_crate::Steps;
use std::alloc::{AllocError, Global};
use std::collections::VecDeque;
use std::marker::{Model, PhantomData};
use std::sync::ledger::Ledger;

/// Items in order, of which new ones come at the end and old ones go at the front, with the fold of
/// those that are there. Each item is kept with a summary: the first ones with that of what goes on
/// from each to the last of them, the others with their own.
#[derive(Drop)]
pub struct Window<T, A, M: Fold<T, A>> {
    held: VecDeque<Held<T, A>>,
    front: usize,
    back: Option<A>,
    fold: PhantomData<M>,
}

impl<T, A, M: Fold<T, A>> Model for Window<T, A, M> {
    ghost use Rattle.std.specs.Prelude.{◌-◌, length};
    ghost use Rattle.pr_window.specs.private.Windows.{Windowed, IsKept, items_of};

    ghost Value = { Windowed T };

    ghost view = { λ w. record { items = items_of w.held.items; saved = length w.held.items - w.front } };

    ghost invariant = { λ w. IsKept M.lift M.combine w.held.items w.front w.back };
}

impl<T: Copy, A: Copy, M: Fold<T, A>> Window<T, A, M> {
    /// No items.
    pub fn new(alloc: Global) -> Window<T, A, M>
        ensures items { result.items ≡ [] }
        ensures saved { result.saved ≡ 0 }
    {
        Window {
            held: VecDeque::new(alloc),
            front: 0,
            back: None,
            fold: PhantomData,
        }
    }

    /// How many items there are.
    pub fn len(&self) -> usize
        ensures { result ≡ length self.now.items }
    {
        self.held.len()
    }

    /// The item at a place, the oldest first.
    pub fn item(&self, index: usize) -> Option<&T>
        ensures { option_map (λ x. x.now) result ≡ slice_get self.now.items index }
    {
        match self.held.get(index) {
            Some(held) => Some(&held.item),
            None => None,
        }
    }

    /// Puts an item at the end. It also makes the room that a later `drop_while` needs: none more
    /// than the item's own. At most one call for combining, or two with one that is saved up.
    ///
    /// # Errors
    /// Want of memory, after which the window is as it was.
    pub fn push<L: Fn(&T) -> A, C: Fn(&A, &A) -> A, G: Ledger>(
        &mut self,
        item: T,
        lift: &L,
        combine: &C,
        steps: &mut Steps<G>,
    ) -> Result<(), AllocError>
        requires lift { Lifts L.Fn lift.now M.lift }
        requires combine { Combines C.Fn combine.now M.combine M.weight }
        ensures items { OnOk result (self.new.items ≡ self.old.items ++ item ∷ []) }
        ensures refused { OnErr result ((self.new ≡ self.old) × (steps.new ≡ steps.old)) }
        ensures steps { steps.new + self.new.saved ≤ steps.old + self.old.saved + 2 }
    {
        let combine = Counted::of(combine);
        let lifted = lift(&item);
        push_held(&mut self.held, item, lifted)?;
        let _count = self.held.len();
        self.back = both::<T, A, M, C, G>(self.back, Some(lifted), &combine, steps);
        Ok(())
    }

    /// Drops the oldest items as long as `gone` holds of them. It takes no memory.
    pub fn drop_while<D: Fn(&T) -> bool, C: Fn(&A, &A) -> A, G: Ledger>(
        &mut self,
        gone: &D,
        combine: &C,
        steps: &mut Steps<G>,
    )
        requires gone { D.IsAlwaysCallable gone.now }
        requires combine { Combines C.Fn combine.now M.combine M.weight }
        ensures items { (p : T → Bool) → Decides D.Fn gone.now p → self.new.items ≡ drop_while p self.old.items }
        ensures steps { steps.new + self.new.saved ≤ steps.old + self.old.saved }
    {
        let combine = Counted::of(combine);
        let dropped = drop_gone(&mut self.held, gone);
        if dropped <= self.front {
            self.front -= dropped;
        } else {
            let held = self.held.make_contiguous();
            settle::<T, A, M, C, G>(held, &combine, steps);
            self.front = self.held.len();
            self.back = None;
        }
    }

    /// The fold of the items in order, and none exactly where there are none. At most one call for
    /// combining.
    pub fn value<C: Fn(&A, &A) -> A, G: Ledger>(
        &self,
        combine: &C,
        steps: &mut Steps<G>,
    ) -> Option<A>
        requires combine { Combines C.Fn combine.now M.combine M.weight }
        ensures value { result ≡ folded M.lift M.combine self.now.items }
        ensures steps { steps.new ≤ steps.old + 1 }
    {
        let combine = Counted::of(combine);
        let _count = self.held.len();
        let front = first_summary(&self.held, self.front);
        both::<T, A, M, C, G>(front, self.back, &combine, steps)
    }
}
