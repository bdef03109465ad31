// What a window keeps, and the steps of its calls.
ghost use Rattle.std.specs.Prelude.{◌≡◌, ◌+◌, ◌-◌, ◌^◌, ◌<◌, ◌≤◌, ◌++◌, ◌∷◌, [], Bool, List, length, map, take, drop, OnOk, OnErr, slice_get};
ghost use Rattle.std.specs.List.{prefix_len};
ghost use Rattle.pr_window.specs.private.Folding.{Combines};
ghost use Rattle.pr_window.specs.private.Windows.{AreLight, Decides, items_of, joined, suffixes, summaries_of};

use crate::counted::Counted;
use crate::fold::Fold;
use crate::held::Held;
use spec_vectors::words_crate::Steps;
use std::alloc::AllocError;
use std::collections::VecDeque;
use std::sync::ledger::Ledger;

// An item at the end, with a summary.
pub(crate) fn push_held<T: Copy, A: Copy>(
    held: &mut VecDeque<Held<T, A>>,
    item: T,
    summary: A,
) -> Result<(), AllocError>
    ensures ok { OnOk result (held.new.items ≡ held.old.items ++ (record { item = item; summary = summary }) ∷ []) }
    ensures err { OnErr result (held.new.items ≡ held.old.items) }
{
    held.push_back(Held { item, summary })?;
    Ok(())
}

// The summary of two parts, of which either may be empty.
pub(crate) fn both<T, A: Copy, M: Fold<T, A>, C: Fn(&A, &A) -> A, G: Ledger>(
    first: Option<A>,
    second: Option<A>,
    combine: &Counted<'_, C>,
    steps: &mut Steps<G>,
) -> Option<A>
    requires combine { Combines C.Fn combine.now.closure.now M.combine M.weight }
    requires light { AreLight M.weight first second }
    ensures value { result ≡ joined M.combine first second }
    ensures step { steps.new ≤ steps.old + 1 }
{
    match (first, second) {
        (Some(a), Some(b)) => Some(combine.call::<T, A, M, G>(&a, &b, steps)),
        (Some(a), None) => Some(a),
        (None, second) => second,
    }
}

// The first of as many summaries.
pub(crate) fn first_summary<T: Copy, A: Copy>(
    held: &VecDeque<Held<T, A>>,
    front: usize,
) -> Option<A>
    ensures { result ≡ slice_get (take front (summaries_of held.now.items)) 0 }
{
    if front == 0 {
        return None;
    }
    match held.front() {
        Some(held) => Some(held.summary),
        None => None,
    }
}

// Drops the first items as long as `gone` holds of them, and says how many those are.
pub(crate) fn drop_gone<T: Copy, A: Copy, D: Fn(&T) -> bool>(
    held: &mut VecDeque<Held<T, A>>,
    gone: &D,
) -> usize
    requires { D.IsAlwaysCallable gone.now }
    ensures rest { held.new.items ≡ drop result held.old.items }
    ensures within { result ≤ length held.old.items }
    ensures gone { (p : T → Bool) → Decides D.Fn gone.now p → result ≡ prefix_len p (items_of held.old.items) }
{
    let mut dropped = 0;
    while let Some(first) = held.front() {
        if !gone(&first.item) {
            break;
        }
        held.pop_front();
        dropped += 1;
    }
    dropped
}

// Gives each item the summary of what goes on from it to the end, in place of its own.
pub(crate) fn settle<T: Copy, A: Copy, M: Fold<T, A>, C: Fn(&A, &A) -> A, G: Ledger>(
    held: &mut [Held<T, A>],
    combine: &Counted<'_, C>,
    steps: &mut Steps<G>,
)
    requires combine { Combines C.Fn combine.now.closure.now M.combine M.weight }
    requires own { summaries_of held.old ≡ map M.lift (items_of held.old) }
    ensures items { items_of held.new ≡ items_of held.old }
    ensures summaries { summaries_of held.new ≡ suffixes M.lift M.combine (items_of held.old) }
    ensures steps { steps.new ≤ steps.old + length held.old }
{
    let mut at = held.len();
    while at > 1 {
        at -= 1;
        let first = held[at - 1].summary;
        let second = held[at].summary;
        held[at - 1].summary = combine.call::<T, A, M, G>(&first, &second, steps);
    }
}
