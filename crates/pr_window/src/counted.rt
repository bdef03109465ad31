// Combining that counts itself.
ghost use Rattle.std.specs.Prelude.{◌≡◌, ◌+◌, ◌^◌, ◌<◌};
ghost use Rattle.pr_window.specs.private.Folding.{Combines};

use crate::fold::Fold;
use spec_vectors::words_crate::Steps;
use std::sync::ledger::Ledger;

/// A closure for combining that can only be called by a step. What a window does is handed this in
/// place of the closure.
#[derive(Drop)]
pub(crate) struct Counted<'a, C> {
    closure: &'a C,
}

impl<'a, C> Counted<'a, C> {
    pub(crate) fn of(closure: &'a C) -> Counted<'a, C>
        ensures { result.closure.now ≡ closure.now }
    {
        Counted { closure }
    }

    /// One call, and one step.
    pub(crate) fn call<T, A, M: Fold<T, A>, G: Ledger>(
        &self,
        first: &A,
        second: &A,
        steps: &mut Steps<G>,
    ) -> A
    where
        C: Fn(&A, &A) -> A,
        requires combine { Combines C.Fn self.now.closure.now M.combine M.weight }
        requires light { M.weight first.now + M.weight second.now < 2 ^ 64 }
        ensures value { result ≡ M.combine first.now second.now }
        ensures step { steps.new ≡ steps.old + 1 }
    {
        steps.tick();
        (self.closure)(first, second)
    }
}
