// The times of a backfill.
ghost use Rattle.std.specs.Prelude.{◌≡◌, ◌∷◌, [], IfNone, IfSome};
ghost use Rattle.std.specs.Option.{option_map};
ghost use Rattle.pr_backfill.specs.Times.{backfill_times, times_from};
ghost use Rattle.pr_backfill.specs.private.BackfillCommandTimes.{AreAfter};

use pr_ast::time::{Ms, Span};
use std::marker::Model;

/// The times of a backfill, in order. Contracts see the list of them.
#[derive(Drop)]
pub struct Times {
    // The next one, in milliseconds, and how many are left.
    next: u64,
    step: Span,
    left: u32,
}

impl Model for Times {
    ghost use Rattle.std.specs.Prelude.{ℕ, List};
    ghost use Rattle.pr_backfill.specs.Times.{times_from};
    ghost use Rattle.pr_backfill.specs.private.BackfillCommandTimes.{AreTimes};

    ghost Value = { List ℕ };

    ghost view = { λ t. times_from t.next t.step t.left };

    ghost invariant = { λ t. AreTimes t.next t.step t.left };
}

impl Times {
    /// The times from a first one on, a step apart, up to a last one, which may be one of them. None
    /// where the step is 0, where the last one is before the first, or where there are more than 2^20.
    /// (Own choice.)
    pub fn new(first: Ms, last: Ms, step: Span) -> Option<Times>
        ensures { result ≡ option_map (times_from first step) (backfill_times first last step) }
    {
        // What the last of them is not after is a time.
        let _end = last.get();
        match crate::times(first, last, step) {
            Some(left) => Some(Times {
                next: first.get(),
                step,
                left,
            }),
            None => None,
        }
    }

    /// Takes the next time, where one is left.
    pub(crate) fn take_next(&mut self) -> Option<Ms>
        ensures none { IfNone result (self.old ≡ []) }
        ensures some { IfSome result (λ time. self.old ≡ time ∷ self.new) }
        ensures later { IfSome result (λ time. AreAfter time self.new) }
    {
        if self.left == 0 {
            return None;
        }
        let time = match Ms::new(self.next) {
            Some(time) => time,
            None => unreachable!(),
        };
        self.next += self.step.get();
        self.left -= 1;
        Some(time)
    }
}
