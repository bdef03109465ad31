// How many times a backfill has.
ghost use Rattle.std.specs.Prelude.{◌≡◌, ℕ, ◌+◌, ◌*◌, ◌<◌, ◌≤◌, ◌↔◌, IfSome};
ghost use Rattle.pr_backfill.specs.Times.{backfill_times};

use pr_ast::time::{Ms, Span};

// No backfill has more times.
const LIMIT: u64 = 1 << 20;

/// How many times there are from a start on, a step apart, up to an end, which may be the last of them.
/// None where the step is 0, where the end is before the start, or where there are more than 2^20.
/// (Own choice.)
#[tactic(auto, using(crate::proofs::Counting::counts_times), unfolding(crate::specs::Times::backfill_times))]
pub fn times(start: Ms, end: Ms, step: Span) -> Option<u32>
    ensures same { result ≡ backfill_times start end step }
    ensures count { IfSome result (λ n. (i : ℕ) → (i < n) ↔ (start + i * step ≤ end)) }
{
    if step.get() == 0 || end < start {
        return None;
    }
    let count = (end.get() - start.get()) / step.get() + 1;
    if count > LIMIT {
        return None;
    }
    Some(count as u32)
}
