// The times of a subquery.
ghost use Rattle.std.specs.Prelude.{◌≡◌, ◌<◌, ◌<ℤ◌, ◌^◌, Some, length, pos, slice_get};
ghost use Rattle.spec_meaning.specs.Subqueries.{multiples};
ghost use Rattle.pr_eval.specs.private.Times.{AreTimesWithin, multiples_until};

use pr_ast::time::{Ms, Span};
use std::marker::Model;

/// Times that are multiples of a step, one after another. Contracts see the list, which is never
/// made.
#[derive(Drop, Debug)]
pub struct SubqueryTimes {
    step: u64,
    first: u64,
    count: u64,
}

impl Model for SubqueryTimes {
    ghost use Rattle.std.specs.Prelude.{ℕ, List, ◌<◌, ◌≤◌, ◌^◌, ◌*◌, ◌+◌};
    ghost use Rattle.pr_eval.specs.private.Times.{steps_from};

    ghost Value = { List ℕ };

    ghost view = { λ t. steps_from t.step t.first t.count };

    ghost invariant = { λ t. (0 < t.step) × (t.step ≤ 2 ^ 40) × ((t.first + t.count) * t.step < 2 ^ 42 + t.step) };
}

// How many multiples of a step are at least 0 and at most a moment.
fn multiples_until(step: u64, moment: i64) -> u64
    requires { 0 < step }
    ensures { result ≡ multiples_until step moment }
{
    if moment < 0 {
        return 0;
    }
    moment as u64 / step + 1
}

// The time at so many milliseconds.
fn moment(ms: u64) -> Ms
    requires { ms < 2 ^ 42 }
    ensures { result ≡ ms }
{
    Ms::new(ms).unwrap()
}

impl SubqueryTimes {
    /// How many there are.
    pub fn count(&self) -> u64
        ensures { result ≡ length self.now }
    {
        self.count
    }

    /// The one with a number, from 0 on.
    pub fn at(&self, number: u64) -> Ms
        requires { number < length self.now }
        ensures { slice_get self.now number ≡ Some result }
    {
        moment((self.first + number) * self.step)
    }
}

/// The times at which a subquery takes its expression: the multiples of its step in its range that
/// are at least 0. They are counted and not listed. (Prometheus: Querying basics, Subquery. Own
/// choice: no time is below 0.)
pub fn subquery_times(step: Span, from: i64, to: i64) -> SubqueryTimes
    requires step { 0 < step }
    requires to { to <ℤ pos (2 ^ 42) }
    ensures times { result ≡ multiples step from to }
    ensures within { AreTimesWithin from to result }
{
    let step = step.get();
    let first = multiples_until(step, from);
    let end = multiples_until(step, to);
    if first < end {
        SubqueryTimes {
            step,
            first,
            count: end - first,
        }
    } else {
        SubqueryTimes {
            step,
            first: 0,
            count: 0,
        }
    }
}
