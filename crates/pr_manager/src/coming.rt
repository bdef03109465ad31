// The evaluation of a group, unless it is refused.
ghost use Rattle.std.specs.Prelude.{◌≡◌, ◌+◌, ◌≤◌, List, IfOk};
ghost use Rattle.spec_world.specs.spec_history.declared.entry.Entry.{Entry};
ghost use Rattle.spec_world.specs.spec_rules.Groups.{Group};
ghost use Rattle.spec_world.specs.spec_rules.Settings.{Settings};
ghost use Rattle.pr_group.specs.private.Keeping.{MayEvaluateOver, passed_by};
ghost use Rattle.pr_manager.specs.private.Coming.{GroupComes, too_late};
ghost use Rattle.pr_manager.specs.private.Keeping.{KeepsUnder};
ghost use Rattle.pr_manager.specs.private.Rounds.{cost_after};

use pr_ast::time::Ms;
use pr_ast::words_crate::Steps;
use pr_group::GroupOver;
use pr_group::head::Head;
use pr_group::range::Ranges;
use spec_world::Report;
use std::alloc::{AllocError, Global};
use std::sync::ledger::Ledger;

// The last evaluation, where a time is not after it.
fn too_late(last: Option<Ms>, time: Ms) -> Option<Ms>
    ensures { result ≡ too_late last time }
{
    match last {
        Some(at) => { if at < time { None } else { Some(at) } }
        None => None,
    }
}

/// Evaluates a group, unless it was evaluated at this time or later.
///
/// # Errors
/// Want of memory: then nothing is said of the group and of the head.
pub(crate) fn evaluate_group<R: Ranges + Drop, G: Ledger>(
    alloc: Global,
    group: &mut GroupOver<R>,
    head: &mut Head,
    time: Ms,
    reads: &mut Steps<G>,
) -> Result<Report, AllocError>
    ensures comes { (s : Settings) (history : List Entry) (g : Group) → KeepsUnder R.fits R.last R.passed s history group.old g → MayEvaluateOver head.old history time
        → IfOk result (GroupComes R.fits R.last R.passed R.keeps s g group.old group.new history time head.old head.new reads.old reads.new) }
    ensures reads { (s : Settings) (history : List Entry) (g : Group) → KeepsUnder R.fits R.last R.passed s history group.old g → MayEvaluateOver head.old history time
        → reads.new ≤ reads.old + cost_after g.last s g history time (passed_by R.passed group.old history) }
{
    match too_late(group.last(), time) {
        Some(last) => Ok(Report::NotLater { last }),
        None => Ok(Report::Evaluated {
            group: group.evaluate(alloc, time, head, reads)?,
        }),
    }
}
