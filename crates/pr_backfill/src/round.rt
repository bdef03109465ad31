// The evaluation of each group at a time.
ghost use Rattle.std.specs.Prelude.{◌≡◌, ◌<◌, List, length, slice_get, Some, IfOk, OnOk};
ghost use Rattle.spec_rules.specs.spec_history.declared.entry.Entry.{Entry};
ghost use Rattle.spec_rules.specs.Groups.{Group};
ghost use Rattle.spec_rules.specs.Settings.{Settings};
ghost use Rattle.spec_rules.specs.private.Times.{IsAfter, IsAfterAll};
ghost use Rattle.pr_engine.specs.pr_group.private.Keeping.{KeptGroup, MayEvaluateOver};
ghost use Rattle.pr_engine.specs.pr_manager.private.Keeping.{HasGoneOn, KeepEach, KeepsUnder};
ghost use Rattle.pr_backfill.specs.Filled.{round_at};
ghost use Rattle.pr_backfill.specs.private.Rounds.{HasFilled, IsStepped, IsSteppedAt};

use crate::stepped::Stepped;
use pr_ast::time::Ms;
use pr_engine::group::{GroupOver, a_kept_group_stays};
use pr_engine::head::Head;
use pr_engine::range::Ranges;
use pr_outside::words_crate::{Steps, Text};
use std::alloc::{AllocError, Global};
use std::sync::ledger::Ledger;

// Evaluates a group, and tells of it by its file and its name.
fn evaluate<R: Ranges + Drop, G: Ledger>(
    alloc: Global,
    group: &mut GroupOver<R>,
    time: Ms,
    head: &mut Head,
    reads: &mut Steps<G>,
) -> Result<Stepped, AllocError>
    ensures { (s : Settings) (history : List Entry) (g : Group) → KeepsUnder R.fits R.last R.passed s history group.old g → MayEvaluateOver head.old history time → IsAfter time g.last
        → IfOk result (IsStepped R.fits R.last R.passed s g group.new history time head.old head.new) }
{
    let file = Text::from_str(alloc, group.file())?;
    let name = group.def().name.copy(alloc)?;
    let report = group.evaluate(alloc, time, head, reads)?;
    Ok(Stepped {
        file,
        group: name,
        report,
    })
}

// Evaluates the group at a place.
fn evaluate_at<R: Ranges + Drop, G: Ledger>(
    alloc: Global,
    groups: &mut Vec<GroupOver<R>>,
    place: usize,
    time: Ms,
    head: &mut Head,
    reads: &mut Steps<G>,
) -> Result<Stepped, AllocError>
    requires { place < length groups.old.items }
    ensures step { (s : Settings) (history : List Entry) (k : KeptGroup R) (g : Group) → slice_get groups.old.items place ≡ Some k → KeepsUnder R.fits R.last R.passed s history k g → MayEvaluateOver head.old history time → IsAfter time g.last
        → IfOk result (IsSteppedAt R.fits R.last R.passed s g history time head.old head.new groups.old.items groups.new.items place) }
    ensures many { OnOk result (length groups.new.items ≡ length groups.old.items) }
{
    evaluate(alloc, &mut groups[place], time, head, reads)
}

/// Evaluates each group in order, and tells of each.
///
/// # Errors
/// Want of memory: then nothing is said of the groups and of the head.
pub(crate) fn evaluate_all<R: Ranges + Drop, G: Ledger>(
    alloc: Global,
    groups: &mut Vec<GroupOver<R>>,
    time: Ms,
    head: &mut Head,
    reads: &mut Steps<G>,
) -> Result<Vec<Stepped>, AllocError>
    ensures told { (s : Settings) (history : List Entry) (gs : List Group) → KeepEach R.fits R.last R.passed s history groups.old.items gs → MayEvaluateOver head.old history time → IsAfterAll time gs
        → IfOk result (λ v. v.items ≡ (round_at s time history gs).told) }
    ensures keeps { (s : Settings) (history : List Entry) (gs : List Group) → KeepEach R.fits R.last R.passed s history groups.old.items gs → MayEvaluateOver head.old history time → IsAfterAll time gs
        → OnOk result (KeepEach R.fits R.last R.passed s (round_at s time history gs).history groups.new.items (round_at s time history gs).groups) }
    ensures head { (s : Settings) (history : List Entry) (gs : List Group) → KeepEach R.fits R.last R.passed s history groups.old.items gs → MayEvaluateOver head.old history time → IsAfterAll time gs
        → OnOk result (HasGoneOn head.old head.new history (round_at s time history gs).history) }
{
    a_kept_group_stays::<R>();
    let mut told = Vec::new(alloc);
    'groups: for place in 0..groups.len() {
        told.push(evaluate_at(alloc, groups, place, time, head, reads)?)?;
    }
    Ok(told)
}
