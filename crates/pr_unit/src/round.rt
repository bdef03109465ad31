// A round of evaluations: each group once.
ghost use Rattle.std.specs.Prelude.{◌≡◌, ◌<◌, List, length, map, slice_get, Some, OnOk};
ghost use Rattle.pr_slide.specs.spec_history.declared.entry.Entry.{Entry};
ghost use Rattle.pr_slide.specs.spec_history.Admission.{put_all};
ghost use Rattle.pr_slide.specs.pr_head.private.Intake.{HasTaken};
ghost use Rattle.pr_group.specs.spec_rules.Evaluations.{group_step};
ghost use Rattle.pr_group.specs.spec_rules.Groups.{Group};
ghost use Rattle.pr_group.specs.spec_rules.Settings.{Settings};
ghost use Rattle.pr_group.specs.spec_rules.private.Times.{IsAfter};
ghost use Rattle.spec_tests.specs.spec_world.Step.{next, world_after};
ghost use Rattle.spec_tests.specs.spec_world.World.{World};
ghost use Rattle.spec_tests.specs.Events.{eval_at};
ghost use Rattle.spec_tests.specs.private.Rounds.{AreApart, IsInRound};
ghost use Rattle.pr_group.specs.private.Keeping.{KeepsGroup, MayEvaluateOver, settings_of};
ghost use Rattle.pr_unit.specs.private.Kept.{StandsForWorld};

use pr_ast::time::Ms;
use pr_ast::words_crate::Steps;
use pr_group::{GroupOver, a_kept_group_stays};
use pr_slide::head::Head;
use pr_slide::range::Ranges;
use std::alloc::{AllocError, Global};
use std::marker::Brand;
use std::sync::ledger::{Blank, Ledger};

// Nothing is told of it, and its reads are counted for the proofs alone.
fn evaluate<G: Ledger, R: Ranges + Drop>(
    alloc: Global,
    group: &mut GroupOver<R>,
    time: Ms,
    head: &mut Head,
    blank: Blank,
) -> Result<(), AllocError>
    requires name { blank.name ≡ G.name }
    requires parts { blank.parts ≡ G.parts }
    requires some { 0 < G.parts }
    ensures head { (history : List Entry) (g : Group) → MayEvaluateOver head.old history time → KeepsGroup R.fits R.last R.passed group.old history g → IsAfter time g.last
        → OnOk result (HasTaken head.old head.new history (group_step (settings_of group.old) g history time).entries) }
    ensures keeps { (history : List Entry) (g : Group) → MayEvaluateOver head.old history time → KeepsGroup R.fits R.last R.passed group.old history g → IsAfter time g.last
        → OnOk result (KeepsGroup R.fits R.last R.passed group.new (put_all history (group_step (settings_of group.old) g history time).entries) (group_step (settings_of group.old) g history time).group) }
    ensures settings { OnOk result (settings_of group.new ≡ settings_of group.old) }
{
    let mut reads: Steps<G> = Steps::new(blank);
    group.evaluate_untold(alloc, time, head, &mut reads)
}

// The group with a number is evaluated.
fn evaluate_at<R: Ranges + Drop>(
    alloc: Global,
    groups: &mut Vec<GroupOver<R>>,
    number: usize,
    time: Ms,
    head: &mut Head,
) -> Result<(), AllocError>
    requires { number < length groups.old.items }
    ensures stands { (s : Settings) (w : World) (gs : List Group) (g : Group) → AreApart gs → slice_get gs number ≡ Some g → StandsForWorld R.fits R.last R.passed head.old groups.old.items s w → IsInRound gs time number w
        → OnOk result (StandsForWorld R.fits R.last R.passed head.new groups.new.items s (next s w (eval_at time g)).world) }
    ensures many { OnOk result (length groups.new.items ≡ length groups.old.items) }
{
    a_kept_group_stays::<R>();
    evaluate::<Brand, R>(alloc, &mut groups[number], time, head, Blank::new(1))
}

/// Each group is evaluated once, in order.
///
/// # Errors
/// Want of memory: then the groups and the head are used no more.
pub(crate) fn evaluate_all<R: Ranges + Drop>(
    alloc: Global,
    groups: &mut Vec<GroupOver<R>>,
    time: Ms,
    head: &mut Head,
) -> Result<(), AllocError>
    ensures stands { (s : Settings) (w : World) (gs : List Group) → AreApart gs → StandsForWorld R.fits R.last R.passed head.old groups.old.items s w → IsInRound gs time 0 w
        → OnOk result (StandsForWorld R.fits R.last R.passed head.new groups.new.items s (world_after s w (map (eval_at time) gs))) }
    ensures round { (s : Settings) (w : World) (gs : List Group) → AreApart gs → StandsForWorld R.fits R.last R.passed head.old groups.old.items s w → IsInRound gs time 0 w
        → OnOk result (IsInRound gs time (length gs) (world_after s w (map (eval_at time) gs))) }
{
    'groups: for number in 0..groups.len() {
        evaluate_at(alloc, groups, number, time, head)?;
    }
    Ok(())
}
