// What remains of groups that are gone.
ghost use Rattle.std.specs.Prelude.{◌≡◌, ◌++◌, [], List, map, flat_map, IfOk, OnOk};
ghost use Rattle.spec_world.specs.spec_history.declared.entry.Entry.{Entry};
ghost use Rattle.pr_group.specs.pr_head.private.Holds.{Holds};
ghost use Rattle.pr_group.specs.pr_head.private.Intake.{HasTaken};
ghost use Rattle.spec_world.specs.spec_history.Puts.{admitted, marker};
ghost use Rattle.spec_world.specs.spec_rules.Groups.{Group};
ghost use Rattle.spec_world.specs.spec_rules.Reloads.{remains};
ghost use Rattle.spec_world.specs.spec_rules.Settings.{Settings};
ghost use Rattle.pr_manager.specs.private.Keeping.{KeepEach};

use pr_ast::labels::Labels;
use pr_ast::time::Ms;
use pr_group::GroupOver;
use pr_group::head::Head;
use pr_group::head::intake::mark;
use pr_group::range::Ranges;
use spec_world::history::Entry;
use std::alloc::{AllocError, Global};

// Puts label sets behind others.
fn push_all(sets: &mut Vec<Labels>, more: Vec<Labels>) -> Result<(), AllocError>
    ensures { OnOk result (sets.new.items ≡ sets.old.items ++ more.items) }
{
    for labels in more {
        sets.push(labels)?;
    }
    Ok(())
}

// The series that remain of groups, group by group.
fn remains_of<R: Ranges + Drop>(
    alloc: Global,
    gone: &[GroupOver<R>],
) -> Result<Vec<Labels>, AllocError>
    ensures { (s : Settings) (history : List Entry) (groups : List Group) → KeepEach R.fits R.last R.passed s history gone.now groups
        → IfOk result (λ v. v.items ≡ flat_map remains groups) }
{
    let mut sets = Vec::new(alloc);
    let mut rest = gone;
    'remaining: while let Some((group, after)) = rest.split_first() {
        push_all(&mut sets, group.remains(alloc)?)?;
        rest = after;
    }
    Ok(sets)
}

// Puts a marker for each series, and tells those that were added.
fn mark_all(
    alloc: Global,
    head: &mut Head,
    time: Ms,
    sets: &[Labels],
) -> Result<Vec<Entry>, AllocError>
    ensures taken { (history : List Entry) → Holds head.old history → OnOk result (HasTaken head.old head.new history (map (marker time) sets.now)) }
    ensures added { (history : List Entry) → Holds head.old history → IfOk result (λ v. v.items ≡ admitted history (map (marker time) sets.now)) }
{
    let mut rows = Vec::new(alloc);
    mark(alloc, head, &mut rows, time, sets, &[])?;
    Ok(rows)
}

/// Marks what remains of groups that are gone, and tells the entries that were added.
///
/// # Errors
/// Want of memory.
pub(crate) fn mark_gone<R: Ranges + Drop>(
    alloc: Global,
    head: &mut Head,
    time: Ms,
    gone: &[GroupOver<R>],
) -> Result<Vec<Entry>, AllocError>
    ensures taken { (s : Settings) (history : List Entry) (groups : List Group) → KeepEach R.fits R.last R.passed s history gone.now groups → Holds head.old history
        → OnOk result (HasTaken head.old head.new history (map (marker time) (flat_map remains groups))) }
    ensures added { (s : Settings) (history : List Entry) (groups : List Group) → KeepEach R.fits R.last R.passed s history gone.now groups → Holds head.old history
        → IfOk result (λ v. v.items ≡ admitted history (map (marker time) (flat_map remains groups))) }
{
    let sets = remains_of(alloc, gone)?;
    mark_all(alloc, head, time, &sets)
}
