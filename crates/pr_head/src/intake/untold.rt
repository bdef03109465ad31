// Markers of which nothing is told.
ghost use Rattle.std.specs.Prelude.{[], ◌∷◌, List, OnOk};
ghost use Rattle.spec_history.specs.declared.entry.Entry.{Entry};
ghost use Rattle.pr_head.specs.private.Holds.{Holds};
ghost use Rattle.spec_history.specs.Puts.{markers};
ghost use Rattle.pr_head.specs.private.Intake.{HasTaken};

use crate::Head;
use crate::intake::marking::{is_among, set_of};
use crate::intake::same::are_same;
use crate::intake::taking::{append, marker};
use pr_labels::Labels;
use spec_history::time::Ms;
use std::alloc::{AllocError, Global};
use std::collections::BTreeSet;

// Puts a marker for a series, unless it is among the new ones.
fn append_marker(
    alloc: Global,
    head: &mut Head,
    now: Ms,
    labels: &Labels,
    new: &BTreeSet<Labels>,
) -> Result<(), AllocError>
    ensures { (history : List Entry) → Holds head.old history → OnOk result (HasTaken head.old head.new history (markers now (labels.now ∷ []) new.now.keys)) }
{
    if is_among(new, labels) {
        return Ok(());
    }
    append(head, &marker(alloc, now, labels)?)?;
    Ok(())
}

// Puts a marker for each series that is not among the new ones.
fn append_markers(
    alloc: Global,
    head: &mut Head,
    now: Ms,
    old: &[Labels],
    new: &BTreeSet<Labels>,
) -> Result<(), AllocError>
    ensures { (history : List Entry) → Holds head.old history → OnOk result (HasTaken head.old head.new history (markers now old.now new.now.keys)) }
{
    for labels in old {
        append_marker(alloc, head, now, labels, new)?;
    }
    Ok(())
}

/// Puts a marker for each series of the old ones that is not among the new ones.
pub(crate) fn mark_untold(
    alloc: Global,
    head: &mut Head,
    now: Ms,
    old: &[Labels],
    new: &[Labels],
) -> Result<(), AllocError>
    ensures { (history : List Entry) → Holds head.old history → OnOk result (HasTaken head.old head.new history (markers now old.now new.now)) }
{
    if are_same(old, new) {
        return Ok(());
    }
    let news = set_of(alloc, new)?;
    append_markers(alloc, head, now, old, &news)
}
