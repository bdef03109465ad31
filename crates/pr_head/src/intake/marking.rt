// Stale markers.
ghost use Rattle.std.specs.Prelude.{◌≡◌, [], ◌∷◌, List, IfOk, OnOk, OnErr, fold};
ghost use Rattle.pr_labels.specs.Rising.{is_among, with_labels};
ghost use Rattle.spec_history.specs.declared.entry.Entry.{Entry};
ghost use Rattle.pr_head.specs.private.Holds.{Holds};
ghost use Rattle.spec_history.specs.Puts.{markers};
ghost use Rattle.pr_head.specs.private.Intake.{HasTakenFront, Puts};

use crate::Head;
use crate::intake::taking::{marker, put};
use pr_labels::Labels;
use spec_history::Entry;
use spec_history::time::Ms;
use std::alloc::{AllocError, Global};
use std::collections::BTreeSet;

/// Puts a label set among those that are there, unless it is among them.
pub fn add_labels(sets: &mut BTreeSet<Labels>, labels: Labels) -> Result<(), AllocError>
    ensures { OnOk result (sets.new.keys ≡ with_labels sets.old.keys labels) }
{
    sets.insert(labels)?;
    Ok(())
}

/// The label sets of a list, in label order, each once.
pub fn set_of(alloc: Global, list: &[Labels]) -> Result<BTreeSet<Labels>, AllocError>
    ensures { IfOk result (λ s. s.keys ≡ fold with_labels [] list.now) }
{
    let mut sets = BTreeSet::new(alloc);
    for labels in list {
        add_labels(&mut sets, labels.copy(alloc)?)?;
    }
    Ok(sets)
}

/// Whether a label set is among those that are there.
pub(crate) fn is_among(sets: &BTreeSet<Labels>, labels: &Labels) -> bool
    ensures { result ≡ is_among labels.now sets.now.keys }
{
    sets.contains(labels)
}

// Puts a marker for a series, unless it is among the new ones.
fn put_marker(
    alloc: Global,
    head: &mut Head,
    rows: &mut Vec<Entry>,
    now: Ms,
    labels: &Labels,
    new: &BTreeSet<Labels>,
) -> Result<(), AllocError>
    ensures puts { (history : List Entry) → Holds head.old history → OnOk result (Puts head.old head.new rows.old.items rows.new.items history (markers now (labels.now ∷ []) new.now.keys)) }
    ensures front { (history : List Entry) → Holds head.old history → OnErr result (HasTakenFront head.old head.new history (markers now (labels.now ∷ []) new.now.keys)) }
{
    if is_among(new, labels) {
        return Ok(());
    }
    put(head, rows, marker(alloc, now, labels)?)?;
    Ok(())
}

/// Puts a marker for each series that is not among the new ones.
pub fn put_markers(
    alloc: Global,
    head: &mut Head,
    rows: &mut Vec<Entry>,
    now: Ms,
    old: &[Labels],
    new: &BTreeSet<Labels>,
) -> Result<(), AllocError>
    ensures puts { (history : List Entry) → Holds head.old history → OnOk result (Puts head.old head.new rows.old.items rows.new.items history (markers now old.now new.now.keys)) }
    ensures front { (history : List Entry) → Holds head.old history → OnErr result (HasTakenFront head.old head.new history (markers now old.now new.now.keys)) }
{
    for labels in old {
        put_marker(alloc, head, rows, now, labels, new)?;
    }
    Ok(())
}
