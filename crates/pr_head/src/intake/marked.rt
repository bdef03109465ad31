// Markers for the series that are gone, and which series got one.
ghost use Rattle.std.specs.Prelude.{◌≡◌, true, ◌++◌, List, OnOk, IfOk};
ghost use Rattle.spec_history.specs.declared.entry.Entry.{Entry};
ghost use Rattle.spec_history.specs.Puts.{admitted, label_sets_of, markers};
ghost use Rattle.pr_head.specs.private.Holds.{Holds};
ghost use Rattle.pr_head.specs.private.Intake.{Puts, PutsIf};

use crate::Head;
use crate::intake::marking::{put_markers, set_of};
use crate::intake::same::are_same;
use crate::intake::untold::mark_untold;
use pr_labels::Labels;
use spec_history::Entry;
use spec_history::time::Ms;
use std::alloc::{AllocError, Global};

// Puts rows behind others, and tells their series.
fn move_rows(
    alloc: Global,
    rows: &mut Vec<Entry>,
    more: Vec<Entry>,
) -> Result<Vec<Labels>, AllocError>
    ensures rows { OnOk result (rows.new.items ≡ rows.old.items ++ more.items) }
    ensures series { IfOk result (λ v. v.items ≡ label_sets_of more.items) }
{
    let mut series = Vec::new(alloc);
    for entry in more {
        series.push(entry.labels.copy(alloc)?)?;
        rows.push(entry)?;
    }
    Ok(series)
}

/// Puts a marker for each series of the old ones that is not among the new ones, and answers the
/// series that got one: a marker that is refused marks nothing.
pub fn mark(
    alloc: Global,
    head: &mut Head,
    rows: &mut Vec<Entry>,
    now: Ms,
    old: &[Labels],
    new: &[Labels],
) -> Result<Vec<Labels>, AllocError>
    ensures puts { (history : List Entry) → Holds head.old history → OnOk result (Puts head.old head.new rows.old.items rows.new.items history (markers now old.now new.now)) }
    ensures marked { (history : List Entry) → Holds head.old history → IfOk result (λ v. v.items ≡ label_sets_of (admitted history (markers now old.now new.now))) }
{
    if are_same(old, new) {
        return Ok(Vec::new(alloc));
    }
    let news = set_of(alloc, new)?;
    let mut marked = Vec::new(alloc);
    put_markers(alloc, head, &mut marked, now, old, &news)?;
    move_rows(alloc, rows, marked)
}

/// Puts the markers of `mark`, and answers their series where they are told. Where they are not,
/// nothing is said of rows and series.
pub fn mark_if(
    alloc: Global,
    tells: bool,
    head: &mut Head,
    rows: &mut Vec<Entry>,
    now: Ms,
    old: &[Labels],
    new: &[Labels],
) -> Result<Vec<Labels>, AllocError>
    ensures puts { (history : List Entry) → Holds head.old history → OnOk result (PutsIf tells head.old head.new rows.old.items rows.new.items history (markers now old.now new.now)) }
    ensures marked { (history : List Entry) → Holds head.old history → IfOk result (λ v. tells ≡ true → v.items ≡ label_sets_of (admitted history (markers now old.now new.now))) }
{
    if tells {
        return mark(alloc, head, rows, now, old, new);
    }
    mark_untold(alloc, head, now, old, new)?;
    Ok(Vec::new(alloc))
}
