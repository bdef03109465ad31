// Entries that are put into a head, one after another.
ghost use Rattle.std.specs.Prelude.{◌≡◌, [], ◌∷◌, ◌++◌, List, IfOk, OnOk, OnErr};
ghost use Rattle.spec_history.specs.declared.entry.Entry.{Entry};
ghost use Rattle.spec_history.specs.Admission.{admit};
ghost use Rattle.pr_head.specs.private.Holds.{Holds, entry_of};
ghost use Rattle.spec_history.specs.Puts.{is_added, is_shown, marker};
ghost use Rattle.pr_head.specs.private.Intake.{HasTaken, HasTakenFront, Puts, PutsIf};

use crate::Head;
use pr_labels::Labels;
use spec_history::num::Point;
use spec_history::time::Ms;
use spec_history::{Append, Entry};
use std::alloc::{AllocError, Global};

fn is_added(answer: &Append) -> bool
    ensures { result ≡ is_added answer.now }
{
    matches!(answer, Append::Added)
}

/// Whether the series shows the point then.
pub fn is_shown(answer: &Append) -> bool
    ensures { result ≡ is_shown answer.now }
{
    matches!(answer, Append::Added | Append::Same)
}

/// Puts an entry into the head, and tells it in no row.
pub(crate) fn append(head: &mut Head, entry: &Entry) -> Result<Append, AllocError>
    ensures answer { (history : List Entry) → Holds head.old history → IfOk result (λ a. a ≡ admit history entry.now.labels entry.now.time entry.now.point) }
    ensures taken { (history : List Entry) → Holds head.old history → OnOk result (HasTaken head.old head.new history (entry.now ∷ [])) }
    ensures err { OnErr result (head.new ≡ head.old) }
{
    head.append(&entry.labels, entry.time, entry.point)
}

/// Puts an entry into the head, and behind the rows where it is added.
pub fn put(head: &mut Head, rows: &mut Vec<Entry>, entry: Entry) -> Result<Append, AllocError>
    ensures answer { (history : List Entry) → Holds head.old history → IfOk result (λ a. a ≡ admit history entry.labels entry.time entry.point) }
    ensures puts { (history : List Entry) → Holds head.old history → OnOk result (Puts head.old head.new rows.old.items rows.new.items history (entry ∷ [])) }
    ensures front { (history : List Entry) → Holds head.old history → OnErr result (HasTakenFront head.old head.new history (entry ∷ [])) }
{
    let answer = append(head, &entry)?;
    if is_added(&answer) {
        rows.push(entry)?;
    }
    Ok(answer)
}

// The point of a series at a time.
fn entry_of(alloc: Global, labels: &Labels, time: Ms, point: Point) -> Result<Entry, AllocError>
    ensures { IfOk result (λ e. e ≡ entry_of labels.now time point) }
{
    Ok(Entry {
        labels: labels.copy(alloc)?,
        time,
        point,
    })
}

/// Puts the point of a series into the head; and where rows are told, its entry behind them if it
/// is added. Where they are not, no entry is made.
pub fn put_if(
    alloc: Global,
    tells: bool,
    head: &mut Head,
    rows: &mut Vec<Entry>,
    labels: &Labels,
    time: Ms,
    point: Point,
) -> Result<Append, AllocError>
    ensures answer { (history : List Entry) → Holds head.old history → IfOk result (λ a. a ≡ admit history labels.now time point) }
    ensures puts { (history : List Entry) → Holds head.old history → OnOk result (PutsIf tells head.old head.new rows.old.items rows.new.items history (entry_of labels.now time point ∷ [])) }
{
    if tells {
        let entry = entry_of(alloc, labels, time, point)?;
        return put(head, rows, entry);
    }
    head.append(labels, time, point)
}

/// The marker of a series.
pub fn marker(alloc: Global, now: Ms, labels: &Labels) -> Result<Entry, AllocError>
    ensures { IfOk result (λ e. e ≡ marker now labels.now) }
{
    Ok(Entry {
        labels: labels.copy(alloc)?,
        time: now,
        point: Point::Stale,
    })
}
