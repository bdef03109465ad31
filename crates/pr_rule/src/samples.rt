// The samples of a rule are put, and what becomes of each is told.
ghost use Rattle.std.specs.Prelude.{◌≡◌, ◌++◌, ◌∷◌, [], true, cond, List, IfOk, OnOk};
ghost use Rattle.spec_rules.specs.spec_history.declared.entry.Entry.{Entry};
ghost use Rattle.pr_eval.specs.pr_head.private.Holds.{Holds};
ghost use Rattle.spec_rules.specs.spec_history.Puts.{is_shown};
ghost use Rattle.spec_rules.specs.Evaluations.{put_of};
ghost use Rattle.pr_rule.specs.private.Written.{Writes};

use crate::evaluation::Evaluation;
use pr_ast::num::{Num, Point};
use pr_eval::head::Head;
use pr_eval::head::intake::{is_shown, put_if};
use pr_labels::{Item, Labels};
use spec_rules::Put;
use spec_rules::history::{Append, Entry};
use std::alloc::{AllocError, Global};

// Notes the series of a sample that it shows.
fn note_shown(
    alloc: Global,
    wrote: &mut Vec<Labels>,
    item: &Item<Num>,
    answer: &Append,
) -> Result<(), AllocError>
    ensures { OnOk result (wrote.new.items ≡ wrote.old.items ++ (cond (is_shown answer.now) (item.now.labels ∷ []) [])) }
{
    if is_shown(answer) {
        wrote.push(item.labels.copy(alloc)?)?;
    }
    Ok(())
}

// Notes what became of a sample, where that is told.
fn note_told(
    at: &Evaluation<'_>,
    told: &mut Vec<Put>,
    item: &Item<Num>,
    answer: Append,
) -> Result<(), AllocError>
    ensures { OnOk result (at.now.tells ≡ true → told.new.items ≡ told.old.items ++ put_of (item.now, answer) ∷ []) }
{
    if at.tells {
        told.push(Put {
            labels: item.labels.copy(at.alloc)?,
            value: item.value,
            append: answer,
        })?;
    }
    Ok(())
}

// Puts a sample.
fn put_sample(
    at: &Evaluation<'_>,
    head: &mut Head,
    rows: &mut Vec<Entry>,
    told: &mut Vec<Put>,
    wrote: &mut Vec<Labels>,
    item: &Item<Num>,
) -> Result<(), AllocError>
    ensures { (history : List Entry) → Holds head.old history
        → OnOk result (Writes at.now.tells head.old head.new rows.old.items rows.new.items told.old.items told.new.items wrote.old.items wrote.new.items history at.now.time (item.now ∷ [])) }
{
    let point = Point::Value(item.value);
    let answer = put_if(at.alloc, at.tells, head, rows, &item.labels, at.time, point)?;
    note_shown(at.alloc, wrote, item, &answer)?;
    note_told(at, told, item, answer)
}

/// Puts samples in order into the head. The series that show them are put behind those that were
/// written. Where that is told, the samples that are added stand behind the rows, and what becomes
/// of each behind what is told.
pub(crate) fn put_samples(
    at: &Evaluation<'_>,
    head: &mut Head,
    rows: &mut Vec<Entry>,
    told: &mut Vec<Put>,
    wrote: &mut Vec<Labels>,
    items: &[Item<Num>],
) -> Result<(), AllocError>
    ensures { (history : List Entry) → Holds head.old history
        → OnOk result (Writes at.now.tells head.old head.new rows.old.items rows.new.items told.old.items told.new.items wrote.old.items wrote.new.items history at.now.time items.now) }
{
    for item in items {
        put_sample(at, head, rows, told, wrote, item)?;
    }
    Ok(())
}
