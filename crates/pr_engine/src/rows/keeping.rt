// The rows of entries, handed to a store.
ghost use Rattle.std.specs.Prelude.{◌≡◌, ◌+◌, [], length, map, IfOk, IsSome, IsTrue, OnOk, OnErr, Some};
ghost use Rattle.pr_outside.specs.pr_num.Arithmetic.{IsFit};
ghost use Rattle.pr_outside.specs.Causes.{HasKeepCause};
ghost use Rattle.pr_outside.specs.private.Kept.{AppendsRows, KeepsRows};
ghost use Rattle.pr_outside.specs.spec_history.Points.{IsFitPoint, shown_point};
ghost use Rattle.pr_outside.specs.spec_history.Rows.{IsEntry, decoded, encoded};
ghost use Rattle.pr_engine.specs.private.Rows.{AreRead};

use crate::rows::texts::PrintedTexts;
use pr_outside::history::Entry;
use pr_outside::history::row::laws::rows_decode_as_their_entries;
use pr_outside::history::row::write_point;
use pr_outside::num::{Num, Point};
use pr_outside::{KeepError, Keeper, Row};
use pr_words::Text;
use std::alloc::{AllocError, Global};
use std::str;

// A value is fit, as its type says.
fn value_is_fit(value: Num)
    ensures { IsFit value }
{
    match value {
        Num::Finite(number) => {
            let _units = number.units();
        }
        Num::NaN | Num::PosInf | Num::NegInf => {}
    }
}

// A point is fit, as its value is.
fn point_is_fit(point: Point)
    ensures { IsFitPoint point }
{
    match point {
        Point::Value(value) => value_is_fit(value),
        Point::Stale => {}
    }
}

// Each value of the type is an entry: the types of its parts say so.
fn parts_are_an_entry(entry: &Entry)
    ensures { IsEntry entry.now }
{
    let _labels = entry.labels.pairs();
    let _time = entry.time.get();
    point_is_fit(entry.point);
}

// The printed text of a point.
fn point_text(alloc: Global, point: Point) -> Result<Text, AllocError>
    ensures { IfOk result (λ text. text ≡ shown_point point) }
{
    let mut text = [0; 40];
    let length = write_point(point, &mut text);
    Text::from_str(alloc, str::from_utf8(&text[..length]).unwrap())
}

// The row of an entry.
fn row_of(alloc: Global, texts: &mut PrintedTexts, entry: &Entry) -> Result<Row, AllocError>
    ensures row { IfOk result (λ row. row ≡ encoded entry.now) }
    ensures back { OnOk result (decoded (encoded entry.now) ≡ Some entry.now) }
{
    parts_are_an_entry(entry);
    rows_decode_as_their_entries();
    Ok(Row {
        series: texts.text_of(alloc, &entry.labels)?,
        time: entry.time.get(),
        point: point_text(alloc, entry.point)?,
    })
}

// The rows of entries.
fn rows_of(
    alloc: Global,
    texts: &mut PrintedTexts,
    entries: &[Entry],
) -> Result<Vec<Row>, AllocError>
    ensures rows { IfOk result (λ rows. rows.items ≡ map encoded entries.now) }
    ensures back { OnOk result (AreRead entries.now) }
{
    let mut rows = Vec::with_capacity(alloc, entries.len())?;
    let mut rest = entries;
    'encoding: while let Some((entry, after)) = rest.split_first() {
        rows.push(row_of(alloc, texts, entry)?)?;
        rest = after;
    }
    Ok(rows)
}

/// Keeps the rows of entries, all by one commit, or by none where there are no entries. After a
/// refusal no row is kept.
#[tactic(auto, using(crate::proofs::Told::appends_nothing, crate::proofs::Told::keeps_same))]
pub fn keep<K: Keeper>(
    alloc: Global,
    keeper: &mut K,
    texts: &mut PrintedTexts,
    entries: &[Entry],
) -> Result<(), KeepError>
    ensures ok { OnOk result (AppendsRows (K.means keeper.old).rows (K.means keeper.new).rows (map encoded entries.now)) }
    ensures ok_count { OnOk result ((K.means keeper.new).count ≡ (K.means keeper.old).count + length entries.now) }
    ensures back { OnOk result (AreRead entries.now) }
    ensures none { entries.now ≡ [] → keeper.new ≡ keeper.old }
    ensures err { OnErr result (KeepsRows (K.means keeper.old).rows (K.means keeper.new).rows) }
    ensures err_count { OnErr result ((K.means keeper.new).count ≡ (K.means keeper.old).count) }
    ensures tells { IsTrue (K.means keeper.new).sound → IsSome (K.means keeper.old).rows → OnOk result (IsSome (K.means keeper.new).rows) }
    ensures sound { IsTrue (K.means keeper.new).sound → IsTrue (K.means keeper.old).sound }
    ensures paths { (K.means keeper.new).paths ≡ (K.means keeper.old).paths }
    ensures cause { HasKeepCause (K.means keeper.old).faults (K.means keeper.new).faults result }
{
    if entries.is_empty() {
        return Ok(());
    }
    let rows = rows_of(alloc, texts, entries)?;
    keeper.commit(&rows)
}
