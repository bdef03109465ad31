// Rows in little room.
ghost use Rattle.std.specs.Prelude.{◌≡◌, ◌+◌, ◌<◌, ◌≤◌, ◌++◌, ◌∷◌, [], length, take, drop, Some, IfOk, OnOk, OnErr, slice_get};

mod packed_row;
mod series_texts;

use super::Row;
use packed_row::{PackedRow, in_word};
use pr_words::Text;
use series_texts::SeriesTexts;
use std::alloc::{AllocError, Global};
use std::marker::Model;
use std::str;

/// Rows in order, the text of each series once and the texts of the points one after another: a row
/// takes 24 bytes beside the text of its point. Contracts see the rows.
#[derive(Debug, Drop)]
pub(crate) struct PackedRows {
    alloc: Global,
    series: SeriesTexts,
    points: Vec<u8>,
    packed: Vec<PackedRow>,
}

impl Model for PackedRows {
    ghost use Rattle.std.specs.Prelude.{List, length};
    ghost use Rattle.spec_history.specs.declared.row.Row.{Row};
    ghost use Rattle.pr_outside.specs.private.Unpacked.{AreLaid, unpacked};

    ghost Value = { List Row };

    ghost view = { λ p. unpacked p.series p.points.items p.packed.items };

    ghost invariant = { λ p. AreLaid (length p.series) p.points.items 0 p.packed.items (length p.points.items) };
}

// A piece of the texts of the points.
fn piece(points: &[u8], start: usize, count: usize) -> &[u8]
    requires { start + count ≤ length points.now }
    ensures { result.now ≡ take count (drop start points.now) }
{
    &points[start..start + count]
}

impl PackedRows {
    /// No rows.
    pub(crate) fn new(alloc: Global) -> PackedRows
        ensures { result ≡ [] }
    {
        PackedRows {
            alloc,
            series: SeriesTexts::new(alloc),
            points: Vec::new(alloc),
            packed: Vec::new(alloc),
        }
    }

    /// How many rows there are.
    pub(crate) fn len(&self) -> usize
        ensures { result ≡ length self.now }
    {
        self.packed.len()
    }

    /// Appends a copy of a row.
    ///
    /// # Errors
    /// Where memory runs out, or there are 2^32 series, or the text of the point has 2^32 bytes.
    pub(crate) fn push(&mut self, row: &Row) -> Result<(), AllocError>
        ensures ok { OnOk result (self.new ≡ self.old ++ row.now ∷ []) }
        ensures err { OnErr result (self.new ≡ self.old) }
    {
        let point = row.point.as_str().as_bytes();
        let length = in_word(point.len())?;
        let series = self.series.number(self.alloc, &row.series)?;
        let start = self.points.len();
        self.points.extend_from_slice(point)?;
        self.packed.push(PackedRow {
            series,
            length,
            time: row.time,
            start,
        })?;
        Ok(())
    }

    // Leaves the first so many rows.
    fn truncate(&mut self, count: usize)
        ensures { self.new ≡ take count self.old }
    {
        let end = match self.packed.get(count) {
            Some(first) => first.start,
            None => return,
        };
        self.packed.truncate(count);
        self.points.truncate(end);
    }

    /// Appends copies of all these rows, or of none.
    ///
    /// # Errors
    /// As those of `push`.
    pub(crate) fn extend(&mut self, rows: &[Row]) -> Result<(), AllocError>
        ensures ok { OnOk result (self.new ≡ self.old ++ rows.now) }
        ensures err { OnErr result (self.new ≡ self.old) }
    {
        let before = self.len();
        for row in rows {
            if let Err(error) = self.push(row) {
                self.truncate(before);
                return Err(error);
            }
        }
        Ok(())
    }

    /// A copy of a row.
    ///
    /// # Errors
    /// Where memory runs out.
    pub(crate) fn get(&self, index: usize) -> Result<Row, AllocError>
        requires { index < length self.now }
        ensures { IfOk result (λ row. slice_get self.now index ≡ Some row) }
    {
        let packed = &self.packed[index];
        let point = piece(&self.points, packed.start, packed.length as usize);
        Ok(Row {
            series: self.series.copy(self.alloc, packed.series as usize)?,
            time: packed.time,
            point: Text::from_str(self.alloc, str::from_utf8(point).unwrap())?,
        })
    }

    /// Copies of all rows.
    ///
    /// # Errors
    /// Where memory runs out.
    pub(crate) fn to_vec(&self) -> Result<Vec<Row>, AllocError>
        ensures { IfOk result (λ rows. rows.items ≡ self.now) }
    {
        let mut rows = Vec::with_capacity(self.alloc, self.len())?;
        for index in 0..self.len() {
            rows.push(self.get(index)?)?;
        }
        Ok(rows)
    }
}
