// The entry of a row.
ghost use Rattle.std.specs.Prelude.{◌≡◌, ◌≢◌, Some, None, IfOk, MatchResult, take};
ghost use Rattle.std.specs.Str.{bytes_eq};
ghost use Rattle.spec_history.specs.declared.entry.Entry.{Entry};
ghost use Rattle.spec_history.specs.Points.{shown_point};
ghost use Rattle.spec_history.specs.Rows.{encoded, decoded, labels_in, point_in, time_in, entry_of, IsEntry};
ghost use Rattle.spec_history.specs.private.Faults.{Lacks, IsWant};

use crate::Entry;
use crate::row::Row;
use crate::row::encoding::labels_text;
use crate::row::points::{read_point, write_point};
use pr_labels::Labels;
use pr_labels::series::{TextFault, read_series_text};
use pr_num::Point;
use pr_time::Ms;
use std::alloc::{AllocError, Global};

/// Why a row gives no entry.
#[derive(Clone, Copy, Debug, PartialEq, Eq)]
pub enum RowFault {
    /// It is the row of no entry.
    BadRow,
    /// Memory ran out.
    Memory,
}

impl From<AllocError> for RowFault {
    ghost use Rattle.spec_history.specs.declared.row.decoding.RowFault.TheVariants.{Memory};

    ghost from_gives = { λ _ e. e ≡ Memory };

    fn from(_error: AllocError) -> RowFault {
        RowFault::Memory
    }
}

impl From<TextFault> for RowFault {
    ghost use Rattle.spec_history.specs.private.Faults.{row_fault};

    ghost from_gives = { λ fault e. e ≡ row_fault fault };

    fn from(fault: TextFault) -> RowFault {
        match fault {
            TextFault::BadLabels { .. } => RowFault::BadRow,
            TextFault::Memory => RowFault::Memory,
        }
    }
}

// The label set whose printed text this is.
fn labels_in(alloc: Global, text: &str) -> Result<Labels, RowFault>
    ensures { MatchResult result (λ labels. labels_in text.now ≡ Some labels) (Lacks (labels_in text.now)) }
{
    let labels = read_series_text(alloc, text)?;
    let printed = labels_text(alloc, &labels)?;
    if printed.as_str() == text {
        Ok(labels)
    } else {
        Err(RowFault::BadRow)
    }
}

// Whether this is the printed text of the point.
fn is_printed(point: &Point, text: &[u8]) -> bool
    ensures { result ≡ bytes_eq (shown_point point.now) text.now }
{
    let mut printed = [0; 40];
    let length = write_point(*point, &mut printed);
    &printed[..length] == text
}

// The point whose printed text this is.
fn point_in(text: &[u8]) -> Option<Point>
    ensures { result ≡ point_in text.now }
{
    let point = read_point(text)?;
    if is_printed(&point, text) {
        Some(point)
    } else {
        None
    }
}

#[tactic(auto, using(crate::proofs::RowLaws::time_is))]
fn time_in(ms: u64) -> Option<Ms>
    ensures { result ≡ time_in ms }
{
    Ms::new(ms)
}

// The entry of these parts, where all of them are there.
fn entry_of(labels: Labels, time: Option<Ms>, point: Option<Point>) -> Option<Entry>
    ensures { result ≡ entry_of (Some labels) time point }
{
    match time {
        None => None,
        Some(time) => match point {
            None => None,
            Some(point) => Some(Entry {
                labels,
                time,
                point,
            }),
        },
    }
}

// The entry of the parts of a row.
#[tactic(auto, using(crate::proofs::RowLaws::decoded_of, crate::proofs::RowLaws::no_labels))]
fn decoded(alloc: Global, row: &Row) -> Result<Entry, RowFault>
    ensures { MatchResult result (λ entry. decoded row.now ≡ Some entry) (Lacks (decoded row.now)) }
{
    let labels = labels_in(alloc, row.series.as_str())?;
    let time = time_in(row.time);
    let point = point_in(row.point.as_str().as_bytes());
    match entry_of(labels, time, point) {
        Some(entry) => Ok(entry),
        None => Err(RowFault::BadRow),
    }
}

/// The entry of a row.
///
/// # Errors
/// `BadRow` exactly where the row is the row of no entry: where a text is not printed so, or the
/// time is 2^42 or more.
#[tactic(auto, using(crate::proofs::RowLaws::answer_ok, crate::proofs::RowLaws::answer_only, crate::proofs::RowLaws::answer_bad))]
pub fn decode(alloc: Global, row: &Row) -> Result<Entry, RowFault>
    // The row is that of the entry which is answered.
    ensures ok { IfOk result (λ entry. row.now ≡ encoded entry) }
    // The entry of a row is answered, unless memory runs out.
    ensures only { (entry : Entry) → IsEntry entry → row.now ≡ encoded entry → MatchResult result (λ e. e ≡ entry) IsWant }
    // A bad row is the row of no entry.
    ensures bad { result ≡ Err RowFault.BadRow → (entry : Entry) → IsEntry entry → row.now ≢ encoded entry }
    // The same by the function of the row.
    ensures given { MatchResult result (λ entry. decoded row.now ≡ Some entry) (Lacks (decoded row.now)) }
{
    decoded(alloc, row)
}
