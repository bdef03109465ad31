// A row of a table: a line `NAME: STATUS`, and lines that begin with a mark (`lines.rt`).
use crate::run_rows::lines::number_of;
use crate::run_rows::signs::spelled;
use crate::run_rows::wanted::{wanted_rows, wanted_text};
use std::alloc::{AllocError, Global};

/// A row, with all that is repeated in its lines, and what it wants.
#[derive(Drop)]
pub(crate) struct Wanted {
    pub(crate) lines: String,
    pub(crate) text: String,
    pub(crate) rows: String,
}

/// The name of a row, its status and its lines.
pub(crate) fn parts(text: &str) -> (&str, u64, &str) {
    let (head, lines) = text.split_once('\n').unwrap_or((text, ""));
    let (name, status) = head.rsplit_once(": ").unwrap_or((head, ""));
    (name, number_of(status), lines)
}

/// What the lines of a row want.
pub(crate) fn wanted_of(alloc: Global, lines: &str) -> Result<Wanted, AllocError> {
    let lines = spelled(alloc, lines)?;
    let text = wanted_text(alloc, &lines)?;
    let rows = wanted_rows(alloc, &lines)?;
    Ok(Wanted { lines, text, rows })
}
