// The orders of lines to a store, and how they are answered.
use crate::store_lines::rows::Rows;
use pr_outside::{KeepError, Row};
use pr_words::Text;
use std::alloc::{AllocError, Global};

// The row of a text SERIES|TIME|POINT.
fn row_of(alloc: Global, text: &str) -> Result<Row, AllocError> {
    let (series, rest) = text.split_once('|').unwrap_or((text, ""));
    let (time, point) = rest.split_once('|').unwrap_or((rest, ""));
    Ok(Row {
        series: Text::from_str(alloc, series)?,
        time: time.parse::<u64>().unwrap_or(0),
        point: Text::from_str(alloc, point)?,
    })
}

/// The rows of texts SERIES|TIME|POINT, with a blank between two.
///
/// # Errors
/// Where memory runs out.
pub fn rows_of(alloc: Global, text: &str) -> Result<Vec<Row>, AllocError> {
    let mut rows = Vec::new(alloc);
    for word in text.split(' ') {
        rows.push(row_of(alloc, word)?)?;
    }
    Ok(rows)
}

/// The text SERIES|TIME|POINT of a row.
///
/// # Errors
/// Where memory runs out.
pub fn row_text(alloc: Global, row: &Row) -> Result<String, AllocError> {
    format!(in alloc;
        "{}|{}|{}",
        row.series.as_str(),
        row.time,
        row.point.as_str()
    )
}

fn refusal_text(error: KeepError) -> &'static str {
    match error {
        KeepError::Failed => "failed",
        KeepError::Memory => "memory",
    }
}

fn done_text(done: Result<(), KeepError>) -> &'static str {
    match done {
        Ok(()) => "ok",
        Err(error) => refusal_text(error),
    }
}

// The text of one row, or of what came in place of it.
fn loaded<R: Rows>(alloc: Global, store: &mut R, index: u64) -> Result<String, AllocError> {
    match store.row(index) {
        Ok(Some(row)) => row_text(alloc, &row),
        Ok(None) => String::from_str(alloc, "none"),
        Err(error) => String::from_str(alloc, refusal_text(error)),
    }
}

/// The texts of all rows, with a blank between two.
pub(crate) fn all_rows<R: Rows>(alloc: Global, store: &mut R) -> Result<String, AllocError> {
    if store.number() == 0 {
        return String::from_str(alloc, "no rows");
    }
    let mut text = String::new(alloc);
    for index in 0..store.number() {
        if index > 0 {
            text.push_str(" ")?;
        }
        let row = loaded(alloc, store, index)?;
        text.push_str(row.as_str())?;
    }
    Ok(text)
}

/// What is answered to an order.
pub(crate) fn answer<R: Rows>(
    alloc: Global,
    store: &mut R,
    order: &str,
) -> Result<String, AllocError> {
    let (word, rest) = order.split_once(' ').unwrap_or((order, ""));
    match word {
        "start" => String::from_str(alloc, done_text(store.begin(rest))),
        "commit" => {
            let rows = rows_of(alloc, rest)?;
            String::from_str(alloc, done_text(store.add(rows.as_slice())))
        }
        "load" => loaded(alloc, store, rest.parse::<u64>().unwrap_or(u64::MAX)),
        "rows" => all_rows(alloc, store),
        "size" => format!(in alloc; "{}", store.number()),
        "counts" => store.counts(alloc),
        _ => String::from_str(alloc, "no such order"),
    }
}
