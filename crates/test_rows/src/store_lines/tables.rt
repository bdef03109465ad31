// A row over a database in memory. Lines `sql TEXT` come first and make its tables, or a line `file`
// of the bytes that a file has; orders to its store follow; lines `select TEXT` come last, and show
// what the tables then hold.
use crate::halves;
use crate::store_lines::lines::difference;
use crate::store_lines::stores::{Opens, batch, connection_of, kept_of};
use sqlite::{Alter, Connection};
use sqlite_value::value::ValueRef;
use std::alloc::{AllocError, Global};
use std::str;

// Runs the statements of the lines, and tells the first that is refused.
fn prepare<S: Alter>(conn: &mut Connection<S>, lines: &str) -> Result<(), &'static str> {
    for line in lines.lines() {
        if let Some(sql) = line.strip_prefix("sql ") {
            if batch(conn, sql).is_err() {
                return Err("a statement is refused");
            }
        }
    }
    Ok(())
}

fn cell_text(alloc: Global, cell: ValueRef<'_>) -> Result<String, AllocError> {
    match cell {
        ValueRef::Int(number) => format!(in alloc; "{number}"),
        ValueRef::Text(bytes) => String::from_str(alloc, str::from_utf8(bytes).unwrap_or("?")),
        _ => String::from_str(alloc, "?"),
    }
}

fn cells_text(alloc: Global, row: &sqlite::Row) -> Result<String, AllocError> {
    let mut text = String::new(alloc);
    for at in 0..row.column_count() {
        if at > 0 {
            text.push_str("|")?;
        }
        if let Ok(cell) = row.get_ref(at) {
            text.push_str(cell_text(alloc, cell)?.as_str())?;
        }
    }
    Ok(text)
}

fn rows_text(alloc: Global, rows: &[sqlite::Row]) -> Result<String, AllocError> {
    let mut text = String::new(alloc);
    for (index, row) in rows.iter().enumerate() {
        if index > 0 {
            text.push_str(" ")?;
        }
        text.push_str(cells_text(alloc, row)?.as_str())?;
    }
    Ok(text)
}

// What a query shows.
fn shown<S: Alter>(
    alloc: Global,
    conn: &mut Connection<S>,
    sql: &str,
) -> Result<String, AllocError> {
    match conn.query_all(sql, &[]) {
        Ok(rows) => rows_text(alloc, rows.as_slice()),
        Err(_) => String::from_str(alloc, "refused"),
    }
}

// The first line of a query that shows otherwise, and what it shows.
fn differs<S: Alter>(
    alloc: Global,
    conn: &mut Connection<S>,
    lines: &str,
) -> Result<Option<String>, AllocError> {
    for line in lines.lines() {
        let (order, wanted) = halves(line);
        if let Some(sql) = order.strip_prefix("select ") {
            let told = shown(alloc, conn, sql)?;
            if told.as_str() != wanted {
                return Ok(Some(format!(in alloc; "{order} => {told}")?));
            }
        }
    }
    Ok(None)
}

// The first line of the store's orders, or of the queries behind them, that is answered otherwise.
fn used<S: Alter + Drop>(
    alloc: Global,
    mut conn: Connection<S>,
    lines: &str,
) -> Result<Option<String>, AllocError> {
    if let Err(text) = prepare(&mut conn, lines) {
        return Ok(Some(String::from_str(alloc, text)?));
    }
    let Some(mut kept) = kept_of(conn) else {
        return Ok(Some(String::from_str(alloc, "a transaction is open")?));
    };
    if let Some(text) = difference(alloc, &mut kept, lines)? {
        return Ok(Some(text));
    }
    let mut conn = connection_of(kept);
    differs(alloc, &mut conn, lines)
}

/// The first line of a row that is answered otherwise, with its answer. The database begins with
/// these bytes.
///
/// # Errors
/// Where memory runs out.
pub(crate) fn difference_in_tables<S: Alter + Drop, O: Opens<S>>(
    alloc: Global,
    bytes: &[u8],
    lines: &str,
) -> Result<Option<String>, AllocError> {
    match O::open(alloc, &[], bytes, u64::MAX, u64::MAX) {
        Some(Ok(conn)) => used(alloc, conn, lines),
        _ => Ok(Some(String::from_str(alloc, "not opened")?)),
    }
}
