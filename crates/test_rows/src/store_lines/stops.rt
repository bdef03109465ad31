// A store whose files answer so many calls, and then none.
use crate::store_lines::orders::{all_rows, rows_of};
use crate::store_lines::rows::Rows;
use crate::store_lines::stores::{Opens, Stopped, close, kept_of};
use pr_outside::Row;
use sqlite::{Alter, Connection, Files};
use sqlite_disk::Crash;
use std::alloc::{AllocError, Global};

/// The rows of both commits.
const ROWS: &str = "a|0|1 b|0|1 a|1|2 c|1|stale";

/// The rows after so many answered calls: the making of the tables, and the two commits.
const STATES: [&str; 4] = ["no rows", "no rows", "a|0|1", ROWS];

// Makes the tables and commits one row and then the others. It tells how many calls were answered.
fn filled<R: Rows>(store: &mut R, rows: &[Row]) -> usize {
    let (first, others) = rows.split_at(rows.len().min(1));
    if store.begin("").is_err() {
        return 0;
    }
    if store.add(first).is_err() {
        return 1;
    }
    if store.add(others).is_err() {
        return 2;
    }
    3
}

// Fills the store of a connection. It tells what is left of the files, and how many calls were answered.
fn filled_over<S: Alter + Drop, O: Opens<S>>(
    conn: Connection<S>,
    rows: &[Row],
) -> Option<(Files<Stopped>, usize)> {
    let mut kept = kept_of(conn)?;
    let done = filled(&mut kept, rows);
    Some((close::<S, O>(kept), done))
}

// What is left of two empty files that answered so many calls, and how many calls of the store were answered.
fn stopped<S: Alter + Drop, O: Opens<S>>(
    alloc: Global,
    rows: &[Row],
    log_calls: u64,
    db_calls: u64,
) -> Option<(Files<Stopped>, usize)> {
    match O::open(alloc, &[], &[], log_calls, db_calls)? {
        Ok(conn) => filled_over::<S, O>(conn, rows),
        Err(left) => Some((left, 0)),
    }
}

// The texts of the rows of a store that is opened.
fn rows_in<R: Rows>(alloc: Global, store: &mut R) -> Result<Option<String>, AllocError> {
    match store.begin("") {
        Ok(()) => Ok(Some(all_rows(alloc, store)?)),
        Err(_) => Ok(None),
    }
}

// The texts of the rows of a database that is opened.
fn opened_rows<S: Alter + Drop>(
    alloc: Global,
    conn: Connection<S>,
) -> Result<Option<String>, AllocError> {
    match kept_of(conn) {
        Some(mut kept) => rows_in(alloc, &mut kept),
        None => Ok(None),
    }
}

// The texts of the rows that two files hold, which answer all calls.
fn found<S: Alter + Drop, O: Opens<S>>(
    alloc: Global,
    left: &Files<Stopped>,
) -> Result<Option<String>, AllocError> {
    let log = left.log.inner().bytes();
    let db = left.db.inner().bytes();
    match O::open(alloc, log, db, u64::MAX, u64::MAX) {
        Some(Ok(conn)) => opened_rows(alloc, conn),
        _ => Ok(None),
    }
}

// Whether these are the rows from before or after the call that was not answered.
fn is_whole(rows: &str, done: usize) -> bool {
    let before = STATES.get(done).copied().unwrap_or("?");
    let after = STATES
        .get(done.saturating_add(1))
        .copied()
        .unwrap_or(before);
    rows == before || rows == after
}

// The machine crashes: what was not synced is lost.
fn crash<D: Crash>(disk: &mut D) {
    disk.crash();
}

// Whether the files hold whole commits as they stand, and after a crash of the machine.
fn holds_whole<S: Alter + Drop, O: Opens<S>>(
    alloc: Global,
    mut left: Files<Stopped>,
    done: usize,
) -> Result<bool, AllocError> {
    let Some(rows) = found::<S, O>(alloc, &left)? else {
        return Ok(false);
    };
    if !is_whole(rows.as_str(), done) {
        return Ok(false);
    }
    crash(&mut left.log);
    crash(&mut left.db);
    match found::<S, O>(alloc, &left)? {
        Some(rows) => Ok(is_whole(rows.as_str(), done)),
        None => Ok(false),
    }
}

// What two files hold that answered so many calls, where it is not whole; and whether all calls of
// the store were answered.
fn stop<S: Alter + Drop, O: Opens<S>>(
    alloc: Global,
    rows: &[Row],
    log_calls: u64,
    db_calls: u64,
) -> Result<Option<bool>, AllocError> {
    let Some((left, done)) = stopped::<S, O>(alloc, rows, log_calls, db_calls) else {
        return Ok(None);
    };
    if holds_whole::<S, O>(alloc, left, done)? {
        Ok(Some(done == 3))
    } else {
        Ok(None)
    }
}

/// Stops the log of a store, or its database file, after each number of calls from none on, until
/// all is answered. It tells the first number after which the files do not hold the rows from before
/// or after the call that was stopped, also where the machine crashes then.
///
/// # Errors
/// Where memory runs out.
pub(crate) fn difference_after_stops<S: Alter + Drop, O: Opens<S>>(
    alloc: Global,
    is_of_log: bool,
) -> Result<Option<String>, AllocError> {
    let rows = rows_of(alloc, ROWS)?;
    for calls in 0..1000u64 {
        let outcome = if is_of_log {
            stop::<S, O>(alloc, rows.as_slice(), calls, u64::MAX)?
        } else {
            stop::<S, O>(alloc, rows.as_slice(), u64::MAX, calls)?
        };
        match outcome {
            Some(true) => return Ok(None),
            Some(false) => {}
            None => return Ok(Some(format!(in alloc; "not whole after {calls} calls")?)),
        }
    }
    Ok(Some(String::from_str(alloc, "never answered")?))
}
