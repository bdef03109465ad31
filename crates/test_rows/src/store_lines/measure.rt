// Work of one kind over a store at a path, to be measured from outside.
use crate::store_lines::rows::Rows;
use pr_keep_sql::{DiskFile, Open, SqlKeeper};
use pr_outside::Row;
use pr_words::Text;
use sqlite::{Alter, Start};
use std::alloc::{AllocError, Global};
use std::io;
use std::rt::HostRuntime;

// So many rows of one series, at times from this number on.
fn batch(alloc: Global, first: u64, rows: u64) -> Result<Vec<Row>, AllocError> {
    let mut batch = Vec::new(alloc);
    for at in 0..rows {
        batch.push(Row {
            series: Text::from_str(alloc, "up{instance=\"a\",job=\"api\"}")?,
            time: first.saturating_add(at),
            point: Text::from_str(alloc, "1.5")?,
        })?;
    }
    Ok(batch)
}

// Makes so many commits of so many rows. It tells how many were answered.
fn commits<R: Rows>(
    alloc: Global,
    store: &mut R,
    count: u64,
    rows: u64,
) -> Result<u64, AllocError> {
    for done in 0..count {
        let batch = batch(alloc, store.number(), rows)?;
        if store.add(batch.as_slice()).is_err() {
            return Ok(done);
        }
    }
    Ok(count)
}

// Loads each row by its index. It tells how many were loaded.
fn loads<R: Rows>(store: &mut R) -> u64 {
    let count = store.number();
    for index in 0..count {
        if store.row(index).is_err() {
            return index;
        }
    }
    count
}

// Opens the store of a path, and makes commits or loads. It tells how many were answered.
fn work<S: Alter + Drop, O: Open<S> + Drop>(
    alloc: Global,
    files: O,
    path: &str,
    count: u64,
    rows: u64,
) -> Result<u64, AllocError> {
    let mut keeper = SqlKeeper::new(alloc, files);
    if keeper.begin(path).is_err() {
        return Ok(0);
    }
    if count == 0 {
        Ok(loads(&mut keeper))
    } else {
        commits(alloc, &mut keeper, count, rows)
    }
}

/// Opens the store of a path, makes so many commits of so many rows, or loads all rows where there
/// are to be no commits, and tells how many commits or loads were answered. The words are the path and
/// the two numbers.
///
/// # Errors
/// Where there are other words, or what is told is not written, or memory runs out.
pub fn tell_work<T: Start>(rt: &HostRuntime, words: &[String], start: T) -> io::Result<()> {
    let [path, count, rows] = words else {
        return Err(io::Error::from(io::ErrorKind::InvalidInput));
    };
    let count = count.parse::<u64>().unwrap_or(0);
    let rows = rows.parse::<u64>().unwrap_or(0);
    let files = DiskFile::new(rt, start);
    let done = work(rt.alloc(), files, path.as_str(), count, rows)?;
    println!(rt; "{done}")
}
