// A row over paths. Each of its sessions, with a line `then` between two, has a keeper of its own.
use crate::store_lines::lines::difference;
use pr_keep_sql::{DiskFile, Open, SqlKeeper};
use sqlite::{Alter, Start};
use std::alloc::{AllocError, Global};
use std::rt::HostRuntime;

fn session<S: Alter + Drop, O: Open<S> + Drop>(
    alloc: Global,
    files: O,
    lines: &str,
) -> Result<Option<String>, AllocError> {
    let mut keeper = SqlKeeper::new(alloc, files);
    difference(alloc, &mut keeper, lines)
}

/// The first line of a row that is answered otherwise, with its answer. Each session takes one of
/// the values that stand for what a file holds.
///
/// # Errors
/// Where memory runs out.
pub(crate) fn difference_at_paths<T: Start>(
    rt: &HostRuntime,
    lines: &str,
    starts: &mut Vec<T>,
) -> Result<Option<String>, AllocError> {
    let alloc = rt.alloc();
    for lines in lines.split("then\n") {
        let Some(start) = starts.pop() else {
            return Ok(Some(String::from_str(alloc, "too many sessions")?));
        };
        if let Some(text) = session(alloc, DiskFile::new(rt, start), lines)? {
            return Ok(Some(text));
        }
    }
    Ok(None)
}
