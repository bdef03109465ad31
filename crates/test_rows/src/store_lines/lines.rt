// The lines of a row.
use crate::halves;
use crate::store_lines::orders::answer;
use crate::store_lines::rows::Rows;
use std::alloc::{AllocError, Global};

/// Whether a line is for the database itself, before its store is used or after.
fn is_of_the_database(line: &str) -> bool {
    line.starts_with("sql ") || line.starts_with("file ") || line.starts_with("select ")
}

/// The first line that is answered otherwise, with its answer.
pub(crate) fn difference<R: Rows>(
    alloc: Global,
    store: &mut R,
    lines: &str,
) -> Result<Option<String>, AllocError> {
    for line in lines.lines() {
        if is_of_the_database(line) {
            continue;
        }
        let (order, wanted) = halves(line);
        let told = answer(alloc, store, order)?;
        if told.as_str() != wanted {
            return Ok(Some(format!(in alloc; "{order} => {told}")?));
        }
    }
    Ok(None)
}
