// A table: a file of rows, each of which begins with a line `# NAME`. Below it stand lines, each with
// what it asks for and, behind ` => `, what is to be answered.
use crate::files::text_of;
use crate::lines::halves;
use pr_outside::DiskFiles;
use std::alloc::{AllocError, Global};
use std::io;
use std::rt::HostRuntime;

/// What answers the lines of a row.
pub trait Answers {
    /// Before the first line.
    fn new(alloc: Global) -> Self;

    /// What is answered to a line.
    fn answer(&mut self, alloc: Global, line: &str) -> Result<String, AllocError>;
}

// The first line of a row that is answered otherwise, with its answer.
fn difference<A: Answers + Drop>(alloc: Global, row: &str) -> Result<Option<String>, AllocError> {
    let (name, lines) = row.split_once('\n').unwrap_or((row, ""));
    let mut answers = A::new(alloc);
    for line in lines.lines() {
        let (order, wanted) = halves(line);
        let told = answers.answer(alloc, order)?;
        if told.as_str() != wanted {
            return Ok(Some(format!(in alloc; "{name}: {order} => {told}")?));
        }
    }
    Ok(None)
}

/// Goes over the rows of a table, tells each that is answered otherwise, and how many rows there are.
///
/// # Errors
/// Where the table is not read, or what is told is not written, or memory runs out.
pub fn tell_table<A: Answers + Drop>(rt: &HostRuntime, table: &str) -> io::Result<()> {
    let alloc = rt.alloc();
    let mut files = DiskFiles::new(alloc, rt);
    let rows = text_of(&mut files, table)?;
    for row in rows.split("\n# ").skip(1) {
        if let Some(text) = difference::<A>(alloc, row)? {
            println!(rt; "{table}: {text}")?;
        }
    }
    println!(rt; "{table}: {} rows", rows.split("\n# ").skip(1).count())
}
