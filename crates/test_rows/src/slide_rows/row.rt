// A row of the table: what is asked of ranges over one head, from an empty one on. It begins with a
// line `# NAME`. Below it stand lines:
//
// - `put`, a name of a series, a time, and a value or `stale`.
// - `trim` and a time: samples until then are forgotten.
// - `ask` or `inside`, a function, the number of a range selector, the name of a series, and the
//   two ends of a range: what ranges that go on answer. Ranges that are read anew have to answer
//   the same, or else `apart` stands before it.
// - `carry`, an old expression, ` | ` and a new one: for each range selector of the new one the
//   number of the old one that it goes on from, or `-`.
// - `--` and a comment.
//
// Behind ` => ` stands the answer. Times are in milliseconds.
use crate::slide_rows::both::Both;
use crate::{Answers, tell_table};
use std::alloc::{AllocError, Global};
use std::io;
use std::rt::HostRuntime;

impl Answers for Both {
    fn new(alloc: Global) -> Both {
        Both::none(alloc)
    }

    fn answer(&mut self, alloc: Global, line: &str) -> Result<String, AllocError> {
        self.take(alloc, line)
    }
}

/// Goes over a table of rows about ranges of both kinds, tells each that is answered otherwise, and
/// how many rows there are.
///
/// # Errors
/// Where the table is not read, or what is told is not written, or memory runs out.
pub fn tell_ranges(rt: &HostRuntime, table: &str) -> io::Result<()> {
    tell_table::<Both>(rt, table)
}
