// A row of the table: what tests come to over rule files, whose names are those that they are handed
// over with. It begins with a line `# NAME`. Below it stand lines:
//
// - `rules`, a name and a text: a rule file. A row has two at most, and their names differ.
// - `tests` and a text, that of a test file: the checks that differ over the rule files before it, each
//   as `test rules` tells it, `SUCCESS` where there are none, or what is wrong with the text.
// - `--` and a comment.
//
// Behind ` => ` stand the lines that are answered, apart by ` / `. The signs of texts are those of
// tables (`test_runs::run_rows`).
use crate::unit_rows::tested::Tested;
use std::alloc::{AllocError, Global};
use std::io;
use std::rt::HostRuntime;
use test_rows::{Answers, tell_table};

impl Answers for Tested {
    fn new(alloc: Global) -> Tested {
        Tested::nothing(alloc)
    }

    fn answer(&mut self, alloc: Global, line: &str) -> Result<String, AllocError> {
        self.take(alloc, line)
    }
}

/// Goes over a table of rows about tests, tells each that is answered otherwise, and how many rows
/// there are.
///
/// # Errors
/// Where the table is not read, or what is told is not written, or memory runs out.
pub(crate) fn tell_tests(rt: &HostRuntime, table: &str) -> io::Result<()> {
    tell_table::<Tested>(rt, table)
}
