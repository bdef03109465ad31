// A row of the table: what is asked of one engine over a store in memory, of which no run shows what
// it answers once it is broken, since a run ends there. It begins with a line `# NAME`. Below it
// stand lines:
//
// - `start`, the numbers of the commits that the store is to refuse, from 1 and apart by `,`, or `-`,
//   and the rows SERIES|TIME|POINT that it holds, apart by blanks: how many there are.
// - `keep` and rows, which come into the store by a commit that is not the engine's, and is counted.
// - `rows`: those that the store holds.
// - an order of a script that names no file and takes no body: what a run prints of its report, or
//   why there is none, with what broke the engine first.
// - `--` and a comment.
//
// Behind ` => ` stand the lines that are answered, apart by ` / `.
use crate::engine_rows::asked::Asked;
use std::alloc::{AllocError, Global};
use std::io;
use std::rt::HostRuntime;
use test_rows::{Answers, tell_table};

impl Answers for Asked {
    fn new(_alloc: Global) -> Asked {
        Asked::nothing()
    }

    fn answer(&mut self, alloc: Global, line: &str) -> Result<String, AllocError> {
        self.take(alloc, line)
    }
}

/// Goes over a table of rows about engines, tells each that is answered otherwise, and how many rows
/// there are.
///
/// # Errors
/// Where the table is not read, or what is told is not written, or memory runs out.
pub(crate) fn tell_engines(rt: &HostRuntime, table: &str) -> io::Result<()> {
    tell_table::<Asked>(rt, table)
}
