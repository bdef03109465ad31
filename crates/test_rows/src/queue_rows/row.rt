// A row of the table: what happens to the receivers of one notifier, from none on. It begins with a
// line `# NAME`. Below it stand lines:
//
// - `receiver` and a name.
// - `receivers` and a number: so many names that are numbers, from 0.
// - `offer`, a number and how many: so many notices, each known by a number from that one on.
// - `flush` and a name.
// - `clear`.
//
// Behind ` => ` stands what is answered.
use crate::queue_rows::receivers::Receivers;
use crate::{Answers, tell_table};
use std::alloc::{AllocError, Global};
use std::io;
use std::rt::HostRuntime;

impl Answers for Receivers {
    fn new(alloc: Global) -> Receivers {
        Receivers::none(alloc)
    }

    fn answer(&mut self, _alloc: Global, line: &str) -> Result<String, AllocError> {
        self.take(line)
    }
}

/// Goes over a table of rows about the queues of receivers, tells each that is answered otherwise, and
/// how many rows there are.
///
/// # Errors
/// Where the table is not read, or what is told is not written, or memory runs out.
pub fn tell_queues(rt: &HostRuntime, table: &str) -> io::Result<()> {
    tell_table::<Receivers>(rt, table)
}
