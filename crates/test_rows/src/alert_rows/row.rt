// A row of the table: what happens to the records of one rule, from none on. It begins with a line
// `# NAME`. Below it stand lines:
//
// - `for`, `keep` or `limit` and a number, with which the evaluations below are made; 0 before.
// - `eval`, a time, and the elements that are found, apart by `; `, each a series text, a blank and
//   a value. What is due is marked as sent.
// - `restore`, a time, and the time and the point of the sample in which the active time of each
//   alert was written.
// - `clear`, and `list`.
// - `--` and a comment.
//
// Behind ` => ` stand the lines that are answered, apart by ` / `. Times are in milliseconds.
use crate::alert_rows::rule::Rule;
use crate::{Answers, joined, tell_table};
use std::alloc::{AllocError, Global};
use std::io;
use std::rt::HostRuntime;

impl Answers for Rule {
    fn new(alloc: Global) -> Rule {
        Rule::none(alloc)
    }

    fn answer(&mut self, alloc: Global, line: &str) -> Result<String, AllocError> {
        joined(alloc, &self.take(alloc, line)?)
    }
}

/// Goes over a table of rows about the records of an alerting rule, tells each that is answered
/// otherwise, and how many rows there are.
///
/// # Errors
/// Where the table is not read, or what is told is not written, or memory runs out.
pub fn tell_alerts(rt: &HostRuntime, table: &str) -> io::Result<()> {
    tell_table::<Rule>(rt, table)
}
