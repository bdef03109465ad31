//! The texts of a run: what the lines of its script ask for, and how its answers are printed; and
//! what answers its events.
#![tactic(auto)]

mod evaluated;
mod examples;
mod faults;
mod notices;
mod printed;
pub mod reader;
mod rows;
pub mod script;
mod values;
mod worlds;

// What crates above name of those below.
pub mod time {
    pub use spec_world::time::Ms;
}

pub mod labels {
    pub use spec_world::labels::{Labels, Pair};
}

pub mod history {
    pub use spec_world::history::row;
}

pub mod rules_crate {
    pub use spec_world::rules_crate::RuleReport;
}

pub mod rulefile {
    pub use spec_world::rulefile::{RuleError, fields, read};
}

pub mod world {
    pub use spec_world::{Event, NamedFile, Report};
}

pub use examples::{
    faults_are_written_so, groups_are_written_so, receivers_are_told_so, reports_are_written_so,
    rules_are_written_so,
};
pub use notices::{push_batch, push_joined, push_no_receiver};
pub use printed::{push_bad_line, push_query_fault, push_report};
pub use rows::{bad_row_of, tell_bad_row, tell_opened};
pub use values::push_value;
pub use worlds::Worlds;
