//! The engine: it answers events, one after another, and keeps the rows of what they add; and the rows
//! of a store, read into a head.
#![tactic(auto)]

mod engine;
mod fault;
mod query;
pub mod rows;
mod rules;
pub mod scrape;
mod standing;
mod taken;
mod telling;

// What crates above name of those below.
pub mod time {
    pub use pr_time::{Ms, Span, read_span};
}

pub mod head {
    pub use pr_head::Head;
}

pub mod range {
    pub use pr_manager::range::Ranges;
}

pub mod group {
    pub use pr_manager::group::{GroupOver, a_kept_group_stays};
}

pub mod manager {
    pub use pr_manager::no_external;
}

pub use engine::Engine;
pub use fault::{ApplyError, Cause};
