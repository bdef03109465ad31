//! The command `run`: the orders of a script, answered one after another over the rows of a store.
#![tactic(auto)]

mod examples;
mod files;
mod receivers;
mod running;
mod session;

// What crates above name of those below.
pub mod text {
    pub use pr_text::push_report;
}

pub mod script {
    pub use pr_text::script::{Order, Started, read_order};
}

pub mod world {
    pub use pr_text::world::{Event, Report};
}

pub use examples::{a_receiver_is_told_what_waits, a_value_is_told_for_five_minutes};
pub use running::run;
