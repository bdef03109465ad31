//! The queues in which notices wait for receivers: one bounded ring for each. Contracts see the
//! receivers that a notifier stands for, whose streams never lose anything.
#![tactic(auto)]

mod copies;
mod notice;
mod notifier;
mod queue;

// What crates above name of those below.
pub mod history {
    pub use spec_alerts::history::row;
}

pub mod alerts_crate {
    pub use spec_alerts::Sending;
}

pub use notifier::Notifier;
pub use spec_alerts::notices::{Batch, Joined};
