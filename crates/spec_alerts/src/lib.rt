//! What an alerting rule remembers: its lineage, the alerts that it comes to, what is sent of them,
//! and what a restart restores; and what receivers of notices are given. Types and definitions; nothing
//! here keeps anything from one evaluation to the next.
#![tactic(auto)]

mod examples;
mod found;
mod laws;
pub mod notices;
mod record;
mod restored;
mod sending;

// What crates above name of those below.
pub mod words_crate {
    pub use spec_history::words_crate::{Items, Text};
}

pub mod labels {
    pub use spec_history::labels::copy_pairs;
}

pub mod history {
    pub use spec_history::{Append, Entry, row};
}

pub use examples::{
    a_fault_changes_no_alert, alerts_are_written_as_samples, an_alert_fires_and_is_over,
    an_alert_is_kept_firing, an_alert_is_restored, an_alert_is_sent_again_after_a_minute,
    too_many_alerts_are_forgotten,
};
pub use found::RuleElement;
pub use laws::{no_pending_alert_is_sent, records_are_in_label_order};
pub use record::{Record, State};
pub use restored::Restored;
pub use sending::Sending;
