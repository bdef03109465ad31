//! All groups of the rule files that were loaded: one is evaluated, files are reloaded, and alerts
//! are listed.
#![tactic(auto)]

mod answered;
mod coming;
mod continuing;
mod finding;
mod gone;
mod laws;
mod listing;
mod loading;
mod manager;
mod naming;
mod parting;
mod reloading;
mod templates;
mod waiting;

// What crates above name of those below.
pub mod types {
    pub use spec_world::types::Checked;
}

pub mod parse {
    pub use spec_world::parse::{QueryError, read_expression};
}

pub mod expo {
    pub use spec_world::expo::{ExpoError, Line, read};
}

pub mod world {
    pub use spec_world::{BodyFault, Event, NamedFile, Offer, QueryKind, Report, Scraped};
}

pub mod head {
    pub use pr_group::head::Head;
}

pub mod range {
    pub use pr_group::range::{PlainRanges, Ranges};
}

pub mod eval {
    pub use pr_group::eval::{EvalError, Value, eval};
}

pub mod group {
    pub use pr_group::{GroupOver, a_kept_group_stays};
}

pub use answered::{Answered, admitted_in};
pub use laws::kept_groups_stay;
pub use loading::no_external;
pub use manager::Manager;
