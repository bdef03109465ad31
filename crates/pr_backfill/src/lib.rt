//! Backfills: the recording rules of groups, evaluated at one time after another over samples that are
//! kept.
#![tactic(auto)]

mod backfill;
pub mod backfill_command;
pub mod backfill_texts;
mod count;
pub mod examples;
mod fresh;
mod round;
mod stepped;

// What crates above name of those below.
pub mod tmpl {
    pub use spec_rules::tmpl::{External, Template};
}

pub mod rules_crate {
    pub use spec_rules::RuleDef;
}

pub mod world {
    pub use pr_text::Worlds;
}

pub mod checks {
    pub use pr_checks::{Metrics, RuleFiles};
}

pub use backfill::Backfill;
pub use count::times;
pub use stepped::{FileGroup, Stepped};
