//! A group of rules over a head: its evaluation, and what goes on of it at a reload.
#![tactic(auto)]

mod alerts;
mod carried;
mod carrying;
pub mod continued;
mod group;
mod key;
mod laws;
mod matching;
pub mod ready;
mod remaining;
mod restoring;
mod rules;
mod written;

// What crates above name of those below.
pub mod tmpl {
    pub use pr_rule::tmpl::External;
}

pub mod alerts_crate {
    pub use pr_rule::alerts_crate::{Record, RuleElement, State};
}

pub mod rules_crate {
    pub use pr_rule::rules_crate::{GroupDef, RuleDef};
}

pub mod head {
    pub use pr_rule::head::{Head, intake};
}

pub mod range {
    pub use pr_rule::range::{PlainRanges, Ranges};
}

pub mod eval {
    pub use pr_rule::eval::{EvalError, Value, eval};
}

pub mod rule {
    pub use pr_rule::alert;
}

pub use group::GroupOver;
pub use laws::a_kept_group_stays;
