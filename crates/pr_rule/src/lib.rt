//! One evaluation of a rule over a head: what it records, or what its alerts come to.
#![tactic(auto)]

pub mod alert;
mod evaluation;
mod offered;
mod outcome;
mod remembered;
pub mod rule_result;
mod samples;
mod sending;
mod written;

// What crates above name of those below.
pub mod tmpl {
    pub use spec_rules::tmpl::External;
}

pub mod history {
    pub use spec_rules::history::Entry;
}

pub mod alerts_crate {
    pub use spec_rules::alerts_crate::{Record, Restored, RuleElement, State};
}

pub mod rules_crate {
    pub use spec_rules::{GroupDef, GroupReport, RuleDef, RuleReport};
}

pub mod head {
    pub use pr_eval::head::{Head, Timed, intake};
}

pub mod range {
    pub use pr_eval::range::{PlainRanges, Ranges};
}

pub mod eval {
    pub use pr_eval::{EvalError, Value, eval};
}

pub use evaluation::Evaluation;
pub use remembered::Remembered;
