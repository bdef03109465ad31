//! Rules and groups of rules as they are written, and what they mean: what a rule comes to, one
//! evaluation of a group, and a reload.
#![tactic(auto)]

mod definitions;
mod examples;
mod fault;
mod laws;
mod report;

// What crates above name of those below.
pub mod tmpl {
    pub use pr_tmpl::{External, Template, TmplError};
}

pub mod history {
    pub use spec_alerts::history::{Append, Entry, row};
}

pub mod meaning {
    pub use spec_meaning::{FaultKind, Value};
}

pub mod alerts_crate {
    pub use spec_alerts::{Record, Restored, RuleElement, Sending, State, notices};
}

pub use definitions::{GroupDef, RuleDef};
pub use examples::{
    a_group_waits_for_two_evaluations, a_rule_that_fails_puts_nothing, entries_stand_in_this_order,
    rules_continue_in_order, selectors_are_carried_in_order, templates_see_the_element,
    what_was_passed_goes_with_the_rule,
};
pub use fault::{RuleFailure, RuleFault};
pub use laws::{
    a_fault_changes_nothing, a_group_goes_on, a_reload_loses_no_series,
    a_round_puts_what_is_admitted, an_evaluation_puts_its_entries, nothing_is_left_over_twice,
    results_are_in_label_order, rules_are_evaluated_at_rising_times, what_is_taken_has_its_number,
};
pub use report::{GroupReport, Put, RuleOutcome, RuleReport};
