//! What the program means: events, what is answered to them, and one step of the world.
#![tactic(auto)]

mod event;
mod examples;
mod group_examples;
mod laws;
mod loading_examples;
mod report;
mod scrape_examples;
mod scrape_laws;
mod scraped;
mod target_examples;

// What crates above name of those below.
pub mod num {
    pub use pr_num::{Num, Point, write};
}

pub mod time {
    pub use pr_ast::time::Ms;
}

pub mod labels {
    pub use pr_ast::labels::{Item, Labels, METRIC_LABEL, Pair, series};
}

pub mod types {
    pub use pr_types::Checked;
}

pub mod parse {
    pub use pr_rulefile::parse::{QueryError, QueryKind, push_query_kind, read_expression};
}

pub mod tmpl {
    pub use spec_rules::tmpl::External;
}

pub mod expo {
    pub use pr_expo::{ExpoError, ExpoKind, Line, LintKind, Problem, expo_line, lint, read};
}

pub mod history {
    pub use spec_vectors::history::{Append, Entry, row};
}

pub mod meaning {
    pub use spec_rules::meaning::FaultKind;
}

pub mod alerts_crate {
    pub use spec_rules::alerts_crate::{Restored, RuleElement, Sending, State, notices};
}

pub mod rules_crate {
    pub use spec_rules::{GroupDef, GroupReport, Put, RuleFault, RuleOutcome, RuleReport};
}

pub mod rulefile {
    pub use pr_rulefile::{Problem, RuleError, RuleFile, check, fields, laws, read};
}

pub use event::{Event, NamedFile};
pub use examples::{
    a_later_event_moves_the_time, a_sample_adds_its_entry, a_text_that_is_no_expression_is_refused,
    an_event_before_the_last_is_refused, an_expression_is_answered_by_its_meaning,
};
pub use group_examples::{
    a_group_is_evaluated_at_rising_times, a_late_sample_is_seen, a_reload_continues_or_leaves_over,
    a_restart_drops_the_groups, a_rule_has_faults_of_its_own, a_rule_that_fails_marks_nothing,
    an_alert_is_kept_firing, an_alert_is_restored, an_alert_is_sent_again,
    an_alert_is_written_as_it_goes, too_many_alerts_are_dropped, two_rules_record_one_series,
};
pub use laws::{
    a_history_is_its_rows, a_refusal_is_told, a_restart_begins_anew,
    a_step_appends_or_changes_nothing, files_that_are_found_are_reloaded,
    groups_are_evaluated_at_rising_times,
};
pub use loading_examples::{
    a_reload_before_the_last_event_looks_for_no_file, files_are_found_in_order,
};
pub use pr_rulefile::parse::QueryKind;
pub use report::{AlertLine, Report};
pub use scrape_examples::{
    a_bad_body_leaves_nothing, a_label_of_the_target_is_renamed, a_refused_sample_is_dropped,
    a_scrape_adds_its_samples, a_series_that_is_no_longer_offered_is_marked, a_target_ends,
    a_time_of_its_own_is_kept, entries_stand_in_this_order,
};
pub use scrape_laws::{
    a_new_name_is_the_first_free_one, a_tracked_set_rises,
    an_order_about_a_target_adds_what_is_admitted, an_order_changes_one_target,
    no_scraped_label_is_lost, what_is_admitted_comes_behind_the_history,
};
pub use scraped::{BodyFault, Offer, Scraped};
pub use spec_rules::{GroupReport, Put, RuleOutcome, RuleReport};
pub use target_examples::{
    a_sample_is_found_under_its_target, a_scrape_answers_by_its_counts,
    an_end_without_a_target_gives_nothing, nothing_is_tracked_after_a_failure,
};
