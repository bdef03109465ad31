//! Further worked lines of alerts, of what an evaluation costs and of worlds, and laws of these that
//! no other crate cites.
mod alert_rows;
mod cost_rows;
mod laws;
mod row_laws;
mod world_rows;

pub use alert_rows::{
    active_times_are_restored_so, alerts_are_sent_so, alerts_go_on_so, alerts_have_these_values,
};
pub use cost_rows::evaluations_cost_so;
pub use laws::{
    a_reload_is_remembered, alerts_have_one_outcome, an_evaluation_keeps_all_groups,
    range_selectors_are_passed,
};
pub use row_laws::{
    a_sample_adds_an_entry, kept_rows_tell_the_history, rows_that_tell_a_history_are_its_encodings,
};
pub use world_rows::groups_stand_in_their_order;
