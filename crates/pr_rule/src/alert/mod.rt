//! The records of an alerting rule, changed from one evaluation to the next.
mod fault;
mod going;
mod laws;
mod merging;
mod records;
mod restoring;
mod samples;
mod sending;
mod written;

pub use fault::AlertFault;
pub use laws::{
    a_fault_leaves_the_records, a_move_of_no_alerts_leaves_the_records, a_restored_record_is_moved,
    an_alert_goes_on_with_each_evaluation, no_records_stand_after_the_limit,
    records_of_a_lineage_stand_for_it, what_is_sent_is_marked,
};
pub use records::{Records, is_living};
pub use samples::for_state_labels;
pub use spec_rules::alerts_crate::{Record, Restored, RuleElement, Sending, State};
