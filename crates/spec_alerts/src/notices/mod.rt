//! What receivers of notices are given: the meaning of the queues that notices wait in. Types and
//! definitions over streams that never lose anything; nothing here is a queue.
mod batch;
mod examples;
mod joined;
mod laws;

pub use batch::Batch;
pub use examples::{
    a_name_is_added_once, a_receiver_is_given_what_was_offered_since_it_was_added,
    at_most_so_many_receivers_are_known, notices_are_given_at_most_so_many_at_once,
    the_oldest_notices_are_passed_over,
};
pub use joined::Joined;
pub use laws::{
    a_receiver_is_given_its_stream_in_order, notices_may_be_offered_in_parts,
    receivers_stay_within_their_bounds,
};
