//! What range selectors were asked last, between the evaluations of a rule: what goes on is ready,
//! and what was passed never falls.
mod asked;
mod passed;

pub use asked::{
    asked_stays_asked, carried_asks_are_those_of_the_new, later_asks_are_ready,
    nothing_asked_fits_all, what_is_asked_was_asked,
};
pub use passed::{
    a_carry_keeps_what_was_passed, a_later_history_has_no_less, all_that_is_asked_is_passed,
    none_falls, nothing_passed_fits_all, what_is_passed_is_within,
};
