//! What the lines of a script ask for.
mod examples;
mod file_names;
mod known;
mod laws;
mod naming;
mod order;
mod reloads;
mod script;

pub use examples::{
    a_body_belongs_to_its_line, a_reload_names_files, a_scrape_has_its_body, a_target_has_labels,
    groups_are_asked_for_so, lines_that_ask_for_nothing_are_counted, receivers_are_named_so,
};
pub use file_names::{FileToLoad, FilesToLoad};
pub(crate) use known::KnownSeries;
pub use laws::{lines_that_are_no_text_are_refused, samples_have_label_sets};
pub(crate) use order::begin_order;
pub use order::{Numbered, Order, Started, read_order};
pub use script::{is_passed_over, push_body_line};
