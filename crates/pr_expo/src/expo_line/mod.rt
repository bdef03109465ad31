//! A line of an exposition: what it reads as, or how it is bad at its first bad place.
mod characters;
mod examples;
mod label_list;
mod laws;
mod line;
mod number;
mod place;
mod plain;
mod runs;
mod steps;
mod words;

pub use examples::{
    lines_of_families, lines_of_samples, lines_that_are_no_text, lines_that_are_passed_over,
    lines_with_a_bad_name, lines_with_a_bad_time, lines_with_a_bad_type, lines_with_a_bad_value,
    lines_with_a_label_twice, lines_with_bad_labels,
};
pub use label_list::LabelList;
pub use laws::{
    faults_are_told_by_their_place, lines_are_those_of_the_grammar, numbers_of_samples_are_read,
    samples_are_read_from_their_lines,
};
pub use line::{LineFault, read_line};
pub use place::{ExpoKind, FamilyKind, LineHead, Measured, Read};
pub use words::{expo_word, kinds_of_bad_lines_are_written_so};
