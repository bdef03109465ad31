//! The strings of the query language, read from the front of a text and written. Each format that
//! has strings has them from here.
pub mod examples;
mod kind;
mod laws;
mod reader;
mod writer;

pub use kind::{Mark, StringByte, kind_of};
pub use laws::{
    digits_go_on_while_a_character_can_come, digits_of_an_escape_write_its_character,
    one_byte_decides, quoted_texts_read_back, strings_are_functions_of_their_texts,
};
pub use reader::{is_open_at, read_string};
pub use writer::write_string;
