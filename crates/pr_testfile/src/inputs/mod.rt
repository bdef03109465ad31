//! The series of a test: the values that they are written with, and the points that these stand
//! for.
mod examples;
mod input;
mod item;
mod number;
mod point;
mod steps;
mod stretch;
mod values;

pub use examples::{items_are_read_so, no_items_are_read_so, texts_are_read_so};
pub use input::{Input, InputSeries};
pub use number::number_of;
pub use point::{point_in, size};
pub use stretch::Stretch;
pub use values::{Values, read_values};
