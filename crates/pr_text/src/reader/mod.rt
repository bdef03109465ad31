//! The input of a run, asked for one order after another.
mod lines;
mod reader;

pub use reader::Reader;
