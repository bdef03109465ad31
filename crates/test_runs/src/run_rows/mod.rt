//! Rows of tables: runs of a program over an outside in memory, and what they are to write and to keep.
mod differences;
mod files;
mod input;
mod lines;
mod outside;
mod page;
mod row;
mod signs;
mod store;
mod told;
mod wanted;

pub use differences::difference;
pub use input::Input;
pub use outside::{Outside, Program};
pub use page::{has_written, lacking};
pub use signs::push_text;
pub use store::Store;
pub use told::answers;
