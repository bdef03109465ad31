//! Rows of what stores of rows answer, over disks in memory and over paths; and a store that is
//! stopped at each call of its files.
mod lines;
mod measure;
mod orders;
mod paths;
mod rows;
mod stops;
mod stores;
mod tables;
mod told;

pub use measure::tell_work;
pub use orders::{row_text, rows_of};
pub use told::tell_stores;
