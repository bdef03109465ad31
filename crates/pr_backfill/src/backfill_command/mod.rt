//! The command `backfill`: the recording rules of files, evaluated at one time after another over the
//! rows of a store, which keeps what they record.
mod filling;
mod groups;
mod keeping;
mod opening;
mod running;
mod telling;
mod times;

pub use running::backfill;
pub use times::Times;
