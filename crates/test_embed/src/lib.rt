//! An engine within a program of its own: events are answered over rows in memory, or over a file's.
#![tactic(auto)]

mod events;
mod session;
mod stores;

pub use events::morning;
pub use session::answers;
pub use stores::{in_file, in_memory};
