use crate::Sending;
use spec_history::words_crate::Items;

/// What a receiver is given at once. (Own choice.)
#[derive(Debug, Drop)]
pub struct Batch {
    /// The notices, in the order in which they were offered.
    pub notices: Items<Sending>,
    /// How many notices the receiver lost before these and after those of its last batch;
    /// 2^64 - 1 stands for so many or more.
    pub dropped: u64,
}
