use pr_num::Num;

/// A stretch of the values of a series.
#[derive(Debug, Drop)]
pub enum Stretch {
    /// The first value, and `more` values after it, each of which is more than the one before it by
    /// the step. A step may be negative, or no finite value.
    Steps { first: Num, by: Num, more: u32 },
    /// So many places without a value.
    Missing { count: u32 },
    /// The mark that the series has gone stale.
    Marker,
}
