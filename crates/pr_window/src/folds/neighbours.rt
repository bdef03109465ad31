use pr_num::Total;
use spec_vectors::history::Spot;

/// What is kept of values one after another.
#[derive(Clone, Copy)]
pub struct Neighbours {
    /// The first value, with its time.
    pub first: Spot,
    /// The last value, with its time.
    pub last: Spot,
    /// How many there are.
    pub count: u64,
    /// What the values add up to that stand before a lower one.
    pub lost: Total,
    /// How many values are below the one before.
    pub resets: u64,
    /// How many values differ from the one before.
    pub changes: u64,
    /// Whether one is no finite number.
    pub special: bool,
}
