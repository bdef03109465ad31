use pr_expo::ExpoKind;
use pr_rulefile::words_crate::Items;
use spec_vectors::history::Entry;

/// A sample of a body that is offered to the history.
#[derive(Debug, Drop)]
pub struct Offer {
    /// The entry that it would be.
    pub entry: Entry,
    /// Whether the sample has a time of its own.
    pub is_timed: bool,
}

/// Where a body is no exposition, and how.
#[derive(Clone, Copy, Debug, PartialEq, Eq)]
pub struct BodyFault {
    /// The first bad line, by its number from 1.
    pub line: u32,
    /// How it is bad.
    pub kind: ExpoKind,
}

/// What a scrape comes to. (Prometheus: Jobs and instances, Automatically generated labels and time
/// series.)
#[derive(Debug, Drop)]
pub struct Scraped {
    /// The entries that were added to the history, in order: samples, markers, and what is said of
    /// the target.
    pub admitted: Items<Entry>,
    /// How the body is no exposition, where it is none.
    pub fault: Option<BodyFault>,
    /// How many samples of the body were added.
    pub added: u64,
    /// How many samples of the body were dropped: their own time is not taken, their value is too
    /// wide, or they are refused.
    pub dropped: u64,
    /// How many markers were added.
    pub stale: u64,
}
