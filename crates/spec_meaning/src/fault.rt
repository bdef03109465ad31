use pr_ast::Place;
use pr_ast::labels::Labels;

/// Why an expression gives nothing at a moment.
#[derive(Debug, Drop)]
pub enum FaultKind {
    /// Two elements of the one side have this key, the least such; or in one-to-one matching a
    /// second kept pair has it. (Prometheus: Querying, Operators, Vector matching.)
    ManyToMany { key: Labels },
    /// Two pairs give these labels.
    NotUnique { labels: Labels },
    /// Two elements come to have these labels, the least such.
    SameLabels { labels: Labels },
    /// A range has so many values of one series, or a subquery so many moments: more than 2^20.
    /// (Own choice.)
    RangeTooLong { have: u64 },
    /// A value, rounded to nine places, has a magnitude of 10^20 or more, or a slope or a time
    /// ahead is refused. (Own choice.)
    TooWide,
}

/// A fault, and the place of the node that has it.
#[derive(Debug, Drop)]
pub struct Fault {
    pub place: Place,
    pub kind: FaultKind,
}
