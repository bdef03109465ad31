use spec_history::labels::Labels;

/// Why two vectors have no result together. (Prometheus: Querying, Operators, Vector matching.)
#[derive(Debug, Drop)]
pub enum MatchFault {
    /// Two elements of a side have this key where there may be one.
    ManyToMany { key: Labels },
    /// Two elements of the result have these labels.
    NotUnique { labels: Labels },
    /// The value of a pair is too wide.
    TooWide,
}
