use spec_history::labels::Labels;

/// Why a function of a vector has no result. (Prometheus: Querying, Functions; that the least
/// labels are told is own choice.)
#[derive(Debug, Drop)]
pub enum FunctionFault {
    /// Two elements of the result have these labels, the least such.
    SameLabels { labels: Labels },
    /// A value of the result is too wide.
    TooWide,
}
