use pr_words::{Items, Text};

/// By which labels an aggregation groups its elements: `by` the names, or `without` them and the
/// metric's name. (Prometheus: Operators, "Aggregation operators".)
#[derive(Debug, Drop)]
pub struct Grouping {
    pub by: bool,
    pub names: Items<Text>,
}
