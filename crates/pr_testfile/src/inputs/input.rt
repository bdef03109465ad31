// The series of a test.
use crate::inputs::stretch::Stretch;
use pr_ast::labels::Labels;
use pr_ast::time::Span;
use pr_words::Items;

/// A series of a test, and its values. (Prometheus: Unit testing for rules, "series".)
#[derive(Debug, Drop)]
pub struct InputSeries {
    pub labels: Labels,
    pub values: Items<Stretch>,
}

/// The input of a test: its series, whose values stand at the multiples of the interval.
#[derive(Debug, Drop)]
pub struct Input {
    pub interval: Span,
    pub series: Items<InputSeries>,
}
