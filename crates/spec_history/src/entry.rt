use pr_labels::Labels;
use pr_num::Point;
use pr_time::Ms;

/// An entry of the history: a point of a series, with its time.
#[derive(Debug, Drop)]
pub struct Entry {
    /// The labels of the series.
    pub labels: Labels,
    /// When the point stands.
    pub time: Ms,
    /// The point.
    pub point: Point,
}
