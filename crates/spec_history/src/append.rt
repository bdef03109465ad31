use pr_num::Point;
use pr_time::Ms;

/// What becomes of a point that is to be admitted.
#[derive(Clone, Copy, Debug, PartialEq, Eq)]
pub enum Append {
    /// The series had nothing yet, or its last time is below.
    Added,
    /// The series has an equal point at this time, its last.
    Same,
    /// The last time of the series is above.
    OutOfOrder { last: Ms },
    /// The series has another point at this time, its last.
    Conflict { kept: Point },
}
