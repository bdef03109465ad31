use pr_num::Num;
use pr_time::Ms;

/// A value of a series, with its time. (Prometheus: Data model, Samples.)
#[derive(Clone, Copy, Debug, PartialEq, Eq)]
pub struct Spot {
    /// When the value stands.
    pub time: Ms,
    /// The value.
    pub value: Num,
}
