use pr_num::Num;

/// A function of the values of a series in a range. (Prometheus: Querying, Functions.)
#[derive(Clone, Copy, Debug, PartialEq, Eq)]
pub enum RangeFn {
    Rate,
    Increase,
    Delta,
    Irate,
    Idelta,
    Deriv,
    PredictLinear,
    Changes,
    Resets,
    SumOverTime,
    AvgOverTime,
    MinOverTime,
    MaxOverTime,
    CountOverTime,
    LastOverTime,
    /// It serves `absent_over_time` too.
    PresentOverTime,
    QuantileOverTime,
}

/// A question to the values of a series: a function of those with times above `from` and at most
/// `to`.
#[derive(Clone, Copy, Debug, PartialEq, Eq)]
pub struct Ask {
    /// The range begins after this moment, in milliseconds; it may be before all times.
    pub from: i64,
    /// The range ends with this moment, in milliseconds.
    pub to: i64,
    /// Which function.
    pub func: RangeFn,
    /// The fraction of `quantile_over_time` or the seconds ahead of `predict_linear`; none of the
    /// others.
    pub arg: Option<Num>,
    /// Whether it is asked for one of the times of a subquery.
    pub inside: bool,
}

/// Why a range has no answer.
#[derive(Clone, Copy, Debug, PartialEq, Eq, Drop)]
pub enum AskFault {
    /// The value is too wide.
    TooWide,
    /// The range has so many values, which is more than 2^20. (Own choice.)
    RangeTooLong { have: u64 },
}
