/// A field of the date and the time of day of an instant, in UTC. (Prometheus: Querying,
/// Functions.)
#[derive(Clone, Copy, Debug, PartialEq, Eq)]
pub enum Part {
    /// From 0 to 59.
    Minute,
    /// From 0 to 23.
    Hour,
    /// From 0, which is Sunday, to 6.
    DayOfWeek,
    /// From 1 to 31.
    DayOfMonth,
    /// From 1 to 366.
    DayOfYear,
    /// From 28 to 31.
    DaysInMonth,
    /// From 1 to 12.
    Month,
    /// From 1 to 9999.
    Year,
}
