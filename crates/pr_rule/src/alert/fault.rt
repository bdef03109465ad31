/// Why an evaluation leaves no alerts, or could not be made.
#[derive(Clone, Copy, Debug, PartialEq, Eq)]
pub enum AlertFault {
    /// The pending and firing alerts are so many, which is more than the limit. (Prometheus:
    /// Recording rules, limit.)
    LimitExceeded { limit: u32, have: u64 },
    /// Memory ran out.
    Memory,
}
