use std::alloc::AllocError;

/// Why a range has no answer.
#[derive(Clone, Copy, Debug, PartialEq, Eq)]
pub enum RangeFault {
    /// The value is too wide.
    TooWide,
    /// The range has so many values, which is more than 2^20. (Own choice.)
    RangeTooLong { have: u64 },
    /// Memory ran out.
    Memory,
}

impl From<AllocError> for RangeFault {
    fn from(_: AllocError) -> RangeFault {
        RangeFault::Memory
    }
}
