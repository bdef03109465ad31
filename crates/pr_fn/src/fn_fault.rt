use pr_match::labels::Labels;
use std::alloc::AllocError;

/// Why a function of a vector has no result. (Prometheus: Querying, Functions; that the least
/// labels are told, and after a value that is too wide, is own choice.)
#[derive(Debug, Drop)]
pub enum FnFault {
    /// Two elements of the result have these labels, the least such in label order.
    SameLabels { labels: Labels },
    /// A value of the result is too wide.
    TooWide,
    /// Memory ran out.
    Memory,
}

impl From<AllocError> for FnFault {
    ghost use Rattle.std.specs.Prelude.{◌≡◌};
    ghost use Rattle.pr_fn.specs.declared.fn_fault.FnFault.TheVariants.{Memory};

    ghost from_gives = { λ _ e. e ≡ Memory };

    fn from(_error: AllocError) -> FnFault {
        FnFault::Memory
    }
}
