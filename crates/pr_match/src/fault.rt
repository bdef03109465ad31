use std::alloc::{AllocError, AllocFailed};

/// Why a pattern was not built.
#[derive(Clone, Copy, PartialEq, Eq, Debug)]
pub enum MatchError {
    /// The text is no pattern, alone or anchored.
    BadPattern,
    /// Memory ran out, or what the pattern compiles to would be too large.
    Memory,
}

impl From<AllocError> for MatchError {
    ghost use Rattle.std.specs.Prelude.{◌≡◌};
    ghost use Rattle.pr_match.specs.declared.fault.MatchError.TheVariants.{Memory};

    ghost from_gives = { λ _ error. error ≡ Memory };

    fn from(_: AllocError) -> MatchError {
        MatchError::Memory
    }
}

impl<X: Drop> From<AllocFailed<X>> for MatchError {
    ghost use Rattle.std.specs.Prelude.{◌≡◌};
    ghost use Rattle.pr_match.specs.declared.fault.MatchError.TheVariants.{Memory};

    ghost from_gives = { λ _ error. error ≡ Memory };

    fn from(_error: AllocFailed<X>) -> MatchError {
        MatchError::Memory
    }
}
