// Why the rows of a store are not read.
ghost use Rattle.std.specs.Prelude.{◌≡◌};

use pr_outside::KeepError;
use std::alloc::AllocError;
use thiserror::Error;

/// Why the rows of a store are not read.
#[derive(Debug, Drop, Error)]
pub enum StartError {
    /// Memory ran out.
    #[error("memory ran out")]
    Memory,
    /// The store refused a call.
    #[error("the store refused a call")]
    StoreFailed,
    /// The row of this index is the first that is the row of no entry, or is not added to those
    /// before it.
    #[error("row {index} is a bad one")]
    BadRow { index: u64 },
}

impl From<AllocError> for StartError {
    ghost use Rattle.pr_engine.specs.declared.rows.fault.StartError.TheVariants.{Memory};

    ghost from_gives = { λ _ e. e ≡ Memory };

    fn from(_error: AllocError) -> StartError {
        StartError::Memory
    }
}

impl From<KeepError> for StartError {
    ghost use Rattle.pr_engine.specs.private.StartCauses.{start_error};

    ghost from_gives = { λ error e. e ≡ start_error error };

    fn from(error: KeepError) -> StartError {
        match error {
            KeepError::Failed => StartError::StoreFailed,
            KeepError::Memory => StartError::Memory,
        }
    }
}
