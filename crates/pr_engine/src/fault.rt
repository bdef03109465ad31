// Why an engine does not answer.
ghost use Rattle.std.specs.Prelude.{◌≡◌};

use crate::rows::StartError;
use pr_outside::KeepError;
use thiserror::Error;

/// What breaks an engine.
#[derive(Clone, Copy, Debug, PartialEq, Eq)]
pub enum Cause {
    /// Memory ran out.
    Memory,
    /// The store refused a call.
    StoreFailed,
    /// A kept row is a bad one.
    BadRow,
}

/// Why an engine does not answer an event.
#[derive(Debug, Drop, Error)]
pub enum ApplyError {
    /// Memory ran out.
    #[error("memory ran out")]
    Memory,
    /// The store refused a call.
    #[error("the store refused a call")]
    StoreFailed,
    /// At a restart, the row of this index is the first that is the row of no entry, or is not
    /// added to those before it.
    #[error("row {index} is a bad one")]
    BadRow { index: u64 },
    /// An earlier event was not answered, and no restart has succeeded since. This is what broke
    /// the engine first.
    #[error("an earlier event was not answered")]
    Broken { first: Cause },
}

impl From<KeepError> for ApplyError {
    ghost use Rattle.pr_engine.specs.private.Causes.{apply_error};

    ghost from_gives = { λ error e. e ≡ apply_error error };

    fn from(error: KeepError) -> ApplyError {
        match error {
            KeepError::Failed => ApplyError::StoreFailed,
            KeepError::Memory => ApplyError::Memory,
        }
    }
}

impl From<StartError> for ApplyError {
    ghost use Rattle.pr_engine.specs.private.Causes.{restart_error};

    ghost from_gives = { λ error e. e ≡ restart_error error };

    fn from(error: StartError) -> ApplyError {
        match error {
            StartError::Memory => ApplyError::Memory,
            StartError::StoreFailed => ApplyError::StoreFailed,
            StartError::BadRow { index } => ApplyError::BadRow { index },
        }
    }
}
