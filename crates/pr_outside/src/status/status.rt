// How the program ends.
ghost use Rattle.std.specs.Prelude.{◌≡◌};
ghost use Rattle.pr_outside.specs.Ends.{status_of, stop_of_files, stop_of_keeper, stop_of_sink, stop_status};
ghost use Rattle.pr_outside.specs.Status.{status_number};
ghost use Rattle.pr_outside.specs.declared.status.status.Stop.TheVariants.{Memory, Read};

use crate::{Failed, FilesError, KeepError, SinkError};
use std::alloc::AllocError;

/// How the program ends.
#[derive(Clone, Copy, Debug, PartialEq, Eq)]
pub enum Status {
    /// All was read and written, and nothing of the others holds.
    Done,
    /// All input was read, and a script line, a named file or the exposition was refused.
    Problem,
    /// The words are none of the forms.
    Usage,
    /// A valid exposition has a lint list that is not empty.
    Lint,
    /// The input, or a file, could not be read.
    ReadFault,
    /// The output could not be written.
    WriteFault,
    /// The store refused, or held a bad row.
    StoreFault,
    /// Memory ran out.
    Memory,
    /// The input has 2^32 bytes or more.
    TooLong,
}

impl Status {
    /// The number that the process ends with.
    pub fn number(self) -> u8
        ensures { result ≡ status_number self }
    {
        match self {
            Status::Done => 0,
            Status::Problem => 1,
            Status::Usage => 2,
            Status::Lint => 3,
            Status::ReadFault => 4,
            Status::WriteFault => 5,
            Status::StoreFault => 6,
            Status::Memory => 7,
            Status::TooLong => 8,
        }
    }
}

/// Why a run was cut short.
#[derive(Clone, Copy, Debug, PartialEq, Eq)]
pub enum Stop {
    /// The input could not be read.
    Read,
    /// A file could not be loaded.
    Load,
    /// The store refused.
    Store,
    /// The kept row of this index is a bad one.
    BadRow { index: u64 },
    /// The output could not be written.
    Write,
    /// Memory ran out.
    Memory,
    /// The input has 2^32 bytes or more.
    TooLong,
}

impl Stop {
    /// How the program ends after it.
    pub fn status(self) -> Status
        ensures { result ≡ stop_status self }
    {
        match self {
            Stop::Read | Stop::Load => Status::ReadFault,
            Stop::Store | Stop::BadRow { .. } => Status::StoreFault,
            Stop::Write => Status::WriteFault,
            Stop::Memory => Status::Memory,
            Stop::TooLong => Status::TooLong,
        }
    }
}

/// How the program ends, by whether a command refused something, or what stopped it.
pub fn status_of(ended: Result<bool, Stop>) -> Status
    ensures { result ≡ status_of ended }
{
    match ended {
        Ok(true) => Status::Problem,
        Ok(false) => Status::Done,
        Err(stop) => stop.status(),
    }
}

impl From<AllocError> for Stop {
    ghost from_gives = { λ _ e. e ≡ Memory };

    fn from(_: AllocError) -> Stop {
        Stop::Memory
    }
}

impl From<SinkError> for Stop {
    ghost from_gives = { λ e s. s ≡ stop_of_sink e };

    fn from(e: SinkError) -> Stop {
        match e {
            SinkError::Failed => Stop::Write,
            SinkError::Memory => Stop::Memory,
        }
    }
}

impl From<Failed> for Stop {
    ghost from_gives = { λ _ e. e ≡ Read };

    fn from(_: Failed) -> Stop {
        Stop::Read
    }
}

impl From<FilesError> for Stop {
    ghost from_gives = { λ e s. s ≡ stop_of_files e };

    fn from(e: FilesError) -> Stop {
        match e {
            FilesError::Failed => Stop::Load,
            FilesError::Memory => Stop::Memory,
        }
    }
}

impl From<KeepError> for Stop {
    ghost from_gives = { λ e s. s ≡ stop_of_keeper e };

    fn from(e: KeepError) -> Stop {
        match e {
            KeepError::Failed => Stop::Store,
            KeepError::Memory => Stop::Memory,
        }
    }
}
