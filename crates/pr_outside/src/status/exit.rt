// How the process ends.
ghost use Rattle.std.specs.Prelude.{◌≡◌};
ghost use Rattle.std.specs.Process.{exit_status};
ghost use Rattle.pr_outside.specs.Status.{status_number};

use crate::status::status::Status;
use std::process::ExitCode;

/// The number of a status, as the process hands it on.
pub fn exit_of(status: Status) -> ExitCode
    ensures { exit_status result ≡ status_number status }
{
    ExitCode::from(status.number())
}
