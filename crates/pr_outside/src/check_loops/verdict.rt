// How a check comes out.
ghost use Rattle.std.specs.Prelude.{◌≡◌};
ghost use Rattle.pr_outside.specs.Ends.{stop_status};
ghost use Rattle.pr_outside.specs.Checks.{ends, ends_by};

use crate::status::{Status, Stop};

/// How a check comes out.
#[derive(Clone, Copy, Debug, PartialEq, Eq)]
pub enum Verdict {
    /// There is nothing to say.
    Good,
    /// It is read, and there are complaints.
    Complaints,
    /// It is refused.
    Refused,
}

impl Verdict {
    /// The status that a program ends with after this verdict.
    pub fn status(self) -> Status
        ensures { result ≡ ends self }
    {
        match self {
            Verdict::Good => Status::Done,
            Verdict::Complaints => Status::Lint,
            Verdict::Refused => Status::Problem,
        }
    }
}

/// The status of a check, by its verdict or by what stopped it.
pub(crate) fn status_of(checked: Result<Verdict, Stop>) -> Status
    ensures { result ≡ ends_by checked }
{
    match checked {
        Ok(verdict) => verdict.status(),
        Err(stop) => stop.status(),
    }
}
