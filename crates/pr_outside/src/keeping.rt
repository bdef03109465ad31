// Rows that are kept.
ghost use Rattle.std.specs.Prelude.{◌≡◌, ◌<◌, ◌+◌, length, OnOk, OnErr, IfOk, IfSome, IsSome, IsTrue, Some, slice_get};
ghost use Rattle.pr_outside.specs.Causes.{HasKeepCause};
ghost use Rattle.pr_outside.specs.private.Kept.{KeepsRows, StartsRows, AppendsRows};
ghost use Rattle.pr_outside.specs.Paths.{StartsPath};

use spec_history::row::Row;
use std::alloc::AllocError;

/// Why the keeper did not do what was asked.
#[derive(Clone, Copy, Debug, PartialEq, Eq)]
pub enum KeepError {
    /// The outside refused, and the count of faults rose or stands at its end.
    Failed,
    /// Memory ran out.
    Memory,
}

impl From<AllocError> for KeepError {
    ghost use Rattle.pr_outside.specs.declared.keeping.KeepError.TheVariants.{Memory};

    ghost from_gives = { λ _ e. e ≡ Memory };

    fn from(_error: AllocError) -> KeepError {
        KeepError::Memory
    }
}

/// Where rows are kept. What is said of rows holds where they are told after the call: a keeper may
/// stop telling its rows at any call, and starts to tell them only at a start. As long as what it
/// stands on keeps its word, a call that succeeds leaves them told.
pub trait Keeper {
    ghost use Rattle.pr_outside.specs.Meant.{Store};

    /// The rows in order, where they are told; how many there are; whether what the keeper stands on
    /// has kept its word so far; the paths that were opened, in order; and how often a call was
    /// refused, at most 2^64 - 1.
    ghost means: { Self → Store };

    /// Opens the store of this path; the empty path is a store in memory. Rows that were told stay
    /// as they were.
    fn start(&mut self, path: &str) -> Result<(), KeepError>
        ensures ok { OnOk result (StartsRows (means self.old).rows (means self.new).rows) }
        ensures err { OnErr result (KeepsRows (means self.old).rows (means self.new).rows) }
        ensures err_count { OnErr result ((means self.new).count ≡ (means self.old).count) }
        ensures tells { IsTrue (means self.new).sound → OnOk result (IsSome (means self.new).rows) }
        ensures sound { IsTrue (means self.new).sound → IsTrue (means self.old).sound }
        ensures paths { StartsPath path.now (means self.old).paths (means self.new).paths result }
        ensures cause { HasKeepCause (means self.old).faults (means self.new).faults result };

    /// How many rows there are.
    fn size(&self) -> u64
        ensures count { result ≡ (means self.now).count }
        ensures rows { IfSome (means self.now).rows (λ rows. result ≡ length rows) };

    /// Appends all the rows, of which there is one at least: nothing is committed that adds none. A
    /// refused call appends none.
    fn commit(&mut self, added: &[Row]) -> Result<(), KeepError>
        requires { 0 < length added.now }
        ensures ok { OnOk result (AppendsRows (means self.old).rows (means self.new).rows added.now) }
        ensures ok_count { OnOk result ((means self.new).count ≡ (means self.old).count + length added.now) }
        ensures err { OnErr result (KeepsRows (means self.old).rows (means self.new).rows) }
        ensures err_count { OnErr result ((means self.new).count ≡ (means self.old).count) }
        ensures tells { IsTrue (means self.new).sound → IsSome (means self.old).rows → OnOk result (IsSome (means self.new).rows) }
        ensures sound { IsTrue (means self.new).sound → IsTrue (means self.old).sound }
        ensures paths { (means self.new).paths ≡ (means self.old).paths }
        ensures cause { HasKeepCause (means self.old).faults (means self.new).faults result };

    /// The row of this index. It changes no rows.
    fn load(&mut self, index: u64) -> Result<Row, KeepError>
        requires { index < (means self.old).count }
        ensures row { IfOk result (λ row. IfSome (means self.new).rows (λ rows. slice_get rows index ≡ Some row)) }
        ensures same { KeepsRows (means self.old).rows (means self.new).rows }
        ensures count { (means self.new).count ≡ (means self.old).count }
        ensures tells { IsTrue (means self.new).sound → IsSome (means self.old).rows → OnOk result (IsSome (means self.new).rows) }
        ensures sound { IsTrue (means self.new).sound → IsTrue (means self.old).sound }
        ensures paths { (means self.new).paths ≡ (means self.old).paths }
        ensures cause { HasKeepCause (means self.old).faults (means self.new).faults result };
}
