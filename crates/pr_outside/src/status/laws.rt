//! Laws of the definitions that contracts of this crate cite. Each is a function that does nothing.
ghost use Rattle.std.specs.Prelude.{◌≡◌, ℕ, Bool, true, Result};
ghost use Rattle.pr_outside.specs.Ends.{Ends, status_of};
ghost use Rattle.pr_outside.specs.Outside.{Outside};
ghost use Rattle.pr_outside.specs.Status.{HasCause, IsTooLong};
ghost use Rattle.pr_outside.specs.declared.status.status.Stop.{Stop};

/// The status of a command has its cause by the table of statuses, where the command ended as
/// [`Ends`] says.
pub fn a_status_has_its_cause()
    ensures { (bad : ℕ → Bool) (before now : Outside) (ending : Result Bool Stop)
        → Ends (λ index. bad index ≡ true) (IsTooLong before.input now.input) before now ending → HasCause ((index : ℕ) × (bad index ≡ true)) before now (status_of ending) }
{}
