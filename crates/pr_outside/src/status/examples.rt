//! Worked examples of the definitions that contracts of this crate cite. Each is a function that
//! does nothing, and its contract says what the definitions give, so that none of them changes with
//! its code unseen.
ghost use Rattle.std.specs.Prelude.{◌≡◌};
ghost use Rattle.pr_outside.specs.Status.{status_number};
ghost use Rattle.pr_outside.specs.declared.status.status.Status.TheVariants.{Done, Problem, Usage, Lint, ReadFault, WriteFault, StoreFault, Memory, TooLong};

/// The number of each status.
pub fn status_numbers()
    ensures done { status_number Done ≡ 0 }
    ensures problem { status_number Problem ≡ 1 }
    ensures usage { status_number Usage ≡ 2 }
    ensures lint { status_number Lint ≡ 3 }
    ensures read { status_number ReadFault ≡ 4 }
    ensures write { status_number WriteFault ≡ 5 }
    ensures store { status_number StoreFault ≡ 6 }
    ensures memory { status_number Memory ≡ 7 }
    ensures long { status_number TooLong ≡ 8 }
{}
