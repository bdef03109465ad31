//! Laws of the definitions that contracts of this crate cite. A law is a function that does
//! nothing, and its contract is the theorem.
ghost use Rattle.std.specs.Prelude.{◌≡◌};
ghost use Rattle.spec_vectors.specs.Calendar.{date, date_after};

/// Well-known dates by the days from 1 January of the year 1 to them: the walk of the calendar
/// comes to them.
pub fn dates_by_example()
    ensures epoch { date_after 719162 ≡ date 1970 1 1 }
    ensures leap { date_after 730178 ≡ date 2000 2 29 }
    ensures century { date_after 693654 ≡ date 1900 3 1 }
    ensures late { date_after 739250 ≡ date 2024 12 31 }
    ensures last { date_after 3652058 ≡ date 9999 12 31 }
{}
