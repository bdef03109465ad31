// Numbers of elements as values.
ghost use Rattle.std.specs.Prelude.{◌≡◌, pos};
ghost use Rattle.pr_num.specs.Arithmetic.{whole_of};

use pr_num::{Nano, Num};

/// A number as a value.
pub fn whole(n: u64) -> Num
    ensures { result ≡ whole_of (pos n) }
{
    match Nano::new(i128::from(n) * 1_000_000_000) {
        Some(units) => Num::Finite(units),
        None => unreachable!(),
    }
}
