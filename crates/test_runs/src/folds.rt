// A fold whose parts do not commute: the first and the last of some bytes.
use test_rows::window_crate::{Fold, fold_items};

struct Ends;

impl Fold<u8, (u8, u8)> for Ends {
    ghost use Rattle.std.proofs.Common.{refl, arith};

    ghost lift = { λ b. (b, b) };

    ghost combine = { λ a b. (a.0, b.1) };

    ghost weight = { λ _. 0 };

    ghost associative = { λ a b c. refl };

    ghost lifted = { λ x. Prim.omega arith };

    ghost combined = { λ a b. Prim.omega arith };
}

/// The first and the last of some bytes.
pub(crate) fn ends_of(bytes: &[u8]) -> Option<(u8, u8)> {
    fold_items::<u8, (u8, u8), Ends, _, _>(
        bytes,
        &|b: &u8| (*b, *b),
        &|a: &(u8, u8), b: &(u8, u8)| (a.0, b.1),
    )
}
