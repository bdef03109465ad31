// The folds of values with their times.
use crate::Fold;
use crate::folds::neighbours::Neighbours;
use pr_num::{Num, Total};
use spec_vectors::history::Spot;

/// Values are folded to their total.
pub struct Totals;

impl Fold<Spot, Total> for Totals {
    ghost use Rattle.pr_num.specs.Total.{joined};
    ghost use Rattle.pr_window.specs.private.Totals.{alone_count, tally_count, joined_assoc, joined_count, total_alone};

    ghost lift = { total_alone };

    ghost combine = { joined };

    ghost weight = { tally_count };

    ghost associative = { joined_assoc };

    ghost lifted = { alone_count };

    ghost combined = { joined_count };
}

/// Values are folded to the greatest one; NaN counts only where all are.
pub struct Greatest;

impl Fold<Spot, Num> for Greatest {
    ghost use Rattle.pr_window.specs.private.Extremes.{alone_weightless, greater, greater_assoc, greater_weightless, no_weight, value_alone};

    ghost lift = { value_alone };

    ghost combine = { greater };

    ghost weight = { no_weight };

    ghost associative = { greater_assoc };

    ghost lifted = { alone_weightless };

    ghost combined = { greater_weightless };
}

/// Values are folded to the least one; NaN counts only where all are.
pub struct Least;

impl Fold<Spot, Num> for Least {
    ghost use Rattle.pr_window.specs.private.Extremes.{alone_weightless, lesser, lesser_assoc, lesser_weightless, no_weight, value_alone};

    ghost lift = { value_alone };

    ghost combine = { lesser };

    ghost weight = { no_weight };

    ghost associative = { lesser_assoc };

    ghost lifted = { alone_weightless };

    ghost combined = { lesser_weightless };
}

/// Values are folded to what `Neighbours` keeps of them.
pub struct Sequence;

impl Fold<Spot, Neighbours> for Sequence {
    ghost use Rattle.pr_window.specs.private.Neighbours.{alone_weight, beside, beside_assoc, beside_weight, spot_alone, weight_of};

    ghost lift = { spot_alone };

    ghost combine = { beside };

    ghost weight = { weight_of };

    ghost associative = { beside_assoc };

    ghost lifted = { alone_weight };

    ghost combined = { beside_weight };
}
