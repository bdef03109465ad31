// The bound of a bucket, as a key.
use pr_num::Num;
use std::cmp::Ordering;
use std::marker::Model;

/// The bound of a bucket; bounds are in order as values are. Contracts see the value.
#[derive(Clone, Copy, Debug, Drop)]
pub struct Bound {
    value: Num,
}

impl Model for Bound {
    ghost use Rattle.pr_num.specs.declared.value.Num.{Num};

    ghost Value = { Num };

    ghost view = { λ b. b.value };

    ghost inverse = { λ v. record { value = v } };
}

impl PartialEq for Bound {
    ghost use Rattle.pr_fn.specs.private.Bounds.{same_bound, bounds_alike};

    ghost eq = { same_bound };

    ghost laws = { bounds_alike };

    fn eq(&self, other: &Bound) -> bool {
        matches!(self.value.order(other.value), Ordering::Equal)
    }
}

impl Eq for Bound {
    ghost use Rattle.pr_fn.specs.private.Bounds.{bounds_equal};

    ghost laws = { bounds_equal };
}

impl Ord for Bound {
    ghost use Rattle.std.proofs.Common.{rules, refl};
    ghost use Rattle.std.specs.Cmp.Rules.{comparing};
    ghost use Rattle.pr_num.specs.Order.{order_of};
    ghost use Rattle.pr_fn.specs.private.Bounds.{bounds_total};

    ghost cmp = { order_of };

    ghost total = { bounds_total };

    ghost matches_partial_cmp = { Prim.search (comparing, rules) };

    ghost matches_eq = { λ a b. refl };

    fn cmp(&self, other: &Bound) -> Ordering {
        self.value.order(other.value)
    }
}

impl PartialOrd for Bound {
    ghost use Rattle.std.specs.Ordering.{as_partial_cmp};
    ghost use Rattle.pr_num.specs.Order.{order_of};
    ghost use Rattle.pr_fn.specs.private.Bounds.{bounds_ordered};

    ghost partial_cmp = { as_partial_cmp order_of };

    ghost laws = { bounds_ordered };

    fn partial_cmp(&self, other: &Bound) -> Option<Ordering> {
        Some(self.cmp(other))
    }
}

ghost use Rattle.std.specs.Prelude.{◌≡◌};

impl Bound {
    /// The bound of a value.
    pub fn new(value: Num) -> Bound
        ensures { result ≡ value }
    {
        Bound { value }
    }

    /// Its value.
    pub fn value(self) -> Num
        ensures { result ≡ self }
    {
        self.value
    }
}
