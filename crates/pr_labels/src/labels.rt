// A label set.
mod choose;
mod copies;
mod edits;
mod keyed;
mod known;
mod listed;
mod made;
mod place;
mod shared;

use crate::pair::Pair;
pub use copies::copy_pairs;
pub use listed::ListedNames;
use place::place_of;
use shared::SharedPairs;
use std::alloc::{AllocError, Global};
use std::cmp::Ordering;
use std::hash::{Hash, Hasher};
use std::marker::Model;

/// The name under which a metric's name stands in a label set. (Prometheus: Data model.)
pub const METRIC_LABEL: &str = "__name__";

/// A label set. Contracts see the list of its pairs: names rise, and no value is empty. Sets that
/// are copies of one another share their pairs.
#[derive(Debug, Drop)]
pub struct Labels {
    pairs: SharedPairs,
}

impl Model for Labels {
    ghost use Rattle.std.specs.Prelude.{List};
    ghost use Rattle.pr_labels.specs.declared.pair.Pair.{Pair};
    ghost use Rattle.pr_labels.specs.LabelSet.{IsLabelSet};

    ghost Value = { List Pair };

    ghost view = { λ l. l.pairs };

    ghost invariant = { λ l. IsLabelSet l.pairs };
}

impl PartialEq for Labels {
    ghost use Rattle.std.proofs.Common.{rules};
    ghost use Rattle.std.specs.Cmp.Rules.{comparing};
    ghost use Rattle.pr_labels.specs.Order.{labels_eq};

    ghost eq = { labels_eq };

    ghost laws = { Prim.search (comparing, rules) };

    fn eq(&self, other: &Labels) -> bool {
        self.pairs.equals(&other.pairs)
    }
}

impl Eq for Labels {
    ghost use Rattle.std.proofs.Common.{rules};
    ghost use Rattle.std.specs.Cmp.Rules.{comparing};

    ghost laws = { Prim.search (comparing, rules) };
}

impl Hash for Labels {
    ghost use Rattle.std.specs.Hash as fed;
    ghost use Rattle.pr_labels.specs.Order.{pair_input, labels_alike};

    ghost hash_input = { fed.slice pair_input };

    ghost respects_eq = { labels_alike.fed };

    fn hash<H: Hasher>(&self, state: &mut H) {
        self.pairs().hash(state);
    }
}

impl Ord for Labels {
    ghost use Rattle.std.proofs.Common.{rules};
    ghost use Rattle.std.specs.Cmp.Rules.{comparing};
    ghost use Rattle.pr_labels.specs.Order.{labels_cmp, labels_tie};

    ghost cmp = { labels_cmp };

    ghost total = { Prim.search (comparing, rules) depth 9 };

    ghost matches_partial_cmp = { Prim.search (comparing, rules) depth 9 };

    ghost matches_eq = { labels_tie };

    // Label order.
    fn cmp(&self, other: &Labels) -> Ordering {
        self.pairs.compare(&other.pairs)
    }
}

impl PartialOrd for Labels {
    ghost use Rattle.std.proofs.Common.{rules};
    ghost use Rattle.std.specs.Cmp.Rules.{comparing};
    ghost use Rattle.std.specs.Cmp.{partial_order_from_own_ties};
    ghost use Rattle.std.specs.Ordering.{as_partial_cmp};
    ghost use Rattle.pr_labels.specs.Order.{labels_cmp, labels_tie};

    ghost partial_cmp = { as_partial_cmp labels_cmp };

    ghost laws = { partial_order_from_own_ties (Prim.search (comparing, rules) depth 9) labels_tie };

    fn partial_cmp(&self, other: &Labels) -> Option<Ordering> {
        Some(self.cmp(other))
    }
}

ghost use Rattle.std.specs.Prelude.{◌≡◌, [], IfOk};
ghost use Rattle.std.specs.Option.{option_copied};
ghost use Rattle.pr_labels.specs.LabelSet.{IsLabelSet, value_of};

impl Labels {
    /// The empty label set.
    pub fn empty(alloc: Global) -> Labels
        ensures { result ≡ [] }
    {
        Labels {
            pairs: SharedPairs::empty(alloc),
        }
    }

    // The label set of pairs that are one.
    fn of_pairs(alloc: Global, pairs: Vec<Pair>) -> Labels
        requires { IsLabelSet pairs.items }
        ensures { result ≡ pairs.items }
    {
        Labels {
            pairs: SharedPairs::new(alloc, pairs),
        }
    }

    /// The pairs, in order of name: no name stands twice, and no value is empty.
    pub fn pairs(&self) -> &[Pair]
        ensures all { result.now ≡ self.now }
        ensures set { IsLabelSet result.now }
    {
        self.pairs.as_slice()
    }

    /// The value of a name, where the set has the name. It is found by halving.
    #[tactic(auto, using(crate::proofs::Places::value_at, crate::proofs::Places::no_value))]
    pub fn get(&self, name: &str) -> Option<&str>
        ensures { option_copied result ≡ value_of self.now name.now }
    {
        let pairs = self.pairs.as_slice();
        match place_of(pairs, name) {
            Ok(place) => Some(pairs[place].value.as_str()),
            Err(_gap) => None,
        }
    }

    /// Another set with the same pairs, which the two share.
    pub fn copy(&self, alloc: Global) -> Result<Labels, AllocError>
        ensures { IfOk result (λ l. l ≡ self.now) }
    {
        Ok(Labels {
            pairs: self.pairs.share(alloc)?,
        })
    }
}
