use pr_num::Num;
use spec_history::labels::{Labels, Pair};
use spec_history::words_crate::Items;

/// An element of what a rule comes to. A recording rule has no annotations. (Prometheus: Alerting
/// rules.)
#[derive(Debug, Drop)]
pub struct RuleElement {
    /// The labels, as the rule sets them.
    pub labels: Labels,
    /// The annotations, in the order of the rule, expanded.
    pub notes: Items<Pair>,
    /// The value of the expression.
    pub value: Num,
}
