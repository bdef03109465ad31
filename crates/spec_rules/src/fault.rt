use pr_ast::labels::Labels;
use spec_meaning::FaultKind;

/// Why a rule comes to nothing at a moment.
#[derive(Debug, Drop)]
pub enum RuleFault {
    /// Its expression gives nothing.
    Eval { kind: FaultKind },
    /// Two elements have these labels once the rule has set its own, the least such.
    SameAfterRule { labels: Labels },
    /// It has more series, or more pending and firing alerts, than the limit of its group. (Prometheus:
    /// Recording rules, Limiting alerts and series.)
    LimitExceeded { limit: u32, have: u64 },
}

/// Why a rule comes to nothing, and where.
#[derive(Debug, Drop)]
pub struct RuleFailure {
    /// The byte at which the part of the expression begins that has the fault; 0 where the rule has
    /// it.
    pub place: usize,
    /// The fault.
    pub kind: RuleFault,
}
