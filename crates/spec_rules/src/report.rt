use crate::fault::RuleFault;
use pr_ast::labels::Labels;
use pr_ast::words_crate::Items;
use pr_num::Num;
use spec_alerts::history::{Append, Entry};
use spec_alerts::{Restored, Sending};

/// A sample that a rule puts into the history.
#[derive(Debug, Drop)]
pub struct Put {
    pub labels: Labels,
    pub value: Num,
    /// What became of it.
    pub append: Append,
}

/// How the evaluation of a rule ended.
#[derive(Debug, Drop)]
pub enum RuleOutcome {
    Fine,
    Fault { place: usize, kind: RuleFault },
}

/// What is told of a rule's evaluation. (Prometheus: Recording rules, Alerting rules.)
#[derive(Debug, Drop)]
pub struct RuleReport {
    pub outcome: RuleOutcome,
    /// The samples that it put, in label order.
    pub samples: Items<Put>,
    /// The series that it wrote last time and now no more, where a marker was added.
    pub stale: Items<Labels>,
    /// The notifications, in label order.
    pub sent: Items<Sending>,
}

/// What is told of a group's evaluation.
#[derive(Debug, Drop)]
pub struct GroupReport {
    /// Its rules, in order.
    pub rules: Items<RuleReport>,
    /// The series of rules that a reload took away, where a marker was added.
    pub leftovers: Items<Labels>,
    /// The alerts whose times were restored.
    pub restored: Items<Restored>,
    /// The samples and markers that were added, in order.
    pub admitted: Items<Entry>,
}
