// Rules and groups of rules, as they are written.
use pr_ast::labels::Pair;
use pr_ast::time::Span;
use pr_ast::words_crate::{Items, Text};
use spec_meaning::types::Checked;

/// A group of rules, which are evaluated together.
#[derive(Drop)]
pub struct GroupDef {
    /// Its name, which no group before it has.
    pub name: Text,
    /// How often it is evaluated, where the group says so.
    pub interval: Option<Span>,
    /// How many series or alerts a rule of it may give; 0 where there is no limit.
    pub limit: u32,
    pub rules: Items<RuleDef>,
}

/// A rule. (Prometheus: Recording rules, Alerting rules.)
#[derive(Drop)]
pub struct RuleDef {
    /// The series that it records, or the alert.
    pub name: Text,
    /// Whether it is an alert.
    pub alert: bool,
    pub expr: Checked,
    /// The labels of its group and its own, of which its own win, in order of name. One without a
    /// value takes the label away.
    pub labels: Items<Pair>,
    /// How long the expression must give a series before its alert fires; 0 in a rule that records.
    pub hold: Span,
    /// How long it keeps firing after the expression no longer gives it the series; 0 in a rule that
    /// records.
    pub keep: Span,
    /// The annotations, in order of name.
    pub notes: Items<Pair>,
}
