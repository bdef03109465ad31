use pr_ast::time::{Ms, Span};
use spec_rules::tmpl::External;
use std::alloc::Global;

/// An evaluation of a group, as its rules see it.
#[derive(Clone, Copy)]
pub struct Evaluation<'a> {
    /// What its results are allocated by.
    pub alloc: Global,
    /// When it is.
    pub time: Ms,
    /// The step of subqueries that give none. It is not 0.
    pub step: Span,
    /// What templates see as external.
    pub external: &'a External,
    /// How many series or alerts a rule may give; 0 where there is no limit.
    pub limit: u32,
    /// How often the group is evaluated, where it says so.
    pub interval: Option<Span>,
    /// Whether the group waits for its alerts to be restored, so that none is written.
    pub waits: bool,
    /// Whether what becomes of its rules is told. Where it is not, nothing is made for that.
    pub tells: bool,
}
