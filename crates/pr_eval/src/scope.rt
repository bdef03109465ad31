use pr_ast::time::{Ms, Span};
use pr_range::head::Head;
use spec_meaning::types::Checked;
use std::alloc::Global;

/// What an expression is evaluated over, and when, and whether inside a subquery.
#[derive(Clone, Copy)]
pub(crate) struct Scope<'a> {
    pub(crate) alloc: Global,
    pub(crate) checked: &'a Checked,
    pub(crate) head: &'a Head,
    pub(crate) time: Ms,
    /// The step of subqueries which give none. It is not 0.
    pub(crate) step: Span,
    pub(crate) inside: bool,
}
