use pr_ast::time::{Ms, Span};
use pr_ast::{Place, Selector};
use pr_fn::matching::Matcher;
use pr_num::Num;
use pr_range::vectors_crate::RangeFn;

/// A function of a range at its node: the place of the call, and the argument of
/// `quantile_over_time` or `predict_linear`.
#[derive(Clone, Copy, Debug)]
pub struct RangeCall {
    pub place: Place,
    pub func: RangeFn,
    pub arg: Option<Num>,
}

/// A range selector at a time.
#[derive(Drop)]
pub struct RangeAt<'a> {
    /// The place of the range selector.
    pub place: Place,
    pub selector: &'a Selector,
    /// How far the range goes back.
    pub span: Span,
    /// What is built of the matchers of the selector.
    pub matchers: &'a [Matcher],
    /// The time at which it is evaluated, without the offset.
    pub time: Ms,
    /// The number of the range selector in its expression, from 0 on.
    pub node: usize,
    /// Whether it is asked for one of the times of a subquery.
    pub inside: bool,
}
