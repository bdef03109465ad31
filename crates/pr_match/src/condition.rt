// What a matcher asks of a value, and searchers for it.
ghost use Rattle.std.specs.Prelude.{◌≡◌, true, false, IfOk, OnOk};
ghost use Rattle.pr_match.specs.Matcher.{may_follow, passes};

use crate::fault::MatchError;
use crate::op::MatchOp;
use crate::pattern::{Pattern, Searcher};
use pr_labels::words_crate::Text;
use std::alloc::{AllocError, Global};

/// A condition on a value: the operator of a matcher with its text, which is a pattern where the
/// operator wants one.
#[derive(Drop)]
pub(crate) enum Condition {
    Equal(Text),
    NotEqual(Text),
    Like(Pattern),
    NotLike(Pattern),
}

impl Condition {
    ghost use Rattle.pr_match.specs.private.Conditions.{op_of, text_of, searched_op, searched_text};

    #[tactic(auto, unfolding(crate::specs::Matcher::may_follow))]
    pub(crate) fn build(alloc: Global, op: MatchOp, text: &str) -> Result<Condition, MatchError>
        ensures op { IfOk result (λ c. op_of c ≡ op) }
        ensures text { IfOk result (λ c. text_of c ≡ text.now) }
        ensures good { OnOk result (may_follow op text.now ≡ true) }
        ensures bad { result ≡ Err MatchError.BadPattern → may_follow op text.now ≡ false }
    {
        match op {
            MatchOp::Equal => Ok(Condition::Equal(Text::from_str(alloc, text)?)),
            MatchOp::NotEqual => Ok(Condition::NotEqual(Text::from_str(alloc, text)?)),
            MatchOp::Like => Ok(Condition::Like(Pattern::build(alloc, text)?)),
            MatchOp::NotLike => Ok(Condition::NotLike(Pattern::build(alloc, text)?)),
        }
    }

    /// The same condition, ready to be asked of many values.
    pub(crate) fn searcher(&self, alloc: Global) -> Result<ValueSearcher<'_>, AllocError>
        ensures op { IfOk result (λ s. searched_op s ≡ op_of self.now) }
        ensures text { IfOk result (λ s. searched_text s ≡ text_of self.now) }
    {
        match self {
            Condition::Equal(text) => Ok(ValueSearcher::Equal(text.as_str())),
            Condition::NotEqual(text) => Ok(ValueSearcher::NotEqual(text.as_str())),
            Condition::Like(pattern) => Ok(ValueSearcher::Like(pattern.searcher(alloc)?)),
            Condition::NotLike(pattern) => Ok(ValueSearcher::NotLike(pattern.searcher(alloc)?)),
        }
    }
}

/// A condition on a value, ready to be asked of many values.
#[derive(Drop)]
pub(crate) enum ValueSearcher<'m> {
    Equal(&'m str),
    NotEqual(&'m str),
    Like(Searcher<'m>),
    NotLike(Searcher<'m>),
}

impl<'m> ValueSearcher<'m> {
    ghost use Rattle.pr_match.specs.private.Conditions.{searched_op, searched_text};

    pub(crate) fn passes(&mut self, value: &str) -> bool
        ensures found { result ≡ passes (searched_op self.old) (searched_text self.old) value.now }
        ensures same { self.new ≡ self.old }
    {
        match self {
            ValueSearcher::Equal(text) => value == *text,
            ValueSearcher::NotEqual(text) => value != *text,
            ValueSearcher::Like(searcher) => searcher.matches(value),
            ValueSearcher::NotLike(searcher) => !searcher.matches(value),
        }
    }
}
