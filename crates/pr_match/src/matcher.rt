// Matchers, and searchers for them.
ghost use Rattle.std.specs.Prelude.{◌≡◌, true, false, [], IfOk, OnOk};
ghost use Rattle.pr_match.specs.Matcher.{label_test, may_follow, meets};

use crate::condition::{Condition, ValueSearcher};
use crate::fault::MatchError;
use crate::op::MatchOp;
use pr_labels::Labels;
use pr_labels::words_crate::Text;
use std::alloc::{AllocError, Global};
use std::marker::Model;

/// A test of one label of a label set. Contracts see it as it is written: a name, an operator and a
/// text.
#[derive(Drop)]
pub struct Matcher {
    name: Text,
    condition: Condition,
}

impl Model for Matcher {
    ghost use Rattle.pr_match.specs.Matcher.{LabelTest, label_test};
    ghost use Rattle.pr_match.specs.private.Conditions.{op_of, text_of};

    ghost Value = { LabelTest };

    ghost view = { λ m. label_test m.name (op_of m.condition) (text_of m.condition) };
}

impl Matcher {
    /// The matcher of a name, an operator and a text. Unless memory runs out, it is `BadPattern`
    /// exactly where the operator is `Like` or `NotLike` and the text is no pattern
    /// (`Pattern::build`). Any text may be the name.
    pub fn build(alloc: Global, name: &str, op: MatchOp, text: &str) -> Result<Matcher, MatchError>
        ensures made { IfOk result (λ m. m ≡ label_test name.now op text.now) }
        ensures good { OnOk result (may_follow op text.now ≡ true) }
        ensures bad { result ≡ Err MatchError.BadPattern → may_follow op text.now ≡ false }
    {
        Ok(Matcher {
            condition: Condition::build(alloc, op, text)?,
            name: Text::from_str(alloc, name)?,
        })
    }

    /// The same matcher, ready to be asked of many label sets. It costs much more to make than to
    /// ask.
    pub fn searcher(&self, alloc: Global) -> Result<LabelSearcher<'_>, AllocError>
        ensures { IfOk result (λ s. s ≡ self.now) }
    {
        Ok(LabelSearcher {
            name: self.name.as_str(),
            value: self.condition.searcher(alloc)?,
        })
    }

    /// Whether a label set meets the matcher. A label that it has not is as one with an empty
    /// value. (Prometheus: Querying basics, "Instant vector selectors".) Where many sets are asked
    /// about, use one `searcher`.
    pub fn matches(&self, alloc: Global, labels: &Labels) -> Result<bool, AllocError>
        ensures { IfOk result (λ found. found ≡ meets self.now labels.now) }
    {
        let mut searcher = self.searcher(alloc)?;
        Ok(searcher.matches(labels))
    }

    /// Whether the matcher is met by an empty value, and so by each label set that has not the
    /// label.
    pub fn matches_empty(&self, alloc: Global) -> Result<bool, AllocError>
        ensures { IfOk result (λ found. found ≡ meets self.now []) }
    {
        self.matches(alloc, &Labels::empty(alloc))
    }
}

/// A matcher to be asked of many label sets. Contracts see it as the matcher.
#[derive(Drop)]
pub struct LabelSearcher<'m> {
    name: &'m str,
    value: ValueSearcher<'m>,
}

impl<'m> Model for LabelSearcher<'m> {
    ghost use Rattle.pr_match.specs.Matcher.{LabelTest, label_test};
    ghost use Rattle.pr_match.specs.private.Conditions.{searched_op, searched_text};

    ghost Value = { LabelTest };

    ghost view = { λ s. label_test s.name.now (searched_op s.value) (searched_text s.value) };
}

impl<'m> LabelSearcher<'m> {
    /// Whether a label set meets the matcher.
    #[tactic(auto, unfolding(crate::specs::Matcher::meets))]
    pub fn matches(&mut self, labels: &Labels) -> bool
        ensures found { result ≡ meets self.old labels.now }
        ensures same { self.new ≡ self.old }
    {
        self.value.passes(labels.get(self.name).unwrap_or(""))
    }
}
