// Label sets that meet all of many matchers.
ghost use Rattle.std.specs.Prelude.{◌≡◌, IfOk};
ghost use Rattle.pr_match.specs.Matcher.{meets_all, places_from};

use crate::matcher::{LabelSearcher, Matcher};
use pr_labels::Labels;
use std::alloc::{AllocError, Global};
use std::marker::Model;

/// Matchers that are asked together of many label sets, with one searcher for each. Contracts see
/// the list of the matchers.
#[derive(Drop)]
pub struct Selection<'m> {
    searchers: Vec<LabelSearcher<'m>>,
}

impl<'m> Model for Selection<'m> {
    ghost use Rattle.std.specs.Prelude.{List};
    ghost use Rattle.pr_match.specs.Matcher.{LabelTest};

    ghost Value = { List LabelTest };

    ghost view = { λ s. s.searchers.items };
}

impl<'m> Selection<'m> {
    /// The selection by these matchers.
    pub fn of(alloc: Global, matchers: &'m [Matcher]) -> Result<Selection<'m>, AllocError>
        ensures { IfOk result (λ s. s ≡ matchers.now) }
    {
        let mut searchers = Vec::new(alloc);
        for matcher in matchers {
            searchers.push(matcher.searcher(alloc)?)?;
        }
        Ok(Selection { searchers })
    }

    /// Whether a label set meets all of the matchers.
    #[tactic(auto, unfolding(crate::specs::Matcher::meets_all))]
    pub fn matches(&mut self, labels: &Labels) -> bool
        ensures found { result ≡ meets_all self.old labels.now }
        ensures same { self.new ≡ self.old }
    {
        for at in 0..self.searchers.len() {
            if !self.searchers[at].matches(labels) {
                return false;
            }
        }
        true
    }
}

/// The places of the label sets that meet all of the matchers, rising.
#[tactic(auto, unfolding(crate::specs::Matcher::places_from))]
pub fn select(
    alloc: Global,
    matchers: &[Matcher],
    sets: &[Labels],
) -> Result<Vec<usize>, AllocError>
    ensures { IfOk result (λ places. places.items ≡ places_from 0 matchers.now sets.now) }
{
    let mut selection = Selection::of(alloc, matchers)?;
    let mut places = Vec::new(alloc);
    for (place, labels) in sets.iter().enumerate() {
        if selection.matches(labels) {
            places.push(place)?;
        }
    }
    Ok(places)
}
