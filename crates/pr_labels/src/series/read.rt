//! Reading a label set.
ghost use Rattle.std.specs.Prelude.{◌≡◌, List, Some, length, IfOk, MatchResult};
ghost use Rattle.pr_labels.specs.SeriesGrammar.{IsBadPlace, ReadsLabels, Refuses, Misses};
ghost use Rattle.pr_labels.specs.SeriesReading.{series_labels, HasNoLabels};
ghost use Rattle.pr_labels.specs.declared.pair.Pair.{Pair};

use crate::Labels;
use crate::series::series::{TextFault, read_series_pairs};
use std::alloc::Global;

/// The label set of a series text, in which an empty value is no label. A series text is a metric's
/// name, a label list in braces, or both; a list may end with a comma, and blanks, which are spaces
/// and tabs, stand only between parts. Values are strings in any of the three quotes. A name stands
/// once, and `__name__` not after a metric's name (the notation of time series in the Prometheus
/// documentation, "Data model"; values in other quotes, blanks and a last comma as in "Querying
/// basics").
///
/// # Errors
/// The first byte with which no series text can go on. Where a name stands twice this is the byte
/// after the second one, since up to there it could still be the front of another name.
#[tactic(auto, using(crate::proofs::SeriesEnds::refused_has_none, crate::proofs::SeriesEnds::labels_given))]
pub fn read_series_text(alloc: Global, text: &str) -> Result<Labels, TextFault>
    // The labels that are answered are those of the text.
    ensures labels { IfOk result (λ labels. ReadsLabels text.now labels) }
    // The labels of a series text are answered, unless memory runs out.
    ensures only { (labels : List Pair) → ReadsLabels text.now labels → MatchResult result (λ l. l ≡ labels) Misses }
    // Else the fault says the first place at which no series text can go on.
    ensures place { MatchResult result (λ _. IsBadPlace text.now (length text.now)) (Refuses text.now) }
    // The same by the function of the text.
    ensures given { MatchResult result (λ labels. series_labels text.now ≡ Some labels) (HasNoLabels text.now) }
{
    let pairs = read_series_pairs(alloc, text)?;
    Ok(Labels::from_distinct(pairs)?)
}
