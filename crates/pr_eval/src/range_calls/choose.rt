// The series that a selector chooses.
ghost use Rattle.std.specs.Prelude.{◌≡◌, ◌<◌, ◌++◌, ◌∷◌, [], List, map, filter, IfOk, OnOk, length};
ghost use Rattle.std.specs.List.{All, filter_map, list_all};
ghost use Rattle.pr_labels.specs.LabelSet.{pair_of};
ghost use Rattle.pr_labels.specs.Rising.{IsRising};
ghost use Rattle.pr_range.specs.spec_history.declared.entry.Entry.{Entry};
ghost use Rattle.pr_range.specs.spec_history.Series.{chosen};
ghost use Rattle.pr_range.specs.spec_history.private.Laws.{has_values};
ghost use Rattle.pr_range.specs.pr_head.private.Holds.{Holds, arrivals, labels_at};
ghost use Rattle.spec_meaning.specs.pr_types.Selectors.{tests_of};
ghost use Rattle.spec_meaning.specs.Selection.{chosen_by};
ghost use Rattle.pr_eval.specs.private.Equalities.{asked_pair, asked_pairs, is_asked, name_pairs};
ghost use Rattle.pr_eval.specs.private.Choosing.{is_met_by, labels_of_series};

use pr_ast::{MatchSign, MatchText, Selector};
use pr_fn::matching::{Matcher, Selection};
use pr_labels::words_crate::Text;
use pr_labels::{Labels, METRIC_LABEL, Pair};
use pr_range::head::Head;
use std::alloc::{AllocError, Global};

fn pair_of(alloc: Global, name: &str, value: &str) -> Result<Pair, AllocError>
    ensures { IfOk result (λ p. p ≡ pair_of name.now value.now) }
{
    Ok(Pair {
        name: Text::from_str(alloc, name)?,
        value: Text::from_str(alloc, value)?,
    })
}

fn push_name(alloc: Global, name: &Option<Text>, pairs: &mut Vec<Pair>) -> Result<(), AllocError>
    ensures { OnOk result (pairs.new.items ≡ pairs.old.items ++ name_pairs name.now) }
{
    if let Some(name) = name {
        pairs.push(pair_of(alloc, METRIC_LABEL, name.as_str())?)?;
    }
    Ok(())
}

fn push_asked(alloc: Global, matcher: &MatchText, pairs: &mut Vec<Pair>) -> Result<(), AllocError>
    ensures { OnOk result (pairs.new.items ≡ pairs.old.items ++ filter_map asked_pair (matcher.now ∷ [])) }
{
    if matches!(matcher.op, MatchSign::Equal) {
        pairs.push(pair_of(alloc, matcher.label.as_str(), matcher.text.as_str())?)?;
    }
    Ok(())
}

// The pairs that a selector asks for by `=`.
fn asked_pairs(alloc: Global, selector: &Selector) -> Result<Vec<Pair>, AllocError>
    ensures { IfOk result (λ v. v.items ≡ asked_pairs selector.now) }
{
    let mut pairs = Vec::new(alloc);
    push_name(alloc, &selector.name, &mut pairs)?;
    for matcher in selector.matchers.as_slice() {
        push_asked(alloc, matcher, &mut pairs)?;
    }
    Ok(pairs)
}

/// The labels of a series that is there.
pub fn labels_of_series(head: &Head, series: usize) -> &Labels
    requires { series < length head.now }
    ensures { result.now ≡ labels_of_series head.now series }
{
    head.labels(series).unwrap()
}

fn push_met(
    head: &Head,
    selection: &mut Selection<'_>,
    series: usize,
    met: &mut Vec<usize>,
) -> Result<(), AllocError>
    requires { series < length head.now }
    ensures same { selection.new ≡ selection.old }
    ensures met { OnOk result (met.new.items ≡ met.old.items ++ filter (is_met_by selection.old head.now) (series ∷ [])) }
{
    if selection.matches(labels_of_series(head, series)) {
        met.push(series)?;
    }
    Ok(())
}

// Those series that meet all matchers. Searchers are made once.
fn met(
    alloc: Global,
    head: &Head,
    matchers: &[Matcher],
    numbers: &[usize],
) -> Result<Vec<usize>, AllocError>
    requires { All (λ i. i < length head.now) numbers.now }
    ensures { IfOk result (λ v. v.items ≡ filter (is_met_by matchers.now head.now) numbers.now) }
{
    let mut selection = Selection::of(alloc, matchers)?;
    let mut met = Vec::new(alloc);
    for series in numbers {
        push_met(head, &mut selection, *series, &mut met)?;
    }
    Ok(met)
}

// Whether a selector asks by `=` alone.
fn asks_by_equal(selector: &Selector) -> bool
    ensures { result ≡ list_all is_asked selector.now.matchers }
{
    selector
        .matchers
        .as_slice()
        .iter()
        .all(|matcher| matches!(matcher.op, MatchSign::Equal))
}

// The series that the head finds by what a selector asks for by `=`.
fn asked_series(alloc: Global, head: &Head, selector: &Selector) -> Result<Vec<usize>, AllocError>
    ensures known { IfOk result (λ v. All (λ i. i < length head.now) v.items) }
    ensures rising { IfOk result (λ v. IsRising (map (labels_of_series head.now) v.items)) }
    ensures chosen { (history : List Entry) → Holds head.now history
        → IfOk result (λ v. map (labels_at (arrivals history)) v.items ≡ chosen (has_values (asked_pairs selector.now)) history) }
{
    head.select(&asked_pairs(alloc, selector)?)
}

// The series that a selector chooses, by all of its matchers.
#[tactic(auto, using(crate::proofs::Choosing::known_met, crate::proofs::Choosing::rising_met, crate::proofs::Choosing::chosen_met))]
fn met_series(
    alloc: Global,
    head: &Head,
    selector: &Selector,
    matchers: &[Matcher],
) -> Result<Vec<usize>, AllocError>
    requires { matchers.now ≡ tests_of selector.now }
    ensures known { IfOk result (λ v. All (λ i. i < length head.now) v.items) }
    ensures rising { IfOk result (λ v. IsRising (map (labels_of_series head.now) v.items)) }
    ensures chosen { (history : List Entry) → Holds head.now history → IfOk result (λ v. map (labels_of_series head.now) v.items ≡ chosen_by selector.now history) }
{
    let pairs = asked_pairs(alloc, selector)?;
    let numbers = head.select(&pairs)?;
    let chosen = met(alloc, head, matchers, &numbers)?;
    Ok(chosen)
}

/// The series that a selector chooses, in label order, by its matchers. What it asks for by `=` is
/// found by the head, and where it has other matchers, these are asked of what is found.
#[tactic(auto, using(crate::proofs::Choosing::asked_alone))]
pub fn chosen_series(
    alloc: Global,
    head: &Head,
    selector: &Selector,
    matchers: &[Matcher],
) -> Result<Vec<usize>, AllocError>
    requires { matchers.now ≡ tests_of selector.now }
    ensures known { IfOk result (λ v. All (λ i. i < length head.now) v.items) }
    ensures rising { IfOk result (λ v. IsRising (map (labels_of_series head.now) v.items)) }
    ensures chosen { (history : List Entry) → Holds head.now history → IfOk result (λ v. map (labels_of_series head.now) v.items ≡ chosen_by selector.now history) }
{
    if asks_by_equal(selector) {
        return asked_series(alloc, head, selector);
    }
    met_series(alloc, head, selector, matchers)
}
