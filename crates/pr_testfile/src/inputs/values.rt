// The texts of the values of a series.
ghost use Rattle.std.specs.Prelude.{◌≡◌, ◌+◌, ◌^◌, ◌<◌, ◌≤◌, ◌∷◌, [], ℕ, List, Option, Some, None, length, IfOk, IfSome, OnOk, MatchOption};
ghost use Rattle.std.specs.List.{slice_split};
ghost use Rattle.std.specs.Option.{option_copied};
ghost use Rattle.pr_words.specs.Bytes.{is_blank};
ghost use Rattle.pr_testfile.specs.Points.{size};
ghost use Rattle.pr_testfile.specs.Values.{stretches_in, is_late, are_too_many, values_of};
ghost use Rattle.pr_testfile.specs.private.Kept.{parts_after, kept_with, answered};

use crate::inputs::item::stretch_of;
use crate::inputs::point::size;
use crate::inputs::stretch::Stretch;
use pr_ast::time::Span;
use pr_words::{Items, field_len};
use std::alloc::{AllocError, Global};

/// What a text of values writes.
#[derive(Debug, Drop)]
pub enum Values {
    /// The stretches of its values. None of them is without a place.
    Stretches { list: Items<Stretch> },
    /// Values that have more than 2^20 places, or one that stands at 2^42 ms or later.
    TooMany,
    /// No values: a part between blanks is no item, or has a value that is too wide.
    Bad,
}

const MOST_PLACES: u64 = 1 << 20;

// What stands before the first blank, and what stands after it.
#[tactic(auto, using(crate::proofs::Parts::first_part))]
fn cut(text: &[u8]) -> (&[u8], Option<&[u8]>)
    ensures parts { slice_split is_blank text.now ≡ result.0.now ∷ parts_after (option_copied result.1) }
    ensures shorter { IfSome result.1 (λ rest. length rest.now < length text.now) }
{
    let (part, rest) = text.split_at(field_len(text));
    match rest.split_first() {
        Some((_blank, after)) => (part, Some(after)),
        None => (part, None),
    }
}

// Puts a stretch behind those that are kept, where it has places, and there are not too many with
// its own.
fn keep(stretch: Stretch, places: u64, kept: &mut Vec<Stretch>) -> Result<(), AllocError>
    ensures { OnOk result (kept.new.items ≡ kept_with kept.old.items places stretch) }
{
    if places > MOST_PLACES || size(&stretch) == 0 {
        return Ok(());
    }
    match stretch {
        Stretch::Steps { first, by, more } => kept.push(Stretch::Steps { first, by, more })?,
        Stretch::Missing { count } => kept.push(Stretch::Missing { count })?,
        Stretch::Marker => kept.push(Stretch::Marker)?,
    }
    Ok(())
}

// Puts what stands between blanks behind what is kept, and answers how many places there are then;
// none where it is no item.
#[tactic(auto, using(crate::proofs::Keeping::one_stretch))]
fn put_item(text: &[u8], places: u64, kept: &mut Vec<Stretch>) -> Result<Option<u64>, AllocError>
    requires { places ≤ 2 ^ 20 + 1 }
    ensures next { IfOk result (λ o. MatchOption o ((more : List (List ℕ)) → stretches_in (text.now ∷ more) ≡ None)
        (λ n. (interval : Option ℕ) (more : List (List ℕ)) → answered interval kept.old.items places (stretches_in (text.now ∷ more)) ≡ answered interval kept.new.items n (stretches_in more))) }
    ensures bounded { IfOk result (λ o. IfSome o (λ n. n ≤ 2 ^ 20 + 1)) }
{
    if text.is_empty() {
        return Ok(Some(places));
    }
    match stretch_of(text) {
        Some(stretch) => {
            let places = (places + size(&stretch)).min(MOST_PLACES + 1);
            keep(stretch, places, kept)?;
            Ok(Some(places))
        }
        None => Ok(None),
    }
}

fn is_late(interval: Option<Span>, places: u64) -> bool
    requires { places ≤ 2 ^ 20 + 1 }
    ensures { result ≡ is_late interval places }
{
    match interval {
        Some(interval) => { places.saturating_sub(1) * interval.get() >= 1 << 42 }
        None => false,
    }
}

#[tactic(auto, unfolding(crate::specs::Values::are_too_many))]
fn are_too_many(interval: Option<Span>, places: u64) -> bool
    requires { places ≤ 2 ^ 20 + 1 }
    ensures { result ≡ are_too_many interval places }
{
    places > MOST_PLACES || is_late(interval, places)
}

// What a text writes whose stretches take so many places.
fn answer(interval: Option<Span>, places: u64, kept: Vec<Stretch>) -> Values
    requires { places ≤ 2 ^ 20 + 1 }
    ensures { result ≡ answered interval kept.items places (Some []) }
{
    if are_too_many(interval, places) {
        Values::TooMany
    } else {
        Values::Stretches {
            list: Items::new(kept),
        }
    }
}

/// The values that a text writes, which stand at the multiples of the interval, where one is told.
/// A text with more values than a series may have takes no more memory than one with as many as it
/// may have. (Prometheus: Unit testing for rules, "series". Both bounds are an own choice.)
#[tactic(auto, unfolding(crate::specs::Values::values_of, crate::specs::Values::stretches_of))]
pub fn read_values(alloc: Global, interval: Option<Span>, text: &[u8]) -> Result<Values, AllocError>
    ensures { IfOk result (λ v. v ≡ values_of interval text.now) }
{
    let mut kept = Vec::new(alloc);
    let mut places = 0;
    let mut left = Some(text);
    'items: while let Some(rest) = left {
        let (item, after) = cut(rest);
        match put_item(item, places, &mut kept)? {
            Some(more) => places = more,
            None => return Ok(Values::Bad),
        }
        left = after;
    }
    Ok(answer(interval, places, kept))
}
