// Values read from a head.
ghost use Rattle.std.specs.Prelude.{◌≡◌, ◌+◌, ◌-◌, ◌≤◌, ◌<◌, ◌++◌, ◌∷◌, [], ℕ, List, IfOk, OnOk, slice_get, Some};
ghost use Rattle.pr_head.specs.pr_labels.declared.pair.Pair.{Pair};
ghost use Rattle.pr_head.specs.private.Stored.{Stored, count_of};
ghost use Rattle.pr_range.specs.private.Spots.{samples_between, spots_of};

use crate::finishes::LONGEST;
use pr_head::history::Spot;
use pr_head::words_crate::Steps;
use pr_head::{Head, Timed};
use spec_vectors::num::Num;
use std::alloc::{AllocError, Global};
use std::sync::ledger::Ledger;

// Puts the value of a sample at the end, if it has one.
fn push_spot(spots: &mut Vec<Spot>, sample: &Timed) -> Result<(), AllocError>
    ensures { OnOk result (spots.new.items ≡ spots.old.items ++ spots_of (sample.now ∷ [])) }
{
    let number: Option<Num> = sample.number();
    match number {
        Some(value) => {
            spots.push(Spot {
                time: sample.time,
                value,
            })?;
            Ok(())
        }
        None => Ok(()),
    }
}

// One sample of a series that is held, put at the end if it has a value.
fn push_at<G: Ledger>(
    spots: &mut Vec<Spot>,
    head: &Head,
    series: usize,
    place: u64,
    reads: &mut Steps<G>,
) -> Result<(), AllocError>
    ensures spots { (e : List Pair × Stored) → slice_get head.now series ≡ Some e → e.1.first ≤ place → place < count_of e.1
        → OnOk result (spots.new.items ≡ spots.old.items ++ spots_of (samples_between e.1 place (place + 1))) }
    ensures reads { reads.new ≡ reads.old + 1 }
{
    match head.sample(series, place, reads) {
        Some(sample) => push_spot(spots, &sample),
        None => Ok(()),
    }
}

// Puts the values of the samples of a series, from one place to another, at the end.
fn push_between<G: Ledger>(
    spots: &mut Vec<Spot>,
    head: &Head,
    series: usize,
    from: u64,
    to: u64,
    reads: &mut Steps<G>,
) -> Result<(), AllocError>
    ensures spots { (e : List Pair × Stored) → slice_get head.now series ≡ Some e → e.1.first ≤ from → to ≤ count_of e.1
        → OnOk result (spots.new.items ≡ spots.old.items ++ spots_of (samples_between e.1 from to)) }
    ensures reads { reads.new ≤ reads.old + (to - from) }
{
    for place in from..to {
        push_at(spots, head, series, place, reads)?;
    }
    Ok(())
}

/// The values of the samples of a series, from one place to another. There is room for them before
/// the first is read, but for no more than a range may hold.
pub(crate) fn read_between<G: Ledger>(
    alloc: Global,
    head: &Head,
    series: usize,
    from: u64,
    to: u64,
    reads: &mut Steps<G>,
) -> Result<Vec<Spot>, AllocError>
    ensures spots { (e : List Pair × Stored) → slice_get head.now series ≡ Some e → e.1.first ≤ from → to ≤ count_of e.1
        → IfOk result (λ v. v.items ≡ spots_of (samples_between e.1 from to)) }
    ensures reads { reads.new ≤ reads.old + (to - from) }
{
    let room = to.saturating_sub(from).min(LONGEST as u64);
    let mut spots = Vec::with_capacity(alloc, room as usize)?;
    push_between(&mut spots, head, series, from, to, reads)?;
    Ok(spots)
}
