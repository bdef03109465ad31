// The samples of a body are put, and counted.
ghost use Rattle.std.specs.Prelude.{◌≡◌, [], ◌∷◌, ◌++◌, ◌+◌, ◌<◌, ◌≤◌, ◌^◌, ◌&&◌, not, cond, List, OnOk, OnErr, IfOk, is_none};
ghost use Rattle.std.specs.List.{cons_option};
ghost use Rattle.pr_labels.specs.declared.pair.Pair.{Pair};
ghost use Rattle.pr_head.specs.spec_history.declared.entry.Entry.{Entry};
ghost use Rattle.pr_head.specs.private.Holds.{Holds};
ghost use Rattle.pr_manager.specs.spec_world.Scrapes.{dropped_count, offered_entries, is_shown, kept_sets, offers, refused_count};
ghost use Rattle.pr_head.specs.private.Intake.{HasTakenFront, Puts};
ghost use Rattle.pr_engine.specs.private.Tallying.{Tallies};

use crate::scrape::made::ScrapedLabels;
use crate::scrape::offered::offer_of;
use pr_head::Head;
use pr_head::history::{Append, Entry};
use pr_head::intake::{is_shown, put};
use pr_labels::Labels;
use pr_manager::expo::Line;
use pr_manager::world::Offer;
use pr_time::Ms;
use std::alloc::{AllocError, Global};

/// What is counted while the samples of a body are put.
#[derive(Drop)]
pub(crate) struct Tally {
    /// How many were dropped.
    pub(crate) dropped: u64,
    /// The series that are to be tracked, in the order of the samples.
    pub(crate) kept: Vec<Labels>,
}

// Counts a sample by its answer.
fn note(
    tally: &mut Tally,
    labels: Labels,
    is_timed: bool,
    answer: &Append,
) -> Result<(), AllocError>
    requires { tally.old.dropped < 2 ^ 63 }
    ensures dropped { OnOk result (tally.new.dropped ≡ tally.old.dropped + (cond (not (is_shown answer.now)) 1 0)) }
    ensures kept { OnOk result (tally.new.kept.items ≡ tally.old.kept.items ++ (cond (not is_timed && is_shown answer.now) (labels ∷ []) [])) }
{
    if !is_shown(answer) {
        tally.dropped += 1;
        return Ok(());
    }
    if !is_timed {
        tally.kept.push(labels)?;
    }
    Ok(())
}

// Puts a sample that is offered, and counts it.
fn put_offer(
    alloc: Global,
    head: &mut Head,
    rows: &mut Vec<Entry>,
    tally: &mut Tally,
    offer: Offer,
) -> Result<(), AllocError>
    requires { tally.old.dropped < 2 ^ 63 }
    ensures puts { (history : List Entry) → Holds head.old history → OnOk result (Puts head.old head.new rows.old.items rows.new.items history (offer.entry ∷ [])) }
    ensures dropped { (history : List Entry) → Holds head.old history → OnOk result (tally.new.dropped ≡ tally.old.dropped + refused_count history (offer.entry ∷ [])) }
    ensures kept { (history : List Entry) → Holds head.old history → OnOk result (tally.new.kept.items ≡ tally.old.kept.items ++ (kept_sets history (offer ∷ []))) }
    ensures few { OnOk result (tally.new.dropped ≤ tally.old.dropped + 1) }
    ensures front { (history : List Entry) → Holds head.old history → OnErr result (HasTakenFront head.old head.new history (offer.entry ∷ [])) }
{
    let Offer { entry, is_timed } = offer;
    let labels = entry.labels.copy(alloc)?;
    let answer = put(head, rows, entry)?;
    note(tally, labels, is_timed, &answer)
}

// Puts a sample, unless it is not offered, and counts it.
fn put_some(
    alloc: Global,
    head: &mut Head,
    rows: &mut Vec<Entry>,
    tally: &mut Tally,
    offer: Option<Offer>,
) -> Result<(), AllocError>
    requires { tally.old.dropped < 2 ^ 63 }
    ensures puts { (history : List Entry) → Holds head.old history → OnOk result (Puts head.old head.new rows.old.items rows.new.items history (offered_entries (cons_option offer []))) }
    ensures dropped { (history : List Entry) → Holds head.old history → OnOk result (tally.new.dropped ≡ tally.old.dropped + (cond (is_none offer) 1 0 + refused_count history (offered_entries (cons_option offer [])))) }
    ensures kept { (history : List Entry) → Holds head.old history → OnOk result (tally.new.kept.items ≡ tally.old.kept.items ++ (kept_sets history (cons_option offer []))) }
    ensures few { OnOk result (tally.new.dropped ≤ tally.old.dropped + 1) }
    ensures front { (history : List Entry) → Holds head.old history → OnErr result (HasTakenFront head.old head.new history (offered_entries (cons_option offer []))) }
{
    match offer {
        Some(offered) => put_offer(alloc, head, rows, tally, offered),
        None => {
            tally.dropped += 1;
            Ok(())
        }
    }
}

// Puts the sample of a line, and counts it.
fn put_line(
    alloc: Global,
    head: &mut Head,
    rows: &mut Vec<Entry>,
    tally: &mut Tally,
    made: &mut ScrapedLabels,
    now: Ms,
    line: &Line,
) -> Result<(), AllocError>
    requires { tally.old.dropped < 2 ^ 63 }
    ensures puts { (target : List Pair) (history : List Entry) → made.old ≡ target → Holds head.old history → OnOk result (Puts head.old head.new rows.old.items rows.new.items history (offered_entries (offers target now (line.now ∷ [])))) }
    ensures tallies { (target : List Pair) (history : List Entry) → made.old ≡ target → Holds head.old history → OnOk result (Tallies tally.old tally.new target now (line.now ∷ []) history) }
    ensures few { OnOk result (tally.new.dropped ≤ tally.old.dropped + 1) }
    ensures front { (target : List Pair) (history : List Entry) → made.old ≡ target → Holds head.old history → OnErr result (HasTakenFront head.old head.new history (offered_entries (offers target now (line.now ∷ [])))) }
    ensures stays { made.new ≡ made.old }
{
    let offer = offer_of(alloc, made, now, line)?;
    put_some(alloc, head, rows, tally, offer)
}

/// Puts the samples of a body in order, and counts them. The labels that were made for the last ones
/// are shared, and those of these are remembered then.
pub(crate) fn put_lines(
    alloc: Global,
    head: &mut Head,
    rows: &mut Vec<Entry>,
    made: &mut ScrapedLabels,
    target: &Labels,
    now: Ms,
    lines: &[Line],
) -> Result<Tally, AllocError>
    ensures puts { (history : List Entry) → Holds head.old history → OnOk result (Puts head.old head.new rows.old.items rows.new.items history (offered_entries (offers target.now now lines.now))) }
    ensures dropped { (history : List Entry) → Holds head.old history → IfOk result (λ t. t.dropped ≡ dropped_count target.now now lines.now history) }
    ensures kept { (history : List Entry) → Holds head.old history → IfOk result (λ t. t.kept.items ≡ kept_sets history (offers target.now now lines.now)) }
    ensures front { (history : List Entry) → Holds head.old history → OnErr result (HasTakenFront head.old head.new history (offered_entries (offers target.now now lines.now))) }
{
    made.begin(alloc, target)?;
    let mut tally = Tally {
        dropped: 0,
        kept: Vec::with_capacity(alloc, lines.len())?,
    };
    for line in lines {
        put_line(alloc, head, rows, &mut tally, made, now, line)?;
    }
    made.end();
    Ok(tally)
}
