// The two calls.
ghost use Rattle.std.specs.Prelude.{◌≡◌, [], ◌∷◌, ◌<◌, ◌^◌, List, None, OnOk, OnErr, IfOk, length};
ghost use Rattle.std.specs.Option.{ForSome, option_copied};
ghost use Rattle.pr_head.specs.spec_history.declared.entry.Entry.{Entry};
ghost use Rattle.pr_head.specs.private.Holds.{Holds};
ghost use Rattle.pr_manager.specs.pr_expo.Families.{exposition_of};
ghost use Rattle.pr_manager.specs.spec_world.Scrapes.{about, failed, gone_of, marker, reported, sample_count_of, scrape_of, scraped, scraped_by, up_of};
ghost use Rattle.pr_head.specs.private.Intake.{HasTaken, HasTakenFront, Puts};

use crate::scrape::known::Known;
use crate::scrape::named::metric_of;
use pr_ast::num::{Num, Point};
use pr_head::Head;
use pr_head::history::Entry;
use pr_head::intake::{marker, put, put_markers};
use pr_labels::Labels;
use pr_manager::expo::{ExpoError, Line};
use pr_manager::world::{BodyFault, Scraped};
use pr_time::Ms;
use pr_words::Items;
use std::alloc::{AllocError, Global};
use std::collections::BTreeSet;
use std::mem;

// A number that is said of a target.
fn reported(labels: Labels, now: Ms, n: u64) -> Entry
    requires { n < 2 ^ 63 }
    ensures { result ≡ reported labels now n }
{
    Entry {
        labels,
        time: now,
        point: Point::Value(Num::whole(n as i64)),
    }
}

// Puts two entries.
fn put_two(
    head: &mut Head,
    rows: &mut Vec<Entry>,
    first: Entry,
    second: Entry,
) -> Result<(), AllocError>
    ensures puts { (history : List Entry) → Holds head.old history → OnOk result (Puts head.old head.new rows.old.items rows.new.items history (first ∷ second ∷ [])) }
    ensures front { (history : List Entry) → Holds head.old history → OnErr result (HasTakenFront head.old head.new history (first ∷ second ∷ [])) }
{
    put(head, rows, first)?;
    put(head, rows, second)?;
    Ok(())
}

// Puts what is said of a target.
fn put_about(
    alloc: Global,
    head: &mut Head,
    rows: &mut Vec<Entry>,
    target: &Labels,
    now: Ms,
    up: u64,
    samples: u64,
) -> Result<(), AllocError>
    requires up { up < 2 ^ 63 }
    requires samples { samples < 2 ^ 63 }
    ensures puts { (history : List Entry) → Holds head.old history → OnOk result (Puts head.old head.new rows.old.items rows.new.items history (about target.now now up samples)) }
    ensures front { (history : List Entry) → Holds head.old history → OnErr result (HasTakenFront head.old head.new history (about target.now now up samples)) }
{
    let first = reported(metric_of(alloc, target, "up")?, now, up);
    let labels = metric_of(alloc, target, "scrape_samples_scraped")?;
    put_two(head, rows, first, reported(labels, now, samples))
}

// Puts markers for what is said of a target.
fn put_ends(
    alloc: Global,
    head: &mut Head,
    rows: &mut Vec<Entry>,
    target: &Labels,
    now: Ms,
) -> Result<(), AllocError>
    ensures puts { (history : List Entry) → Holds head.old history → OnOk result (Puts head.old head.new rows.old.items rows.new.items history (marker now (up_of target.now) ∷ marker now (sample_count_of target.now) ∷ [])) }
    ensures front { (history : List Entry) → Holds head.old history → OnErr result (HasTakenFront head.old head.new history (marker now (up_of target.now) ∷ marker now (sample_count_of target.now) ∷ [])) }
{
    let first = marker(alloc, now, &metric_of(alloc, target, "up")?)?;
    let labels = metric_of(alloc, target, "scrape_samples_scraped")?;
    put_two(head, rows, first, marker(alloc, now, &labels)?)
}

// A scrape whose body has these samples.
fn scrape_lines(
    alloc: Global,
    head: &mut Head,
    known: &mut Known,
    target: &Labels,
    now: Ms,
    lines: &[Line],
) -> Result<Scraped, AllocError>
    ensures taken { (history : List Entry) → Holds head.old history → OnOk result (HasTaken head.old head.new history (scraped target.now now known.old lines.now history).entries) }
    ensures answer { (history : List Entry) → Holds head.old history → IfOk result (λ s. s ≡ (scraped target.now now known.old lines.now history).answer) }
    ensures tracked { (history : List Entry) → Holds head.old history → OnOk result (known.new ≡ (scraped target.now now known.old lines.now history).tracked) }
    ensures front { (history : List Entry) → Holds head.old history → OnErr result (HasTakenFront head.old head.new history (scraped target.now now known.old lines.now history).entries) }
{
    // Room for the samples, and for the two that tell of the scrape.
    let mut rows = Vec::with_capacity(alloc, lines.len().saturating_add(2))?;
    let tally = known.put_lines(alloc, head, &mut rows, target, now, lines)?;
    let added = rows.len();
    known.track(alloc, head, &mut rows, now, tally.kept)?;
    let stale = rows.len().saturating_sub(added);
    let samples = lines.len() as u64;
    put_about(alloc, head, &mut rows, target, now, 1, samples)?;
    Ok(Scraped {
        admitted: Items::new(rows),
        fault: None,
        added: added as u64,
        dropped: tally.dropped,
        stale: stale as u64,
    })
}

// A scrape that failed.
fn fail(
    alloc: Global,
    head: &mut Head,
    known: &mut Known,
    target: &Labels,
    now: Ms,
    fault: Option<BodyFault>,
) -> Result<Scraped, AllocError>
    ensures taken { (history : List Entry) → Holds head.old history → OnOk result (HasTaken head.old head.new history (failed target.now now known.old fault history).entries) }
    ensures answer { (history : List Entry) → Holds head.old history → IfOk result (λ s. s ≡ (failed target.now now known.old fault history).answer) }
    ensures tracked { OnOk result (known.new ≡ []) }
    ensures front { (history : List Entry) → Holds head.old history → OnErr result (HasTakenFront head.old head.new history (failed target.now now known.old fault history).entries) }
{
    let mut rows = Vec::new(alloc);
    put_markers(
        alloc,
        head,
        &mut rows,
        now,
        known.as_slice(),
        &BTreeSet::new(alloc),
    )?;
    let stale = rows.len() as u64;
    put_about(alloc, head, &mut rows, target, now, 0, 0)?;
    known.clear(alloc);
    Ok(Scraped {
        admitted: Items::new(rows),
        fault,
        added: 0,
        dropped: 0,
        stale,
    })
}

// A scrape with a body.
fn scrape_body(
    alloc: Global,
    head: &mut Head,
    known: &mut Known,
    target: &Labels,
    now: Ms,
    bytes: &[u8],
) -> Result<Scraped, AllocError>
    requires { length bytes.now < 2 ^ 32 }
    ensures taken { (history : List Entry) → Holds head.old history → OnOk result (HasTaken head.old head.new history (scraped_by target.now now known.old (exposition_of bytes.now) history).entries) }
    ensures answer { (history : List Entry) → Holds head.old history → IfOk result (λ s. s ≡ (scraped_by target.now now known.old (exposition_of bytes.now) history).answer) }
    ensures tracked { (history : List Entry) → Holds head.old history → OnOk result (known.new ≡ (scraped_by target.now now known.old (exposition_of bytes.now) history).tracked) }
    ensures front { (history : List Entry) → Holds head.old history → OnErr result (HasTakenFront head.old head.new history (scraped_by target.now now known.old (exposition_of bytes.now) history).entries) }
{
    match pr_manager::expo::read(alloc, bytes) {
        Ok(exposition) => {
            let lines = exposition.lines.as_slice();
            scrape_lines(alloc, head, known, target, now, lines)
        }
        Err(ExpoError::Fault { line, kind }) => {
            let fault = BodyFault { line, kind };
            fail(alloc, head, known, target, now, Some(fault))
        }
        Err(ExpoError::Memory) => Err(AllocError),
    }
}

/// Scrapes a target of which this is known, as `scrape` does.
pub(crate) fn scrape_known(
    alloc: Global,
    head: &mut Head,
    known: &mut Known,
    target: &Labels,
    time: Ms,
    body: Option<&[u8]>,
) -> Result<Scraped, AllocError>
    requires { ForSome body (λ b. length b.now < 2 ^ 32) }
    ensures taken { (history : List Entry) → Holds head.old history → OnOk result (HasTaken head.old head.new history (scrape_of target.now time known.old (option_copied body.entry) history).entries) }
    ensures answer { (history : List Entry) → Holds head.old history → IfOk result (λ s. s ≡ (scrape_of target.now time known.old (option_copied body.entry) history).answer) }
    ensures tracked { (history : List Entry) → Holds head.old history → OnOk result (known.new ≡ (scrape_of target.now time known.old (option_copied body.entry) history).tracked) }
    ensures front { (history : List Entry) → Holds head.old history → OnErr result (HasTakenFront head.old head.new history (scrape_of target.now time known.old (option_copied body.entry) history).entries) }
{
    match body {
        Some(bytes) => scrape_body(alloc, head, known, target, time, bytes),
        None => fail(alloc, head, known, target, time, None),
    }
}

/// Scrapes a target at a time: puts the samples of the body that it offered, in order, then a stale
/// marker for each series that was tracked of it and is not offered any more, then the series `up`
/// and `scrape_samples_scraped`. `tracked` is what is tracked of the target, before and after. No
/// body is a scrape that failed. (Prometheus: Jobs and instances; Querying, Basics, Staleness. That
/// these two series alone are written is an own choice, and so is which samples are dropped.)
///
/// A label that the target has too is kept under its name with `exported_` before it. The work
/// grows with the body and with what was tracked, and for each series by the logarithm of what is
/// tracked.
///
/// # Errors
/// Want of memory: then the head has the first ones of the entries, and `tracked` is of no use any
/// more.
pub fn scrape(
    alloc: Global,
    head: &mut Head,
    tracked: &mut Vec<Labels>,
    target: &Labels,
    time: Ms,
    body: Option<&[u8]>,
) -> Result<Scraped, AllocError>
    requires { ForSome body (λ b. length b.now < 2 ^ 32) }
    ensures taken { (history : List Entry) → Holds head.old history → OnOk result (HasTaken head.old head.new history (scrape_of target.now time tracked.old.items (option_copied body.entry) history).entries) }
    ensures answer { (history : List Entry) → Holds head.old history → IfOk result (λ s. s ≡ (scrape_of target.now time tracked.old.items (option_copied body.entry) history).answer) }
    ensures tracked { (history : List Entry) → Holds head.old history → OnOk result (tracked.new.items ≡ (scrape_of target.now time tracked.old.items (option_copied body.entry) history).tracked) }
    ensures front { (history : List Entry) → Holds head.old history → OnErr result (HasTakenFront head.old head.new history (scrape_of target.now time tracked.old.items (option_copied body.entry) history).entries) }
{
    let mut known = Known::new(alloc, mem::replace(tracked, Vec::new(alloc)));
    let scraped = scrape_known(alloc, head, &mut known, target, time, body)?;
    *tracked = known.into_vec();
    Ok(scraped)
}

/// Ends a target: puts a stale marker for each series that is tracked of it, and for `up` and
/// `scrape_samples_scraped`; then nothing is tracked of it. (Prometheus: Querying, Basics,
/// Staleness.)
///
/// # Errors
/// Want of memory: then the head has the first ones of the markers, and `tracked` is of no use any
/// more.
pub fn gone(
    alloc: Global,
    head: &mut Head,
    tracked: &mut Vec<Labels>,
    target: &Labels,
    time: Ms,
) -> Result<Scraped, AllocError>
    ensures taken { (history : List Entry) → Holds head.old history → OnOk result (HasTaken head.old head.new history (gone_of target.now time tracked.old.items history).entries) }
    ensures answer { (history : List Entry) → Holds head.old history → IfOk result (λ s. s ≡ (gone_of target.now time tracked.old.items history).answer) }
    ensures tracked { OnOk result (tracked.new.items ≡ []) }
    ensures front { (history : List Entry) → Holds head.old history → OnErr result (HasTakenFront head.old head.new history (gone_of target.now time tracked.old.items history).entries) }
{
    let mut rows = Vec::new(alloc);
    put_markers(alloc, head, &mut rows, time, tracked, &BTreeSet::new(alloc))?;
    put_ends(alloc, head, &mut rows, target, time)?;
    let marked = rows.len() as u64;
    *tracked = Vec::new(alloc);
    Ok(Scraped {
        admitted: Items::new(rows),
        fault: None,
        added: 0,
        dropped: 0,
        stale: marked,
    })
}
