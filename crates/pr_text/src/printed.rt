// The printed lines of answers.
#![tactic(auto, using(pr_words::proofs::Fronts::front_on, pr_words::proofs::Fronts::front_after))]

ghost use Rattle.std.specs.Prelude.{◌≡◌, ◌++◌, OnOk, OnErr, codes, flat_map, length, take};
ghost use Rattle.spec_world.specs.pr_num.Shown.{shown};
ghost use Rattle.pr_words.specs.Quoted.{quoted_text};
ghost use Rattle.spec_world.specs.pr_labels.SeriesText.{series_text};
ghost use Rattle.spec_world.specs.pr_expo.Words.{expo_word};
ghost use Rattle.pr_text.specs.Answers.{dropped_conflict, dropped_out_of_order, backwards_last, scraped_added, bad_scrape_line, not_later_last, reloaded_groups};
ghost use Rattle.pr_text.specs.Printed.{opened_text, out_of_order_text, conflict_text, stale_text, scraped_text, bad_scrape_text, failed_text, gone_text, item_text, vector_text, backwards_text, scalar_text, no_group_text, not_later_text, reloaded_text, missing_text, too_large_text, refused_text, restarted_text, query_fault_text, query_refused_text, shown_report, bad_line_text};

use crate::evaluated::{push_alerts, push_evaluated};
use crate::faults::push_fault_kind;
use crate::values::{push_place, push_point, push_value};
use pr_words::strings::write_string;
use pr_words::{push_number, whole_or_none};
use spec_world::Report;
use spec_world::expo::expo_line::{ExpoKind, expo_word};
use spec_world::labels::{Item, Labels};
use spec_world::meaning::FaultKind;
use spec_world::num::{Num, Point};
use spec_world::parse::{QueryKind, push_query_kind};
use spec_world::rulefile::fields::{ProblemKind, push_problem_kind};
use spec_world::time::Ms;
use std::alloc::AllocError;

#[tactic(auto, unfolding(crate::specs::Answers::dropped_conflict))]
fn push_dropped_conflict(text: &mut Vec<u8>) -> Result<(), AllocError>
    ensures ok { OnOk result (text.new.items ≡ text.old.items ++ dropped_conflict) }
    ensures front { take (length text.old.items) text.new.items ≡ text.old.items }
{
    text.extend_from_slice(b"dropped Conflict ")
}

#[tactic(auto, unfolding(crate::specs::Answers::dropped_out_of_order))]
fn push_dropped_out_of_order(text: &mut Vec<u8>) -> Result<(), AllocError>
    ensures ok { OnOk result (text.new.items ≡ text.old.items ++ dropped_out_of_order) }
    ensures front { take (length text.old.items) text.new.items ≡ text.old.items }
{
    text.extend_from_slice(b"dropped OutOfOrder ")
}

#[tactic(auto, unfolding(crate::specs::Answers::backwards_last))]
fn push_backwards_last(text: &mut Vec<u8>) -> Result<(), AllocError>
    ensures ok { OnOk result (text.new.items ≡ text.old.items ++ backwards_last) }
    ensures front { take (length text.old.items) text.new.items ≡ text.old.items }
{
    text.extend_from_slice(b"backwards last ")
}

#[tactic(auto, unfolding(crate::specs::Answers::scraped_added))]
fn push_scraped_added(text: &mut Vec<u8>) -> Result<(), AllocError>
    ensures ok { OnOk result (text.new.items ≡ text.old.items ++ scraped_added) }
    ensures front { take (length text.old.items) text.new.items ≡ text.old.items }
{
    text.extend_from_slice(b"scraped added ")
}

#[tactic(auto, unfolding(crate::specs::Answers::bad_scrape_line))]
fn push_bad_scrape_line(text: &mut Vec<u8>) -> Result<(), AllocError>
    ensures ok { OnOk result (text.new.items ≡ text.old.items ++ bad_scrape_line) }
    ensures front { take (length text.old.items) text.new.items ≡ text.old.items }
{
    text.extend_from_slice(b"bad scrape line ")
}

#[tactic(auto, unfolding(crate::specs::Answers::not_later_last))]
fn push_not_later_last(text: &mut Vec<u8>) -> Result<(), AllocError>
    ensures ok { OnOk result (text.new.items ≡ text.old.items ++ not_later_last) }
    ensures front { take (length text.old.items) text.new.items ≡ text.old.items }
{
    text.extend_from_slice(b"not later last ")
}

#[tactic(auto, unfolding(crate::specs::Answers::reloaded_groups))]
fn push_reloaded_groups(text: &mut Vec<u8>) -> Result<(), AllocError>
    ensures ok { OnOk result (text.new.items ≡ text.old.items ++ reloaded_groups) }
    ensures front { take (length text.old.items) text.new.items ≡ text.old.items }
{
    text.extend_from_slice(b"reloaded groups ")
}

/// Appends the line that a run begins with.
pub(crate) fn push_opened(text: &mut Vec<u8>, rows: u64) -> Result<(), AllocError>
    ensures ok { OnOk result (text.new.items ≡ text.old.items ++ opened_text rows) }
    ensures front { take (length text.old.items) text.new.items ≡ text.old.items }
{
    text.extend_from_slice(b"opened ")?;
    push_number(text, rows)?;
    text.extend_from_slice(b"\n")
}

fn push_out_of_order(text: &mut Vec<u8>, last: Ms) -> Result<(), AllocError>
    ensures ok { OnOk result (text.new.items ≡ text.old.items ++ out_of_order_text last) }
    ensures front { take (length text.old.items) text.new.items ≡ text.old.items }
{
    push_dropped_out_of_order(text)?;
    push_number(text, last.get())?;
    text.extend_from_slice(b"\n")
}

fn push_conflict(text: &mut Vec<u8>, kept: Point) -> Result<(), AllocError>
    ensures ok { OnOk result (text.new.items ≡ text.old.items ++ conflict_text kept) }
    ensures front { take (length text.old.items) text.new.items ≡ text.old.items }
{
    push_dropped_conflict(text)?;
    push_point(text, kept)?;
    text.extend_from_slice(b"\n")
}

fn push_stale(text: &mut Vec<u8>, stale: u64) -> Result<(), AllocError>
    ensures ok { OnOk result (text.new.items ≡ text.old.items ++ stale_text stale) }
    ensures front { take (length text.old.items) text.new.items ≡ text.old.items }
{
    text.extend_from_slice(b" stale ")?;
    push_number(text, stale)?;
    text.extend_from_slice(b"\n")
}

fn push_scraped(text: &mut Vec<u8>, added: u64, dropped: u64, stale: u64) -> Result<(), AllocError>
    ensures ok { OnOk result (text.new.items ≡ text.old.items ++ scraped_text added dropped stale) }
    ensures front { take (length text.old.items) text.new.items ≡ text.old.items }
{
    push_scraped_added(text)?;
    push_number(text, added)?;
    text.extend_from_slice(b" dropped ")?;
    push_number(text, dropped)?;
    push_stale(text, stale)
}

fn push_bad_scrape(
    text: &mut Vec<u8>,
    line: u32,
    kind: ExpoKind,
    stale: u64,
) -> Result<(), AllocError>
    ensures ok { OnOk result (text.new.items ≡ text.old.items ++ bad_scrape_text line kind stale) }
    ensures front { take (length text.old.items) text.new.items ≡ text.old.items }
{
    push_bad_scrape_line(text)?;
    push_number(text, u64::from(line))?;
    text.extend_from_slice(b" ")?;
    text.extend_from_slice(expo_word(kind).as_bytes())?;
    push_stale(text, stale)
}

fn push_failed(text: &mut Vec<u8>, stale: u64) -> Result<(), AllocError>
    ensures ok { OnOk result (text.new.items ≡ text.old.items ++ failed_text stale) }
    ensures front { take (length text.old.items) text.new.items ≡ text.old.items }
{
    text.extend_from_slice(b"failed")?;
    push_stale(text, stale)
}

fn push_gone(text: &mut Vec<u8>, stale: u64) -> Result<(), AllocError>
    ensures ok { OnOk result (text.new.items ≡ text.old.items ++ gone_text stale) }
    ensures front { take (length text.old.items) text.new.items ≡ text.old.items }
{
    text.extend_from_slice(b"gone")?;
    push_stale(text, stale)
}

// What stands before the value of an element.
fn push_labels(text: &mut Vec<u8>, labels: &Labels) -> Result<(), AllocError>
    ensures ok { OnOk result (text.new.items ≡ text.old.items ++ (codes "value " ++ series_text labels.now ++ codes " ")) }
    ensures front { take (length text.old.items) text.new.items ≡ text.old.items }
{
    text.extend_from_slice(b"value ")?;
    labels.write(text)?;
    text.extend_from_slice(b" ")
}

fn push_item(text: &mut Vec<u8>, item: &Item<Num>) -> Result<(), AllocError>
    ensures ok { OnOk result (text.new.items ≡ text.old.items ++ item_text item.now) }
    ensures front { take (length text.old.items) text.new.items ≡ text.old.items }
{
    push_labels(text, &item.labels)?;
    push_value(text, item.value)?;
    text.extend_from_slice(b"\n")
}

fn push_items(text: &mut Vec<u8>, items: &[Item<Num>]) -> Result<(), AllocError>
    ensures ok { OnOk result (text.new.items ≡ text.old.items ++ flat_map item_text items.now) }
    ensures front { take (length text.old.items) text.new.items ≡ text.old.items }
{
    for item in items {
        push_item(text, item)?;
    }
    Ok(())
}

fn push_vector(text: &mut Vec<u8>, items: &[Item<Num>]) -> Result<(), AllocError>
    ensures ok { OnOk result (text.new.items ≡ text.old.items ++ vector_text items.now) }
    ensures front { take (length text.old.items) text.new.items ≡ text.old.items }
{
    text.extend_from_slice(b"vector ")?;
    push_number(text, items.len() as u64)?;
    text.extend_from_slice(b"\n")?;
    push_items(text, items)
}

fn push_backwards(text: &mut Vec<u8>, last: Ms, given: Ms) -> Result<(), AllocError>
    ensures ok { OnOk result (text.new.items ≡ text.old.items ++ backwards_text last given) }
    ensures front { take (length text.old.items) text.new.items ≡ text.old.items }
{
    push_backwards_last(text)?;
    push_number(text, last.get())?;
    text.extend_from_slice(b" given ")?;
    push_number(text, given.get())?;
    text.extend_from_slice(b"\n")
}

fn push_scalar(text: &mut Vec<u8>, value: Num) -> Result<(), AllocError>
    ensures ok { OnOk result (text.new.items ≡ text.old.items ++ scalar_text value) }
    ensures front { take (length text.old.items) text.new.items ≡ text.old.items }
{
    text.extend_from_slice(b"scalar ")?;
    push_value(text, value)?;
    text.extend_from_slice(b"\n")
}

/// Appends the line that tells of a fault of an expression. Want of memory alone is an error, and
/// then what stood there stays, maybe with a part of the line behind.
pub fn push_query_fault(
    text: &mut Vec<u8>,
    place: usize,
    kind: &FaultKind,
) -> Result<(), AllocError>
    ensures ok { OnOk result (text.new.items ≡ text.old.items ++ query_fault_text place kind.now) }
    ensures front { take (length text.old.items) text.new.items ≡ text.old.items }
{
    text.extend_from_slice(b"fault ")?;
    push_fault_kind(text, kind)?;
    push_place(text, place)
}

fn push_query_refused(text: &mut Vec<u8>, place: usize, kind: QueryKind) -> Result<(), AllocError>
    ensures ok { OnOk result (text.new.items ≡ text.old.items ++ query_refused_text place kind) }
    ensures front { take (length text.old.items) text.new.items ≡ text.old.items }
{
    text.extend_from_slice(b"refused ")?;
    push_query_kind(text, kind)?;
    push_place(text, place)
}

fn push_no_group(text: &mut Vec<u8>, file: &str, group: &str) -> Result<(), AllocError>
    ensures ok { OnOk result (text.new.items ≡ text.old.items ++ no_group_text file.now group.now) }
    ensures front { take (length text.old.items) text.new.items ≡ text.old.items }
{
    text.extend_from_slice(b"no group ")?;
    write_string(file.as_bytes(), text)?;
    text.extend_from_slice(b" ")?;
    write_string(group.as_bytes(), text)?;
    text.extend_from_slice(b"\n")
}

fn push_not_later(text: &mut Vec<u8>, last: Ms) -> Result<(), AllocError>
    ensures ok { OnOk result (text.new.items ≡ text.old.items ++ not_later_text last) }
    ensures front { take (length text.old.items) text.new.items ≡ text.old.items }
{
    push_not_later_last(text)?;
    push_number(text, last.get())?;
    text.extend_from_slice(b"\n")
}

fn push_reloaded(text: &mut Vec<u8>, groups: u64, rules: u64, stale: u64) -> Result<(), AllocError>
    ensures ok { OnOk result (text.new.items ≡ text.old.items ++ reloaded_text groups rules stale) }
    ensures front { take (length text.old.items) text.new.items ≡ text.old.items }
{
    push_reloaded_groups(text)?;
    push_number(text, groups)?;
    text.extend_from_slice(b" rules ")?;
    push_number(text, rules)?;
    push_stale(text, stale)
}

fn push_missing(text: &mut Vec<u8>, file: &str) -> Result<(), AllocError>
    ensures ok { OnOk result (text.new.items ≡ text.old.items ++ missing_text file.now) }
    ensures front { take (length text.old.items) text.new.items ≡ text.old.items }
{
    text.extend_from_slice(b"missing ")?;
    text.extend_from_slice(file.as_bytes())?;
    text.extend_from_slice(b"\n")
}

fn push_too_large(text: &mut Vec<u8>, file: &str) -> Result<(), AllocError>
    ensures ok { OnOk result (text.new.items ≡ text.old.items ++ too_large_text file.now) }
    ensures front { take (length text.old.items) text.new.items ≡ text.old.items }
{
    text.extend_from_slice(b"too large ")?;
    text.extend_from_slice(file.as_bytes())?;
    text.extend_from_slice(b"\n")
}

fn push_refused(
    text: &mut Vec<u8>,
    name: &str,
    line: u32,
    kind: &ProblemKind,
) -> Result<(), AllocError>
    ensures ok { OnOk result (text.new.items ≡ text.old.items ++ refused_text name.now line kind.now) }
    ensures front { take (length text.old.items) text.new.items ≡ text.old.items }
{
    text.extend_from_slice(b"refused ")?;
    text.extend_from_slice(name.as_bytes())?;
    text.extend_from_slice(b" line ")?;
    push_number(text, u64::from(line))?;
    text.extend_from_slice(b" ")?;
    push_problem_kind(text, kind)?;
    text.extend_from_slice(b"\n")
}

fn push_restarted(text: &mut Vec<u8>, rows: u64) -> Result<(), AllocError>
    ensures ok { OnOk result (text.new.items ≡ text.old.items ++ restarted_text rows) }
    ensures front { take (length text.old.items) text.new.items ≡ text.old.items }
{
    text.extend_from_slice(b"restarted ")?;
    push_number(text, rows)?;
    text.extend_from_slice(b"\n")
}

// The lines of a report, without memory a part of them.
#[tactic(auto, unfolding(crate::specs::Printed::shown_report))]
fn push_shown(text: &mut Vec<u8>, report: &Report) -> Result<(), AllocError>
    ensures ok { OnOk result (text.new.items ≡ text.old.items ++ shown_report report.now) }
    ensures front { take (length text.old.items) text.new.items ≡ text.old.items }
{
    match report {
        Report::Opened { rows } => push_opened(text, *rows),
        Report::Added => text.extend_from_slice(b"added\n"),
        Report::Same => text.extend_from_slice(b"same\n"),
        Report::OutOfOrder { last } => push_out_of_order(text, *last),
        Report::Conflict { kept } => push_conflict(text, *kept),
        Report::Scraped {
            added,
            dropped,
            stale,
        } => push_scraped(text, *added, *dropped, *stale),
        Report::BadScrape { line, kind, stale } => push_bad_scrape(text, *line, *kind, *stale),
        Report::Failed { stale } => push_failed(text, *stale),
        Report::Gone { stale } => push_gone(text, *stale),
        Report::Evaluated { group } => push_evaluated(text, group),
        Report::NoGroup { file, group } => push_no_group(text, file.as_str(), group.as_str()),
        Report::NotLater { last } => push_not_later(text, *last),
        Report::Reloaded {
            groups,
            rules,
            stale,
        } => push_reloaded(text, *groups, *rules, *stale),
        Report::Missing { file } => push_missing(text, file.as_str()),
        Report::TooLarge { file } => push_too_large(text, file.as_str()),
        Report::Refused { name, line, kind } => push_refused(text, name.as_str(), *line, kind),
        Report::Restarted { rows } => push_restarted(text, *rows),
        Report::Alerts { list } => push_alerts(text, list.as_slice()),
        Report::Scalar { value } => push_scalar(text, *value),
        Report::Vector { items } => push_vector(text, items.as_slice()),
        Report::QueryFault { place, kind } => push_query_fault(text, *place, kind),
        Report::QueryRefused { place, kind } => push_query_refused(text, *place, *kind),
        Report::Backwards { last, given } => push_backwards(text, *last, *given),
    }
}

fn push_bad(text: &mut Vec<u8>, n: u64) -> Result<(), AllocError>
    ensures ok { OnOk result (text.new.items ≡ text.old.items ++ bad_line_text n) }
    ensures front { take (length text.old.items) text.new.items ≡ text.old.items }
{
    text.extend_from_slice(b"bad line ")?;
    push_number(text, n)?;
    text.extend_from_slice(b"\n")
}

/// Appends the lines of a report. Want of memory alone is an error, and then nothing is appended.
pub fn push_report(text: &mut Vec<u8>, report: &Report) -> Result<(), AllocError>
    ensures ok { OnOk result (text.new.items ≡ text.old.items ++ shown_report report.now) }
    ensures err { OnErr result (text.new.items ≡ text.old.items) }
{
    let before = text.len();
    let written = push_shown(text, report);
    whole_or_none(text, before, written)
}

/// Appends the line that says that the line of this number spells no order. Want of memory alone is
/// an error, and then nothing is appended.
pub fn push_bad_line(text: &mut Vec<u8>, n: u64) -> Result<(), AllocError>
    ensures ok { OnOk result (text.new.items ≡ text.old.items ++ bad_line_text n) }
    ensures err { OnErr result (text.new.items ≡ text.old.items) }
{
    let before = text.len();
    let written = push_bad(text, n);
    whole_or_none(text, before, written)
}
