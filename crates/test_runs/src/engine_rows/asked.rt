// An engine over rows in memory, and how it answers the lines of a row.
ghost use Rattle.std.specs.Prelude.{◌≡◌, ◌<◌, false};
ghost use Rattle.pr_top.specs.spec_world.private.Laws.{HasDistinctFiles};

use pr_ast::time::Span;
use pr_outside::{KeepError, Keeper, MemKeeper, Row};
use pr_top::engine::{ApplyError, Cause, Engine};
use pr_top::script::{Order, Started, read_order};
use pr_top::slide::SlidingRanges;
use pr_top::text::push_report;
use pr_top::world::{Event, Report};
use pr_words::Steps;
use std::alloc::{AllocError, Global};
use std::marker::Brand;
use std::str;
use std::sync::ledger::{Blank, Ledger};
use test_rows::joined;
use test_rows::store_lines::{row_text, rows_of};

/// An engine, once one is started, with its store.
#[derive(Drop)]
pub(crate) struct Asked {
    running: Option<Running>,
}

#[derive(Drop)]
struct Running {
    keeper: MemKeeper,
    engine: Engine<SlidingRanges>,
}

// The step of subqueries that name none.
fn minute() -> Span
    ensures { result ≡ 60000 }
{
    match Span::new(60_000) {
        Some(step) => step,
        None => unreachable!(),
    }
}

// The numbers of a text, apart by `,`; what is none is passed over.
fn numbers_of(alloc: Global, text: &str) -> Result<Vec<u64>, AllocError> {
    let mut numbers = Vec::new(alloc);
    for part in text.split(',') {
        if let Ok(number) = part.parse::<u64>() {
            numbers.push(number)?;
        }
    }
    Ok(numbers)
}

// The rows of a text, which may be empty.
fn some_rows(alloc: Global, text: &str) -> Result<Vec<Row>, AllocError> {
    if text.is_empty() {
        return Ok(Vec::new(alloc));
    }
    rows_of(alloc, text)
}

// An engine over a store of these rows, whose commits with these numbers are refused.
fn started(alloc: Global, rows: Vec<Row>, refused: Vec<u64>) -> Result<Running, ApplyError> {
    let mut keeper = MemKeeper::new(rows, refused);
    match Engine::start(alloc, &mut keeper, "", minute()) {
        Ok(engine) => Ok(Running { keeper, engine }),
        Err(error) => Err(ApplyError::from(error)),
    }
}

// An event, whose reads are counted for the proofs alone.
fn applied<G: Ledger>(
    running: &mut Running,
    alloc: Global,
    event: Event,
    blank: Blank,
) -> Result<Report, ApplyError>
    requires files { HasDistinctFiles event }
    requires name { blank.name ≡ G.name }
    requires parts { blank.parts ≡ G.parts }
    requires some { 0 < G.parts }
{
    let mut reads: Steps<G> = Steps::new(blank);
    running
        .engine
        .apply(alloc, &mut running.keeper, event, &mut reads)
}

// Whether an event has files.
fn has_files(event: &Event) -> bool
    ensures { result ≡ false → HasDistinctFiles event.now }
{
    match event {
        Event::Reload { .. } => true,
        _ => false,
    }
}

// The event that a line spells; none where it spells another order, or none at all.
fn event_of(alloc: Global, line: &str) -> Result<Option<Event>, AllocError> {
    match read_order(alloc, line.as_bytes())? {
        Started::Whole {
            order: Order::Event { event },
        } => Ok(Some(event)),
        _ => Ok(None),
    }
}

fn cause_text(cause: Cause) -> &'static str {
    match cause {
        Cause::Memory => "memory",
        Cause::StoreFailed => "store failed",
        Cause::BadRow => "bad row",
    }
}

fn error_text(alloc: Global, error: &ApplyError) -> Result<String, AllocError> {
    match error {
        ApplyError::Memory => String::from_str(alloc, cause_text(Cause::Memory)),
        ApplyError::StoreFailed => String::from_str(alloc, cause_text(Cause::StoreFailed)),
        ApplyError::BadRow { index } => format!(in alloc; "bad row {index}"),
        ApplyError::Broken { first } => format!(in alloc; "broken by {}", cause_text(*first)),
    }
}

fn report_text(alloc: Global, report: &Report) -> Result<String, AllocError> {
    let mut text = Vec::new(alloc);
    push_report(&mut text, report)?;
    joined(alloc, str::from_utf8(&text).unwrap_or("no text"))
}

fn told(alloc: Global, answer: Result<Report, ApplyError>) -> Result<String, AllocError> {
    match answer {
        Ok(report) => report_text(alloc, &report),
        Err(error) => error_text(alloc, &error),
    }
}

// A commit of rows that is not the engine's.
fn kept(keeper: &mut MemKeeper, rows: &[Row]) -> &'static str {
    if rows.is_empty() {
        return "no rows";
    }
    match keeper.commit(rows) {
        Ok(()) => "ok",
        Err(KeepError::Failed) => "store failed",
        Err(KeepError::Memory) => "memory",
    }
}

// The texts of rows, with a blank between two.
fn rows_text(alloc: Global, rows: &[Row]) -> Result<String, AllocError> {
    if rows.is_empty() {
        return String::from_str(alloc, "no rows");
    }
    let mut text = String::new(alloc);
    for row in rows {
        if !text.is_empty() {
            text.push(' ')?;
        }
        text.push_str(&row_text(alloc, row)?)?;
    }
    Ok(text)
}

impl Running {
    // An order of a script.
    fn ask(&mut self, alloc: Global, line: &str) -> Result<String, AllocError> {
        match event_of(alloc, line)? {
            Some(event) if !has_files(&event) => {
                let answer = applied::<Brand>(self, alloc, event, Blank::new(1));
                told(alloc, answer)
            }
            _ => String::from_str(alloc, "no such line"),
        }
    }

    // What is answered to a line.
    fn take(&mut self, alloc: Global, line: &str) -> Result<String, AllocError> {
        let (word, rest) = line.split_once(' ').unwrap_or((line, ""));
        match word {
            "keep" => {
                let rows = some_rows(alloc, rest)?;
                String::from_str(alloc, kept(&mut self.keeper, &rows))
            }
            "rows" => rows_text(alloc, self.keeper.kept()),
            _ => self.ask(alloc, line),
        }
    }
}

impl Asked {
    /// No engine yet.
    pub(crate) fn nothing() -> Asked {
        Asked { running: None }
    }

    // An engine, by the numbers of the commits that are refused, and the rows.
    fn start(&mut self, alloc: Global, text: &str) -> Result<String, AllocError> {
        let (refused, rows) = text.split_once(' ').unwrap_or((text, ""));
        match started(alloc, some_rows(alloc, rows)?, numbers_of(alloc, refused)?) {
            Ok(running) => {
                let count = running.engine.rows(&running.keeper);
                self.running = Some(running);
                format!(in alloc; "opened {count}")
            }
            Err(error) => error_text(alloc, &error),
        }
    }

    /// What is answered to a line.
    pub(crate) fn take(&mut self, alloc: Global, line: &str) -> Result<String, AllocError> {
        if let Some(text) = line.strip_prefix("start ") {
            return self.start(alloc, text);
        }
        match &mut self.running {
            _ if line.starts_with("--") => Ok(String::new(alloc)),
            Some(running) => running.take(alloc, line),
            None => String::from_str(alloc, "no engine"),
        }
    }
}
