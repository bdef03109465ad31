// The stores that an engine stands over.
ghost use Rattle.std.specs.Prelude.{◌<◌, IfOk};
ghost use Rattle.test_embed.specs.private.Answers.{AreAnswersOver, HaveDistinctFiles};

use crate::session::answers;
use pr_engine::ApplyError;
use pr_engine::time::Span;
use pr_keep_sql::{DiskFile, SqlKeeper};
use pr_outside::{MemKeeper, Row};
use pr_slide::SlidingRanges;
use spec_world::{Event, Report};
use sqlite::Start;
use std::alloc::Global;
use std::rt::HostRuntime;

/// What is answered to events over rows in memory.
///
/// # Errors
/// `BadRow` where a row is no entry, or late; `Memory`.
pub fn in_memory(
    alloc: Global,
    rows: Vec<Row>,
    step: Span,
    events: Vec<Event>,
) -> Result<Vec<Report>, ApplyError>
    requires step { 0 < step }
    requires files { HaveDistinctFiles events.items }
    ensures { IfOk result (λ reports. AreAnswersOver step rows.items events.items reports.items) }
{
    let mut keeper = MemKeeper::new(rows, Vec::new(alloc));
    answers::<SlidingRanges, MemKeeper>(alloc, &mut keeper, "", step, events)
}

/// What is answered to events over the rows of a file of SQLite, in which the rows of what they add
/// are kept. `start` stands for what the file held: `sqlite::Unknown` in a program.
///
/// # Errors
/// `StoreFailed` where the file is not opened, or a statement is refused; `BadRow`; `Memory`.
pub fn in_file<T: Start>(
    rt: &HostRuntime,
    start: T,
    path: &str,
    step: Span,
    events: Vec<Event>,
) -> Result<Vec<Report>, ApplyError>
    requires step { 0 < step }
    requires files { HaveDistinctFiles events.items }
{
    let mut keeper = SqlKeeper::new(rt.alloc(), DiskFile::new(rt, start));
    answers::<SlidingRanges, _>(rt.alloc(), &mut keeper, path, step, events)
}
