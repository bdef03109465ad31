// What is told of events, and the reports of answers.
ghost use Rattle.std.specs.Prelude.{◌≡◌};
ghost use Rattle.pr_manager.specs.spec_world.Step.{report_of, scrape_report, time_of};
ghost use Rattle.pr_engine.specs.private.Events.{is_restart};

use crate::scrape::Scraped;
use pr_head::history::Append;
use pr_manager::world::{Event, Report};
use pr_time::Ms;

pub(crate) fn time_of(event: &Event) -> Ms
    ensures { result ≡ time_of event.now }
{
    match event {
        Event::Add { time, .. } => *time,
        Event::Query { time, .. } => *time,
        Event::Scrape { time, .. } => *time,
        Event::Fail { time, .. } => *time,
        Event::Gone { time, .. } => *time,
        Event::Eval { time, .. } => *time,
        Event::Reload { time, .. } => *time,
        Event::Restart { time } => *time,
        Event::Alerts { time } => *time,
    }
}

pub(crate) fn is_restart(event: &Event) -> bool
    ensures { result ≡ is_restart event.now }
{
    match event {
        Event::Restart { .. } => true,
        Event::Add { .. }
        | Event::Query { .. }
        | Event::Scrape { .. }
        | Event::Fail { .. }
        | Event::Gone { .. }
        | Event::Eval { .. }
        | Event::Reload { .. }
        | Event::Alerts { .. } => false,
    }
}

pub(crate) fn report_of(answer: Append) -> Report
    ensures { result ≡ report_of answer }
{
    match answer {
        Append::Added => Report::Added,
        Append::Same => Report::Same,
        Append::OutOfOrder { last } => Report::OutOfOrder { last },
        Append::Conflict { kept } => Report::Conflict { kept },
    }
}

pub(crate) fn scrape_report(scraped: &Scraped) -> Report
    ensures { result ≡ scrape_report scraped.now.fault scraped.now }
{
    match scraped.fault {
        Some(fault) => Report::BadScrape {
            line: fault.line,
            kind: fault.kind,
            stale: scraped.stale,
        },
        None => Report::Scraped {
            added: scraped.added,
            dropped: scraped.dropped,
            stale: scraped.stale,
        },
    }
}
