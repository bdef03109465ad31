// The samples that a body offers.
ghost use Rattle.std.specs.Prelude.{◌≡◌, IfOk};
ghost use Rattle.pr_manager.specs.spec_world.Scrapes.{offer_by, offer_of, sample_time};

use crate::scrape::made::ScrapedLabels;
use pr_ast::num::{Num, Point};
use pr_head::history::Entry;
use pr_labels::Labels;
use pr_manager::expo::Line;
use pr_manager::world::Offer;
use pr_time::Ms;
use std::alloc::{AllocError, Global};

// A time of its own, where it is not negative and not above the scrape's.
fn own_time(now: Ms, time: i64) -> Option<Ms>
    ensures { result ≡ sample_time now (Some time) }
{
    if time < 0 || time as u64 > now.get() {
        return None;
    }
    Ms::new(time as u64)
}

// The time of a sample: the scrape's, or its own.
fn sample_time(now: Ms, time: Option<i64>) -> Option<Ms>
    ensures { result ≡ sample_time now time }
{
    match time {
        Some(own) => own_time(now, own),
        None => Some(now),
    }
}

fn offer(labels: Labels, is_timed: bool, time: Ms, value: Num) -> Offer
    ensures { Some result ≡ offer_by labels is_timed (Some time) (Some value) }
{
    let entry = Entry {
        labels,
        time,
        point: Point::Value(value),
    };
    Offer { entry, is_timed }
}

/// The offer that the next sample makes under the target; none where its time is not taken or its
/// value is too wide.
pub(crate) fn offer_of(
    alloc: Global,
    made: &mut ScrapedLabels,
    now: Ms,
    line: &Line,
) -> Result<Option<Offer>, AllocError>
    ensures offer { IfOk result (λ o. o ≡ offer_of made.old now line.now) }
    ensures stays { made.new ≡ made.old }
{
    match (sample_time(now, line.time), line.value) {
        (Some(time), Some(value)) => {
            let labels = made.next_labels(alloc, &line.labels)?;
            Ok(Some(offer(labels, line.time.is_some(), time, value)))
        }
        _ => Ok(None),
    }
}
