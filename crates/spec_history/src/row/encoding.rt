// The row of an entry.
ghost use Rattle.std.specs.Prelude.{◌≡◌, IfOk, take};
ghost use Rattle.pr_labels.specs.SeriesText.{series_text};
ghost use Rattle.spec_history.specs.Points.{shown_point};
ghost use Rattle.spec_history.specs.Rows.{encoded};

use crate::row::Row;
use crate::row::points::write_point;
use pr_labels::Labels;
use pr_labels::words_crate::Text;
use pr_num::Point;
use pr_time::Ms;
use std::alloc::{AllocError, Global};
use std::str;

// Most label sets have a printed text of no more bytes.
const LABELS_ROOM: usize = 64;

// The printed text of a label set.
pub(crate) fn labels_text(alloc: Global, labels: &Labels) -> Result<Text, AllocError>
    ensures { IfOk result (λ t. t ≡ series_text labels.now) }
{
    let mut bytes = Vec::with_capacity(alloc, LABELS_ROOM)?;
    labels.write(&mut bytes)?;
    Ok(Text::new(String::from_utf8(bytes).unwrap()))
}

// The printed text of a point.
fn point_text(alloc: Global, point: Point) -> Result<Text, AllocError>
    ensures { IfOk result (λ t. t ≡ shown_point point) }
{
    let mut text = [0; 40];
    let length = write_point(point, &mut text);
    Text::from_str(alloc, str::from_utf8(&text[..length]).unwrap())
}

/// The row of an entry: the printed label set, the time, and the printed value or `stale`.
pub fn encode(alloc: Global, labels: &Labels, time: Ms, point: Point) -> Result<Row, AllocError>
    ensures { IfOk result (λ row. row ≡ encoded (record { labels = labels.now; time = time; point = point })) }
{
    Ok(Row {
        series: labels_text(alloc, labels)?,
        time: time.get(),
        point: point_text(alloc, point)?,
    })
}
