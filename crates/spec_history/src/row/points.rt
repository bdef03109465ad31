// The texts of points.
ghost use Rattle.std.specs.Prelude.{◌≡◌, ◌≤◌, take, drop};
ghost use Rattle.std.specs.Str.{IsAscii};
ghost use Rattle.spec_history.specs.Points.{shown_point, point_of};

use pr_num::{Point, read, write};

/// The point that a text names: `stale`, or the text of a number.
pub fn read_point(text: &[u8]) -> Option<Point>
    ensures { result ≡ point_of text.now }
{
    if text == b"stale".as_slice() {
        return Some(Point::Stale);
    }
    match read(text) {
        Ok(value) => Some(Point::Value(value)),
        Err(_) => None,
    }
}

/// Writes the printed text of a point to the front of the buffer, and says how many bytes it has:
/// the printed value, or `stale`. The bytes after them stay.
#[tactic(auto, using(crate::proofs::PointTexts::stale_ascii))]
pub fn write_point(point: Point, out: &mut [u8; 40]) -> usize
    ensures bound { result ≤ 40 }
    ensures text { take result out.new ≡ shown_point point }
    ensures ascii { IsAscii (shown_point point) }
    ensures rest { drop result out.new ≡ drop result out.old }
{
    match point {
        Point::Value(value) => write(value, out),
        Point::Stale => {
            out[..5].copy_from_slice(b"stale");
            5
        }
    }
}
