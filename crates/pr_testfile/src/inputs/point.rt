// The points of a stretch of values.
ghost use Rattle.std.specs.Prelude.{◌≡◌, ◌^◌, ◌≤◌};
ghost use Rattle.pr_testfile.specs.Points.{point_in, size};

use crate::inputs::steps::value_at;
use crate::inputs::stretch::Stretch;
use pr_num::Point;

/// How many places a stretch takes, those that have no value among them.
pub fn size(stretch: &Stretch) -> u64
    ensures value { result ≡ size stretch.now }
    ensures small { result ≤ 2 ^ 32 }
{
    match stretch {
        Stretch::Steps { more, .. } => u64::from(*more) + 1,
        Stretch::Missing { count } => u64::from(*count),
        Stretch::Marker => 1,
    }
}

/// The point at a place of a stretch, from 0, where there is one.
pub fn point_in(stretch: &Stretch, place: u64) -> Option<Point>
    ensures { result ≡ point_in stretch.now place }
{
    match stretch {
        Stretch::Steps { first, by, .. } => match value_at(first, by, u128::from(place)) {
            Ok(value) => Some(Point::Value(value)),
            Err(_wide) => None,
        },
        Stretch::Missing { .. } => None,
        Stretch::Marker => Some(Point::Stale),
    }
}
