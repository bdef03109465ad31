ghost use Rattle.std.specs.Prelude.{◌≡◌};
ghost use Rattle.spec_history.specs.Lookback.{number_in};

use spec_history::num::{Num, Point};
use spec_history::time::Ms;

/// A point with its time.
#[derive(Debug, Drop)]
pub struct Timed {
    /// When the point stands.
    pub time: Ms,
    /// The point.
    pub point: Point,
}

impl Timed {
    /// The same point with the same time.
    pub fn copy(&self) -> Timed
        ensures { result ≡ self.now }
    {
        Timed {
            time: self.time,
            point: self.point,
        }
    }

    /// The value that the point holds; a marker holds none.
    pub fn number(&self) -> Option<Num>
        ensures { result ≡ number_in self.now.point }
    {
        match self.point {
            Point::Value(value) => Some(value),
            Point::Stale => None,
        }
    }
}
