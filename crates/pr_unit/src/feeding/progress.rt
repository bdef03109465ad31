// How far the values of a series have come.
ghost use Rattle.std.specs.Prelude.{◌≡◌, ℕ, ◌+◌, ◌^◌, ◌<◌, slice_get, Some};
ghost use Rattle.spec_tests.specs.pr_testfile.declared.inputs.stretch.Stretch.{Stretch};
ghost use Rattle.spec_tests.specs.pr_testfile.Points.{size};
ghost use Rattle.spec_tests.specs.pr_testfile.Series.{point_at};
ghost use Rattle.pr_unit.specs.private.Feeding.{IsAt};

use pr_num::Point;
use spec_tests::testfile::inputs::{Stretch, point_in, size};

/// So many stretches of a series lie behind, and so many places of the one after them.
#[derive(Clone, Copy, Drop)]
pub struct Progress {
    pub stretch: usize,
    pub within: u64,
}

// Goes on to a stretch that has not ended.
fn settle(stretches: &[Stretch], progress: &mut Progress)
    ensures at { (place : ℕ) → IsAt stretches.now place progress.old → IsAt stretches.now place progress.new }
    ensures within { (s : Stretch) → slice_get stretches.now progress.new.stretch ≡ Some s → progress.new.within < size s }
    ensures small { (s : Stretch) → slice_get stretches.now progress.new.stretch ≡ Some s → progress.new.within < 2 ^ 32 }
{
    'ended: while let Some(stretch) = stretches.get(progress.stretch) {
        let size = size(stretch);
        if progress.within < size {
            return;
        }
        progress.within -= size;
        progress.stretch += 1;
    }
}

/// The point of a series at the next place, where there is one. The place then lies behind.
pub(crate) fn next_point(stretches: &[Stretch], progress: &mut Progress) -> Option<Point>
    ensures point { (place : ℕ) → IsAt stretches.now place progress.old → result ≡ point_at stretches.now place }
    ensures at { (place : ℕ) → IsAt stretches.now place progress.old → IsAt stretches.now (place + 1) progress.new }
{
    settle(stretches, progress);
    match stretches.get(progress.stretch) {
        Some(stretch) => {
            let point = point_in(stretch, progress.within);
            progress.within += 1;
            point
        }
        None => None,
    }
}
