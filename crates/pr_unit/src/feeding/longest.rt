// How many places the series of a test have.
ghost use Rattle.std.specs.Prelude.{◌≡◌, ◌*◌, ◌^◌, ◌≤◌, length};
ghost use Rattle.spec_tests.specs.pr_testfile.Points.{total};
ghost use Rattle.spec_tests.specs.pr_testfile.Series.{places};

use spec_tests::testfile::inputs::{InputSeries, Stretch, size};

fn total(stretches: &[Stretch]) -> u128
    ensures value { result ≡ total stretches.now }
    ensures small { result ≤ length stretches.now * 2 ^ 32 }
{
    let mut total: u128 = 0;
    for number in 0..stretches.len() {
        total += u128::from(size(&stretches[number]));
    }
    total
}

/// How many places the longest series has.
#[tactic(auto, unfolding(crate::proofs::Placing::placing))]
pub fn places(series: &[InputSeries]) -> u128
    ensures { result ≡ places series.now }
{
    let mut most: u128 = 0;
    for one in series {
        most = most.max(total(one.values.as_slice()));
    }
    most
}
