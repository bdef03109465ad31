// Under which numbers the windows of older range selectors go on.
ghost use Rattle.std.specs.Prelude.{◌≡◌, position};
ghost use Rattle.pr_range.specs.private.Carried.{IsOnce};
ghost use Rattle.pr_slide.specs.private.Carried.{names, number_from};

// The first of some range selectors that goes on from an older one.
fn first_from(from: &[Option<usize>], older: usize) -> Option<usize>
    ensures { result ≡ position (names older) from.now }
{
    from.iter().position(|choice| *choice == Some(older))
}

/// The number of the range selector that goes on from an older one. Where no older one is named
/// twice, the search may begin anywhere: it begins where that number mostly is, and then goes on
/// among those before.
pub(crate) fn number_near(from: &[Option<usize>], near: usize, older: usize) -> Option<usize>
    ensures { IsOnce from.now → result ≡ number_from older from.now }
{
    let (before, behind) = from.split_at(near.min(from.len()));
    match first_from(behind, older) {
        Some(place) => Some(before.len() + place),
        None => first_from(before, older),
    }
}
