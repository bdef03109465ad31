// Where a name stands in a label set.
ghost use Rattle.std.specs.Prelude.{◌≡◌, filter, IfOk, IfErr};
ghost use Rattle.std.specs.Cmp.Lexicographic.{slice_cmp};
ghost use Rattle.std.specs.Ordering.{nat_cmp};
ghost use Rattle.pr_labels.specs.Edits.{is_above, is_below};
ghost use Rattle.pr_labels.specs.LabelSet.{IsLabelSet};
ghost use Rattle.pr_labels.specs.private.Places.{IsGapFor, IsPlaceOf};

use crate::pair::Pair;
use std::cmp::Ordering;

// How the pair's name compares with the name, by bytes.
fn name_order(pair: &Pair, name: &str) -> Ordering
    ensures { result ≡ slice_cmp nat_cmp pair.now.name name.now }
{
    pair.name.as_str().cmp(name)
}

/// The place of the pair with the name, or the place where it would stand: by halving.
pub(super) fn place_of(pairs: &[Pair], name: &str) -> Result<usize, usize>
    requires { IsLabelSet pairs.now }
    ensures found { IfOk result (IsPlaceOf pairs.now name.now) }
    ensures absent { IfErr result (IsGapFor pairs.now name.now) }
{
    pairs.binary_search_by(|pair| name_order(pair, name))
}

/// The pairs with names below the name, and those with names above it.
#[tactic(auto, using(crate::proofs::Places::below_place, crate::proofs::Places::above_place))]
pub(super) fn parted<'a>(pairs: &'a [Pair], name: &str) -> (&'a [Pair], &'a [Pair])
    requires { IsLabelSet pairs.now }
    ensures below { result.0.now ≡ filter (is_below name.now) pairs.now }
    ensures above { result.1.now ≡ filter (is_above name.now) pairs.now }
{
    match place_of(pairs, name) {
        Ok(place) => (&pairs[..place], pairs.split_at(place + 1).1),
        Err(gap) => pairs.split_at(gap),
    }
}
