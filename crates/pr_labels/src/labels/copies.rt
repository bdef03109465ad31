// Pairs with the same texts.
ghost use Rattle.std.specs.Prelude.{◌≡◌, ◌<◌, ◌++◌, length, IfOk, OnOk};
ghost use Rattle.std.specs.List.{remove};

use crate::pair::Pair;
use std::alloc::{AllocError, Global};

/// Puts pairs with the same texts at the end.
pub(super) fn push_copies(
    alloc: Global,
    copies: &mut Vec<Pair>,
    pairs: &[Pair],
) -> Result<(), AllocError>
    ensures { OnOk result (copies.new.items ≡ copies.old.items ++ pairs.now) }
{
    for pair in pairs {
        copies.push(pair.copy(alloc)?)?;
    }
    Ok(())
}

/// Other pairs with the same texts.
pub fn copy_pairs(alloc: Global, pairs: &[Pair]) -> Result<Vec<Pair>, AllocError>
    ensures { IfOk result (λ v. v.items ≡ pairs.now) }
{
    let mut copies = Vec::with_capacity(alloc, pairs.len())?;
    push_copies(alloc, &mut copies, pairs)?;
    Ok(copies)
}

/// The same, with room for one pair more.
pub(super) fn copy_to_grow(alloc: Global, pairs: &[Pair]) -> Result<Vec<Pair>, AllocError>
    ensures { IfOk result (λ v. v.items ≡ pairs.now) }
{
    let mut copies = Vec::with_capacity(alloc, pairs.len().saturating_add(1))?;
    push_copies(alloc, &mut copies, pairs)?;
    Ok(copies)
}

/// The same of all pairs but the one at a place.
pub(super) fn copy_others(
    alloc: Global,
    pairs: &[Pair],
    place: usize,
) -> Result<Vec<Pair>, AllocError>
    requires { place < length pairs.now }
    ensures { IfOk result (λ v. v.items ≡ remove pairs.now place) }
{
    let mut copies = Vec::with_capacity(alloc, pairs.len() - 1)?;
    push_copies(alloc, &mut copies, &pairs[..place])?;
    push_copies(alloc, &mut copies, &pairs[place + 1..])?;
    Ok(copies)
}
