// Names that are put in order once, to be found among many.
ghost use Rattle.std.specs.Prelude.{◌≡◌, ◌||◌, ℕ, List, not, IfOk, OnOk};
ghost use Rattle.std.specs.Str.{bytes_eq};
ghost use Rattle.pr_words.specs.Names.{is_among, knows};

use pr_words::Text;
use std::alloc::{AllocError, Global};
use std::collections::BTreeSet;

/// Puts a name among those that are known, and says whether it is a new one.
#[tactic(auto, using(crate::proofs::KnownNames::more_known))]
pub(super) fn add_name<'a>(
    names: &mut BTreeSet<&'a [u8]>,
    name: &'a [u8],
) -> Result<bool, AllocError>
    ensures new { IfOk result (λ new. new ≡ not (knows names.old name.now)) }
    ensures known { OnOk result ((other : List ℕ) → knows names.new other ≡ (knows names.old other || bytes_eq name.now other)) }
{
    Ok(names.insert(name)?)
}

/// The names of a list.
pub(super) fn known_names<'a>(
    alloc: Global,
    names: &'a [Text],
) -> Result<BTreeSet<&'a [u8]>, AllocError>
    ensures { IfOk result (λ known. (name : List ℕ) → knows known name ≡ is_among name names.now) }
{
    let mut known = BTreeSet::new(alloc);
    for name in names {
        add_name(&mut known, name.as_str().as_bytes())?;
    }
    Ok(known)
}
