// New groups that go on from old ones.
ghost use Rattle.std.specs.Prelude.{◌≡◌, cond, Some, None, IfOk, OnOk};
ghost use Rattle.pr_manager.specs.declared.naming.GroupName.{GroupName as Name};
ghost use Rattle.pr_manager.specs.private.Continuing.{EachContinues, Continues};
ghost use Rattle.pr_manager.specs.private.Naming.{AreApart, name_of, names_of, same_name, value_of};

use crate::naming::name_of;
use crate::waiting::GroupsByName;
use pr_group::GroupOver;
use pr_group::range::Ranges;
use std::alloc::{AllocError, Global};

// A new group goes on from an old one.
fn carry<R: Ranges + Drop>(
    alloc: Global,
    new: GroupOver<R>,
    old: GroupOver<R>,
) -> Result<GroupOver<R>, AllocError>
    ensures { IfOk result (λ done. Continues R.fits R.last R.passed new (Some old) done) }
{
    let mut done = new;
    done.carry(alloc, old)?;
    Ok(done)
}

// A new group goes on from an old one, if there is one.
fn carry_any<R: Ranges + Drop>(
    alloc: Global,
    new: GroupOver<R>,
    old: Option<GroupOver<R>>,
) -> Result<GroupOver<R>, AllocError>
    ensures { IfOk result (λ done. Continues R.fits R.last R.passed new old done) }
{
    match old {
        Some(old) => carry(alloc, new, old),
        None => Ok(new),
    }
}

// A new group goes on from the old one that waits under its name.
fn go_on_one<R: Ranges + Drop>(
    alloc: Global,
    new: GroupOver<R>,
    waiting: &mut GroupsByName<GroupOver<R>>,
) -> Result<GroupOver<R>, AllocError>
    ensures goes { IfOk result (λ done. Continues R.fits R.last R.passed new (value_of waiting.old (name_of new)) done) }
    ensures others { OnOk result ((q : Name) → value_of waiting.new q ≡ cond (same_name (name_of new) q) None (value_of waiting.old q)) }
{
    let name = name_of(alloc, &new)?;
    let old = waiting.take(&name);
    carry_any(alloc, new, old)
}

/// New groups go on from the old ones that wait under their names.
///
/// # Errors
/// Want of memory.
pub(crate) fn go_on<R: Ranges + Drop>(
    alloc: Global,
    news: Vec<GroupOver<R>>,
    waiting: &mut GroupsByName<GroupOver<R>>,
) -> Result<Vec<GroupOver<R>>, AllocError>
    requires { AreApart (names_of news.items) }
    ensures { IfOk result (λ v. EachContinues R.fits R.last R.passed (value_of waiting.old) news.items v.items) }
{
    let mut done = Vec::new(alloc);
    for new in news {
        done.push(go_on_one(alloc, new, waiting)?)?;
    }
    Ok(done)
}
