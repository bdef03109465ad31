// The old groups of a reload: those that new ones go on from, and those that are gone.
ghost use Rattle.std.specs.Prelude.{◌≡◌, ◌++◌, ◌∷◌, [], cond, not, true, filter, is_some, IfOk, OnOk, Some, None};
ghost use Rattle.pr_manager.specs.declared.naming.GroupName.{GroupName as Name};
ghost use Rattle.pr_manager.specs.private.Naming.{first_of, is_among, kept_under, name_of, names_of, same_name, value_of};

use crate::naming::{GroupName, name_of};
use crate::waiting::GroupsByName;
use pr_group::GroupOver;
use pr_group::range::Ranges;
use std::alloc::{AllocError, Global};

/// Old groups, by whether new ones have their names.
#[derive(Drop)]
pub(crate) struct Parted<R> {
    /// Of each name the first one.
    pub(crate) waiting: GroupsByName<GroupOver<R>>,
    /// Those whose names no new group has, in order.
    pub(crate) gone: Vec<GroupOver<R>>,
}

// The names of groups.
fn names_of<R: Ranges + Drop>(
    alloc: Global,
    groups: &[GroupOver<R>],
) -> Result<GroupsByName<()>, AllocError>
    ensures { (q : Name) → IfOk result (λ names. is_some (value_of names q) ≡ is_among q (names_of groups.now)) }
{
    let mut names = GroupsByName::new(alloc);
    let mut rest = groups;
    'naming: while let Some((group, after)) = rest.split_first() {
        names.put(name_of(alloc, group)?, ())?;
        rest = after;
    }
    Ok(names)
}

// Puts an old group where it belongs. One whose name another one before it has is let go.
fn part_one<R: Ranges + Drop>(
    names: &GroupsByName<()>,
    parted: &mut Parted<R>,
    name: GroupName,
    old: GroupOver<R>,
) -> Result<(), AllocError>
    ensures waiting { OnOk result ((q : Name) → is_some (value_of names.now q) ≡ true
        → value_of parted.new.waiting q ≡ first_of (value_of parted.old.waiting q) (cond (same_name name q) (Some old) None)) }
    ensures gone { OnOk result (parted.new.gone.items ≡ parted.old.gone.items ++ cond (is_some (value_of names.now name)) [] (old ∷ [])) }
{
    if !names.has(&name) {
        parted.gone.push(old)?;
        return Ok(());
    }
    if !parted.waiting.has(&name) {
        parted.waiting.put(name, old)?;
    }
    Ok(())
}

/// Parts old groups by the names of new ones.
pub(crate) fn part<R: Ranges + Drop>(
    alloc: Global,
    olds: Vec<GroupOver<R>>,
    news: &[GroupOver<R>],
) -> Result<Parted<R>, AllocError>
    ensures waiting { (q : Name) → is_among q (names_of news.now) ≡ true → IfOk result (λ p. value_of p.waiting q ≡ kept_under q olds.items) }
    ensures gone { IfOk result (λ p. p.gone.items ≡ filter (λ k. not (is_among (name_of k) (names_of news.now))) olds.items) }
{
    let names = names_of(alloc, news)?;
    let mut parted = Parted {
        waiting: GroupsByName::new(alloc),
        gone: Vec::new(alloc),
    };
    for old in olds {
        let name = name_of(alloc, &old)?;
        part_one(&names, &mut parted, name, old)?;
    }
    Ok(parted)
}
