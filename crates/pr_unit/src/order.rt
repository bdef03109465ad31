// The order in which groups are evaluated.
ghost use Rattle.std.specs.Prelude.{◌≡◌, ◌++◌, IfOk, OnOk, filter, not};
ghost use Rattle.pr_unit.specs.private.Ordered.{is_so_named, named_first};
ghost use Rattle.pr_unit.specs.private.Kept.{name_of};

use pr_ast::words_crate::Text;
use pr_group::GroupOver;
use pr_slide::range::Ranges;
use std::alloc::{AllocError, Global};

fn is_named<R: Ranges + Drop>(name: &str, group: &GroupOver<R>) -> bool
    ensures { result ≡ is_so_named name_of name.now group.now }
{
    group.def().name.as_str() == name
}

// Puts the groups of a name behind others, and answers those that have another.
fn part<R: Ranges + Drop>(
    alloc: Global,
    name: &str,
    groups: Vec<GroupOver<R>>,
    named: &mut Vec<GroupOver<R>>,
) -> Result<Vec<GroupOver<R>>, AllocError>
    ensures named { OnOk result (named.new.items ≡ named.old.items ++ filter (is_so_named name_of name.now) groups.items) }
    ensures others { IfOk result (λ v. v.items ≡ filter (λ k. not (is_so_named name_of name.now k)) groups.items) }
{
    let mut others = Vec::new(alloc);
    for group in groups {
        if is_named(name, &group) {
            named.push(group)?;
        } else {
            others.push(group)?;
        }
    }
    Ok(others)
}

// Puts all of them behind others.
fn put_all<R: Ranges + Drop>(
    groups: Vec<GroupOver<R>>,
    named: &mut Vec<GroupOver<R>>,
) -> Result<(), AllocError>
    ensures { OnOk result (named.new.items ≡ named.old.items ++ groups.items) }
{
    for group in groups {
        named.push(group)?;
    }
    Ok(())
}

/// The groups whose names are told come first, in the order of the names. (Prometheus: Unit testing
/// for rules, "group_eval_order".)
pub(crate) fn in_order<R: Ranges + Drop>(
    alloc: Global,
    names: &[Text],
    groups: Vec<GroupOver<R>>,
) -> Result<Vec<GroupOver<R>>, AllocError>
    ensures { IfOk result (λ v. v.items ≡ named_first name_of names.now groups.items) }
{
    let mut named = Vec::new(alloc);
    let mut others = groups;
    let mut rest = names;
    'names: while let Some((name, after)) = rest.split_first() {
        others = part(alloc, name.as_str(), others, &mut named)?;
        rest = after;
    }
    put_all(others, &mut named)?;
    Ok(named)
}
