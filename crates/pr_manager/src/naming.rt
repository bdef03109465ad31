// The names that groups are known by.
ghost use Rattle.std.specs.Prelude.{◌≡◌, IfOk};
ghost use Rattle.pr_manager.specs.private.Naming.{name_of};

use pr_ast::words_crate::Text;
use pr_group::GroupOver;
use pr_group::range::Ranges;
use std::alloc::{AllocError, Global};

/// A file and the name of a group in it, by which the group is known.
#[derive(Debug, PartialEq, Eq, Hash, Drop)]
pub(crate) struct GroupName {
    pub(crate) file: Text,
    pub(crate) name: Text,
}

/// The name of a group.
pub(crate) fn name_of<R: Ranges + Drop>(
    alloc: Global,
    group: &GroupOver<R>,
) -> Result<GroupName, AllocError>
    ensures { IfOk result (λ n. n ≡ name_of group.now) }
{
    Ok(GroupName {
        file: Text::from_str(alloc, group.file())?,
        name: group.def().name.copy(alloc)?,
    })
}
