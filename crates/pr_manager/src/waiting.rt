// Values by the names of groups.
ghost use Rattle.std.specs.Prelude.{◌≡◌, [], cond, is_some, Option, Some, None, OnOk};
ghost use Rattle.pr_manager.specs.declared.naming.GroupName.{GroupName as Name};
ghost use Rattle.pr_manager.specs.private.Naming.{same_name, value_of};

use crate::naming::GroupName;
use indexmap::IndexMap;
use std::alloc::{AllocError, Global};
use std::marker::Model;

/// What waits to be taken by a name. Contracts see the names with their values.
#[derive(Drop)]
pub(crate) struct GroupsByName<V> {
    values: IndexMap<GroupName, V>,
}

impl<V> Model for GroupsByName<V> {
    ghost use Rattle.std.specs.Prelude.{List};
    ghost use Rattle.pr_manager.specs.declared.naming.GroupName.{GroupName as Name};

    ghost Value = { List (Name × V) };

    ghost view = { λ w. w.values.entries };
}

impl<V: Drop> GroupsByName<V> {
    /// Nothing waits.
    pub(crate) fn new(alloc: Global) -> GroupsByName<V>
        ensures { result ≡ [] }
    {
        GroupsByName {
            values: IndexMap::new(alloc),
        }
    }

    pub(crate) fn has(&self, name: &GroupName) -> bool
        ensures { result ≡ is_some (value_of self.now name.now) }
    {
        self.values.contains_key(name)
    }

    /// Puts a value under a name, in the place of the one that is there.
    pub(crate) fn put(&mut self, name: GroupName, value: V) -> Result<(), AllocError>
        ensures { OnOk result ((q : Name) → value_of self.new q ≡ cond (same_name name q) (Some value) (value_of self.old q)) }
    {
        self.values.insert(name, value)?;
        Ok(())
    }

    /// What waits under a name, which waits no more.
    pub(crate) fn take(&mut self, name: &GroupName) -> Option<V>
        ensures value { result ≡ value_of self.old name.now }
        ensures others { (q : Name) → value_of self.new q ≡ cond (same_name name.now q) None (value_of self.old q) }
    {
        self.values.swap_remove(name)
    }
}
