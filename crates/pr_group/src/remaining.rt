// The series that remain of a group that is gone.
ghost use Rattle.std.specs.Prelude.{◌≡◌, List, IfOk};
ghost use Rattle.pr_rule.specs.spec_history.declared.entry.Entry.{Entry};
ghost use Rattle.pr_rule.specs.spec_rules.Groups.{Group};
ghost use Rattle.pr_rule.specs.spec_rules.Reloads.{remains};
ghost use Rattle.pr_group.specs.private.Keeping.{KeepsGroup};

use crate::group::GroupOver;
use crate::written::{add_all, add_written, listed};
use pr_ast::labels::Labels;
use pr_rule::range::Ranges;
use std::alloc::{AllocError, Global};
use std::collections::BTreeSet;

impl<R: Ranges + Drop> GroupOver<R> {
    /// The series that its rules wrote last and those that were left over before, in label order,
    /// each once.
    ///
    /// # Errors
    /// Want of memory.
    pub fn remains(&self, alloc: Global) -> Result<Vec<Labels>, AllocError>
        ensures { (history : List Entry) (g : Group) → KeepsGroup R.fits R.last R.passed self.now history g → IfOk result (λ v. v.items ≡ remains g) }
    {
        let mut sets = BTreeSet::new(alloc);
        add_all(alloc, &mut sets, self.leftovers.as_slice())?;
        add_written(alloc, &mut sets, &self.rules)?;
        listed(alloc, sets)
    }
}
