// What is made of the groups of a file.
ghost use Rattle.std.specs.Prelude.{◌≡◌, ◌∷◌, List, OnOk};
ghost use Rattle.spec_rules.specs.Definitions.{Group, group_of_def};
ghost use Rattle.pr_rulefile.specs.File.{Gathered};

use crate::rule_file::RuleFile;
use spec_rules::GroupDef;
use std::alloc::AllocError;

/// What takes the groups of a file, one after another.
pub(crate) trait GroupSink {
    /// What comes of it where these groups are still to come.
    ghost comes_to: { Self → List Group → Gathered };

    fn put(&mut self, group: GroupDef) -> Result<(), AllocError>
        ensures { OnOk result ((more : List Group) → comes_to self.new more ≡ comes_to self.old (group_of_def group ∷ more)) };
}

// A file keeps its groups.
impl GroupSink for RuleFile {
    ghost use Rattle.std.specs.Prelude.{◌++◌};
    ghost use Rattle.pr_rulefile.specs.File.{groups_of_file, these_groups};

    ghost comes_to = { λ f more. these_groups (groups_of_file f ++ more) };

    fn put(&mut self, group: GroupDef) -> Result<(), AllocError> {
        self.groups.push(group)
    }
}

/// How many rules the groups have. Each group is let go as soon as it is counted, since what is
/// kept of its expressions takes far more memory than their text.
#[derive(Drop)]
pub(crate) struct RuleCount {
    pub(crate) rules: u64,
}

impl GroupSink for RuleCount {
    ghost use Rattle.std.specs.Prelude.{◌+◌};
    ghost use Rattle.pr_rulefile.specs.File.{so_many_rules};
    ghost use Rattle.spec_rules.specs.Definitions.{rule_count};

    ghost comes_to = { λ c more. so_many_rules (c.rules + rule_count more) };

    fn put(&mut self, group: GroupDef) -> Result<(), AllocError> {
        match self.rules.checked_add(group.rules.as_slice().len() as u64) {
            Some(rules) => {
                self.rules = rules;
                Ok(())
            }
            // no memory holds so many
            None => Err(AllocError),
        }
    }
}
