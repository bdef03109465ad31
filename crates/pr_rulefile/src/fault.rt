use crate::fields::Problem;
use pr_words::Items;
use std::alloc::AllocError;

/// Why a file is no rule file.
#[derive(Debug, Drop)]
pub enum RuleError {
    /// All that is wrong with it, in order of line; on one line in the order of the kinds; and what
    /// is of one kind in the order of the text.
    Problems { list: Items<Problem> },
    /// Memory ran out.
    Memory,
}

impl From<AllocError> for RuleError {
    ghost use Rattle.std.specs.Prelude.{◌≡◌};
    ghost use Rattle.pr_rulefile.specs.declared.fault.RuleError.TheVariants.{Memory};

    ghost from_gives = { λ _ e. e ≡ Memory };

    fn from(_error: AllocError) -> RuleError {
        RuleError::Memory
    }
}
