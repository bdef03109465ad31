use spec_rules::RuleFailure;
use std::alloc::AllocError;

/// Why a rule comes to nothing at a moment.
#[derive(Debug, Drop)]
pub enum RuleError {
    /// It has a fault.
    Failed { failure: RuleFailure },
    /// Memory ran out.
    Memory,
}

impl From<AllocError> for RuleError {
    ghost use Rattle.std.specs.Prelude.{◌≡◌};
    ghost use Rattle.pr_rule.specs.declared.rule_result.error.RuleError.TheVariants.{Memory};

    ghost from_gives = { λ _ error. error ≡ Memory };

    fn from(_: AllocError) -> RuleError {
        RuleError::Memory
    }
}
