use pr_ast::Place;
use spec_meaning::FaultKind;
use std::alloc::AllocError;

/// Why an evaluation gives no value.
#[derive(Debug, Drop)]
pub enum EvalError {
    /// The first fault in the order of the text, and the place of the node that has it.
    Fault { place: Place, kind: FaultKind },
    /// Memory ran out.
    Memory,
}

impl From<AllocError> for EvalError {
    ghost use Rattle.std.specs.Prelude.{◌≡◌};
    ghost use Rattle.pr_eval.specs.declared.values.error.EvalError.TheVariants.{Memory};

    ghost from_gives = { λ _ error. error ≡ Memory };

    fn from(_: AllocError) -> EvalError {
        EvalError::Memory
    }
}
