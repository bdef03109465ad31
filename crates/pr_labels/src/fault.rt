use std::alloc::AllocError;

/// Why pairs are no label set.
#[derive(Clone, Copy, Debug, PartialEq, Eq)]
pub enum LabelFault {
    /// The name of the pair at this index is no label name.
    BadName { index: usize },
    /// The name of the pair at this index stands at an earlier index too.
    Twice { index: usize },
    /// Memory ran out.
    Memory,
}

impl From<AllocError> for LabelFault {
    ghost use Rattle.std.specs.Prelude.{◌≡◌};
    ghost use Rattle.pr_labels.specs.declared.fault.LabelFault.TheVariants.{Memory};

    ghost from_gives = { λ _ e. e ≡ Memory };

    fn from(_error: AllocError) -> LabelFault {
        LabelFault::Memory
    }
}
