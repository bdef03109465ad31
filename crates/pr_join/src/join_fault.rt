use spec_vectors::labels::Labels;
use std::alloc::AllocError;

/// Why two vectors were not joined. (Prometheus: Querying, Operators, Vector matching.)
#[derive(Debug, Drop)]
pub enum JoinFault {
    /// Two elements of a side have this key where there may be one.
    ManyToMany { key: Labels },
    /// Two elements of the result have these labels.
    NotUnique { labels: Labels },
    /// The value of a pair is too wide.
    TooWide,
    /// Memory ran out.
    Memory,
}

impl From<AllocError> for JoinFault {
    ghost use Rattle.std.specs.Prelude.{◌≡◌};
    ghost use Rattle.pr_join.specs.declared.join_fault.JoinFault.TheVariants.{Memory};

    ghost from_gives = { λ _ e. e ≡ Memory };

    fn from(_error: AllocError) -> JoinFault {
        JoinFault::Memory
    }
}
