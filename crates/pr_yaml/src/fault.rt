// Why a text has no tree.
use crate::yaml_scan::YamlKind;
use std::alloc::AllocError;

/// Why a YAML text has no tree.
#[derive(Clone, Copy, PartialEq, Eq, Debug)]
pub enum YamlError {
    /// The line of the first bad place of the text, from 1, and what is wrong there.
    Fault { line: u32, kind: YamlKind },
    /// Memory ran out.
    Memory,
}

impl From<AllocError> for YamlError {
    ghost use Rattle.std.specs.Prelude.{◌≡◌};
    ghost use Rattle.pr_yaml.specs.declared.fault.YamlError.TheVariants.{Memory};

    ghost from_gives = { λ _ e. e ≡ Memory };

    fn from(_error: AllocError) -> YamlError {
        YamlError::Memory
    }
}
