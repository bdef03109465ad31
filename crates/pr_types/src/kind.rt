//! Types, and why an expression has none.
use std::alloc::AllocError;

/// What an expression gives. (Prometheus: Querying basics, "Expression language data types".)
#[derive(Clone, Copy, PartialEq, Eq, Debug)]
pub enum ValueType {
    Scalar,
    /// An instant vector.
    Vector,
    /// A range vector.
    Range,
    /// A string.
    Text,
}

/// Why an expression has no type. Of several reasons at one node `Arguments` comes first, then one
/// that begins with `Want`, then the others in this order.
#[derive(Clone, Copy, PartialEq, Eq, Debug)]
pub enum TypeKind {
    /// An operand is no scalar.
    WantScalar,
    /// An operand is no vector; under an operator or a minus, neither a scalar nor a vector.
    WantVector,
    /// An operand is no range.
    WantRange,
    /// An operand is no text.
    WantText,
    /// A function or an aggregation has too few arguments, or too many. `most` is 2^32 - 1 where
    /// there is no most.
    Arguments { have: u64, least: u32, most: u32 },
    /// A comparison of two scalars without `bool`.
    BoolNeeded,
    /// `bool` after an operator that compares nothing.
    BoolMisplaced,
    /// `and`, `or` or `unless` with a scalar.
    SetOnScalar,
    /// `group_left` or `group_right` after `and`, `or` or `unless`.
    GroupOnSet,
    /// `on` or `ignoring` with a scalar.
    MatchOnScalar,
    /// A label stands both in `on` and in the list of `group_left` or `group_right`.
    CopiedInOn,
    /// A selector without a name whose matchers all match the empty text.
    NoMatcher,
    /// A text that should be a pattern is none.
    BadPattern,
    /// A text that should be the name of a label is none.
    BadLabel,
    /// The whole expression is a range or a text.
    NotInstant,
    /// The expression looks further back than samples are kept, in milliseconds. `needed` is 2^64 -
    /// 1 where it is more.
    Reach { needed: u64, kept: u64 },
    /// The step of a subquery is 0. No text that is read has one. (Own choice.)
    ZeroStep,
}

/// The first fault of an expression, and its place, as the byte of its text: the start of the first
/// operand whose type is wrong for a kind that begins with `Want`, 0 for `Reach`, and the start of
/// the node that has the fault for all others. (Own choice.)
#[derive(Clone, Copy, PartialEq, Eq, Debug)]
pub struct TypeFault {
    pub at: usize,
    pub kind: TypeKind,
}

/// Why an expression was not checked through: its first fault (`TypeFault`), or that memory ran
/// out.
#[derive(Clone, Copy, PartialEq, Eq, Debug)]
pub enum TypeError {
    Fault { at: usize, kind: TypeKind },
    Memory,
}

impl From<AllocError> for TypeError {
    ghost use Rattle.std.specs.Prelude.{◌≡◌};
    ghost use Rattle.pr_types.specs.declared.kind.TypeError.TheVariants.{Memory};

    ghost from_gives = { λ _ error. error ≡ Memory };

    fn from(_: AllocError) -> TypeError {
        TypeError::Memory
    }
}

impl From<TypeFault> for TypeError {
    ghost use Rattle.std.specs.Prelude.{◌≡◌};
    ghost use Rattle.pr_types.specs.declared.kind.TypeError.TheVariants.{Fault};

    ghost from_gives = { λ fault error. error ≡ Fault fault.at fault.kind };

    fn from(fault: TypeFault) -> TypeError {
        TypeError::Fault {
            at: fault.at,
            kind: fault.kind,
        }
    }
}
