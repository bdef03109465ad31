use std::alloc::{AllocError, AllocFailed};

/// Why a text has no tokens.
#[derive(Clone, Copy, Debug, PartialEq, Eq)]
pub enum LexError {
    /// The first fault of the text, with its place in bytes.
    Fault { at: usize, kind: LexKind },
    /// Memory ran out.
    Memory,
}

/// What is wrong at the first fault of a text.
#[derive(Clone, Copy, Debug, PartialEq, Eq)]
pub enum LexKind {
    /// No token begins with this byte, or none goes on with it after `!`.
    BadChar,
    /// The string that begins here has no end, or none on its line.
    OpenText,
    /// No escape of a string goes on with this byte.
    BadEscape,
    /// No number goes on with this byte.
    BadNumber,
    /// The number that begins here is 10^20 or more, rounded to nine places.
    TooWide,
    /// The duration before this byte does not go on with it as a span text, and is no whole one:
    /// before it stand whole parts, and digits or a letter that begin one more. Whether what stands
    /// there can still become a span is not asked: `5ms5s` is bad at its last byte, though no span
    /// begins with `5ms5`.
    BadSpan,
    /// The duration that begins here has more than 2^40 milliseconds.
    SpanTooLong,
}

impl From<AllocError> for LexError {
    ghost use Rattle.std.specs.Prelude.{◌≡◌};
    ghost use Rattle.pr_ast.specs.declared.lex.fault.LexError.TheVariants.{Memory};

    ghost from_gives = { λ _ e. e ≡ Memory };

    fn from(_error: AllocError) -> LexError {
        LexError::Memory
    }
}

impl<X: Drop> From<AllocFailed<X>> for LexError {
    ghost use Rattle.std.specs.Prelude.{◌≡◌};
    ghost use Rattle.pr_ast.specs.declared.lex.fault.LexError.TheVariants.{Memory};

    ghost from_gives = { λ _ e. e ≡ Memory };

    fn from(_error: AllocFailed<X>) -> LexError {
        LexError::Memory
    }
}
