use crate::fault::ParseKind;
use pr_ast::lex::LexKind;
use pr_types::TypeKind;

/// Why a text is no expression that can be asked for, or that a rule can have.
#[derive(Clone, Copy, PartialEq, Eq, Debug)]
pub enum QueryKind {
    /// It has no tokens.
    Lex { kind: LexKind },
    /// Its tokens have no tree.
    Parse { kind: ParseKind },
    /// Its tree has no type.
    Typing { kind: TypeKind },
}

/// Why no expression is read.
#[derive(Clone, Copy, PartialEq, Eq, Debug)]
pub enum QueryError {
    /// The first fault of the text, with its place in bytes.
    Fault { at: usize, kind: QueryKind },
    /// Memory ran out.
    Memory,
}
