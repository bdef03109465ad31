//! What is wrong at a bad place.
ghost use Rattle.std.specs.Prelude.{◌≡◌};
ghost use Rattle.test_forms.specs.private.Tree.{seen, seen_token};
ghost use Rattle.test_forms.specs.private.Faults.{ends_operand, kind_at};

use crate::tree::{Sign, Token, TokenKind};

/// What is wrong at a bad place.
#[derive(Clone, Copy, PartialEq, Eq, Debug)]
pub enum FaultKind {
    /// The text ends too early.
    End,
    /// A number, a name, a minus or an opening parenthesis was wanted.
    NoOperand,
    /// What stands before is whole, and this cannot go on after it.
    NoOperator,
}

fn ends_operand(token: &Token) -> bool
    ensures { result ≡ ends_operand (seen_token token.now) }
{
    match &token.kind {
        TokenKind::Sign { sign } => matches!(*sign, Sign::Close),
        TokenKind::Number { .. } | TokenKind::Name { .. } => true,
    }
}

/// What is wrong at a place of the tokens that is bad; for a place past them, that they end.
pub fn kind_at(tokens: &[Token], place: usize) -> FaultKind
    ensures { result ≡ kind_at (seen tokens.now) place }
{
    let mut left = tokens;
    let mut before = place;
    let mut ended = false;
    while let Some((first, rest)) = left.split_first() {
        if before == 0 {
            return if ended {
                FaultKind::NoOperator
            } else {
                FaultKind::NoOperand
            };
        }
        ended = ends_operand(first);
        left = rest;
        before -= 1;
    }
    FaultKind::End
}
