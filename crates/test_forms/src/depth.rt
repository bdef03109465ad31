//! How many signs a text may have that deepen its tree, tested before the parser calls itself.
ghost use Rattle.std.specs.Prelude.{◌≡◌, ◌<◌, IfSome, length};
ghost use Rattle.test_forms.specs.private.Tree.{seen, seen_token};
ghost use Rattle.test_forms.specs.private.Depth.{limit, sign_deepens, deepens, first_too_deep};

use crate::tree::{Sign, Token, TokenKind};

/// The most operators and opening parentheses that a text may have.
pub const LIMIT: usize = 100;

fn sign_deepens(sign: Sign) -> bool
    ensures { result ≡ sign_deepens sign }
{
    !matches!(sign, Sign::Close | Sign::Comma)
}

fn deepens(token: &Token) -> bool
    ensures { result ≡ deepens (seen_token token.now) }
{
    match &token.kind {
        TokenKind::Sign { sign } => sign_deepens(*sign),
        TokenKind::Number { .. } | TokenKind::Name { .. } => false,
    }
}

/// The place of the first sign that is one too many.
pub fn first_too_deep(tokens: &[Token]) -> Option<usize>
    ensures is { result ≡ first_too_deep limit (seen tokens.now) }
    ensures within { IfSome result (λ k. k < length tokens.now) }
{
    let mut left = tokens;
    let mut may = LIMIT;
    let mut place = 0;
    while let Some((first, rest)) = left.split_first() {
        if deepens(first) {
            if may == 0 {
                return Some(place);
            }
            may -= 1;
        }
        left = rest;
        place += 1;
    }
    None
}
