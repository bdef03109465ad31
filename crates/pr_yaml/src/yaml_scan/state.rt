ghost use Rattle.std.specs.Prelude.{◌≡◌, ◌+◌, ◌<◌, ◌^◌, []};
ghost use Rattle.pr_yaml.specs.Tokens.{opens, closes, or_before};
ghost use Rattle.pr_yaml.specs.private.Inner.{known_by, counts_of, counts_after};

use crate::yaml_scan::fault::BadPlace;
use crate::yaml_scan::line::Spot;
use crate::yaml_scan::token::{Token, TokenKind};

/// How the text's document stands.
#[derive(Clone, Copy)]
pub(crate) enum Document {
    /// No sign was met.
    Implied,
    /// `---` was met.
    Begun,
    /// `...` was met.
    Ended,
}

/// What the tokens before a place say of it.
#[derive(Clone, Copy)]
pub(crate) struct Known {
    /// Whether the place is inside flows.
    pub(crate) inside: bool,
    /// The column of the last key or dash.
    pub(crate) parent: Option<u32>,
    /// Whether there is none.
    pub(crate) none: bool,
}

/// Where a reader is.
#[derive(Drop)]
pub(crate) struct State<'a> {
    pub(crate) place: Spot<'a>,
    /// Whether only dashes and blanks stand before the place on its line.
    pub(crate) dashed: bool,
    pub(crate) document: Document,
}

/// What a text begins with at a place.
#[derive(Drop)]
pub(crate) enum Part<'a> {
    /// Nothing: it is over.
    Over,
    /// Blanks, a comment, a line's end or a document's sign.
    Gap { next: State<'a> },
    /// A token, with what follows it.
    Token { token: Token, next: State<'a> },
    /// A byte that begins none of these, or that the token begun cannot take.
    Fault { place: BadPlace },
}

/// What the tokens before a place count.
#[derive(Clone, Copy)]
pub(crate) struct TokenCounts {
    opened: usize,
    closed: usize,
    parent: Option<u32>,
    none: bool,
}

/// How many flows a token opens.
fn opens(kind: &TokenKind) -> usize
    ensures { result ≡ opens kind.now }
{
    match kind {
        TokenKind::ListOpen | TokenKind::MapOpen => 1,
        _ => 0,
    }
}

/// How many flows a token closes.
fn closes(kind: &TokenKind) -> usize
    ensures { result ≡ closes kind.now }
{
    match kind {
        TokenKind::ListClose | TokenKind::MapClose => 1,
        _ => 0,
    }
}

/// The column of the last key or dash, with a token.
fn or_before(token: &Token, earlier: Option<u32>) -> Option<u32>
    ensures { result ≡ or_before token.now.kind token.now.column earlier }
{
    match token.kind {
        TokenKind::Dash | TokenKind::Key { .. } => Some(token.column),
        _ => earlier,
    }
}

impl TokenCounts {
    /// Those of no token.
    pub(crate) fn first() -> TokenCounts
        ensures { result ≡ counts_of [] }
    {
        TokenCounts {
            opened: 0,
            closed: 0,
            parent: None,
            none: true,
        }
    }

    /// What they say of a place.
    pub(crate) fn known(&self) -> Known
        ensures { result ≡ known_by self.now }
    {
        Known {
            inside: self.closed < self.opened,
            parent: self.parent,
            none: self.none,
        }
    }

    /// Those with one token more.
    pub(crate) fn after(&self, token: &Token) -> TokenCounts
        requires opened { self.now.opened + 1 < 2 ^ 64 }
        requires closed { self.now.closed + 1 < 2 ^ 64 }
        ensures { result ≡ counts_after token.now self.now }
    {
        TokenCounts {
            opened: opens(&token.kind) + self.opened,
            closed: closes(&token.kind) + self.closed,
            parent: or_before(token, self.parent),
            none: false,
        }
    }
}
