// Single tokens, as the reader of trees takes them.
ghost use Rattle.std.specs.Prelude.{◌≡◌, ◌-◌, ◌<◌, ℕ, Bool, length, IfSome, MatchOption, option_map};
ghost use Rattle.pr_words.specs.pr_forms.Form.{token};
ghost use Rattle.pr_words.specs.pr_forms.Carries.{Chooses, ChoosesNone};
ghost use Rattle.pr_words.specs.pr_forms.Language.{Takes, Lacks};
ghost use Rattle.pr_yaml.specs.Tree.{text_node};
ghost use Rattle.pr_yaml.specs.Grammar.{letter_of, key_at, is_taken, letters, at, tree, mark, node_of, node_from, flow_node_of, value_from, list_from, leaf_in, dash_in, list_open_in, list_close_in, map_open_in, map_close_in, comma_in};
ghost use Rattle.pr_yaml.specs.GrammarTable.{yaml};
ghost use Rattle.pr_yaml.specs.private.Reader.{rule_of, key_among, keys_in, IsEntry, NoEntry, IsPair, NoPair};

use crate::found::EntriesSoFar;
use crate::yaml_scan::{Token, TokenKind};
use pr_words::forms::take;

/// What a node is by its first token: a scalar; a map or a list in a block, with the line and the
/// column of that token; a flow.
#[derive(Clone, Copy)]
pub(crate) enum Start {
    Text,
    Map { line: u32, column: u32 },
    List { line: u32, column: u32 },
    FlowList,
    FlowMap,
}

fn start_of(token: &Token) -> Option<Start>
    ensures { (inner : ℕ) → option_map (rule_of inner) result ≡ node_of inner (letter_of token.now) }
{
    let (line, column) = (token.line, token.column);
    match token.kind {
        TokenKind::Text { .. } => Some(Start::Text),
        TokenKind::Key { .. } => Some(Start::Map { line, column }),
        TokenKind::Dash => Some(Start::List { line, column }),
        TokenKind::ListOpen => Some(Start::FlowList),
        TokenKind::MapOpen => Some(Start::FlowMap),
        TokenKind::ListClose | TokenKind::MapClose | TokenKind::Comma => None,
    }
}

fn flow_start_of(token: &Token) -> Option<Start>
    ensures { (inner : ℕ) → option_map (rule_of inner) result ≡ flow_node_of inner (letter_of token.now) }
{
    match token.kind {
        TokenKind::Text { .. } => Some(Start::Text),
        TokenKind::ListOpen => Some(Start::FlowList),
        TokenKind::MapOpen => Some(Start::FlowMap),
        _ => None,
    }
}

/// What a node at a column or further on is, where there is room for it.
pub(crate) fn node_start(column: u64, room: u32, tokens: &[Token]) -> Option<(Start, &[Token])>
    ensures read { MatchOption result (ChoosesNone (node_from column room) (letters tokens.now)) (λ x. Chooses (node_from column room) (rule_of (room - 1) x.0) (letters tokens.now) (letters x.1.now)) }
    ensures shorter { IfSome result (λ x. length x.1.now < length tokens.now) }
{
    take(
        tokens,
        |token: &Token| -> Option<Start>
            ensures { option_map (rule_of (room - 1)) result ≡ node_from column room (letter_of token.now) }
        {
            if room > 0 && column <= u64::from(token.column) {
                start_of(token)
            } else {
                None
            }
        },
    )
}

/// What a value in a flow is, where there is room for it.
pub(crate) fn value_start(room: u32, tokens: &[Token]) -> Option<(Start, &[Token])>
    ensures read { MatchOption result (ChoosesNone (value_from room) (letters tokens.now)) (λ x. Chooses (value_from room) (rule_of (room - 1) x.0) (letters tokens.now) (letters x.1.now)) }
    ensures shorter { IfSome result (λ x. length x.1.now < length tokens.now) }
{
    take(
        tokens,
        |token: &Token| -> Option<Start>
            ensures { option_map (rule_of (room - 1)) result ≡ value_from room (letter_of token.now) }
        { if room > 0 { flow_start_of(token) } else { None } },
    )
}

/// A list under a key at the key's column, where there is room for it.
pub(crate) fn list_start(column: u32, room: u32, tokens: &[Token]) -> Option<(Start, &[Token])>
    ensures read { MatchOption result (ChoosesNone (list_from column room) (letters tokens.now)) (λ x. Chooses (list_from column room) (rule_of (room - 1) x.0) (letters tokens.now) (letters x.1.now)) }
    ensures shorter { IfSome result (λ x. length x.1.now < length tokens.now) }
{
    take(
        tokens,
        |token: &Token| -> Option<Start>
            ensures { option_map (rule_of (room - 1)) result ≡ list_from column room (letter_of token.now) }
        {
            match token.kind {
                TokenKind::Dash if room > 0 && column == token.column => Some(Start::List {
                    line: token.line,
                    column,
                }),
                _ => None,
            }
        },
    )
}

/// The line of a scalar, its text, and whether it is quoted.
fn text_of(token: &Token) -> Option<(u32, &str, bool)>
    ensures { option_map (λ x. tree (text_node x.0 x.1.now x.2)) result ≡ leaf_in (letter_of token.now) }
{
    match &token.kind {
        TokenKind::Text { text, quoted } => Some((token.line, text.as_str(), *quoted)),
        _ => None,
    }
}

/// A scalar, and what follows it.
pub(crate) fn text_in(tokens: &[Token]) -> Option<((u32, &str, bool), &[Token])>
    ensures read { (distinct : Bool) → MatchOption result (Lacks (yaml distinct) (token leaf_in) tokens.now) (λ x. Takes (yaml distinct) (token leaf_in) tokens.now (tree (text_node x.0.0 x.0.1.now x.0.2)) x.1.now) }
    ensures shorter { IfSome result (λ x. length x.1.now < length tokens.now) }
{
    let Some((first, rest)) = tokens.split_first() else {
        return None;
    };
    match text_of(first) {
        Some(found) => Some((found, rest)),
        None => None,
    }
}

/// A dash at a column: its line, and what follows it.
pub(crate) fn dash_in(column: u32, tokens: &[Token]) -> Option<(u32, &[Token])>
    ensures read { (distinct : Bool) → MatchOption result (Lacks (yaml distinct) (token (dash_in column)) tokens.now) (λ x. Takes (yaml distinct) (token (dash_in column)) tokens.now (at x.0) x.1.now) }
    ensures shorter { IfSome result (λ x. length x.1.now < length tokens.now) }
{
    take(
        tokens,
        |token: &Token| -> Option<u32>
            ensures { option_map at result ≡ dash_in column (letter_of token.now) }
        {
            match token.kind {
                TokenKind::Dash if column == token.column => Some(token.line),
                _ => None,
            }
        },
    )
}

/// The line and the column of a key, and its text.
fn key_of(token: &Token) -> Option<(u32, u32, &str)>
    ensures { option_map (λ x. key_at x.0 x.1 x.2.now) result ≡ key_among (letter_of token.now) }
{
    match &token.kind {
        TokenKind::Key { text } => Some((token.line, token.column, text.as_str())),
        _ => None,
    }
}

/// Whether a key is none of its map, since it stands there already and keys are distinct.
fn is_taken(distinct: bool, found: &EntriesSoFar<'_>, key: &str) -> bool
    ensures { result ≡ is_taken distinct key.now (keys_in found.now.entries.items) }
{
    distinct && found.has(key)
}

/// A key that its map may take, with its line, and what follows it.
pub(crate) fn key_in<'a>(
    distinct: bool,
    column: u32,
    found: &EntriesSoFar<'_>,
    tokens: &'a [Token],
) -> Option<((u32, &'a str), &'a [Token])>
    ensures read { MatchOption result (NoEntry distinct column (keys_in found.now.entries.items) (letters tokens.now)) (λ x. IsEntry distinct column (keys_in found.now.entries.items) x.0.0 x.0.1.now (letters tokens.now) (letters x.1.now)) }
    ensures shorter { IfSome result (λ x. length x.1.now < length tokens.now) }
{
    let Some((first, rest)) = tokens.split_first() else {
        return None;
    };
    let Some((line, place, key)) = key_of(first) else {
        return None;
    };
    if column != place {
        return None;
    }
    if is_taken(distinct, found, key) {
        None
    } else {
        Some(((line, key), rest))
    }
}

/// The same in a flow, at any column.
pub(crate) fn pair_in<'a>(
    distinct: bool,
    found: &EntriesSoFar<'_>,
    tokens: &'a [Token],
) -> Option<((u32, &'a str), &'a [Token])>
    ensures read { MatchOption result (NoPair distinct (keys_in found.now.entries.items) (letters tokens.now)) (λ x. IsPair distinct (keys_in found.now.entries.items) x.0.0 x.0.1.now (letters tokens.now) (letters x.1.now)) }
    ensures shorter { IfSome result (λ x. length x.1.now < length tokens.now) }
{
    let Some((first, rest)) = tokens.split_first() else {
        return None;
    };
    let Some((line, _place, key)) = key_of(first) else {
        return None;
    };
    if is_taken(distinct, found, key) {
        None
    } else {
        Some(((line, key), rest))
    }
}

/// `[`, with its line.
pub(crate) fn list_open_in(tokens: &[Token]) -> Option<(u32, &[Token])>
    ensures read { (distinct : Bool) → MatchOption result (Lacks (yaml distinct) (token list_open_in) tokens.now) (λ x. Takes (yaml distinct) (token list_open_in) tokens.now (at x.0) x.1.now) }
    ensures shorter { IfSome result (λ x. length x.1.now < length tokens.now) }
{
    take(
        tokens,
        |token: &Token| -> Option<u32>
            ensures { option_map at result ≡ list_open_in (letter_of token.now) }
        {
            match token.kind {
                TokenKind::ListOpen => Some(token.line),
                _ => None,
            }
        },
    )
}

/// `{`, with its line.
pub(crate) fn map_open_in(tokens: &[Token]) -> Option<(u32, &[Token])>
    ensures read { (distinct : Bool) → MatchOption result (Lacks (yaml distinct) (token map_open_in) tokens.now) (λ x. Takes (yaml distinct) (token map_open_in) tokens.now (at x.0) x.1.now) }
    ensures shorter { IfSome result (λ x. length x.1.now < length tokens.now) }
{
    take(
        tokens,
        |token: &Token| -> Option<u32>
            ensures { option_map at result ≡ map_open_in (letter_of token.now) }
        {
            match token.kind {
                TokenKind::MapOpen => Some(token.line),
                _ => None,
            }
        },
    )
}

/// `]`
pub(crate) fn list_close_in(tokens: &[Token]) -> Option<((), &[Token])>
    ensures read { (distinct : Bool) → MatchOption result (Lacks (yaml distinct) (token list_close_in) tokens.now) (λ x. Takes (yaml distinct) (token list_close_in) tokens.now mark x.1.now) }
    ensures shorter { IfSome result (λ x. length x.1.now < length tokens.now) }
{
    take(
        tokens,
        |token: &Token| -> Option<()>
            ensures { option_map (λ _. mark) result ≡ list_close_in (letter_of token.now) }
        {
            match token.kind {
                TokenKind::ListClose => Some(()),
                _ => None,
            }
        },
    )
}

/// `}`
pub(crate) fn map_close_in(tokens: &[Token]) -> Option<((), &[Token])>
    ensures read { (distinct : Bool) → MatchOption result (Lacks (yaml distinct) (token map_close_in) tokens.now) (λ x. Takes (yaml distinct) (token map_close_in) tokens.now mark x.1.now) }
    ensures shorter { IfSome result (λ x. length x.1.now < length tokens.now) }
{
    take(
        tokens,
        |token: &Token| -> Option<()>
            ensures { option_map (λ _. mark) result ≡ map_close_in (letter_of token.now) }
        {
            match token.kind {
                TokenKind::MapClose => Some(()),
                _ => None,
            }
        },
    )
}

/// `,`
pub(crate) fn comma_in(tokens: &[Token]) -> Option<((), &[Token])>
    ensures read { (distinct : Bool) → MatchOption result (Lacks (yaml distinct) (token comma_in) tokens.now) (λ x. Takes (yaml distinct) (token comma_in) tokens.now mark x.1.now) }
    ensures shorter { IfSome result (λ x. length x.1.now < length tokens.now) }
{
    take(
        tokens,
        |token: &Token| -> Option<()>
            ensures { option_map (λ _. mark) result ≡ comma_in (letter_of token.now) }
        {
            match token.kind {
                TokenKind::Comma => Some(()),
                _ => None,
            }
        },
    )
}
