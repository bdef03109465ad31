// The reader of trees. How deep it calls itself is bounded by the room that a text has for maps and
// lists in one another.
ghost use Rattle.std.specs.Prelude.{◌≡◌, ◌<◌, ◌≤◌, Bool, [], length, map, IfOk, MatchResult};
ghost use Rattle.pr_words.specs.pr_forms.Form.{token, rule};
ghost use Rattle.pr_words.specs.pr_forms.Run.{good};
ghost use Rattle.pr_words.specs.pr_forms.Language.{Gives, FailsAt};
ghost use Rattle.pr_yaml.specs.Tree.{tree_of, entry_tree_of};
ghost use Rattle.pr_yaml.specs.Grammar.{letters, tree, items, entries, leaf_in, production, Map as MapRule, Items, Under, FlowList as FlowListRule, FlowMap as FlowMapRule, Values, Pairs, PairValue};
ghost use Rattle.pr_yaml.specs.GrammarTable.{yaml};
ghost use Rattle.pr_yaml.specs.private.Reader.{rule_of, maybe_node, GivesValue};

use crate::found::EntriesSoFar;
use crate::made::{absent_made, list_made, map_made, text_made};
use crate::node::{MapEntry, Node};
use crate::tokens::{
    Start, comma_in, dash_in, key_in, list_close_in, list_open_in, list_start, map_close_in,
    map_open_in, node_start, pair_in, text_in, value_start,
};
use crate::yaml_scan::Token;
use pr_words::forms::Fault;
use std::alloc::Global;

/// A scalar.
fn leaf_at(alloc: Global, tokens: &[Token]) -> Result<(Node, &[Token]), Fault<'_, Token>>
    ensures read { (distinct : Bool) → MatchResult result (λ x. Gives (yaml distinct) (token leaf_in) tokens.now (good (tree (tree_of x.0)) (letters x.1.now))) (FailsAt (yaml distinct) (token leaf_in) tokens.now) }
    ensures shorter { IfOk result (λ x. length x.1.now < length tokens.now) }
{
    let Some(((line, text, quoted), rest)) = text_in(tokens) else {
        return Err(Fault::Bad(tokens));
    };
    Ok((text_made(alloc, line, text, quoted)?, rest))
}

/// The node that begins so.
#[cycle(trees)]
fn started_at(
    alloc: Global,
    distinct: bool,
    start: Start,
    room: u32,
    tokens: &[Token],
) -> Result<(Node, &[Token]), Fault<'_, Token>>
    ensures read { MatchResult result (λ x. Gives (yaml distinct) (production distinct (rule_of room start)) tokens.now (good (tree (tree_of x.0)) (letters x.1.now))) (FailsAt (yaml distinct) (production distinct (rule_of room start)) tokens.now) }
    ensures shorter { IfOk result (λ x. length x.1.now < length tokens.now) }
{
    match start {
        Start::Text => leaf_at(alloc, tokens),
        Start::Map { line, column } => map_at(alloc, distinct, line, column, room, tokens),
        Start::List { line, column } => list_at(alloc, distinct, line, column, room, tokens),
        Start::FlowList => flow_list_at(alloc, distinct, room, tokens),
        Start::FlowMap => flow_map_at(alloc, distinct, room, tokens),
    }
}

/// A map in a block, whose first key stands on the line.
#[cycle(trees)]
fn map_at(
    alloc: Global,
    distinct: bool,
    line: u32,
    column: u32,
    room: u32,
    tokens: &[Token],
) -> Result<(Node, &[Token]), Fault<'_, Token>>
    ensures read { MatchResult result (λ x. Gives (yaml distinct) (production distinct (MapRule line column room)) tokens.now (good (tree (tree_of x.0)) (letters x.1.now))) (FailsAt (yaml distinct) (production distinct (MapRule line column room)) tokens.now) }
    ensures shorter { IfOk result (λ x. length x.1.now < length tokens.now) }
{
    let mut found = EntriesSoFar::empty(alloc);
    let Some(_first) = key_in(distinct, column, &found, tokens) else {
        return Err(Fault::Bad(tokens));
    };
    let mut rest = tokens;
    'entries: while let Some(((key_line, key), following)) = key_in(
        distinct, column, &found, rest,
    ) {
        let (value, after) = under_at(alloc, distinct, key_line, column, room, following)?;
        found = found.with(alloc, key, key_line, value)?;
        rest = after;
    }
    Ok((map_made(line, found.entries), rest))
}

/// The value under a key of a map in a block, which is absent where none follows.
#[cycle(trees)]
fn under_at(
    alloc: Global,
    distinct: bool,
    line: u32,
    column: u32,
    room: u32,
    tokens: &[Token],
) -> Result<(Node, &[Token]), Fault<'_, Token>>
    ensures read { MatchResult result (λ x. GivesValue distinct (rule (Under column room)) line tokens.now x.0 x.1.now) (FailsAt (yaml distinct) (rule (Under column room)) tokens.now) }
    ensures shorter { IfOk result (λ x. length x.1.now ≤ length tokens.now) }
{
    if let Some((start, _rest)) = node_start(u64::from(column) + 1, room, tokens) {
        return started_at(alloc, distinct, start, room.saturating_sub(1), tokens);
    }
    match list_start(column, room, tokens) {
        Some((start, _rest)) => {
            started_at(alloc, distinct, start, room.saturating_sub(1), tokens)
        }
        None => Ok((absent_made(alloc, line), tokens)),
    }
}

/// A list in a block, whose first dash stands on the line.
#[cycle(trees)]
fn list_at(
    alloc: Global,
    distinct: bool,
    line: u32,
    column: u32,
    room: u32,
    tokens: &[Token],
) -> Result<(Node, &[Token]), Fault<'_, Token>>
    ensures read { MatchResult result (λ x. Gives (yaml distinct) (production distinct (Items line column room)) tokens.now (good (tree (tree_of x.0)) (letters x.1.now))) (FailsAt (yaml distinct) (production distinct (Items line column room)) tokens.now) }
    ensures shorter { IfOk result (λ x. length x.1.now < length tokens.now) }
{
    let mut list = Vec::new(alloc);
    let Some(_first) = dash_in(column, tokens) else {
        return Err(Fault::Bad(tokens));
    };
    let mut rest = tokens;
    'dashes: while let Some((dash, following)) = dash_in(column, rest) {
        let (item, after) = node_at(
            alloc,
            distinct,
            dash,
            u64::from(column) + 1,
            room,
            following,
        )?;
        list.push(item)?;
        rest = after;
    }
    Ok((list_made(line, list), rest))
}

/// A node at a column or further on, which is absent where none follows.
#[cycle(trees)]
pub(crate) fn node_at(
    alloc: Global,
    distinct: bool,
    line: u32,
    column: u64,
    room: u32,
    tokens: &[Token],
) -> Result<(Node, &[Token]), Fault<'_, Token>>
    ensures read { MatchResult result (λ x. GivesValue distinct (maybe_node column room) line tokens.now x.0 x.1.now) (FailsAt (yaml distinct) (maybe_node column room) tokens.now) }
    ensures shorter { IfOk result (λ x. length x.1.now ≤ length tokens.now) }
{
    match node_start(column, room, tokens) {
        Some((start, _rest)) => {
            started_at(alloc, distinct, start, room.saturating_sub(1), tokens)
        }
        None => Ok((absent_made(alloc, line), tokens)),
    }
}

/// A list in brackets.
#[cycle(trees)]
fn flow_list_at(
    alloc: Global,
    distinct: bool,
    room: u32,
    tokens: &[Token],
) -> Result<(Node, &[Token]), Fault<'_, Token>>
    ensures read { MatchResult result (λ x. Gives (yaml distinct) (production distinct (FlowListRule room)) tokens.now (good (tree (tree_of x.0)) (letters x.1.now))) (FailsAt (yaml distinct) (production distinct (FlowListRule room)) tokens.now) }
    ensures shorter { IfOk result (λ x. length x.1.now < length tokens.now) }
{
    let Some((line, following)) = list_open_in(tokens) else {
        return Err(Fault::Bad(tokens));
    };
    let (list, after) = values_at(alloc, distinct, room, following)?;
    let Some((_close, rest)) = list_close_in(after) else {
        return Err(Fault::Bad(after));
    };
    Ok((list_made(line, list), rest))
}

/// What stands in brackets.
#[cycle(trees)]
fn values_at(
    alloc: Global,
    distinct: bool,
    room: u32,
    tokens: &[Token],
) -> Result<(Vec<Node>, &[Token]), Fault<'_, Token>>
    ensures read { MatchResult result (λ x. Gives (yaml distinct) (rule (Values room)) tokens.now (good (items (map tree_of x.0.items)) (letters x.1.now))) (FailsAt (yaml distinct) (rule (Values room)) tokens.now) }
    ensures shorter { IfOk result (λ x. length x.1.now ≤ length tokens.now) }
{
    let mut list = Vec::new(alloc);
    let mut rest = tokens;
    'values: while let Some((start, _rest)) = value_start(room, rest) {
        let (item, after) = started_at(alloc, distinct, start, room.saturating_sub(1), rest)?;
        list.push(item)?;
        let Some((_comma, following)) = comma_in(after) else {
            return Ok((list, after));
        };
        rest = following;
    }
    Ok((list, rest))
}

/// A map in braces.
#[cycle(trees)]
fn flow_map_at(
    alloc: Global,
    distinct: bool,
    room: u32,
    tokens: &[Token],
) -> Result<(Node, &[Token]), Fault<'_, Token>>
    ensures read { MatchResult result (λ x. Gives (yaml distinct) (production distinct (FlowMapRule room)) tokens.now (good (tree (tree_of x.0)) (letters x.1.now))) (FailsAt (yaml distinct) (production distinct (FlowMapRule room)) tokens.now) }
    ensures shorter { IfOk result (λ x. length x.1.now < length tokens.now) }
{
    let Some((line, following)) = map_open_in(tokens) else {
        return Err(Fault::Bad(tokens));
    };
    let (pairs, after) = pairs_at(alloc, distinct, room, following)?;
    let Some((_close, rest)) = map_close_in(after) else {
        return Err(Fault::Bad(after));
    };
    Ok((map_made(line, pairs), rest))
}

/// What stands in braces.
#[cycle(trees)]
fn pairs_at(
    alloc: Global,
    distinct: bool,
    room: u32,
    tokens: &[Token],
) -> Result<(Vec<MapEntry>, &[Token]), Fault<'_, Token>>
    ensures read { MatchResult result (λ x. Gives (yaml distinct) (rule (Pairs room [])) tokens.now (good (entries (map entry_tree_of x.0.items)) (letters x.1.now))) (FailsAt (yaml distinct) (rule (Pairs room [])) tokens.now) }
    ensures shorter { IfOk result (λ x. length x.1.now ≤ length tokens.now) }
{
    let mut found = EntriesSoFar::empty(alloc);
    let mut rest = tokens;
    'pairs: while let Some(((line, key), following)) = pair_in(distinct, &found, rest) {
        let (value, after) = pair_value_at(alloc, distinct, line, room, following)?;
        found = found.with(alloc, key, line, value)?;
        let Some((_comma, next)) = comma_in(after) else {
            return Ok((found.entries, after));
        };
        rest = next;
    }
    Ok((found.entries, rest))
}

/// The value after a key in braces, which is absent where none follows.
#[cycle(trees)]
fn pair_value_at(
    alloc: Global,
    distinct: bool,
    line: u32,
    room: u32,
    tokens: &[Token],
) -> Result<(Node, &[Token]), Fault<'_, Token>>
    ensures read { MatchResult result (λ x. GivesValue distinct (rule (PairValue room)) line tokens.now x.0 x.1.now) (FailsAt (yaml distinct) (rule (PairValue room)) tokens.now) }
    ensures shorter { IfOk result (λ x. length x.1.now ≤ length tokens.now) }
{
    match value_start(room, tokens) {
        Some((start, _rest)) => {
            started_at(alloc, distinct, start, room.saturating_sub(1), tokens)
        }
        None => Ok((absent_made(alloc, line), tokens)),
    }
}
