//! Parsing a text.
ghost use Rattle.std.specs.Prelude.{◌≡◌, ◌≤◌, ◌<◌, true, List, length, slice_get, [], ◌++◌, IfOk, IfErr, IfSome, MatchResult};
ghost use Rattle.pr_forms.specs.Form.{rule, Reads};
ghost use Rattle.pr_ast.specs.declared.lex.token.Token.{Token};
ghost use Rattle.pr_ast.specs.Tokens.{HasTokens};
ghost use Rattle.pr_ast.specs.Tree.{Tree, tree_of};
ghost use Rattle.pr_ast.specs.private.Steps.{has_steps};
ghost use Rattle.pr_parse.specs.Seen.{Seen, seen, kinds_of, kinds_seen};
ghost use Rattle.pr_parse.specs.Grammar.{QueryValue, production, expression};
ghost use Rattle.pr_parse.specs.GrammarWhole.{Derives, IsBadPlace};
ghost use Rattle.pr_parse.specs.private.Whole.{HasTree};
ghost use Rattle.pr_parse.specs.Deep.{depth, IsTooDeep};
ghost use Rattle.pr_parse.specs.declared.fault.ParseKind.TheVariants.{TooDeep};
ghost use Rattle.pr_parse.specs.Faults.{kind_at};
ghost use Rattle.pr_parse.specs.private.Front.{HasFront};
ghost use Rattle.pr_parse.specs.Parsed.{parsed, gives_tree, IsFaultOf};
ghost use Rattle.pr_parse.specs.Derived.{start_of, fault_of, RefusesSeen, end_of, IsExpression, Refuses, Misses};

use crate::depth::too_deep_at;
use crate::fault::{ParseError, ParseKind};
use crate::grammar::{Lexed, with_kinds};
use crate::kinds::kind_at;
use crate::whole::{TreeFault, whole_tree};
use pr_ast::Expr;
use pr_ast::lex::{first_tokens, tokens};
use std::alloc::Global;

/// So many tokens are looked at before the others are kept: most texts have fewer, and one that is
/// too deep is mostly so within these. Then the others, which may be millions, take no memory.
const FRONT: usize = 4096;

/// Where a token begins, or the text ends.
fn start_of(end: usize, tokens: &[Lexed], place: usize) -> usize
    ensures { result ≡ start_of end (slice_get (seen tokens.now) place) }
{
    match tokens.get(place) {
        Some(next) => next.token.start,
        None => end,
    }
}

/// The fault at the first bad place.
fn fault_at(end: usize, tokens: &[Lexed], place: usize) -> ParseError
    requires { place ≤ length tokens.now }
    ensures { result ≡ fault_of end (seen tokens.now) place (kind_at (kinds_of tokens.now) place) }
{
    ParseError::Fault {
        at: start_of(end, tokens, place),
        kind: kind_at(tokens, place),
    }
}

/// The fault at a token that makes the text too deep.
fn deep_at(end: usize, tokens: &[Lexed], place: usize) -> ParseError
    ensures { result ≡ fault_of end (seen tokens.now) place TooDeep }
{
    ParseError::Fault {
        at: start_of(end, tokens, place),
        kind: ParseKind::TooDeep,
    }
}

/// The tree of the tokens of a text that is nowhere too deep.
fn shallow_tree(alloc: Global, end: usize, tokens: &[Lexed]) -> Result<Expr, ParseError>
    requires { depth (kinds_seen (seen tokens.now)) ≤ 100 }
    ensures tree { IfOk result (λ e. Derives (seen tokens.now) (tree_of e) × (depth (kinds_seen (seen tokens.now)) ≤ 100)) }
    ensures only { (v : QueryValue) → Reads production (rule expression) (seen tokens.now) v [] → MatchResult result (λ e. HasTree v (tree_of e)) Misses }
    ensures fault { IfErr result (RefusesSeen end (seen tokens.now)) }
{
    match whole_tree(alloc, tokens) {
        Ok(expr) => Ok(expr),
        Err(TreeFault::Bad { index }) => Err(fault_at(end, tokens, index)),
        Err(TreeFault::Memory) => Err(ParseError::Memory),
    }
}

/// Where the reading of so many tokens ended, unless memory ran out.
fn end_of(length: usize, outcome: &Result<Expr, TreeFault>) -> Option<usize>
    ensures { result ≡ end_of length outcome.now }
{
    match outcome {
        Ok(_) => Some(length),
        Err(TreeFault::Bad { index }) => Some(*index),
        Err(TreeFault::Memory) => None,
    }
}

/// The first bad place of the tokens, which is their number where all of them can go on.
fn first_bad_place(alloc: Global, tokens: &[Lexed]) -> Option<usize>
    ensures { IfSome result (IsBadPlace (seen tokens.now)) }
{
    let outcome = whole_tree(alloc, tokens);
    end_of(tokens.len(), &outcome)
}

/// The fault of tokens of which one makes the text too deep, whatever follows them: those up to it
/// are parsed, so that an earlier bad one comes first.
fn deep_fault(alloc: Global, end: usize, tokens: &[Lexed], deep: usize) -> ParseError
    requires { IsTooDeep (kinds_seen (seen tokens.now)) deep }
    ensures { (rest : List Seen) → RefusesSeen end (seen tokens.now ++ rest) result }
{
    let Some(index) = first_bad_place(alloc, &tokens[..deep + 1]) else {
        return ParseError::Memory;
    };
    if index <= deep {
        fault_at(end, tokens, index)
    } else {
        deep_at(end, tokens, deep)
    }
}

/// The tree of the tokens of a text that is so long.
fn tree_at(alloc: Global, end: usize, tokens: &[Lexed]) -> Result<Expr, ParseError>
    ensures tree { IfOk result (λ e. Derives (seen tokens.now) (tree_of e) × (depth (kinds_seen (seen tokens.now)) ≤ 100)) }
    ensures only { (v : QueryValue) → Reads production (rule expression) (seen tokens.now) v [] → depth (kinds_seen (seen tokens.now)) ≤ 100 → MatchResult result (λ e. HasTree v (tree_of e)) Misses }
    ensures fault { IfErr result (RefusesSeen end (seen tokens.now)) }
{
    match too_deep_at(alloc, tokens)? {
        None => shallow_tree(alloc, end, tokens),
        Some(deep) => Err(deep_fault(alloc, end, tokens, deep)),
    }
}

/// The first tokens of a text with their kinds: so many, or all where it has fewer.
fn front_of(alloc: Global, text: &str, most: usize) -> Result<Vec<Lexed>, ParseError>
    ensures tree { IfOk result (λ front. HasFront text.now most (seen front.items)) }
    ensures only { (tokens : List Token) → HasTokens text.now tokens → IfErr result Misses }
    ensures fault { IfErr result (Refuses text.now) }
{
    let found = first_tokens(alloc, text, most)?;
    Ok(with_kinds(alloc, found)?)
}

/// The tree of a text of which all tokens are kept.
fn kept_tree(alloc: Global, text: &str) -> Result<Expr, ParseError>
    ensures tree { IfOk result (λ e. IsExpression text.now (tree_of e)) }
    ensures only { (tree : Tree) → IsExpression text.now tree → MatchResult result (λ e. tree_of e ≡ tree) Misses }
    ensures fault { IfErr result (Refuses text.now) }
{
    let found = tokens(alloc, text)?;
    let all = with_kinds(alloc, found)?;
    tree_at(alloc, text.len(), &all)
}

/// The tree of a text that begins with these tokens, and may go on with more. These are judged
/// first, and all are kept only where they are not too deep.
fn long_tree(alloc: Global, text: &str, front: &[Lexed]) -> Result<Expr, ParseError>
    requires { HasFront text.now FRONT (seen front.now) }
    ensures tree { IfOk result (λ e. IsExpression text.now (tree_of e)) }
    ensures only { (tree : Tree) → IsExpression text.now tree → MatchResult result (λ e. tree_of e ≡ tree) Misses }
    ensures fault { IfErr result (Refuses text.now) }
{
    match too_deep_at(alloc, front)? {
        Some(deep) => Err(deep_fault(alloc, text.len(), front, deep)),
        None => kept_tree(alloc, text),
    }
}

/// The tree of a text. Where it has fewer tokens than are looked at first, these are all of them.
fn read_text(alloc: Global, text: &str) -> Result<Expr, ParseError>
    ensures tree { IfOk result (λ e. IsExpression text.now (tree_of e)) }
    ensures only { (tree : Tree) → IsExpression text.now tree → MatchResult result (λ e. tree_of e ≡ tree) Misses }
    ensures fault { IfErr result (Refuses text.now) }
{
    let front = front_of(alloc, text, FRONT)?;
    if front.len() < FRONT {
        tree_at(alloc, text.len(), &front)
    } else {
        long_tree(alloc, text, &front)
    }
}

/// The tree of an expression of the query language. (Prometheus: Querying, Basics and Operators.)
///
/// # Errors
/// The first fault of the tokens; else the first token with which no expression can go on, or that
/// makes the text more than 100 deep; else the end of the text. Also want of memory.
pub fn parse(alloc: Global, text: &str) -> Result<Expr, ParseError>
    // What is answered is what the text gives, unless memory runs out.
    ensures parsed { MatchResult result (λ e. parsed text.now ≡ gives_tree (tree_of e)) (IsFaultOf (parsed text.now)) }

    // A tree that is answered is that of the text.
    ensures tree { IfOk result (λ e. IsExpression text.now (tree_of e)) }
    // The tree of an expression is answered, unless memory runs out.
    ensures only { (tree : Tree) → IsExpression text.now tree → MatchResult result (λ e. tree_of e ≡ tree) Misses }
    // Else the fault is the first one.
    ensures fault { IfErr result (Refuses text.now) }

    // A given step of a subquery is not 0.
    ensures steps { IfOk result (λ e. has_steps (tree_of e) ≡ true) }
{
    read_text(alloc, text)
}
