//! The parser.
ghost use Rattle.std.specs.Prelude.{◌≡◌, ◌<◌, ◌≤◌, length, IfOk, IfSome, MatchOption, MatchResult, IfErr, None, [], List, option_map};
ghost use Rattle.pr_forms.specs.Form.{rule, Reads};
ghost use Rattle.pr_forms.specs.Run.{good};
ghost use Rattle.test_forms.specs.declared.tree.Sign.TheVariants.{Minus, Open, Close, Comma};
ghost use Rattle.test_forms.specs.declared.parser.Level.TheVariants.{Sum};
ghost use Rattle.test_forms.specs.private.Tree.{number, seen, seen_token, tree_of, trees_of};
ghost use Rattle.test_forms.specs.private.Grammar.{Value, part, at, word, operation, turn, arguments, closed, alone, through, joined, negated_by, opened_by, called, same_sign, operator_of, sign, sign_at, operator, operation_at, tighter, Binary, Unary, Primary, Tail, Arguments, production, Derives, HasTree, IsBadPlace};
ghost use Rattle.test_forms.specs.private.Depth.{limit, first_too_deep, IsReading, Refuses, Misses};
ghost use Rattle.pr_forms.specs.Language.{Gives, FailsAt, Takes, Lacks};
ghost use Rattle.test_forms.specs.private.Reader.{sums, value_of, group, argument_starts};

use crate::depth::first_too_deep;
use crate::tree::{Expr, ExprKind, Operator, Place, Sign, Token, TokenKind};
use pr_forms::{Fault, place_of, take};
use std::alloc::{AllocError, Global};

#[derive(Clone, Copy, PartialEq, Eq, Debug)]
enum Level {
    Sum,
    Product,
}

/// An expression, with the place of its text, parentheses around it included.
#[derive(Drop, Debug)]
struct Part {
    expr: Expr,
    place: Place,
}

/// Why tokens have no tree.
#[derive(Clone, Copy, PartialEq, Eq, Debug)]
pub enum ParseError {
    /// The tokens before this index begin some text, and with the one there they begin none. The
    /// number of tokens, where they end too early.
    Bad { index: usize },
    /// The tokens before this index can go on with the one there, but it is an operator or an
    /// opening parenthesis too many.
    TooDeep { index: usize },
    Memory,
}

impl Place {
    /// From the start of this place to the end of another.
    fn through(self, end: Place) -> Place
        ensures { result ≡ through self end }
    {
        Place {
            start: self.start,
            end: end.end,
        }
    }
}

fn is_sign(wanted: Sign, sign: Sign) -> bool
    ensures { result ≡ same_sign wanted sign }
{
    matches!(
        (wanted, sign),
        (Sign::Plus, Sign::Plus)
            | (Sign::Minus, Sign::Minus)
            | (Sign::Star, Sign::Star)
            | (Sign::Open, Sign::Open)
            | (Sign::Close, Sign::Close)
            | (Sign::Comma, Sign::Comma)
    )
}

fn operator_by(level: Level, sign: Sign) -> Option<Operator>
    ensures { result ≡ operator_of level sign }
{
    match (level, sign) {
        (Level::Sum, Sign::Plus) => Some(Operator::Add),
        (Level::Sum, Sign::Minus) => Some(Operator::Subtract),
        (Level::Product, Sign::Star) => Some(Operator::Multiply),
        _ => None,
    }
}

/// The operator of the level at the front, and what follows it.
fn operator_in(level: Level, tokens: &[Token]) -> Option<(Operator, &[Token])>
    ensures read { MatchOption result (Lacks sums (operator level) tokens.now) (λ x. Takes sums (operator level) tokens.now (operation x.0) x.1.now) }
    ensures shorter { IfSome result (λ x. length x.1.now < length tokens.now) }
{
    take(
        tokens,
        |token: &Token| -> Option<Operator>
            ensures { option_map operation result ≡ operation_at level (seen_token token.now) }
        {
            match &token.kind {
                TokenKind::Sign { sign } => operator_by(level, *sign),
                _ => None,
            }
        },
    )
}

/// The place of the sign at the front, and what follows it.
fn after(wanted: Sign, tokens: &[Token]) -> Option<(Place, &[Token])>
    ensures read { MatchOption result (Lacks sums (sign wanted) tokens.now) (λ x. Takes sums (sign wanted) tokens.now (at x.0) x.1.now) }
    ensures shorter { IfSome result (λ x. length x.1.now < length tokens.now) }
{
    take(
        tokens,
        |token: &Token| -> Option<Place>
            ensures { option_map at result ≡ sign_at wanted (seen_token token.now) }
        {
            match &token.kind {
                TokenKind::Sign { sign } if is_sign(wanted, *sign) => Some(token.place),
                _ => None,
            }
        },
    )
}

/// Whether an argument can begin with the next token.
fn starts_argument(tokens: &[Token]) -> bool
    ensures { result ≡ argument_starts tokens.now }
{
    match tokens.split_first() {
        Some((first, _rest)) => match &first.kind {
            TokenKind::Number { .. } | TokenKind::Name { .. } => true,
            TokenKind::Sign { sign } => matches!(*sign, Sign::Minus | Sign::Open),
        },
        None => false,
    }
}

fn numbered(place: Place, value: u32) -> Part
    ensures { value_of result ≡ part place (number place value) }
{
    Part {
        expr: Expr {
            place,
            kind: ExprKind::Number { value },
        },
        place,
    }
}

fn named(alloc: Global, place: Place, text: &str) -> Result<Part, AllocError>
    ensures { IfOk result (λ x. value_of x ≡ called (word place text.now) alone) }
{
    let kind = ExprKind::Name {
        text: String::from_str(alloc, text)?,
    };
    Ok(Part {
        expr: Expr { place, kind },
        place,
    })
}

fn call_made(
    alloc: Global,
    place: Place,
    text: &str,
    list: Vec<Expr>,
    end: Place,
) -> Result<Part, AllocError>
    ensures { IfOk result (λ x. value_of x ≡ called (word place text.now) (closed end (trees_of list.items))) }
{
    let place = place.through(end);
    let kind = ExprKind::Call {
        name: String::from_str(alloc, text)?,
        arguments: list,
    };
    Ok(Part {
        expr: Expr { place, kind },
        place,
    })
}

fn negation(alloc: Global, sign: Place, inner: Part) -> Result<Part, AllocError>
    ensures { IfOk result (λ x. value_of x ≡ negated_by (at sign) (value_of inner)) }
{
    let place = sign.through(inner.place);
    let kind = ExprKind::Negated {
        inner: Box::new(alloc, inner.expr)?,
    };
    Ok(Part {
        expr: Expr { place, kind },
        place,
    })
}

fn operation_made(
    alloc: Global,
    left: Part,
    operator: Operator,
    right: Part,
) -> Result<Part, AllocError>
    ensures { IfOk result (λ x. value_of x ≡ joined (value_of left) (turn operator right.place (tree_of right.expr))) }
{
    let place = left.place.through(right.place);
    let kind = ExprKind::Binary {
        operator,
        left: Box::new(alloc, left.expr)?,
        right: Box::new(alloc, right.expr)?,
    };
    Ok(Part {
        expr: Expr { place, kind },
        place,
    })
}

#[cycle(parser)]
#[tactic(auto, using(pr_forms::proofs::Ways::ways, pr_forms::proofs::Carrying::carrying))]
fn binary_at(
    alloc: Global,
    level: Level,
    tokens: &[Token],
) -> Result<(Part, &[Token]), Fault<'_, Token>>
    ensures read { MatchResult result (λ x. Gives sums (rule (Binary level)) tokens.now (good (value_of x.0) (seen x.1.now)))
        (FailsAt sums (rule (Binary level)) tokens.now) }
    ensures shorter { IfOk result (λ x. length x.1.now < length tokens.now) }
{
    let (mut left, mut rest) = tighter_at(alloc, level, tokens)?;
    while let Some((operator, following)) = operator_in(level, rest) {
        let (right, after_right) = tighter_at(alloc, level, following)?;
        left = operation_made(alloc, left, operator, right)?;
        rest = after_right;
    }
    Ok((left, rest))
}

#[cycle(parser)]
#[tactic(auto, using(pr_forms::proofs::Ways::ways, pr_forms::proofs::Carrying::carrying))]
fn tighter_at(
    alloc: Global,
    level: Level,
    tokens: &[Token],
) -> Result<(Part, &[Token]), Fault<'_, Token>>
    ensures read { MatchResult result (λ x. Gives sums (rule (tighter level)) tokens.now (good (value_of x.0) (seen x.1.now)))
        (FailsAt sums (rule (tighter level)) tokens.now) }
    ensures shorter { IfOk result (λ x. length x.1.now < length tokens.now) }
{
    match level {
        Level::Sum => binary_at(alloc, Level::Product, tokens),
        Level::Product => unary_at(alloc, tokens),
    }
}

#[cycle(parser)]
#[tactic(auto, using(pr_forms::proofs::Ways::ways, pr_forms::proofs::Carrying::carrying))]
fn unary_at(alloc: Global, tokens: &[Token]) -> Result<(Part, &[Token]), Fault<'_, Token>>
    ensures read { MatchResult result (λ x. Gives sums (rule Unary) tokens.now (good (value_of x.0) (seen x.1.now))) (FailsAt sums (rule Unary) tokens.now) }
    ensures shorter { IfOk result (λ x. length x.1.now < length tokens.now) }
{
    match after(Sign::Minus, tokens) {
        Some((sign, following)) => {
            let (inner, rest) = unary_at(alloc, following)?;
            Ok((negation(alloc, sign, inner)?, rest))
        }
        None => primary_at(alloc, tokens),
    }
}

#[cycle(parser)]
#[tactic(auto, using(pr_forms::proofs::Ways::ways, pr_forms::proofs::Carrying::carrying))]
fn primary_at(alloc: Global, tokens: &[Token]) -> Result<(Part, &[Token]), Fault<'_, Token>>
    ensures read { MatchResult result (λ x. Gives sums (rule Primary) tokens.now (good (value_of x.0) (seen x.1.now))) (FailsAt sums (rule Primary) tokens.now) }
    ensures shorter { IfOk result (λ x. length x.1.now < length tokens.now) }
{
    if let Some((opening, following)) = after(Sign::Open, tokens) {
        return group_at(alloc, opening, following);
    }
    let Some((first, rest)) = tokens.split_first() else {
        return Err(Fault::Bad(tokens));
    };
    match &first.kind {
        TokenKind::Number { value } => Ok((numbered(first.place, *value), rest)),
        TokenKind::Name { text } => name_at(alloc, first.place, text.as_str(), rest),
        TokenKind::Sign { .. } => Err(Fault::Bad(tokens)),
    }
}

/// What stands in parentheses, after the first of them.
#[cycle(parser)]
#[tactic(auto, using(pr_forms::proofs::Ways::ways, pr_forms::proofs::Carrying::carrying))]
fn group_at(
    alloc: Global,
    opening: Place,
    tokens: &[Token],
) -> Result<(Part, &[Token]), Fault<'_, Token>>
    ensures read { MatchResult result (λ x. (v : Value) × Gives sums group tokens.now (good v (seen x.1.now)) × (value_of x.0 ≡ opened_by (at opening) v))
        (FailsAt sums group tokens.now) }
    ensures shorter { IfOk result (λ x. length x.1.now < length tokens.now) }
{
    let (inner, following) = binary_at(alloc, Level::Sum, tokens)?;
    match after(Sign::Close, following) {
        Some((close, rest)) => {
            let place = opening.through(close);
            Ok((
                Part {
                    expr: inner.expr,
                    place,
                },
                rest,
            ))
        }
        None => Err(Fault::Bad(following)),
    }
}

/// What a name is, by what follows it.
#[cycle(parser)]
#[tactic(auto, using(pr_forms::proofs::Ways::ways, pr_forms::proofs::Carrying::carrying))]
fn name_at<'a>(
    alloc: Global,
    place: Place,
    text: &str,
    tokens: &'a [Token],
) -> Result<(Part, &'a [Token]), Fault<'a, Token>>
    ensures read { MatchResult result (λ x. (v : Value) × Gives sums (rule Tail) tokens.now (good v (seen x.1.now)) × (value_of x.0 ≡ called (word place text.now) v))
        (FailsAt sums (rule Tail) tokens.now) }
    ensures shorter { IfOk result (λ x. length x.1.now ≤ length tokens.now) }
{
    let Some((_opening, following)) = after(Sign::Open, tokens) else {
        return Ok((named(alloc, place, text)?, tokens));
    };
    let (list, after_list) = arguments_at(alloc, following)?;
    match after(Sign::Close, after_list) {
        Some((close, rest)) => Ok((call_made(alloc, place, text, list, close)?, rest)),
        None => Err(Fault::Bad(after_list)),
    }
}

#[cycle(parser)]
#[tactic(auto, using(pr_forms::proofs::Ways::ways, pr_forms::proofs::Carrying::carrying))]
fn arguments_at(alloc: Global, tokens: &[Token]) -> Result<(Vec<Expr>, &[Token]), Fault<'_, Token>>
    ensures read { MatchResult result (λ x. Gives sums (rule Arguments) tokens.now (good (arguments (trees_of x.0.items)) (seen x.1.now)))
        (FailsAt sums (rule Arguments) tokens.now) }
    ensures shorter { IfOk result (λ x. length x.1.now ≤ length tokens.now) }
{
    let mut list = Vec::new(alloc);
    if !starts_argument(tokens) {
        return Ok((list, tokens));
    }
    let (first, mut rest) = binary_at(alloc, Level::Sum, tokens)?;
    list.push(first.expr)?;
    while let Some((_comma, following)) = after(Sign::Comma, rest) {
        let (next, after_next) = binary_at(alloc, Level::Sum, following)?;
        list.push(next.expr)?;
        rest = after_next;
    }
    Ok((list, rest))
}

/// What the reading of tokens comes to: the tree of all of them, or the first bad place of them.
#[derive(Drop, Debug)]
enum Reading {
    Whole { tree: Expr },
    Bad { place: usize },
    Memory,
}

/// The tree of tokens that have no sign too many.
fn read(alloc: Global, tokens: &[Token]) -> Reading
    ensures { IsReading tokens.now result }
{
    match binary_at(alloc, Level::Sum, tokens) {
        Ok((whole, left)) => {
            if left.is_empty() {
                Reading::Whole { tree: whole.expr }
            } else {
                Reading::Bad {
                    place: place_of(tokens, left),
                }
            }
        }
        Err(Fault::Bad(rest)) => Reading::Bad {
            place: place_of(tokens, rest),
        },
        Err(Fault::Memory) => Reading::Memory,
    }
}

/// The first bad place of tokens that have one sign too many at most, unless memory runs out.
fn bad_place_of(alloc: Global, tokens: &[Token]) -> Option<usize>
    ensures { IfSome result (IsBadPlace (seen tokens.now)) }
{
    let reading = read(alloc, tokens);
    match &reading {
        Reading::Whole { .. } => Some(tokens.len()),
        Reading::Bad { place } => Some(*place),
        Reading::Memory => None,
    }
}

/// The tree of the tokens, or the first bad place. A text with more signs than `LIMIT` is read up
/// to the first one too many.
pub fn parse(alloc: Global, tokens: &[Token]) -> Result<Expr, ParseError>
    // A tree that is answered is derived, and has no sign too many.
    ensures tree { IfOk result (λ e. Derives (seen tokens.now) (tree_of e)) }
    ensures shallow { IfOk result (λ e. first_too_deep limit (seen tokens.now) ≡ None) }
    // Where one is derived, it is answered, unless there is a sign too many or memory runs out.
    ensures only { (v : Value) → Reads production (rule (Binary Sum)) (seen tokens.now) v [] → MatchResult result (λ e. HasTree v (tree_of e)) (Misses (seen tokens.now)) }
    // Else the fault says which token is the first bad one, or one too many.
    ensures fault { IfErr result (Refuses (seen tokens.now)) }
{
    let Some(index) = first_too_deep(tokens) else {
        return match read(alloc, tokens) {
            Reading::Whole { tree } => Ok(tree),
            Reading::Bad { place } => Err(ParseError::Bad { index: place }),
            Reading::Memory => Err(ParseError::Memory),
        };
    };
    match bad_place_of(alloc, &tokens[..=index]) {
        Some(place) => {
            if place <= index {
                Err(ParseError::Bad { index: place })
            } else {
                Err(ParseError::TooDeep { index })
            }
        }
        None => Err(ParseError::Memory),
    }
}
