// The parser's recursion: expressions.
ghost use Rattle.std.specs.Prelude.{◌≡◌, ◌<◌, ◌≤◌, length, List, IfOk, IfSome, MatchOption, MatchResult, Some, None};
ghost use Rattle.pr_forms.specs.Form.{rule};
ghost use Rattle.pr_forms.specs.Run.{good};
ghost use Rattle.pr_forms.specs.Language.{Gives, FailsAt};
ghost use Rattle.pr_ast.specs.Tree.{tree_of, trees_of};
ghost use Rattle.pr_parse.specs.Seen.{seen};
ghost use Rattle.pr_parse.specs.Grammar.{QueryValue, Binary, Unary, Postfix, Operand, Tail, Arguments, Aggregation, Parameters as ParametersRule, at, opened_by, aggregator, aggregation_made, tighter, function, function_called, arguments, closed, enclosed, parameters};
ghost use Rattle.pr_parse.specs.private.GrammarReader.{argument_starts};
ghost use Rattle.pr_parse.specs.GrammarTable.{queries};
ghost use Rattle.pr_parse.specs.private.Reader.{value_of, parameters_of};

use crate::grammar::{
    Level, Lexed, after, aggregate_in, function_in, grouping_in, labels_in, metric_in, minus_in,
    modifiers_in, operator_in, starts_argument,
};
use crate::made::{
    Parameters, Part, aggregate_made, call_made, enclosed, one_parameter, operation_made,
    sign_made, two_parameters,
};
use crate::selection::{literal_in, selection_in, unnamed_in};
use crate::suffix::after_other;
use pr_ast::lex::Sign;
use pr_ast::{AggOp, Expr, Func, Place};
use pr_forms::Fault;
use pr_words::Items;
use std::alloc::Global;

#[cycle(parser)]
#[tactic(auto, using(pr_forms::proofs::Ways::ways, pr_forms::proofs::Carrying::carrying))]
pub(crate) fn binary_at(
    alloc: Global,
    level: Level,
    opens: bool,
    tokens: &[Lexed],
) -> Result<(Part, &[Lexed]), Fault<'_, Lexed>>
    ensures read { MatchResult result (λ x. Gives queries (rule (Binary level opens)) tokens.now (good (value_of x.0) (seen x.1.now))) (FailsAt queries (rule (Binary level opens)) tokens.now) }
    ensures shorter { IfOk result (λ x. length x.1.now < length tokens.now) }
{
    let (mut left, mut rest) = tighter_at(alloc, level, opens, tokens)?;
    while let Some((op, following)) = operator_in(level, rest) {
        let (modifiers, after_modifiers) = modifiers_in(alloc, following)?;
        let (right, after_right) = tighter_at(alloc, level, modifiers.opens, after_modifiers)?;
        left = operation_made(
            alloc,
            left,
            op,
            modifiers.with_bool,
            modifiers.matching,
            right,
        )?;
        rest = after_right;
    }
    Ok((left, rest))
}

#[cycle(parser)]
#[tactic(auto, using(pr_forms::proofs::Ways::ways))]
fn tighter_at(
    alloc: Global,
    level: Level,
    opens: bool,
    tokens: &[Lexed],
) -> Result<(Part, &[Lexed]), Fault<'_, Lexed>>
    ensures read { MatchResult result (λ x. Gives queries (rule (tighter level opens)) tokens.now (good (value_of x.0) (seen x.1.now))) (FailsAt queries (rule (tighter level opens)) tokens.now) }
    ensures shorter { IfOk result (λ x. length x.1.now < length tokens.now) }
{
    match level {
        Level::Or => binary_at(alloc, Level::And, opens, tokens),
        Level::And => binary_at(alloc, Level::Comparison, opens, tokens),
        Level::Comparison => binary_at(alloc, Level::Sum, opens, tokens),
        Level::Sum => binary_at(alloc, Level::Product, opens, tokens),
        Level::Product => unary_at(alloc, opens, tokens),
    }
}

#[cycle(parser)]
#[tactic(auto, using(pr_forms::proofs::Ways::ways))]
fn unary_at(
    alloc: Global,
    opens: bool,
    tokens: &[Lexed],
) -> Result<(Part, &[Lexed]), Fault<'_, Lexed>>
    ensures read { MatchResult result (λ x. Gives queries (rule (Unary opens)) tokens.now (good (value_of x.0) (seen x.1.now))) (FailsAt queries (rule (Unary opens)) tokens.now) }
    ensures shorter { IfOk result (λ x. length x.1.now < length tokens.now) }
{
    match minus_in(tokens) {
        Some(((minus, sign), following)) => {
            let (inner, rest) = unary_at(alloc, true, following)?;
            Ok((sign_made(alloc, minus, sign, inner)?, rest))
        }
        None => postfix_at(alloc, opens, tokens),
    }
}

#[cycle(parser)]
#[tactic(auto, using(pr_forms::proofs::Ways::ways, crate::proofs::Ways::nested))]
fn postfix_at(
    alloc: Global,
    opens: bool,
    tokens: &[Lexed],
) -> Result<(Part, &[Lexed]), Fault<'_, Lexed>>
    ensures read { MatchResult result (λ x. Gives queries (rule (Postfix opens)) tokens.now (good (value_of x.0) (seen x.1.now))) (FailsAt queries (rule (Postfix opens)) tokens.now) }
    ensures shorter { IfOk result (λ x. length x.1.now < length tokens.now) }
{
    if !opens {
        return operand_at(alloc, tokens);
    }
    match after(Sign::LeftParen, tokens) {
        Some((opening, following)) => {
            let (whole, rest) = group_at(alloc, opening, following)?;
            after_other(alloc, whole, rest)
        }
        None => operand_at(alloc, tokens),
    }
}

/// What stands in parentheses, after the first of them.
#[cycle(parser)]
#[tactic(auto, using(pr_forms::proofs::Ways::ways))]
fn group_at(
    alloc: Global,
    opening: Place,
    tokens: &[Lexed],
) -> Result<(Part, &[Lexed]), Fault<'_, Lexed>>
    ensures read { MatchResult result (λ x. (v : QueryValue) × Gives queries enclosed tokens.now (good v (seen x.1.now)) × (value_of x.0 ≡ opened_by (at opening) v)) (FailsAt queries enclosed tokens.now) }
    ensures shorter { IfOk result (λ x. length x.1.now < length tokens.now) }
{
    let (inner, following) = binary_at(alloc, Level::Or, true, tokens)?;
    match after(Sign::RightParen, following) {
        Some((close, rest)) => Ok((enclosed(opening, inner, close), rest)),
        None => Err(Fault::Bad(following)),
    }
}

#[cycle(parser)]
#[tactic(auto, using(pr_forms::proofs::Ways::ways, crate::proofs::Ways::nested))]
fn operand_at(alloc: Global, tokens: &[Lexed]) -> Result<(Part, &[Lexed]), Fault<'_, Lexed>>
    ensures read { MatchResult result (λ x. Gives queries (rule Operand) tokens.now (good (value_of x.0) (seen x.1.now))) (FailsAt queries (rule Operand) tokens.now) }
    ensures shorter { IfOk result (λ x. length x.1.now < length tokens.now) }
{
    let found = literal_in(alloc, tokens)?;
    if let Some((literal, rest)) = found {
        return after_other(alloc, literal, rest);
    }
    if let Some(((name, text), rest)) = metric_in(tokens) {
        return selection_in(alloc, name, text, rest);
    }
    if let Some(((func, name, text), rest)) = function_in(tokens) {
        return tail_at(alloc, func, name, text, rest);
    }
    match aggregate_in(tokens) {
        Some(((op, name), following)) => {
            let (whole, rest) = aggregation_at(alloc, op, name, following)?;
            after_other(alloc, whole, rest)
        }
        None => unnamed_in(alloc, tokens),
    }
}

/// What the name of a function is, by what follows it.
#[cycle(parser)]
#[tactic(auto, using(pr_forms::proofs::Ways::ways))]
fn tail_at<'a>(
    alloc: Global,
    func: Func,
    name: Place,
    text: &str,
    tokens: &'a [Lexed],
) -> Result<(Part, &'a [Lexed]), Fault<'a, Lexed>>
    ensures read { MatchResult result (λ x. (v : QueryValue) × Gives queries (rule Tail) tokens.now (good v (seen x.1.now)) × (value_of x.0 ≡ function_called (function func name text.now) v))
        (FailsAt queries (rule Tail) tokens.now) }
    ensures shorter { IfOk result (λ x. length x.1.now ≤ length tokens.now) }
{
    let Some((_opening, following)) = after(Sign::LeftParen, tokens) else {
        return selection_in(alloc, name, text, tokens);
    };
    let (args, after_args) = arguments_at(alloc, following)?;
    match after(Sign::RightParen, after_args) {
        Some((close, rest)) => after_other(alloc, call_made(func, name, args, close), rest),
        None => Err(Fault::Bad(after_args)),
    }
}

#[cycle(parser)]
#[tactic(auto, using(pr_forms::proofs::Ways::ways, pr_forms::proofs::Carrying::carrying))]
fn arguments_at(alloc: Global, tokens: &[Lexed]) -> Result<(Vec<Expr>, &[Lexed]), Fault<'_, Lexed>>
    ensures read { MatchResult result (λ x. Gives queries (rule Arguments) tokens.now (good (arguments (trees_of x.0.items)) (seen x.1.now))) (FailsAt queries (rule Arguments) tokens.now) }
    ensures shorter { IfOk result (λ x. length x.1.now ≤ length tokens.now) }
{
    let mut args = Vec::new(alloc);
    if !starts_argument(tokens) {
        return Ok((args, tokens));
    }
    let (first, mut rest) = binary_at(alloc, Level::Or, true, tokens)?;
    args.push(first.expr)?;
    while let Some((_comma, following)) = after(Sign::Comma, rest) {
        let (next, after_next) = binary_at(alloc, Level::Or, true, following)?;
        args.push(next.expr)?;
        rest = after_next;
    }
    Ok((args, rest))
}

/// The aggregation whose name stands before.
#[cycle(parser)]
#[tactic(auto, using(pr_forms::proofs::Ways::ways, crate::proofs::Ways::nested))]
fn aggregation_at(
    alloc: Global,
    op: AggOp,
    name: Place,
    tokens: &[Lexed],
) -> Result<(Part, &[Lexed]), Fault<'_, Lexed>>
    ensures read { MatchResult result (λ x. (v : QueryValue) × Gives queries (rule Aggregation) tokens.now (good v (seen x.1.now)) × (value_of x.0 ≡ aggregation_made (aggregator op name) v))
        (FailsAt queries (rule Aggregation) tokens.now) }
    ensures shorter { IfOk result (λ x. length x.1.now < length tokens.now) }
{
    match grouping_in(tokens) {
        Some((by, following)) => {
            let (found, _close, after_names) = labels_in(alloc, following)?;
            let (parameters, end, rest) = parameters_at(alloc, after_names)?;
            Ok((aggregate_made(op, name, by, found, parameters, end), rest))
        }
        None => {
            let (parameters, close, after_close) = parameters_at(alloc, tokens)?;
            match grouping_in(after_close) {
                Some((by, following)) => {
                    let (found, end, rest) = labels_in(alloc, following)?;
                    Ok((aggregate_made(op, name, by, found, parameters, end), rest))
                }
                None => Ok((
                    aggregate_made(op, name, true, Items::empty(alloc), parameters, close),
                    after_close,
                )),
            }
        }
    }
}

/// The arguments of an aggregation in parentheses, with the place of the closing parenthesis, and
/// what follows them.
#[cycle(parser)]
#[tactic(auto, using(pr_forms::proofs::Ways::ways))]
fn parameters_at(
    alloc: Global,
    tokens: &[Lexed],
) -> Result<(Parameters, Place, &[Lexed]), Fault<'_, Lexed>>
    ensures read { MatchResult result (λ x. Gives queries parameters tokens.now (good (closed (parameters_of x.0) x.1) (seen x.2.now))) (FailsAt queries parameters tokens.now) }
    ensures shorter { IfOk result (λ x. length x.2.now < length tokens.now) }
{
    let Some((_opening, following)) = after(Sign::LeftParen, tokens) else {
        return Err(Fault::Bad(tokens));
    };
    let (found, after_found) = parameter_at(alloc, following)?;
    match after(Sign::RightParen, after_found) {
        Some((close, rest)) => Ok((found, close, rest)),
        None => Err(Fault::Bad(after_found)),
    }
}

/// The arguments of an aggregation, one or two, and what follows them.
#[cycle(parser)]
#[tactic(auto, using(pr_forms::proofs::Ways::ways))]
fn parameter_at(alloc: Global, tokens: &[Lexed]) -> Result<(Parameters, &[Lexed]), Fault<'_, Lexed>>
    ensures read { MatchResult result (λ x. Gives queries (rule ParametersRule) tokens.now (good (arguments (parameters_of x.0)) (seen x.1.now))) (FailsAt queries (rule ParametersRule) tokens.now) }
    ensures shorter { IfOk result (λ x. length x.1.now < length tokens.now) }
{
    let (first, following) = binary_at(alloc, Level::Or, true, tokens)?;
    match after(Sign::Comma, following) {
        Some((_comma, after_comma)) => {
            let (second, rest) = binary_at(alloc, Level::Or, true, after_comma)?;
            Ok((two_parameters(alloc, first, second)?, rest))
        }
        None => Ok((one_parameter(alloc, first)?, following)),
    }
}
