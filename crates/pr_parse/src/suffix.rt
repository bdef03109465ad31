// What may follow a primary: brackets, and an offset.
ghost use Rattle.std.specs.Prelude.{◌≡◌, ◌≤◌, length, IfOk, MatchResult};
ghost use Rattle.pr_forms.specs.Form.{rule};
ghost use Rattle.pr_forms.specs.Language.{FailsAt};
ghost use Rattle.pr_parse.specs.declared.grammar.kind.Before.TheVariants.{Selector as Selectors, Range as Ranges, Other as Others};
ghost use Rattle.pr_parse.specs.Grammar.{After, InSelector, SelectorSpan, InOther, Step, Closing, Shift};
ghost use Rattle.pr_parse.specs.GrammarTable.{queries};
ghost use Rattle.pr_parse.specs.private.Reader.{Follows, StepFollows, EndFollows};

use crate::grammar::{Lexed, after, after_word, shift_in, span_in};
use crate::made::{Part, subquery_made, with_offset, with_range};
use pr_ast::lex::{Sign, Word};
use pr_ast::time::Span;
use pr_forms::Fault;
use std::alloc::Global;

/// The selector at the front with the brackets and the offset that follow it.
#[tactic(auto, using(pr_forms::proofs::Ways::ways))]
pub(crate) fn after_selector(
    alloc: Global,
    before: Part,
    tokens: &[Lexed],
) -> Result<(Part, &[Lexed]), Fault<'_, Lexed>>
    ensures read { MatchResult result (λ x. Follows (rule (After Selectors)) before tokens.now x.0 x.1.now) (FailsAt queries (rule (After Selectors)) tokens.now) }
    ensures shorter { IfOk result (λ x. length x.1.now ≤ length tokens.now) }
{
    if let Some((_open, following)) = after(Sign::LeftBracket, tokens) {
        return in_selector(alloc, before, following);
    }
    match after_word(Word::Offset, tokens) {
        Some((_word, following)) => shift_at(alloc, before, following),
        None => Ok((before, tokens)),
    }
}

/// The range or subquery at the front with what follows it.
#[cycle(suffixes)]
#[tactic(auto, using(pr_forms::proofs::Ways::ways))]
fn after_range(
    alloc: Global,
    before: Part,
    tokens: &[Lexed],
) -> Result<(Part, &[Lexed]), Fault<'_, Lexed>>
    ensures read { MatchResult result (λ x. Follows (rule (After Ranges)) before tokens.now x.0 x.1.now) (FailsAt queries (rule (After Ranges)) tokens.now) }
    ensures shorter { IfOk result (λ x. length x.1.now ≤ length tokens.now) }
{
    match after_word(Word::Offset, tokens) {
        Some((_word, following)) => shift_at(alloc, before, following),
        None => after_other(alloc, before, tokens),
    }
}

/// What is no selector and no range, or has an offset, with what follows it.
#[cycle(suffixes)]
#[tactic(auto, using(pr_forms::proofs::Ways::ways))]
pub(crate) fn after_other(
    alloc: Global,
    before: Part,
    tokens: &[Lexed],
) -> Result<(Part, &[Lexed]), Fault<'_, Lexed>>
    ensures read { MatchResult result (λ x. Follows (rule (After Others)) before tokens.now x.0 x.1.now) (FailsAt queries (rule (After Others)) tokens.now) }
    ensures shorter { IfOk result (λ x. length x.1.now ≤ length tokens.now) }
{
    match after(Sign::LeftBracket, tokens) {
        Some((_open, following)) => in_other(alloc, before, following),
        None => Ok((before, tokens)),
    }
}

/// A selector, after the bracket that follows it.
#[tactic(auto, using(pr_forms::proofs::Ways::ways))]
fn in_selector(
    alloc: Global,
    before: Part,
    tokens: &[Lexed],
) -> Result<(Part, &[Lexed]), Fault<'_, Lexed>>
    ensures read { MatchResult result (λ x. Follows (rule InSelector) before tokens.now x.0 x.1.now) (FailsAt queries (rule InSelector) tokens.now) }
    ensures shorter { IfOk result (λ x. length x.1.now ≤ length tokens.now) }
{
    let Some((lasting, following)) = span_in(tokens) else {
        return Err(Fault::Bad(tokens));
    };
    if let Some((close, rest)) = after(Sign::RightBracket, following) {
        return after_range(alloc, with_range(before, lasting.span, close), rest);
    }
    match after(Sign::Colon, following) {
        Some((_colon, rest)) => step_at(alloc, before, lasting.span, rest),
        None => Err(Fault::Bad(following)),
    }
}

/// What is no selector, after the bracket that follows it.
#[cycle(suffixes)]
#[tactic(auto, using(pr_forms::proofs::Ways::ways))]
fn in_other(
    alloc: Global,
    before: Part,
    tokens: &[Lexed],
) -> Result<(Part, &[Lexed]), Fault<'_, Lexed>>
    ensures read { MatchResult result (λ x. Follows (rule InOther) before tokens.now x.0 x.1.now) (FailsAt queries (rule InOther) tokens.now) }
    ensures shorter { IfOk result (λ x. length x.1.now ≤ length tokens.now) }
{
    let Some((lasting, following)) = span_in(tokens) else {
        return Err(Fault::Bad(tokens));
    };
    match after(Sign::Colon, following) {
        Some((_colon, rest)) => step_at(alloc, before, lasting.span, rest),
        None => Err(Fault::Bad(following)),
    }
}

/// A subquery, after its colon.
#[cycle(suffixes)]
#[tactic(auto, using(pr_forms::proofs::Ways::ways))]
fn step_at(
    alloc: Global,
    before: Part,
    span: Span,
    tokens: &[Lexed],
) -> Result<(Part, &[Lexed]), Fault<'_, Lexed>>
    ensures read { MatchResult result (λ x. StepFollows before span tokens.now x.0 x.1.now) (FailsAt queries (rule Step) tokens.now) }
    ensures shorter { IfOk result (λ x. length x.1.now ≤ length tokens.now) }
{
    match span_in(tokens) {
        Some((step, following)) => { closing_at(alloc, before, span, Some(step.span), following) }
        None => closing_at(alloc, before, span, None, tokens),
    }
}

/// A subquery, before its last bracket.
#[cycle(suffixes)]
#[tactic(auto, using(pr_forms::proofs::Ways::ways))]
fn closing_at(
    alloc: Global,
    before: Part,
    span: Span,
    step: Option<Span>,
    tokens: &[Lexed],
) -> Result<(Part, &[Lexed]), Fault<'_, Lexed>>
    ensures read { MatchResult result (λ x. EndFollows before span step tokens.now x.0 x.1.now) (FailsAt queries (rule Closing) tokens.now) }
    ensures shorter { IfOk result (λ x. length x.1.now ≤ length tokens.now) }
{
    match after(Sign::RightBracket, tokens) {
        Some((close, rest)) => {
            let subquery = subquery_made(alloc, before, span, step, close)?;
            after_range(alloc, subquery, rest)
        }
        None => Err(Fault::Bad(tokens)),
    }
}

/// What may have an offset, after the word for it.
#[cycle(suffixes)]
#[tactic(auto, using(pr_forms::proofs::Ways::ways))]
fn shift_at(
    alloc: Global,
    before: Part,
    tokens: &[Lexed],
) -> Result<(Part, &[Lexed]), Fault<'_, Lexed>>
    ensures read { MatchResult result (λ x. Follows (rule Shift) before tokens.now x.0 x.1.now) (FailsAt queries (rule Shift) tokens.now) }
    ensures shorter { IfOk result (λ x. length x.1.now ≤ length tokens.now) }
{
    match shift_in(tokens) {
        Some((offset, rest)) => {
            after_other(alloc, with_offset(before, offset.span, offset.place), rest)
        }
        None => Err(Fault::Bad(tokens)),
    }
}
