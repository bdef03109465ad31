// Lists of labels, and of matchers.
ghost use Rattle.std.specs.Prelude.{◌≡◌, ◌<◌, ◌≤◌, length, IfOk, IfSome, MatchOption, MatchResult};
ghost use Rattle.pr_forms.specs.Form.{rule};
ghost use Rattle.pr_forms.specs.Run.{good};
ghost use Rattle.pr_forms.specs.Language.{Gives, FailsAt};
ghost use Rattle.pr_parse.specs.Seen.{seen};
ghost use Rattle.pr_ast.specs.declared.place.Place.{Place as PlaceOf};
ghost use Rattle.pr_parse.specs.Grammar.{Labels, Matchers, names, labels, matchers, match_text, ended, through, label_list, matchers_end, sign_and_text};
ghost use Rattle.pr_parse.specs.GrammarTable.{queries};

use crate::grammar::kind::{Lexed, through};
use crate::grammar::tokens::{after, label_in, match_in, text_in};
use pr_ast::lex::Sign;
use pr_ast::{MatchText, Place};
use pr_forms::Fault;
use pr_words::{Items, Text};
use std::alloc::{AllocError, Global};

/// The labels at the front, with commas between them and maybe one more, and what follows them.
#[tactic(auto, using(pr_forms::proofs::Ways::ways))]
fn names_in(alloc: Global, tokens: &[Lexed]) -> Result<(Vec<Text>, &[Lexed]), AllocError>
    ensures read { IfOk result (λ x. Gives queries (rule Labels) tokens.now (good (names x.0.items) (seen x.1.now))) }
    ensures shorter { IfOk result (λ x. length x.1.now ≤ length tokens.now) }
{
    let mut found = Vec::new(alloc);
    let mut rest = tokens;
    while let Some(((_place, text), following)) = label_in(false, rest) {
        found.push(Text::from_str(alloc, text)?)?;
        let Some((_comma, after_comma)) = after(Sign::Comma, following) else {
            return Ok((found, following));
        };
        rest = after_comma;
    }
    Ok((found, rest))
}

/// The labels in parentheses at the front, with the place of the closing parenthesis, and what
/// follows them.
#[tactic(auto, using(pr_forms::proofs::Ways::ways))]
pub fn labels_in(
    alloc: Global,
    tokens: &[Lexed],
) -> Result<(Items<Text>, Place, &[Lexed]), Fault<'_, Lexed>>
    ensures read { MatchResult result (λ x. Gives queries label_list tokens.now (good (labels x.0 x.1) (seen x.2.now))) (FailsAt queries label_list tokens.now) }
    ensures shorter { IfOk result (λ x. length x.2.now < length tokens.now) }
{
    let Some((_open, following)) = after(Sign::LeftParen, tokens) else {
        return Err(Fault::Bad(tokens));
    };
    let (found, after_names) = names_in(alloc, following)?;
    match after(Sign::RightParen, after_names) {
        Some((close, rest)) => Ok((Items::new(found), close, rest)),
        None => Err(Fault::Bad(after_names)),
    }
}

/// The matcher at the front, after its label, and what follows it.
#[tactic(auto, using(pr_forms::proofs::Ways::ways))]
fn matcher_in<'a>(
    alloc: Global,
    label: &str,
    tokens: &'a [Lexed],
) -> Result<(MatchText, &'a [Lexed]), Fault<'a, Lexed>>
    ensures read { MatchResult result (λ x. (x.0.label ≡ label.now) × Gives queries sign_and_text tokens.now (good (match_text x.0.op x.0.text) (seen x.1.now))) (FailsAt queries sign_and_text tokens.now) }
    ensures shorter { IfOk result (λ x. length x.1.now < length tokens.now) }
{
    let Some((op, following)) = match_in(tokens) else {
        return Err(Fault::Bad(tokens));
    };
    let Some((text, rest)) = text_in(following) else {
        return Err(Fault::Bad(following));
    };
    let label = Text::from_str(alloc, label)?;
    let text = Text::from_str(alloc, text)?;
    Ok((MatchText { label, op, text }, rest))
}

/// The matchers at the front, with commas between them and maybe one more, and what follows them.
/// `named` says whether a metric's name stands before them.
#[tactic(auto, using(pr_forms::proofs::Ways::ways))]
fn matchers_in(
    alloc: Global,
    named: bool,
    tokens: &[Lexed],
) -> Result<(Vec<MatchText>, &[Lexed]), Fault<'_, Lexed>>
    ensures read { MatchResult result (λ x. Gives queries (rule (Matchers named)) tokens.now (good (matchers x.0.items) (seen x.1.now))) (FailsAt queries (rule (Matchers named)) tokens.now) }
    ensures shorter { IfOk result (λ x. length x.1.now ≤ length tokens.now) }
{
    let mut found = Vec::new(alloc);
    let mut rest = tokens;
    while let Some(((_place, label), following)) = label_in(named, rest) {
        let (matcher, after_matcher) = matcher_in(alloc, label, following)?;
        found.push(matcher)?;
        let Some((_comma, after_comma)) = after(Sign::Comma, after_matcher) else {
            return Ok((found, after_matcher));
        };
        rest = after_comma;
    }
    Ok((found, rest))
}

/// The matchers in braces, after the first of these, with the place of the whole, and what follows
/// them.
#[tactic(auto, using(pr_forms::proofs::Ways::ways))]
pub fn braces_in(
    alloc: Global,
    named: bool,
    opening: Place,
    tokens: &[Lexed],
) -> Result<(Items<MatchText>, Place, &[Lexed]), Fault<'_, Lexed>>
    ensures read { MatchResult result (λ x. (q : PlaceOf) × Gives queries (matchers_end named) tokens.now (good (ended x.0 q) (seen x.2.now)) × (x.1 ≡ through opening q)) (FailsAt queries (matchers_end named) tokens.now) }
    ensures shorter { IfOk result (λ x. length x.2.now < length tokens.now) }
{
    let (found, after_matchers) = matchers_in(alloc, named, tokens)?;
    match after(Sign::RightBrace, after_matchers) {
        Some((close, rest)) => Ok((Items::new(found), through(opening, close), rest)),
        None => Err(Fault::Bad(after_matchers)),
    }
}
