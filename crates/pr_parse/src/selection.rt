// Literals and selectors.
ghost use Rattle.std.specs.Prelude.{◌≡◌, ◌<◌, ◌≤◌, length, List, IfOk, IfSome, MatchOption, MatchResult};
ghost use Rattle.pr_forms.specs.Form.{rule, token};
ghost use Rattle.pr_forms.specs.Run.{good};
ghost use Rattle.pr_forms.specs.Language.{Gives, FailsAt, Takes, Lacks};
ghost use Rattle.pr_ast.specs.Tree.{tree_of};
ghost use Rattle.pr_parse.specs.Seen.{seen};
ghost use Rattle.pr_parse.specs.Grammar.{QueryValue, Suffix, Braced, Selection, named, word, selection, applied_to, literal_at, unnamed_selector};
ghost use Rattle.pr_parse.specs.GrammarTable.{queries};
ghost use Rattle.pr_parse.specs.private.Reader.{value_of, braced_value};

use crate::grammar::{Lexed, after, braces_in, through};
use crate::made::{Part, literal_made, selector_made};
use crate::suffix::after_selector;
use pr_ast::lex::Sign;
use pr_ast::{MatchText, Place};
use pr_forms::Fault;
use pr_words::{Items, Text};
use std::alloc::{AllocError, Global};

/// The number or string at the front, where there is one, and what follows it.
pub(crate) fn literal_in(
    alloc: Global,
    tokens: &[Lexed],
) -> Result<Option<(Part, &[Lexed])>, AllocError>
    ensures read { IfOk result (λ o. MatchOption o (Lacks queries (token literal_at) tokens.now) (λ x. Takes queries (token literal_at) tokens.now (value_of x.0) x.1.now)) }
    ensures shorter { IfOk result (λ o. IfSome o (λ x. length x.1.now < length tokens.now)) }
{
    let Some((first, rest)) = tokens.split_first() else {
        return Ok(None);
    };
    match literal_made(alloc, first)? {
        Some(part) => Ok(Some((part, rest))),
        None => Ok(None),
    }
}

/// The matchers that follow a metric's name, where there are any, with their place, and what
/// follows them.
#[tactic(auto, using(pr_forms::proofs::Ways::ways))]
fn braced_in(
    alloc: Global,
    tokens: &[Lexed],
) -> Result<(Option<(Items<MatchText>, Place)>, &[Lexed]), Fault<'_, Lexed>>
    ensures read { MatchResult result (λ x. Gives queries (rule Braced) tokens.now (good (braced_value x.0) (seen x.1.now))) (FailsAt queries (rule Braced) tokens.now) }
    ensures shorter { IfOk result (λ x. length x.1.now ≤ length tokens.now) }
{
    match after(Sign::LeftBrace, tokens) {
        Some((opening, following)) => {
            let (found, place, rest) = braces_in(alloc, true, opening, following)?;
            Ok((Some((found, place)), rest))
        }
        None => Ok((None, tokens)),
    }
}

/// The selector of a metric's name, with its matchers.
fn named_made(
    alloc: Global,
    name: Place,
    text: &str,
    found: Option<(Items<MatchText>, Place)>,
) -> Result<Part, AllocError>
    ensures { IfOk result (λ x. (ss : List Suffix) → named (word name text.now) (selection (braced_value found) ss) ≡ applied_to x.place (tree_of x.expr) ss) }
{
    let text = Text::from_str(alloc, text)?;
    match found {
        Some((matchers, place)) => Ok(selector_made(through(name, place), Some(text), matchers)),
        None => Ok(selector_made(name, Some(text), Items::empty(alloc))),
    }
}

/// The selector of a metric's name, with all that follows it.
#[tactic(auto, using(pr_forms::proofs::Ways::ways))]
pub(crate) fn selection_in<'a>(
    alloc: Global,
    name: Place,
    text: &str,
    tokens: &'a [Lexed],
) -> Result<(Part, &'a [Lexed]), Fault<'a, Lexed>>
    ensures read { MatchResult result
        (λ x. (v : QueryValue) × ((ss : List Suffix) × (Gives queries (rule Selection) tokens.now (good (selection v ss) (seen x.1.now)) × (value_of x.0 ≡ named (word name text.now) (selection v ss)))))
        (FailsAt queries (rule Selection) tokens.now) }
    ensures shorter { IfOk result (λ x. length x.1.now ≤ length tokens.now) }
{
    let (found, following) = braced_in(alloc, tokens)?;
    let selector = named_made(alloc, name, text, found)?;
    after_selector(alloc, selector, following)
}

/// The selector without a metric's name at the front, with all that follows it.
#[tactic(auto, using(pr_forms::proofs::Ways::ways))]
pub(crate) fn unnamed_in(
    alloc: Global,
    tokens: &[Lexed],
) -> Result<(Part, &[Lexed]), Fault<'_, Lexed>>
    ensures read { MatchResult result (λ x. Gives queries unnamed_selector tokens.now (good (value_of x.0) (seen x.1.now))) (FailsAt queries unnamed_selector tokens.now) }
    ensures shorter { IfOk result (λ x. length x.1.now < length tokens.now) }
{
    let Some((opening, following)) = after(Sign::LeftBrace, tokens) else {
        return Err(Fault::Bad(tokens));
    };
    let (matchers, place, rest) = braces_in(alloc, false, opening, following)?;
    after_selector(alloc, selector_made(place, None, matchers), rest)
}
