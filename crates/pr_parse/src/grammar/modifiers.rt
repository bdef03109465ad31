// What stands between an operator and its right side.
ghost use Rattle.std.specs.Prelude.{◌≡◌, ◌≤◌, length, IfOk, MatchResult, false};
ghost use Rattle.pr_forms.specs.Form.{rule};
ghost use Rattle.pr_forms.specs.Language.{FailsAt};
ghost use Rattle.pr_parse.specs.declared.grammar.kind.Level.{Level as LevelOf};
ghost use Rattle.pr_parse.specs.Grammar.{Modified, Matched, Grouped, Included, operand, grouped, included, tighter};
ghost use Rattle.pr_parse.specs.GrammarTable.{queries};
ghost use Rattle.pr_parse.specs.private.GrammarReader.{HasSide};

use crate::grammar::kind::Lexed;
use crate::grammar::lists::labels_in;
use crate::grammar::tokens::{after, after_word, matching_in, side_in};
use pr_ast::labels::{Card, Matching};
use pr_ast::lex::{Sign, Word};
use pr_forms::Fault;
use pr_words::{Items, Text};
use std::alloc::Global;

/// What stands between an operator and its right side.
#[derive(Drop, Debug)]
pub struct Modifiers {
    pub with_bool: bool,
    pub matching: Option<Matching>,
    /// Whether the right side may begin with a parenthesis.
    pub opens: bool,
}

/// The labels that are included from the side with one element, and whether the right side may
/// begin with a parenthesis.
#[tactic(auto, using(pr_forms::proofs::Ways::ways))]
fn included_in(
    alloc: Global,
    tokens: &[Lexed],
) -> Result<(Items<Text>, bool, &[Lexed]), Fault<'_, Lexed>>
    ensures read { (l : LevelOf) → MatchResult result (λ x. HasSide (rule (Included l)) tokens.now (included x.0) (rule (tighter l x.1)) x.2.now) (FailsAt queries (rule (Included l)) tokens.now) }
    ensures shorter { IfOk result (λ x. length x.2.now ≤ length tokens.now) }
{
    let Some((_open, _following)) = after(Sign::LeftParen, tokens) else {
        return Ok((Items::empty(alloc), false, tokens));
    };
    let (found, _close, rest) = labels_in(alloc, tokens)?;
    Ok((found, true, rest))
}

/// Which side has many elements, what is included, and whether the right side may begin with a
/// parenthesis.
#[tactic(auto, using(pr_forms::proofs::Ways::ways))]
fn sides_in(
    alloc: Global,
    tokens: &[Lexed],
) -> Result<(Card, Items<Text>, bool, &[Lexed]), Fault<'_, Lexed>>
    ensures read { (l : LevelOf) → MatchResult result (λ x. HasSide (rule (Grouped l)) tokens.now (grouped x.0 x.1) (rule (tighter l x.2)) x.3.now) (FailsAt queries (rule (Grouped l)) tokens.now) }
    ensures shorter { IfOk result (λ x. length x.3.now ≤ length tokens.now) }
{
    let Some((card, following)) = side_in(tokens) else {
        return Ok((Card::OneToOne, Items::empty(alloc), true, tokens));
    };
    let (include, opens, rest) = included_in(alloc, following)?;
    Ok((card, include, opens, rest))
}

/// How two vectors are matched, where that is said, and whether the right side may begin with a
/// parenthesis.
#[tactic(auto, using(pr_forms::proofs::Ways::ways))]
fn matched_in(
    alloc: Global,
    with_bool: bool,
    tokens: &[Lexed],
) -> Result<(Modifiers, &[Lexed]), Fault<'_, Lexed>>
    ensures read { (l : LevelOf) → MatchResult result (λ x. (x.0.with_bool ≡ with_bool) × HasSide (rule (Matched l)) tokens.now (operand false x.0.matching) (rule (tighter l x.0.opens)) x.1.now) (FailsAt queries (rule (Matched l)) tokens.now) }
    ensures shorter { IfOk result (λ x. length x.1.now ≤ length tokens.now) }
{
    let Some((on, following)) = matching_in(tokens) else {
        return Ok((
            Modifiers {
                with_bool,
                matching: None,
                opens: true,
            },
            tokens,
        ));
    };
    let (found, _close, after_names) = labels_in(alloc, following)?;
    let (card, include, opens, rest) = sides_in(alloc, after_names)?;
    let matching = Matching {
        on,
        names: found,
        card,
        include,
    };
    Ok((
        Modifiers {
            with_bool,
            matching: Some(matching),
            opens,
        },
        rest,
    ))
}

/// What stands between an operator and its right side, and what follows it.
#[tactic(auto, using(pr_forms::proofs::Ways::ways))]
pub fn modifiers_in(
    alloc: Global,
    tokens: &[Lexed],
) -> Result<(Modifiers, &[Lexed]), Fault<'_, Lexed>>
    ensures read { (l : LevelOf) → MatchResult result (λ x. HasSide (rule (Modified l)) tokens.now (operand x.0.with_bool x.0.matching) (rule (tighter l x.0.opens)) x.1.now) (FailsAt queries (rule (Modified l)) tokens.now) }
    ensures shorter { IfOk result (λ x. length x.1.now ≤ length tokens.now) }
{
    match after_word(Word::Bool, tokens) {
        Some((_word, following)) => matched_in(alloc, true, following),
        None => matched_in(alloc, false, tokens),
    }
}
