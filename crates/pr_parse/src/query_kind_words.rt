// The printed kinds of why a text is no expression.
#![tactic(auto, using(pr_words::proofs::Fronts::front_on, pr_words::proofs::Fronts::front_after))]

ghost use Rattle.std.specs.Prelude.{◌≡◌, ◌++◌, OnOk, OnErr, length, take};
ghost use Rattle.pr_parse.specs.QueryKinds.{lex_word, parse_word, type_word, type_numbers, type_text, kind_text};
ghost use Rattle.pr_words.specs.Appending.{number_text};

use crate::fault::ParseKind;
use crate::query_kind::QueryKind;
use pr_ast::lex::LexKind;
use pr_types::TypeKind;
use pr_words::{push_number_after, whole_or_none};
use std::alloc::AllocError;

#[tactic(auto, unfolding(crate::specs::QueryKinds::lex_word))]
fn lex_word(kind: LexKind) -> &'static str
    ensures { result.now ≡ lex_word kind }
{
    match kind {
        LexKind::BadChar => "BadChar",
        LexKind::OpenText => "OpenText",
        LexKind::BadEscape => "BadEscape",
        LexKind::BadNumber => "BadNumber",
        LexKind::TooWide => "TooWide",
        LexKind::BadSpan => "BadSpan",
        LexKind::SpanTooLong => "SpanTooLong",
    }
}

#[tactic(auto, unfolding(crate::specs::QueryKinds::parse_word))]
fn parse_word(kind: ParseKind) -> &'static str
    ensures { result.now ≡ parse_word kind }
{
    match kind {
        ParseKind::Unexpected => "Unexpected",
        ParseKind::End => "End",
        ParseKind::UnknownFunction => "UnknownFunction",
        ParseKind::Misplaced => "Misplaced",
        ParseKind::TwoNames => "TwoNames",
        ParseKind::ZeroSpan => "ZeroSpan",
        ParseKind::TooDeep => "TooDeep",
    }
}

#[tactic(auto, unfolding(crate::specs::QueryKinds::type_word))]
fn type_word(kind: TypeKind) -> &'static str
    ensures { result.now ≡ type_word kind }
{
    match kind {
        TypeKind::WantScalar => "WantScalar",
        TypeKind::WantVector => "WantVector",
        TypeKind::WantRange => "WantRange",
        TypeKind::WantText => "WantText",
        TypeKind::Arguments { .. } => "Arguments",
        TypeKind::BoolNeeded => "BoolNeeded",
        TypeKind::BoolMisplaced => "BoolMisplaced",
        TypeKind::SetOnScalar => "SetOnScalar",
        TypeKind::GroupOnSet => "GroupOnSet",
        TypeKind::MatchOnScalar => "MatchOnScalar",
        TypeKind::CopiedInOn => "CopiedInOn",
        TypeKind::NoMatcher => "NoMatcher",
        TypeKind::BadPattern => "BadPattern",
        TypeKind::BadLabel => "BadLabel",
        TypeKind::NotInstant => "NotInstant",
        TypeKind::Reach { .. } => "Reach",
        TypeKind::ZeroStep => "ZeroStep",
    }
}

fn push_arguments(text: &mut Vec<u8>, have: u64, least: u32, most: u32) -> Result<(), AllocError>
    ensures ok { OnOk result (text.new.items ≡ text.old.items ++ (number_text have ++ number_text least ++ number_text most)) }
    ensures front { take (length text.old.items) text.new.items ≡ text.old.items }
{
    push_number_after(text, have)?;
    push_number_after(text, u64::from(least))?;
    push_number_after(text, u64::from(most))
}

fn push_reach(text: &mut Vec<u8>, needed: u64, kept: u64) -> Result<(), AllocError>
    ensures ok { OnOk result (text.new.items ≡ text.old.items ++ (number_text needed ++ number_text kept)) }
    ensures front { take (length text.old.items) text.new.items ≡ text.old.items }
{
    push_number_after(text, needed)?;
    push_number_after(text, kept)
}

// What is told after the name of a kind.
fn push_type_numbers(text: &mut Vec<u8>, kind: TypeKind) -> Result<(), AllocError>
    ensures ok { OnOk result (text.new.items ≡ text.old.items ++ type_numbers kind) }
    ensures front { take (length text.old.items) text.new.items ≡ text.old.items }
{
    match kind {
        TypeKind::Arguments { have, least, most } => push_arguments(text, have, least, most),
        TypeKind::Reach { needed, kept } => push_reach(text, needed, kept),
        _ => Ok(()),
    }
}

fn push_type_kind(text: &mut Vec<u8>, kind: TypeKind) -> Result<(), AllocError>
    ensures ok { OnOk result (text.new.items ≡ text.old.items ++ type_text kind) }
    ensures front { take (length text.old.items) text.new.items ≡ text.old.items }
{
    text.extend_from_slice(type_word(kind).as_bytes())?;
    push_type_numbers(text, kind)
}

// Why a text is no expression, without memory a part of it.
fn push_kind(text: &mut Vec<u8>, kind: QueryKind) -> Result<(), AllocError>
    ensures ok { OnOk result (text.new.items ≡ text.old.items ++ kind_text kind) }
    ensures front { take (length text.old.items) text.new.items ≡ text.old.items }
{
    match kind {
        QueryKind::Lex { kind } => text.extend_from_slice(lex_word(kind).as_bytes()),
        QueryKind::Parse { kind } => text.extend_from_slice(parse_word(kind).as_bytes()),
        QueryKind::Typing { kind } => push_type_kind(text, kind),
    }
}

/// Appends why a text is no expression. Want of memory alone is an error, and then nothing is
/// appended.
pub fn push_query_kind(text: &mut Vec<u8>, kind: QueryKind) -> Result<(), AllocError>
    ensures ok { OnOk result (text.new.items ≡ text.old.items ++ kind_text kind) }
    ensures err { OnErr result (text.new.items ≡ text.old.items) }
{
    let before = text.len();
    let written = push_kind(text, kind);
    whole_or_none(text, before, written)
}
