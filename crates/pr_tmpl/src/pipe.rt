//! The pipes of a template.
ghost use Rattle.std.specs.Prelude.{◌<◌, ◌≤◌, [], codes, length, IfOk, IfSome, IsTrue, MatchResult};
ghost use Rattle.std.specs.Str.{IsUtf8};
ghost use Rattle.pr_labels.specs.pr_forms.Form.{rule, nothing, chosen};
ghost use Rattle.pr_labels.specs.pr_forms.Run.{good, bad};
ghost use Rattle.pr_tmpl.specs.Pieces.{pieces};
ghost use Rattle.pr_tmpl.specs.declared.kind.TemplateByte.TheVariants.{Bar};
ghost use Rattle.pr_tmpl.specs.TemplateText.{operand, call, parts, piped, spelled, production, AnOperand, ACall, Scale, Formatted, FromOperand, FromCall, After, Next, Text as TextRule, dollar_rule, dot_rule, external_rule, name_goes_on};
ghost use Rattle.pr_labels.specs.pr_words.private.Reader.{KeepsText};
ghost use Rattle.pr_tmpl.specs.private.Letters.{IsNoSign, are_ascii};
ghost use Rattle.pr_tmpl.specs.private.Reader.{Gives, FailsAt, Hands};
ghost use Rattle.pr_tmpl.specs.private.Pipes.{after_gap, after_bar, a_pipe, IsCall, IsCalls, IsFromOperand, IsPipe};

use crate::kind::TemplateByte;
use crate::letter::front;
use crate::quoted::{content_in, format_in};
use crate::template::{Call, Operand};
use crate::words::{blanks_in, gap_in, label_in, sign_in, word_in};
use pr_labels::forms::Fault;
use pr_labels::words_crate::Items;
use std::alloc::Global;

/// The operand whose word ends here.
fn operand_word<'a>(
    word: &[u8],
    found: Operand,
    text: &'a [u8],
) -> Result<(Operand, &'a [u8]), Fault<'a, u8>>
    requires { IsTrue (are_ascii word.now) }
    ensures read { MatchResult result (λ x. Gives (spelled word.now (nothing (operand found))) text.now (good (operand x.0) (pieces x.1.now)))
        (FailsAt (spelled word.now (nothing (operand found))) text.now) }
    ensures shorter { IfOk result (λ x. length x.1.now ≤ length text.now) }
    ensures text { IfOk result (λ x. KeepsText text.now x.1.now) }
{
    match word_in(word, text) {
        Ok(rest) => Ok((found, rest)),
        Err(rest) => Err(Fault::Bad(rest)),
    }
}

/// What `external` goes on as.
fn external_part(alloc: Global, text: &[u8]) -> Result<(Operand, &[u8]), Fault<'_, u8>>
    ensures read { MatchResult result (λ x. Gives (chosen external_rule name_goes_on) text.now (good (operand x.0) (pieces x.1.now))) (FailsAt (chosen external_rule name_goes_on) text.now) }
    ensures shorter { IfOk result (λ x. length x.1.now ≤ length text.now) }
    ensures text { IfOk result (λ x. KeepsText text.now x.1.now) }
{
    let Some((kind, _byte, rest)) = front(text) else {
        return Err(Fault::Bad(text));
    };
    match kind {
        TemplateByte::CapitalL => {
            let (name, end) = label_in(alloc, rest)?;
            Ok((Operand::ExternalLabel(name), end))
        }
        TemplateByte::CapitalU => operand_word(b"RL", Operand::ExternalUrl, rest),
        _ => Err(Fault::Bad(text)),
    }
}

/// What stands after the first letter of `external`.
fn external_operand(alloc: Global, text: &[u8]) -> Result<(Operand, &[u8]), Fault<'_, u8>>
    ensures read { MatchResult result (λ x. Gives (spelled (codes "xternal") (chosen external_rule name_goes_on)) text.now (good (operand x.0) (pieces x.1.now))) (FailsAt (spelled (codes "xternal") (chosen external_rule name_goes_on)) text.now) }
    ensures shorter { IfOk result (λ x. length x.1.now ≤ length text.now) }
    ensures text { IfOk result (λ x. KeepsText text.now x.1.now) }
{
    match word_in(b"xternal", text) {
        Ok(rest) => external_part(alloc, rest),
        Err(rest) => Err(Fault::Bad(rest)),
    }
}

/// What stands after a `$`.
fn dollared(alloc: Global, text: &[u8]) -> Result<(Operand, &[u8]), Fault<'_, u8>>
    ensures read { MatchResult result (λ x. Gives (chosen dollar_rule name_goes_on) text.now (good (operand x.0) (pieces x.1.now))) (FailsAt (chosen dollar_rule name_goes_on) text.now) }
    ensures shorter { IfOk result (λ x. length x.1.now ≤ length text.now) }
    ensures text { IfOk result (λ x. KeepsText text.now x.1.now) }
{
    let Some((kind, _byte, rest)) = front(text) else {
        return Err(Fault::Bad(text));
    };
    match kind {
        TemplateByte::SmallV => operand_word(b"alue", Operand::Value, rest),
        TemplateByte::SmallL => {
            let (name, end) = label_in(alloc, rest)?;
            Ok((Operand::Label(name), end))
        }
        TemplateByte::SmallE => external_operand(alloc, rest),
        _ => Err(Fault::Bad(text)),
    }
}

/// What stands after a point.
fn dotted(alloc: Global, text: &[u8]) -> Result<(Operand, &[u8]), Fault<'_, u8>>
    ensures read { MatchResult result (λ x. Gives (chosen dot_rule name_goes_on) text.now (good (operand x.0) (pieces x.1.now))) (FailsAt (chosen dot_rule name_goes_on) text.now) }
    ensures shorter { IfOk result (λ x. length x.1.now ≤ length text.now) }
    ensures text { IfOk result (λ x. KeepsText text.now x.1.now) }
{
    let Some((kind, _byte, rest)) = front(text) else {
        return Err(Fault::Bad(text));
    };
    match kind {
        TemplateByte::CapitalV => operand_word(b"alue", Operand::Value, rest),
        TemplateByte::CapitalL => {
            let (name, end) = label_in(alloc, rest)?;
            Ok((Operand::Label(name), end))
        }
        TemplateByte::CapitalE => external_operand(alloc, rest),
        _ => Err(Fault::Bad(text)),
    }
}

/// The operand at the front, and what follows it.
fn operand_in(alloc: Global, text: &[u8]) -> Result<(Operand, &[u8]), Fault<'_, u8>>
    requires { IsUtf8 text.now }
    ensures read { MatchResult result (λ x. Gives (rule AnOperand) text.now (good (operand x.0) (pieces x.1.now))) (FailsAt (rule AnOperand) text.now) }
    ensures shorter { IfOk result (λ x. length x.1.now ≤ length text.now) }
    ensures text { IfOk result (λ x. IsUtf8 x.1.now) }
{
    let Some((kind, _byte, rest)) = front(text) else {
        return Err(Fault::Bad(text));
    };
    match kind {
        TemplateByte::Quote => {
            let (words, end) = content_in(alloc, rest)?;
            Ok((Operand::Words(words), end))
        }
        TemplateByte::Dollar => dollared(alloc, rest),
        TemplateByte::Point => dotted(alloc, rest),
        _ => Err(Fault::Bad(text)),
    }
}

/// The call whose word ends here.
fn call_word<'a>(
    word: &[u8],
    found: Call,
    text: &'a [u8],
) -> Result<(Call, &'a [u8]), Fault<'a, u8>>
    requires { IsTrue (are_ascii word.now) }
    ensures read { MatchResult result (λ x. Gives (spelled word.now (nothing (call found))) text.now (good (call x.0) (pieces x.1.now)))
        (FailsAt (spelled word.now (nothing (call found))) text.now) }
    ensures shorter { IfOk result (λ x. length x.1.now ≤ length text.now) }
    ensures text { IfOk result (λ x. KeepsText text.now x.1.now) }
{
    match word_in(word, text) {
        Ok(rest) => Ok((found, rest)),
        Err(rest) => Err(Fault::Bad(rest)),
    }
}

/// What `humanize` goes on as.
fn scale_in(text: &[u8]) -> Result<(Call, &[u8]), Fault<'_, u8>>
    ensures read { MatchResult result (λ x. Gives (rule Scale) text.now (good (call x.0) (pieces x.1.now))) (FailsAt (rule Scale) text.now) }
    ensures shorter { IfOk result (λ x. length x.1.now ≤ length text.now) }
    ensures text { IfOk result (λ x. KeepsText text.now x.1.now) }
{
    let Some((kind, _byte, rest)) = front(text) else {
        return Ok((Call::Humanize, text));
    };
    match kind {
        TemplateByte::CapitalP => call_word(b"ercentage", Call::HumanizePercentage, rest),
        TemplateByte::CapitalD => call_word(b"uration", Call::HumanizeDuration, rest),
        _ => Ok((Call::Humanize, text)),
    }
}

/// What stands after the first letter of `humanize`.
fn humanize_call(text: &[u8]) -> Result<(Call, &[u8]), Fault<'_, u8>>
    ensures read { MatchResult result (λ x. Gives (spelled (codes "umanize") (rule Scale)) text.now (good (call x.0) (pieces x.1.now)))
        (FailsAt (spelled (codes "umanize") (rule Scale)) text.now) }
    ensures shorter { IfOk result (λ x. length x.1.now ≤ length text.now) }
    ensures text { IfOk result (λ x. KeepsText text.now x.1.now) }
{
    match word_in(b"umanize", text) {
        Ok(rest) => scale_in(rest),
        Err(rest) => Err(Fault::Bad(rest)),
    }
}

/// The format of a `printf`, after the blanks before it.
fn format_after_gap(alloc: Global, text: &[u8]) -> Result<(Call, &[u8]), Fault<'_, u8>>
    requires { IsUtf8 text.now }
    ensures read { MatchResult result (λ x. Gives (after_gap (rule Formatted)) text.now (good (call x.0) (pieces x.1.now))) (FailsAt (after_gap (rule Formatted)) text.now) }
    ensures shorter { IfOk result (λ x. length x.1.now ≤ length text.now) }
    ensures text { IfOk result (λ x. IsUtf8 x.1.now) }
{
    match gap_in(text) {
        Ok(at) => {
            let (format, rest) = format_in(alloc, at)?;
            Ok((Call::Printf(format), rest))
        }
        Err(rest) => Err(Fault::Bad(rest)),
    }
}

/// What stands after the first letter of `printf`.
fn printf_call(alloc: Global, text: &[u8]) -> Result<(Call, &[u8]), Fault<'_, u8>>
    requires { IsUtf8 text.now }
    ensures read { MatchResult result (λ x. Gives (spelled (codes "rintf") (after_gap (rule Formatted))) text.now (good (call x.0) (pieces x.1.now)))
        (FailsAt (spelled (codes "rintf") (after_gap (rule Formatted))) text.now) }
    ensures shorter { IfOk result (λ x. length x.1.now ≤ length text.now) }
    ensures text { IfOk result (λ x. IsUtf8 x.1.now) }
{
    match word_in(b"rintf", text) {
        Ok(rest) => format_after_gap(alloc, rest),
        Err(rest) => Err(Fault::Bad(rest)),
    }
}

/// The call at the front, and what follows it.
fn call_in(alloc: Global, text: &[u8]) -> Result<(Call, &[u8]), Fault<'_, u8>>
    requires { IsUtf8 text.now }
    ensures read { MatchResult result (λ x. Gives (rule ACall) text.now (good (call x.0) (pieces x.1.now))) (FailsAt (rule ACall) text.now) }
    ensures shorter { IfOk result (λ x. length x.1.now ≤ length text.now) }
    ensures text { IfOk result (λ x. IsUtf8 x.1.now) }
{
    let Some((kind, _byte, rest)) = front(text) else {
        return Err(Fault::Bad(text));
    };
    match kind {
        TemplateByte::SmallP => printf_call(alloc, rest),
        TemplateByte::SmallH => humanize_call(rest),
        _ => Err(Fault::Bad(text)),
    }
}

/// The call after a bar, and what follows it and its blanks.
fn call_between(alloc: Global, text: &[u8]) -> Result<(Call, &[u8]), Fault<'_, u8>>
    requires { IsUtf8 text.now }
    ensures read { MatchResult result (λ x. IsCall text.now x.0 x.1.now) (FailsAt after_bar text.now) }
    ensures shorter { IfOk result (λ x. length x.1.now ≤ length text.now) }
    ensures text { IfOk result (λ x. IsUtf8 x.1.now) }
{
    let at = blanks_in(text);
    let (call, after) = call_in(alloc, at)?;
    Ok((call, blanks_in(after)))
}

/// What follows the two braces at the front, where no bar stands.
fn braces_in(text: &[u8]) -> Result<&[u8], &[u8]>
    requires { IsNoSign Bar text.now }
    ensures read { MatchResult result (λ rest. Hands (rule Next) text.now (piped []) (rule TextRule) rest.now parts) (λ rest. Gives (rule Next) text.now (bad (pieces rest.now))) }
    ensures shorter { IfOk result (λ rest. length rest.now ≤ length text.now) }
    ensures text { IfOk result (λ rest. KeepsText text.now rest.now) }
{
    match sign_in(TemplateByte::Close, text) {
        Some(second) => match sign_in(TemplateByte::Close, second) {
            Some(end) => Ok(end),
            None => Err(second),
        },
        None => Err(text),
    }
}

/// The calls of a pipe with those before, and what follows its braces.
fn calls_in(
    alloc: Global,
    before: Items<Call>,
    text: &[u8],
) -> Result<(Items<Call>, &[u8]), Fault<'_, u8>>
    requires { IsUtf8 text.now }
    ensures read { MatchResult result (λ x. IsCalls before text.now x.0 x.1.now) (FailsAt (rule After) text.now) }
    ensures shorter { IfOk result (λ x. length x.1.now ≤ length text.now) }
    ensures text { IfOk result (λ x. IsUtf8 x.1.now) }
{
    let mut calls = before;
    let mut rest = blanks_in(text);
    while let Some(at) = sign_in(TemplateByte::Bar, rest) {
        let (call, next) = call_between(alloc, at)?;
        calls.push(call)?;
        rest = next;
    }
    match braces_in(rest) {
        Ok(end) => Ok((calls, end)),
        Err(end) => Err(Fault::Bad(end)),
    }
}

/// A pipe from its operand on, with the calls before it, and what follows its braces.
fn from_operand(
    alloc: Global,
    before: Items<Call>,
    text: &[u8],
) -> Result<(Operand, Items<Call>, &[u8]), Fault<'_, u8>>
    requires { IsUtf8 text.now }
    ensures read { MatchResult result (λ x. IsFromOperand before text.now x.0 x.1 x.2.now) (FailsAt (production FromOperand) text.now) }
    ensures shorter { IfOk result (λ x. length x.2.now ≤ length text.now) }
    ensures text { IfOk result (λ x. IsUtf8 x.2.now) }
{
    let (operand, rest) = operand_in(alloc, text)?;
    let (calls, end) = calls_in(alloc, before, rest)?;
    Ok((operand, calls, end))
}

/// A pipe from its call before the operand on, and what follows its braces.
fn from_call(alloc: Global, text: &[u8]) -> Result<(Operand, Items<Call>, &[u8]), Fault<'_, u8>>
    requires { IsUtf8 text.now }
    ensures read { MatchResult result (λ x. IsPipe (production FromCall) text.now x.0 x.1 x.2.now) (FailsAt (production FromCall) text.now) }
    ensures shorter { IfOk result (λ x. length x.2.now ≤ length text.now) }
    ensures text { IfOk result (λ x. IsUtf8 x.2.now) }
{
    let (call, after) = call_in(alloc, text)?;
    let mut calls = Items::empty(alloc);
    calls.push(call)?;
    match gap_in(after) {
        Ok(rest) => from_operand(alloc, calls, rest),
        Err(rest) => Err(Fault::Bad(rest)),
    }
}

/// A pipe from what stands after its braces on, and what follows it.
pub(crate) fn pipe_in(
    alloc: Global,
    text: &[u8],
) -> Result<(Operand, Items<Call>, &[u8]), Fault<'_, u8>>
    requires { IsUtf8 text.now }
    ensures read { MatchResult result (λ x. IsPipe a_pipe text.now x.0 x.1 x.2.now) (FailsAt a_pipe text.now) }
    ensures shorter { IfOk result (λ x. length x.2.now ≤ length text.now) }
    ensures text { IfOk result (λ x. IsUtf8 x.2.now) }
{
    let at = blanks_in(text);
    let Some((kind, _byte, _rest)) = front(at) else {
        return Err(Fault::Bad(at));
    };
    match kind {
        TemplateByte::Quote => from_operand(alloc, Items::empty(alloc), at),
        TemplateByte::Dollar => from_operand(alloc, Items::empty(alloc), at),
        TemplateByte::Point => from_operand(alloc, Items::empty(alloc), at),
        TemplateByte::SmallP => from_call(alloc, at),
        TemplateByte::SmallH => from_call(alloc, at),
        _ => Err(Fault::Bad(at)),
    }
}
