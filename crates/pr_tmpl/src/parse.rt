//! Reading a template.
ghost use Rattle.std.specs.Prelude.{◌≡◌, ◌<◌, ◌≤◌, ◌++◌, [], Some, length, IfOk, IfErr, IfSome, IsTrue, MatchOption, MatchResult};
ghost use Rattle.pr_labels.specs.pr_forms.Form.{rule};
ghost use Rattle.pr_labels.specs.pr_forms.Run.{good};
ghost use Rattle.std.specs.Str.{IsUtf8};
ghost use Rattle.pr_labels.specs.pr_words.private.Reader.{IsMemory, KeepsText, SplitsText};
ghost use Rattle.pr_tmpl.specs.private.Reader.{Gives, FailsAt, CutsText};
ghost use Rattle.pr_tmpl.specs.private.Parsed.{opens, words_part, IsStep, IsTurn, IsOpened, IsAllWords};
ghost use Rattle.pr_tmpl.specs.private.Faults.{IsNoTemplate};
ghost use Rattle.pr_tmpl.specs.TemplateText.{parts, Text as TextRule};
ghost use Rattle.pr_tmpl.specs.TemplateReading.{template_parts};

use crate::kind::TemplateByte;
use crate::letter::{Letter, letter_in};
use crate::pipe::pipe_in;
use crate::template::{Part, Template};
use pr_labels::forms::{Fault, place_of};
use pr_labels::words_crate::Text;
use std::alloc::{AllocError, Global};

/// Why a text is no template.
#[derive(Clone, Copy, PartialEq, Eq, Debug)]
pub enum TmplError {
    /// The text can go on as a template up to this byte, and not with it. The text's
    /// length, where it ends too early.
    BadTemplate { at: usize },
    Memory,
}

impl From<AllocError> for TmplError {
    ghost use Rattle.std.specs.Prelude.{◌≡◌};
    ghost use Rattle.pr_tmpl.specs.declared.parse.TmplError.TheVariants.{Memory};

    ghost from_gives = { λ _ e. e ≡ Memory };

    fn from(_error: AllocError) -> TmplError {
        TmplError::Memory
    }
}

/// Whether a letter is an opening brace.
fn is_open(letter: &Letter) -> bool
    ensures { result ≡ opens letter.now }
{
    matches!(letter, Letter::Plain(TemplateByte::Open, _))
}

/// Whether an opening brace is the letter at the front, and what follows that; none at the end.
fn step_in(alloc: Global, text: &[u8]) -> Result<Option<(bool, &[u8])>, Fault<'_, u8>>
    ensures read { IfOk result (λ o. MatchOption o (text.now ≡ []) (λ x. IsStep text.now x.0 x.1.now)) }
    ensures memory { IfErr result IsMemory }
    ensures shorter { IfOk result (λ o. IfSome o (λ x. length x.1.now < length text.now)) }
    ensures text { IfOk result (λ o. IfSome o (λ x. IsTrue x.0 → CutsText text.now x.1.now)) }
{
    let Some((letter, rest)) = letter_in(alloc, text)? else {
        return Ok(None);
    };
    let brace = is_open(&letter);
    Ok(Some((brace, rest)))
}

/// Whether the braces of a pipe stand at the front, and what follows them, or words that stand
/// there; none where the text ends with no pipe.
fn turn_in(alloc: Global, text: &[u8]) -> Result<Option<(bool, &[u8])>, Fault<'_, u8>>
    ensures read { IfOk result (λ o. MatchOption o (IsAllWords text.now) (λ x. IsTurn text.now x.0 x.1.now)) }
    ensures memory { IfErr result IsMemory }
    ensures shorter { IfOk result (λ o. IfSome o (λ x. length x.1.now < length text.now)) }
    ensures text { IfOk result (λ o. IfSome o (λ x. IsTrue x.0 → CutsText text.now x.1.now)) }
{
    let Some((brace, after)) = step_in(alloc, text)? else {
        return Ok(None);
    };
    if !brace {
        return Ok(Some((false, after)));
    }
    let Some((second, next)) = step_in(alloc, after)? else {
        return Ok(None);
    };
    Ok(Some((second, next)))
}

/// What stands before the first pipe of a text, and what follows the braces that open it; none
/// where there is no pipe.
fn words_in(alloc: Global, text: &[u8]) -> Result<Option<(&[u8], &[u8])>, Fault<'_, u8>>
    ensures read { IfOk result (λ o. MatchOption o (IsAllWords text.now) (λ x. IsOpened text.now x.0.now x.1.now)) }
    ensures memory { IfErr result IsMemory }
    ensures shorter { IfOk result (λ o. IfSome o (λ x. length x.1.now < length text.now)) }
    ensures text { IfOk result (λ o. IfSome o (λ x. SplitsText text.now x.0.now x.1.now)) }
{
    let mut rest = text;
    while let Some((pipe, after)) = turn_in(alloc, rest)? {
        if pipe {
            return Ok(Some((&text[..text.len() - rest.len()], after)));
        }
        rest = after;
    }
    Ok(None)
}

/// Puts words at the end of the parts, where there are any.
fn push_words(alloc: Global, parts: &mut Vec<Part>, words: &[u8]) -> Result<(), AllocError>
    requires { IsUtf8 words.now }
    ensures { IfOk result (λ _. parts.new.items ≡ parts.old.items ++ words_part words.now) }
{
    if words.is_empty() {
        return Ok(());
    }
    let words = Text::from_str(alloc, str::from_utf8(words).unwrap())?;
    parts.push(Part::Words(words))?;
    Ok(())
}

/// The parts of a template.
fn parts_in(alloc: Global, text: &[u8]) -> Result<Vec<Part>, Fault<'_, u8>>
    requires { IsUtf8 text.now }
    ensures { MatchResult result (λ ps. Gives (rule TextRule) text.now (good (parts ps.items) [])) (FailsAt (rule TextRule) text.now) }
{
    let mut parts = Vec::new(alloc);
    let mut rest = text;
    while let Some((words, after)) = words_in(alloc, rest)? {
        push_words(alloc, &mut parts, words)?;
        let (operand, calls, end) = pipe_in(alloc, after)?;
        parts.push(Part::Pipe(operand, calls))?;
        rest = end;
    }
    push_words(alloc, &mut parts, rest)?;
    Ok(parts)
}

impl Template {
    /// The template that a text is. Where it is none, the place is that of the first byte with
    /// which no template goes on.
    pub fn parse(alloc: Global, text: &str) -> Result<Template, TmplError>
        ensures { MatchResult result (λ t. template_parts text.now ≡ Some t) (IsNoTemplate text.now) }
    {
        let bytes = text.as_bytes();
        match parts_in(alloc, bytes) {
            Ok(parts) => Ok(Template::new(parts)),
            Err(Fault::Bad(rest)) => Err(TmplError::BadTemplate {
                at: place_of(bytes, rest),
            }),
            Err(Fault::Memory) => Err(TmplError::Memory),
        }
    }
}
