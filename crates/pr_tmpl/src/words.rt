//! The words of a pipe.
ghost use Rattle.std.specs.Prelude.{◌≡◌, ◌<◌, ◌≤◌, ◌∷◌, ◌++◌, [], ℕ, List, codes, length, IfOk, IfSome, IsTrue, MatchOption, MatchResult};
ghost use Rattle.pr_labels.specs.pr_forms.Form.{Form, rule, pair, token};
ghost use Rattle.pr_labels.specs.pr_forms.Run.{good, bad};
ghost use Rattle.pr_tmpl.specs.Pieces.{Piece, pieces};
ghost use Rattle.pr_tmpl.specs.TemplateText.{Rule, TemplateValue, bytes, mark, blanks, blank_at, spelled, second_of, is_name_start, is_name_part, Name, NameRest};
ghost use Rattle.pr_tmpl.specs.private.Letters.{IsSign, IsNoSign, are_ascii};
ghost use Rattle.pr_labels.specs.pr_words.private.Reader.{KeepsText};
ghost use Rattle.pr_tmpl.specs.private.Reader.{Gives, FailsAt, Leads, KeepsTextBy};

use crate::humanize::push_byte;
use crate::kind::TemplateByte;
use crate::letter::front;
use pr_labels::forms::Fault;
use pr_labels::words_crate::Text;
use std::alloc::Global;

/// What follows the byte of this kind at the front.
pub(crate) fn sign_in(wanted: TemplateByte, text: &[u8]) -> Option<&[u8]>
    ensures read { MatchOption result (IsNoSign wanted text.now) (λ rest. IsSign wanted text.now rest.now) }
    ensures shorter { IfSome result (λ rest. length rest.now < length text.now) }
    ensures text { IfSome result (λ rest. KeepsTextBy wanted text.now rest.now) }
{
    match front(text) {
        Some((kind, _byte, rest)) => { if kind == wanted { Some(rest) } else { None } }
        None => None,
    }
}

/// What follows the blanks at the front.
pub(crate) fn blanks_in(text: &[u8]) -> &[u8]
    ensures read { Gives blanks text.now (good mark (pieces result.now)) }
    ensures shorter { length result.now ≤ length text.now }
    ensures text { KeepsText text.now result.now }
{
    let mut rest = text;
    while let Some(after) = sign_in(TemplateByte::Blank, rest) {
        rest = after;
    }
    rest
}

/// What follows one blank or more at the front.
pub(crate) fn gap_in(text: &[u8]) -> Result<&[u8], &[u8]>
    ensures read { MatchResult result (λ rest. (f : Form Piece Rule TemplateValue) → Leads (pair second_of (token blank_at) (pair second_of blanks f)) text.now f rest.now)
        (λ rest. (f : Form Piece Rule TemplateValue) → Gives (pair second_of (token blank_at) (pair second_of blanks f)) text.now (bad (pieces rest.now))) }
    ensures shorter { IfOk result (λ rest. length rest.now ≤ length text.now) }
    ensures text { IfOk result (λ rest. KeepsText text.now rest.now) }
{
    match sign_in(TemplateByte::Blank, text) {
        Some(rest) => Ok(blanks_in(rest)),
        None => Err(text),
    }
}

/// What follows these bytes at the front.
pub(crate) fn word_in<'a>(word: &[u8], text: &'a [u8]) -> Result<&'a [u8], &'a [u8]>
    requires { IsTrue (are_ascii word.now) }
    ensures read { MatchResult result (λ rest. (f : Form Piece Rule TemplateValue) → Leads (spelled word.now f) text.now f rest.now)
        (λ rest. (f : Form Piece Rule TemplateValue) → Gives (spelled word.now f) text.now (bad (pieces rest.now))) }
    ensures shorter { IfOk result (λ rest. length rest.now ≤ length text.now) }
    ensures text { IfOk result (λ rest. KeepsText text.now rest.now) }
{
    let mut left = word;
    let mut rest = text;
    while let Some((wanted, more)) = left.split_first() {
        let Some((_kind, byte, after)) = front(rest) else {
            return Err(rest);
        };
        if byte != *wanted {
            return Err(rest);
        }
        left = more;
        rest = after;
    }
    Ok(rest)
}

/// Whether a name may begin with a byte of this kind.
fn is_name_start(kind: TemplateByte) -> bool
    ensures { result ≡ is_name_start kind }
{
    matches!(
        kind,
        TemplateByte::SmallE
            | TemplateByte::SmallF
            | TemplateByte::SmallH
            | TemplateByte::SmallL
            | TemplateByte::SmallP
            | TemplateByte::SmallS
            | TemplateByte::SmallV
            | TemplateByte::CapitalD
            | TemplateByte::CapitalE
            | TemplateByte::CapitalL
            | TemplateByte::CapitalP
            | TemplateByte::CapitalU
            | TemplateByte::CapitalV
            | TemplateByte::OtherLetter
    )
}

fn is_name_part(kind: TemplateByte) -> bool
    ensures { result ≡ is_name_part kind }
{
    matches!(kind, TemplateByte::Digit) || is_name_start(kind)
}

/// The byte at the front, where a name may go on with it, and what follows it.
fn name_byte_in(text: &[u8]) -> Option<(u8, &[u8])>
    ensures read { MatchOption result ((name : List ℕ) → Gives (rule (NameRest name)) text.now (good (bytes name) (pieces text.now)))
        (λ x. (name : List ℕ) → Leads (rule (NameRest name)) text.now (rule (NameRest (name ++ x.0 ∷ []))) x.1.now) }
    ensures small { IfSome result (λ x. x.0 < 128) }
    ensures shorter { IfSome result (λ x. length x.1.now < length text.now) }
    ensures text { IfSome result (λ x. KeepsText text.now x.1.now) }
{
    match front(text) {
        Some((kind, byte, rest)) => {
            if is_name_part(kind) {
                Some((byte, rest))
            } else {
                None
            }
        }
        None => None,
    }
}

/// The name of a label at the front, and what follows it.
fn name_in(alloc: Global, text: &[u8]) -> Result<(Text, &[u8]), Fault<'_, u8>>
    ensures read { MatchResult result (λ x. Gives (rule Name) text.now (good (bytes x.0) (pieces x.1.now))) (FailsAt (rule Name) text.now) }
    ensures shorter { IfOk result (λ x. length x.1.now ≤ length text.now) }
    ensures text { IfOk result (λ x. KeepsText text.now x.1.now) }
{
    let Some((kind, first, after_first)) = front(text) else {
        return Err(Fault::Bad(text));
    };
    if !is_name_start(kind) {
        return Err(Fault::Bad(text));
    }
    let mut name = String::new(alloc);
    push_byte(&mut name, first)?;
    let mut rest = after_first;
    while let Some((byte, after)) = name_byte_in(rest) {
        push_byte(&mut name, byte)?;
        rest = after;
    }
    Ok((Text::new(name), rest))
}

/// The name that stands after the first letter of `labels.`, and what follows it.
pub(crate) fn label_in(alloc: Global, text: &[u8]) -> Result<(Text, &[u8]), Fault<'_, u8>>
    ensures read { MatchResult result (λ x. Gives (spelled (codes "abels.") (rule Name)) text.now (good (bytes x.0) (pieces x.1.now))) (FailsAt (spelled (codes "abels.") (rule Name)) text.now) }
    ensures shorter { IfOk result (λ x. length x.1.now ≤ length text.now) }
    ensures text { IfOk result (λ x. KeepsText text.now x.1.now) }
{
    match word_in(b"abels.", text) {
        Ok(rest) => name_in(alloc, rest),
        Err(rest) => Err(Fault::Bad(rest)),
    }
}
