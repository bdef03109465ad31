//! The strings of a pipe, and the formats of `printf`.
ghost use Rattle.std.specs.Prelude.{◌≡◌, ◌<◌, ◌≤◌, ◌++◌, [], codes, length, IfOk, IfSome, OnOk, MatchOption, MatchResult};
ghost use Rattle.std.specs.Str.{IsUtf8};
ghost use Rattle.pr_labels.specs.pr_forms.Form.{rule};
ghost use Rattle.pr_labels.specs.pr_forms.Run.{good};
ghost use Rattle.pr_tmpl.specs.Pieces.{pieces};
ghost use Rattle.pr_tmpl.specs.declared.template.Verb.TheVariants.{Fixed};
ghost use Rattle.pr_tmpl.specs.declared.template.Call.TheVariants.{Printf};
ghost use Rattle.pr_tmpl.specs.TemplateText.{bytes as bytes_value, verb, format, call, bytes_joined, leading, Content as ContentRule, Before as BeforeRule, Wanted as WantedRule, Places as PlacesRule, LetterF, AfterVerb, SecondPercent, Formatted};
ghost use Rattle.pr_labels.specs.pr_words.private.Reader.{KeepsText, KeepsFront};
ghost use Rattle.pr_tmpl.specs.private.Reader.{Gives, FailsAt, Leads, Hands, KeepsTextBy, BeginsText};
ghost use Rattle.pr_tmpl.specs.private.Quotes.{is_own, means_of, rule_of, ReachesAsOwn, Stops, first_byte, IsControl, IsNoControl, BreaksOffAt, verb_wanted, HasFewPlaces, IsWanted, LeadsUpTo, GoesOnBehind};

use crate::kind::TemplateByte;
use crate::letter::{Letter, letter_in};
use crate::template::{Format, Places, Verb};
use crate::words::sign_in;
use pr_labels::forms::Fault;
use pr_labels::words_crate::Text;
use std::alloc::{AllocError, Global};

/// A part of a string whose letters stand for themselves: of a text, and of a format before its
/// verb and after it.
#[derive(Clone, Copy, PartialEq, Eq, Debug)]
enum Within {
    Content,
    Before,
    After,
}

/// Whether what a letter means stands for itself.
fn is_own(within: Within, letter: &Letter) -> bool
    ensures { result ≡ is_own within letter.now }
{
    match letter {
        Letter::Plain(TemplateByte::Quote, _) | Letter::Plain(TemplateByte::Feed, _) => false,
        Letter::Plain(TemplateByte::Percent, _) | Letter::Escape(TemplateByte::Percent, _) => {
            matches!(within, Within::Content)
        }
        Letter::Plain(_, _) | Letter::Escape(_, _) => true,
        Letter::Broken => false,
    }
}

fn push_letter(bytes: &mut Vec<u8>, letter: &Letter) -> Result<(), AllocError>
    ensures { OnOk result (bytes.new.items ≡ bytes.old.items ++ means_of letter.now) }
{
    match letter {
        Letter::Plain(_, byte) => {
            bytes.push(*byte)?;
            Ok(())
        }
        Letter::Escape(_, means) => bytes.extend_from_slice(means),
        Letter::Broken => Ok(()),
    }
}

/// The letter at the front, where it stands for itself, and what follows it.
fn own_in(
    alloc: Global,
    within: Within,
    text: &[u8],
) -> Result<Option<(Letter, &[u8])>, Fault<'_, u8>>
    ensures read { MatchResult result (λ o. MatchOption o (Stops within text.now) (λ x. ReachesAsOwn within text.now (means_of x.0) x.1.now))
        (FailsAt (rule (rule_of within)) text.now) }
    ensures shorter { IfOk result (λ o. IfSome o (λ x. length x.1.now < length text.now)) }
    ensures text { IfOk result (λ o. MatchOption o (BeginsText text.now) (λ x. KeepsFront text.now (means_of x.0) x.1.now)) }
{
    let Some((letter, rest)) = letter_in(alloc, text)? else {
        return Ok(None);
    };
    if is_own(within, &letter) {
        return Ok(Some((letter, rest)));
    }
    match letter {
        Letter::Broken => Err(Fault::Bad(rest)),
        _ => Ok(None),
    }
}

/// What the letters at the front mean that stand for themselves, and what follows them.
fn means_in(alloc: Global, within: Within, text: &[u8]) -> Result<(Text, &[u8]), Fault<'_, u8>>
    requires { IsUtf8 text.now }
    ensures read { MatchResult result (λ x. ReachesAsOwn within text.now x.0 x.1.now × Stops within x.1.now) (FailsAt (rule (rule_of within)) text.now) }
    ensures shorter { IfOk result (λ x. length x.1.now ≤ length text.now) }
    ensures text { IfOk result (λ x. IsUtf8 x.1.now) }
{
    let mut bytes = Vec::new(alloc);
    let mut rest = text;
    while let Some((letter, after)) = own_in(alloc, within, rest)? {
        push_letter(&mut bytes, &letter)?;
        rest = after;
    }
    let means = String::from_utf8(bytes).unwrap();
    Ok((Text::new(means), rest))
}

/// What a string means from its first quote on, and what follows it.
pub(crate) fn content_in(alloc: Global, text: &[u8]) -> Result<(Text, &[u8]), Fault<'_, u8>>
    requires { IsUtf8 text.now }
    ensures read { MatchResult result (λ x. Gives (rule ContentRule) text.now (good (bytes_value x.0) (pieces x.1.now))) (FailsAt (rule ContentRule) text.now) }
    ensures shorter { IfOk result (λ x. length x.1.now ≤ length text.now) }
    ensures text { IfOk result (λ x. IsUtf8 x.1.now) }
{
    let (means, rest) = means_in(alloc, Within::Content, text)?;
    match sign_in(TemplateByte::Quote, rest) {
        Some(after) => Ok((means, after)),
        None => Err(Fault::Bad(rest)),
    }
}

/// The first of the bytes, or 0.
fn first_of(bytes: &[u8]) -> u8
    ensures { result ≡ first_byte bytes.now }
{
    match bytes.first() {
        Some(byte) => *byte,
        None => 0,
    }
}

/// The letter at the front as it counts in a format: its kind, the first byte that it means, and
/// what follows it. The fault is at an escape that breaks off.
fn control_in(
    alloc: Global,
    text: &[u8],
) -> Result<Option<(TemplateByte, u8, &[u8])>, Fault<'_, u8>>
    ensures read { MatchResult result (λ o. MatchOption o (text.now ≡ []) (λ x. IsControl text.now x.0 x.1 x.2.now)) (BreaksOffAt text.now) }
    ensures shorter { IfOk result (λ o. IfSome o (λ x. length x.2.now < length text.now)) }
    ensures text { IfOk result (λ o. IfSome o (λ x. KeepsTextBy x.0 text.now x.2.now)) }
{
    let Some((letter, rest)) = letter_in(alloc, text)? else {
        return Ok(None);
    };
    match letter {
        Letter::Plain(kind, byte) => Ok(Some((kind, byte, rest))),
        Letter::Escape(kind, means) => Ok(Some((kind, first_of(&means), rest))),
        Letter::Broken => Err(Fault::Bad(rest)),
    }
}

/// What follows the letter of this kind at the front, and the first byte that it means.
#[tactic(auto, using(crate::proofs::TextKept::same_kind))]
fn sought_in(
    alloc: Global,
    wanted: TemplateByte,
    text: &[u8],
) -> Result<Option<(u8, &[u8])>, Fault<'_, u8>>
    ensures read { MatchResult result (λ o. MatchOption o (IsNoControl text.now wanted) (λ x. IsControl text.now wanted x.0 x.1.now)) (BreaksOffAt text.now) }
    ensures shorter { IfOk result (λ o. IfSome o (λ x. length x.1.now < length text.now)) }
    ensures text { IfOk result (λ o. IfSome o (λ x. KeepsTextBy wanted text.now x.1.now)) }
{
    let Some((kind, byte, rest)) = control_in(alloc, text)? else {
        return Ok(None);
    };
    if kind == wanted {
        Ok(Some((byte, rest)))
    } else {
        Ok(None)
    }
}

/// What follows the `f` at the front.
fn letter_f_in(alloc: Global, text: &[u8]) -> Result<&[u8], Fault<'_, u8>>
    ensures read { MatchResult result (λ rest. Leads (rule LetterF) text.now (rule AfterVerb) rest.now) (FailsAt (rule LetterF) text.now) }
    ensures shorter { IfOk result (λ rest. length rest.now ≤ length text.now) }
    ensures text { IfOk result (λ rest. KeepsText text.now rest.now) }
{
    match sought_in(alloc, TemplateByte::SmallF, text)? {
        Some((_byte, rest)) => Ok(rest),
        None => Err(Fault::Bad(text)),
    }
}

/// What follows the second `%` at the front.
fn second_percent_in(alloc: Global, text: &[u8]) -> Result<&[u8], Fault<'_, u8>>
    ensures read { MatchResult result (λ rest. Hands (rule SecondPercent) text.now (bytes_joined (bytes_value (codes "%"))) (rule AfterVerb) rest.now (λ v. v))
        (FailsAt (rule SecondPercent) text.now) }
    ensures shorter { IfOk result (λ rest. length rest.now ≤ length text.now) }
    ensures text { IfOk result (λ rest. KeepsText text.now rest.now) }
{
    match sought_in(alloc, TemplateByte::Percent, text)? {
        Some((_byte, rest)) => Ok(rest),
        None => Err(Fault::Bad(text)),
    }
}

/// The number of places at the front, and what follows it.
fn digit_in(alloc: Global, text: &[u8]) -> Result<(u8, &[u8]), Fault<'_, u8>>
    ensures read { MatchResult result (λ x. Hands (rule PlacesRule) text.now (leading (verb (Fixed x.0))) (rule LetterF) x.1.now (λ v. v)) (FailsAt (rule PlacesRule) text.now) }
    ensures few { IfOk result (λ x. x.0 ≤ 9) }
    ensures shorter { IfOk result (λ x. length x.1.now ≤ length text.now) }
    ensures text { IfOk result (λ x. KeepsText text.now x.1.now) }
{
    match sought_in(alloc, TemplateByte::Digit, text)? {
        Some((byte, rest)) => Ok((byte.saturating_sub(b'0'), rest)),
        None => Err(Fault::Bad(text)),
    }
}

/// The number of places before an `f`, and what follows them.
fn places_in(alloc: Global, text: &[u8]) -> Result<(u8, &[u8]), Fault<'_, u8>>
    ensures read { MatchResult result (λ x. Hands (rule PlacesRule) text.now (leading (verb (Fixed x.0))) (rule AfterVerb) x.1.now (λ v. v)) (FailsAt (rule PlacesRule) text.now) }
    ensures few { IfOk result (λ x. x.0 ≤ 9) }
    ensures shorter { IfOk result (λ x. length x.1.now ≤ length text.now) }
    ensures text { IfOk result (λ x. KeepsText text.now x.1.now) }
{
    let (places, rest) = digit_in(alloc, text)?;
    let after = letter_f_in(alloc, rest)?;
    Ok((places, after))
}

/// What stands after a `%`: a second one, or a verb, which has so many places or prints as it is.
#[derive(Clone, Copy, Debug)]
enum Wanted {
    Percent,
    Fixed(u8),
    Plain,
}

/// What stands after a `%`, and what follows it.
fn wanted_in(alloc: Global, text: &[u8]) -> Result<(Wanted, &[u8]), Fault<'_, u8>>
    ensures read { MatchResult result (λ x. IsWanted text.now x.0 x.1.now) (FailsAt (rule WantedRule) text.now) }
    ensures few { IfOk result (λ x. HasFewPlaces x.0) }
    ensures shorter { IfOk result (λ x. length x.1.now ≤ length text.now) }
    ensures text { IfOk result (λ x. KeepsText text.now x.1.now) }
{
    let Some((kind, _byte, rest)) = control_in(alloc, text)? else {
        return Err(Fault::Bad(text));
    };
    match kind {
        TemplateByte::Percent => Ok((Wanted::Percent, rest)),
        TemplateByte::SmallF => Ok((Wanted::Fixed(6), rest)),
        TemplateByte::SmallV | TemplateByte::SmallS => Ok((Wanted::Plain, rest)),
        TemplateByte::Point => {
            let (places, after) = places_in(alloc, rest)?;
            Ok((Wanted::Fixed(places), after))
        }
        _ => Err(Fault::Bad(text)),
    }
}

/// The verb that is wanted; a second `%` is none.
fn verb_of(wanted: Wanted) -> Verb
    requires { HasFewPlaces wanted }
    ensures { result ≡ verb_wanted wanted }
{
    match wanted {
        Wanted::Fixed(places) => match Places::new(places) {
            Some(places) => Verb::Fixed(places),
            None => Verb::Plain,
        },
        Wanted::Percent | Wanted::Plain => Verb::Plain,
    }
}

/// The text up to the next `%` of a format, what stands after that, and what follows it.
fn up_to_wanted(alloc: Global, text: &[u8]) -> Result<(Text, Wanted, &[u8]), Fault<'_, u8>>
    requires { IsUtf8 text.now }
    ensures read { MatchResult result (λ x. LeadsUpTo text.now x.0 x.1 x.2.now) (FailsAt (rule BeforeRule) text.now) }
    ensures few { IfOk result (λ x. HasFewPlaces x.1) }
    ensures shorter { IfOk result (λ x. length x.2.now < length text.now) }
    ensures text { IfOk result (λ x. IsUtf8 x.2.now) }
{
    let (means, at) = means_in(alloc, Within::Before, text)?;
    let Some((_byte, after)) = sought_in(alloc, TemplateByte::Percent, at)? else {
        return Err(Fault::Bad(at));
    };
    let (wanted, next) = wanted_in(alloc, after)?;
    Ok((means, wanted, next))
}

/// The text before the verb of a format and the verb, from the first quote on, and what follows
/// them.
fn before_in(alloc: Global, text: &[u8]) -> Result<(Text, Wanted, &[u8]), Fault<'_, u8>>
    requires { IsUtf8 text.now }
    ensures read { MatchResult result (λ x. Hands (rule BeforeRule) text.now (format x.0 (verb_wanted x.1)) (rule AfterVerb) x.2.now bytes_value) (FailsAt (rule BeforeRule) text.now) }
    ensures few { IfOk result (λ x. HasFewPlaces x.1) }
    ensures shorter { IfOk result (λ x. length x.2.now ≤ length text.now) }
    ensures text { IfOk result (λ x. IsUtf8 x.2.now) }
{
    let mut before = String::new(alloc);
    let mut rest = text;
    loop {
        let (means, wanted, next) = up_to_wanted(alloc, rest)?;
        before.push_str(means.as_str())?;
        match wanted {
            Wanted::Percent => {
                before.push_str("%")?;
                rest = next;
            }
            _ => return Ok((Text::new(before), wanted, next)),
        }
    }
}

/// The text after a verb up to the next `%` or the last quote, whether it is two of `%`, and what
/// follows them.
fn up_to_percent(alloc: Global, text: &[u8]) -> Result<(Text, bool, &[u8]), Fault<'_, u8>>
    requires { IsUtf8 text.now }
    ensures read { MatchResult result (λ x. GoesOnBehind text.now x.0 x.1 x.2.now) (FailsAt (rule AfterVerb) text.now) }
    ensures shorter { IfOk result (λ x. length x.2.now < length text.now) }
    ensures text { IfOk result (λ x. IsUtf8 x.2.now) }
{
    let (means, at) = means_in(alloc, Within::After, text)?;
    match sought_in(alloc, TemplateByte::Percent, at)? {
        Some((_byte, after)) => {
            let rest = second_percent_in(alloc, after)?;
            Ok((means, true, rest))
        }
        None => match sign_in(TemplateByte::Quote, at) {
            Some(after) => Ok((means, false, after)),
            None => Err(Fault::Bad(at)),
        },
    }
}

/// The text after the verb of a format, and what follows its last quote.
fn after_verb_in(alloc: Global, text: &[u8]) -> Result<(Text, &[u8]), Fault<'_, u8>>
    requires { IsUtf8 text.now }
    ensures read { MatchResult result (λ x. Gives (rule AfterVerb) text.now (good (bytes_value x.0) (pieces x.1.now))) (FailsAt (rule AfterVerb) text.now) }
    ensures shorter { IfOk result (λ x. length x.1.now ≤ length text.now) }
    ensures text { IfOk result (λ x. IsUtf8 x.1.now) }
{
    let mut words = String::new(alloc);
    let mut rest = text;
    loop {
        let (means, goes_on, next) = up_to_percent(alloc, rest)?;
        words.push_str(means.as_str())?;
        if !goes_on {
            return Ok((Text::new(words), next));
        }
        words.push_str("%")?;
        rest = next;
    }
}

/// A format at the front, and what follows it.
pub(crate) fn format_in(alloc: Global, text: &[u8]) -> Result<(Format, &[u8]), Fault<'_, u8>>
    requires { IsUtf8 text.now }
    ensures read { MatchResult result (λ x. Gives (rule Formatted) text.now (good (call (Printf x.0)) (pieces x.1.now))) (FailsAt (rule Formatted) text.now) }
    ensures shorter { IfOk result (λ x. length x.1.now ≤ length text.now) }
    ensures text { IfOk result (λ x. IsUtf8 x.1.now) }
{
    let Some(inside) = sign_in(TemplateByte::Quote, text) else {
        return Err(Fault::Bad(text));
    };
    let (before, wanted, rest) = before_in(alloc, inside)?;
    let (after, end) = after_verb_in(alloc, rest)?;
    let verb = verb_of(wanted);
    Ok((
        Format {
            before,
            verb,
            after,
        },
        end,
    ))
}
