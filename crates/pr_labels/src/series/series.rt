//! Reading the pairs of a series text.
ghost use Rattle.std.specs.Prelude.{◌≡◌, ℕ, List, [], ◌∷◌, ◌++◌, ◌<◌, ◌≤◌, length, map, IfOk, IfSome, MatchOption, MatchResult, option_map, string_bytes, codes};
ghost use Rattle.std.specs.Str.{IsUtf8};
ghost use Rattle.pr_labels.specs.declared.series.series.Part.TheVariants.{LabelFirst};
ghost use Rattle.pr_words.specs.pr_forms.Form.{Form, rule, Reads};
ghost use Rattle.pr_words.specs.pr_forms.Run.{good, bad};
ghost use Rattle.pr_words.specs.Strings.{Letter, kind_of, letter_of, seen, content, Text as StringText};
ghost use Rattle.pr_words.specs.private.Reader.{KeepsText};
ghost use Rattle.pr_labels.specs.SeriesGrammar.{SeriesValue, Rule, listed, quoted, mark, same_sign, sign, sign_at, blanks, Series, Items, Braces, Item, After, InString, production, ReadsSeries, Refuses, Misses, IsBadPlace};
ghost use Rattle.pr_labels.specs.LabelSet.{metric_label, pair_of};
ghost use Rattle.pr_words.specs.pr_forms.Language.{Gives, Takes, Lacks, Leads, FailsAt};
ghost use Rattle.pr_labels.specs.private.SeriesReader.{series, names_of, BeginsWith, Reaches, CanClose, starts_listed, in_part, IsOver, IsPart, GoesOn, equals};

use crate::series::found::LabelsSoFar;
use crate::{METRIC_LABEL, Pair};
use pr_words::Text;
use pr_words::forms::{Fault, place_of, take};
use pr_words::strings::{StringByte, kind_of, read_string};
use std::alloc::{AllocError, Global};

/// Why a text is no label set.
#[derive(Clone, Copy, PartialEq, Eq, Debug)]
pub enum TextFault {
    /// The text can go on as a series text up to this byte, and not with it. The text's length,
    /// where it ends too early.
    BadLabels { at: usize },
    Memory,
}

impl From<AllocError> for TextFault {
    ghost use Rattle.std.specs.Prelude.{◌≡◌};
    ghost use Rattle.pr_labels.specs.declared.series.series.TextFault.TheVariants.{Memory};

    ghost from_gives = { λ _ e. e ≡ Memory };

    fn from(_error: AllocError) -> TextFault {
        TextFault::Memory
    }
}

/// The parts of names.
#[derive(Clone, Copy, PartialEq, Eq, Debug)]
enum Part {
    MetricFirst,
    MetricNext,
    LabelFirst,
    LabelNext,
}

fn is_letter_kind(kind: StringByte) -> bool
    ensures { result ≡ in_part LabelFirst kind }
{
    matches!(
        kind,
        StringByte::A
            | StringByte::B
            | StringByte::F
            | StringByte::N
            | StringByte::R
            | StringByte::T
            | StringByte::V
            | StringByte::X
            | StringByte::Short
            | StringByte::Long
            | StringByte::HexLetter
            | StringByte::OtherLetter
    )
}

fn is_in(part: Part, kind: StringByte) -> bool
    ensures { result ≡ in_part part kind }
{
    match kind {
        StringByte::Digit => matches!(part, Part::MetricNext | Part::LabelNext),
        StringByte::Colon => matches!(part, Part::MetricFirst | Part::MetricNext),
        _ => is_letter_kind(kind),
    }
}

/// The byte at the front, where it is of the part, and what follows it.
fn part_in(part: Part, text: &[u8]) -> Option<(u8, &[u8])>
    ensures read { MatchOption result (IsOver part text.now) (λ x. IsPart part text.now x.0 x.1.now) }
    ensures small { IfSome result (λ x. x.0 < 128) }
    ensures shorter { IfSome result (λ x. length x.1.now < length text.now) }
    ensures text { IfSome result (λ x. KeepsText text.now x.1.now) }
{
    let Some((first, rest)) = text.split_first() else {
        return None;
    };
    if is_in(part, kind_of(*first)) {
        Some((*first, rest))
    } else {
        None
    }
}

fn is_sign(wanted: StringByte, kind: StringByte) -> bool
    ensures { result ≡ same_sign wanted kind }
{
    matches!(
        (wanted, kind),
        (StringByte::Open, StringByte::Open)
            | (StringByte::Close, StringByte::Close)
            | (StringByte::Comma, StringByte::Comma)
            | (StringByte::Equal, StringByte::Equal)
            | (StringByte::Blank, StringByte::Blank)
    )
}

/// What follows the sign at the front, where it is this one.
fn sign_in(wanted: StringByte, text: &[u8]) -> Option<((), &[u8])>
    ensures read { MatchOption result (Lacks series (sign wanted) text.now) (λ x. Takes series (sign wanted) text.now mark x.1.now) }
    ensures shorter { IfSome result (λ x. length x.1.now < length text.now) }
    ensures text { IfSome result (λ x. KeepsText text.now x.1.now) }
{
    take(
        text,
        |byte: &u8| -> Option<()>
            ensures { option_map (λ _. mark) result ≡ sign_at wanted (letter_of byte.now) }
        {
            if is_sign(wanted, kind_of(*byte)) {
                Some(())
            } else {
                None
            }
        },
    )
}

/// What follows the blanks at the front.
fn blanks_in(text: &[u8]) -> &[u8]
    ensures read { Gives series blanks text.now (good mark (seen result.now)) }
    ensures shorter { length result.now ≤ length text.now }
    ensures text { KeepsText text.now result.now }
{
    let mut rest = text;
    while let Some((_blank, after)) = sign_in(StringByte::Blank, rest) {
        rest = after;
    }
    rest
}

/// What follows the sign between a name and a value, with the blanks around it.
fn equals_in(text: &[u8]) -> Result<&[u8], &[u8]>
    ensures read { MatchResult result (λ rest. (h : Form Letter Rule SeriesValue) → Leads series (equals h) text.now h rest.now)
        (λ rest. (h : Form Letter Rule SeriesValue) → Gives series (equals h) text.now (bad (seen rest.now))) }
    ensures shorter { IfOk result (λ rest. length rest.now ≤ length text.now) }
    ensures text { IfOk result (λ rest. KeepsText text.now rest.now) }
{
    let at = blanks_in(text);
    match sign_in(StringByte::Equal, at) {
        Some((_equal, after)) => Ok(blanks_in(after)),
        None => Err(at),
    }
}

/// The name that begins with a byte, and what follows it.
fn name_in(alloc: Global, part: Part, first: u8, text: &[u8]) -> Result<(String, &[u8]), AllocError>
    requires { first < 128 }
    ensures read { IfOk result (λ x. GoesOn part (first ∷ []) text.now (string_bytes x.0) x.1.now) }
    ensures shorter { IfOk result (λ x. length x.1.now ≤ length text.now) }
    ensures text { IfOk result (λ x. KeepsText text.now x.1.now) }
{
    let mut name = String::new(alloc);
    name.push(char::from(first))?;
    let mut rest = text;
    while let Some((byte, after)) = part_in(part, rest) {
        name.push(char::from(byte))?;
        rest = after;
    }
    Ok((name, rest))
}

/// The value that a string at the front writes, and what follows it.
fn value_in(alloc: Global, text: &[u8]) -> Result<(Text, &[u8]), Fault<'_, u8>>
    requires { IsUtf8 text.now }
    ensures read { MatchResult result (λ x. Gives series (rule (InString StringText)) text.now (good (quoted (content x.0)) (seen x.1.now)))
        (FailsAt series (rule (InString StringText)) text.now) }
    ensures shorter { IfOk result (λ x. length x.1.now < length text.now) }
    ensures text { IfOk result (λ x. IsUtf8 x.1.now) }
{
    let (bytes, rest) = read_string(alloc, text)?;
    match String::from_utf8(bytes) {
        Ok(value) => Ok((Text::new(value), rest)),
        Err(_) => unreachable!(),
    }
}

/// The label at the front, whose name is none of those before, with what follows it; none where no
/// name begins.
fn label_in<'a>(
    alloc: Global,
    before: &LabelsSoFar<'_>,
    text: &'a [u8],
) -> Result<Option<(Pair, &'a [u8])>, Fault<'a, u8>>
    requires { IsUtf8 text.now }
    ensures read { MatchResult result
        (λ o. MatchOption o (IsOver LabelFirst text.now) (λ x. Reaches (rule (Item (names_of before.now.pairs.items))) text.now (x.0 ∷ [])
        (rule (After (names_of before.now.pairs.items ++ x.0.name ∷ []))) x.1.now))
        (FailsAt series (rule (Item (names_of before.now.pairs.items))) text.now) }
    ensures name { IfOk result (λ o. IfSome o (λ x. BeginsWith text.now x.0.name)) }
    ensures shorter { IfOk result (λ o. IfSome o (λ x. length x.1.now < length text.now)) }
    ensures text { IfOk result (λ o. IfSome o (λ x. IsUtf8 x.1.now)) }
{
    let Some((first, after_first)) = part_in(Part::LabelFirst, text) else {
        return Ok(None);
    };
    let (name, after_name) = name_in(alloc, Part::LabelNext, first, after_first)?;
    if before.has(name.as_str()) {
        return Err(Fault::Bad(after_name));
    }
    match equals_in(after_name) {
        Ok(after) => {
            let (value, rest) = value_in(alloc, after)?;
            let name = Text::new(name);
            Ok(Some((Pair { name, value }, rest)))
        }
        Err(rest) => Err(Fault::Bad(rest)),
    }
}

/// The pairs, where the list closes here, and what follows it.
fn closed<'a>(pairs: Vec<Pair>, text: &'a [u8]) -> Result<(Vec<Pair>, &'a [u8]), Fault<'a, u8>>
    ensures { (f g : Form Letter Rule SeriesValue) (whole : List ℕ) → Reaches f whole pairs.items g text.now → CanClose g text.now →
        MatchResult result (λ x. Gives series f whole (good (listed x.0.items) (seen x.1.now))) (FailsAt series f whole) }
{
    match sign_in(StringByte::Close, text) {
        Some((_close, rest)) => Ok((pairs, rest)),
        None => Err(Fault::Bad(text)),
    }
}

/// The labels before with those of a list, from what stands after its brace on, and what follows
/// the list.
fn list_in<'a>(
    alloc: Global,
    before: LabelsSoFar<'a>,
    text: &'a [u8],
) -> Result<(Vec<Pair>, &'a [u8]), Fault<'a, u8>>
    requires { IsUtf8 text.now }
    ensures { (f : Form Letter Rule SeriesValue) (whole : List ℕ) → Reaches f whole before.entry.pairs.items (rule (Items (names_of before.entry.pairs.items))) text.now →
        MatchResult result (λ x. Gives series f whole (good (listed x.0.items) (seen x.1.now))) (FailsAt series f whole) }
{
    let mut found = before;
    let mut rest = blanks_in(text);
    while let Some((pair, after_pair)) = label_in(alloc, &found, rest)? {
        let name = &rest[..pair.name.as_str().len()];
        found.add(name, pair)?;
        let next = blanks_in(after_pair);
        let Some((_comma, after_comma)) = sign_in(StringByte::Comma, next) else {
            return closed(found.pairs, next);
        };
        rest = blanks_in(after_comma);
    }
    closed(found.pairs, rest)
}

/// The labels before with those of a list, from its brace on, and what follows the list.
fn braces_in<'a>(
    alloc: Global,
    before: LabelsSoFar<'a>,
    text: &'a [u8],
) -> Result<(Vec<Pair>, &'a [u8]), Fault<'a, u8>>
    requires { IsUtf8 text.now }
    ensures { (f : Form Letter Rule SeriesValue) (whole : List ℕ) → Reaches f whole before.entry.pairs.items (rule (Braces (names_of before.entry.pairs.items))) text.now →
        MatchResult result (λ x. Gives series f whole (good (listed x.0.items) (seen x.1.now))) (FailsAt series f whole) }
{
    match sign_in(StringByte::Open, text) {
        Some((_open, after)) => list_in(alloc, before, after),
        None => Err(Fault::Bad(text)),
    }
}

/// Whether a label list, or blanks before one, come next.
fn starts_list(text: &[u8]) -> bool
    ensures { result ≡ starts_listed text.now }
{
    match text.split_first() {
        Some((first, _rest)) => matches!(kind_of(*first), StringByte::Blank | StringByte::Open),
        None => false,
    }
}

/// The name of a metric as a label.
fn metric_pair(alloc: Global, name: String) -> Result<Pair, AllocError>
    ensures { IfOk result (λ p. p ≡ pair_of metric_label (string_bytes name)) }
{
    Ok(Pair {
        name: Text::from_str(alloc, METRIC_LABEL)?,
        value: Text::new(name),
    })
}

/// The labels of the series text at the front, and what follows it.
fn series_in(alloc: Global, text: &[u8]) -> Result<(Vec<Pair>, &[u8]), Fault<'_, u8>>
    requires { IsUtf8 text.now }
    ensures { MatchResult result (λ x. Gives series (rule Series) text.now (good (listed x.0.items) (seen x.1.now))) (FailsAt series (rule Series) text.now) }
{
    let mut found = LabelsSoFar::empty(alloc);
    let Some((first, after_first)) = part_in(Part::MetricFirst, text) else {
        return braces_in(alloc, found, text);
    };
    let (name, after_name) = name_in(alloc, Part::MetricNext, first, after_first)?;
    found.add(METRIC_LABEL.as_bytes(), metric_pair(alloc, name)?)?;
    if starts_list(after_name) {
        braces_in(alloc, found, blanks_in(after_name))
    } else {
        Ok((found.pairs, after_name))
    }
}

/// The labels of a series text in its order, the metric's name as the label `__name__` before the
/// others; a value may be empty. The faults are those of `read_series_text`.
pub(crate) fn read_series_pairs(alloc: Global, text: &str) -> Result<Vec<Pair>, TextFault>
    // Labels that are answered are what the text reads as.
    ensures tree { IfOk result (λ pairs. ReadsSeries text.now pairs.items) }
    // What the text reads as is answered, unless memory runs out.
    ensures only { (v : SeriesValue) → Reads production (rule Series) (seen text.now) v [] → MatchResult result (λ pairs. v ≡ listed pairs.items) Misses }
    // Else the fault says the first place at which no series text can go on.
    ensures place { MatchResult result (λ _. IsBadPlace text.now (length text.now)) (Refuses text.now) }
{
    let bytes = text.as_bytes();
    match series_in(alloc, bytes) {
        Ok((pairs, left)) => {
            if left.is_empty() {
                Ok(pairs)
            } else {
                Err(TextFault::BadLabels {
                    at: place_of(bytes, left),
                })
            }
        }
        Err(Fault::Bad(rest)) => Err(TextFault::BadLabels {
            at: place_of(bytes, rest),
        }),
        Err(Fault::Memory) => Err(TextFault::Memory),
    }
}
