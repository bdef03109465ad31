//! Lists of words.
ghost use Rattle.std.specs.Prelude.{◌≡◌, ◌<◌, ◌≤◌, ℕ, List, [], length, Some, None, IfOk, IfErr, IfSome, MatchOption, MatchResult, option_map};
ghost use Rattle.pr_forms.specs.Form.{token, rule};
ghost use Rattle.pr_forms.specs.Run.{good};
ghost use Rattle.pr_forms.specs.Language.{seen, Gives, Takes, Lacks, Chooses, ChoosesNone, FailsAt, ReadsWhole};
ghost use Rattle.test_forms.specs.private.Glyphs.{glyph_of};
ghost use Rattle.test_forms.specs.private.Words.{lists, mark, word, words, Words, Word as OneWord, comma_at, letter_of, letters_with, letter_at, ReadsWords, Value};
ghost use Rattle.test_forms.specs.private.TextReader.{bytes_of, Refuses, Misses};

use crate::glyph::{Kind, kind_of};
use crate::string::string_in;
use pr_forms::{Fault, place_of, take};
use std::alloc::Global;

/// A word, as its bytes.
#[derive(Drop, Debug)]
pub struct Word {
    pub bytes: Vec<u8>,
}

/// Why a text is no list of words.
#[derive(Clone, Copy, PartialEq, Eq, Debug)]
pub enum WordsError {
    /// The first byte with which no list of words can go on, or the length, where it ends too
    /// early.
    Bad { place: usize },
    Memory,
}

/// What follows the comma at the front.
fn after_comma(text: &[u8]) -> Option<((), &[u8])>
    ensures read { MatchOption result (Lacks lists (token comma_at) text.now) (λ x. Takes lists (token comma_at) text.now mark x.1.now) }
    ensures shorter { IfSome result (λ x. length x.1.now < length text.now) }
{
    take(
        text,
        |byte: &u8| -> Option<()>
            ensures { option_map (λ _. mark) result ≡ comma_at (glyph_of byte.now) }
        {
            match kind_of(*byte) {
                Kind::Comma => Some(()),
                _ => None,
            }
        },
    )
}

/// The letter at the front, and what follows it. With the letters before it chooses the rest of a
/// word.
fn letter_in(text: &[u8]) -> Option<(u8, &[u8])>
    ensures read { (before : List ℕ) → MatchOption result (ChoosesNone lists (letter_at before) text.now)
        (λ x. Chooses lists (letter_at before) (letters_with before x.0) text.now x.1.now) }
    ensures shorter { IfSome result (λ x. length x.1.now < length text.now) }
{
    take(
        text,
        |byte: &u8| -> Option<u8>
            ensures { result ≡ letter_of (glyph_of byte.now) }
        {
            match kind_of(*byte) {
                Kind::Letter => Some(*byte),
                _ => None,
            }
        },
    )
}

/// The word at the front, and what follows it.
fn word_in(alloc: Global, text: &[u8]) -> Result<(Word, &[u8]), Fault<'_, u8>>
    ensures { MatchResult result (λ x. Gives lists (rule OneWord) text.now (good (word x.0.bytes.items) (seen lists x.1.now))) (FailsAt lists (rule OneWord) text.now) }
{
    let mut bytes = Vec::new(alloc);
    let Some((first, mut rest)) = letter_in(text) else {
        let (bytes, rest) = string_in(alloc, text)?;
        return Ok((Word { bytes }, rest));
    };
    bytes.push(first)?;
    while let Some((byte, after)) = letter_in(rest) {
        bytes.push(byte)?;
        rest = after;
    }
    Ok((Word { bytes }, rest))
}

/// The list of words at the front, and what follows it.
fn words_in(alloc: Global, text: &[u8]) -> Result<(Vec<Word>, &[u8]), Fault<'_, u8>>
    ensures { MatchResult result (λ x. Gives lists (rule Words) text.now (good (words (bytes_of x.0.items)) (seen lists x.1.now))) (FailsAt lists (rule Words) text.now) }
{
    let mut list = Vec::new(alloc);
    let (first, mut rest) = word_in(alloc, text)?;
    list.push(first)?;
    while let Some((_, after)) = after_comma(rest) {
        let (next, left) = word_in(alloc, after)?;
        list.push(next)?;
        rest = left;
    }
    Ok((list, rest))
}

/// The words of a text, or its first bad place.
pub fn read_words(alloc: Global, text: &[u8]) -> Result<Vec<Word>, WordsError>
    // The words that are answered are those of the text.
    ensures words { IfOk result (λ ws. ReadsWords text.now (bytes_of ws.items)) }
    // Where it has words, they are answered, unless memory runs out.
    ensures only { (v : Value) → ReadsWhole lists Words text.now v → MatchResult result (λ ws. words (bytes_of ws.items) ≡ v) Misses }
    // Else the fault says the first bad place.
    ensures fault { IfErr result (Refuses text.now) }
{
    match words_in(alloc, text) {
        Ok((list, left)) => {
            if left.is_empty() {
                Ok(list)
            } else {
                Err(WordsError::Bad {
                    place: place_of(text, left),
                })
            }
        }
        Err(Fault::Bad(left)) => Err(WordsError::Bad {
            place: place_of(text, left),
        }),
        Err(Fault::Memory) => Err(WordsError::Memory),
    }
}
