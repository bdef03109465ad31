//! Writing lists of words.
ghost use Rattle.std.specs.Prelude.{◌≡◌, ◌++◌, IfOk, OnOk};
ghost use Rattle.test_forms.specs.private.Glyphs.{sort_of};
ghost use Rattle.test_forms.specs.private.Words.{escaped_as, escaped, written_word, written};
ghost use Rattle.test_forms.specs.private.TextReader.{bytes_of};

use crate::glyph::{Sort, sort_of};
use crate::words::Word;
use std::alloc::{AllocError, Global};

/// One byte of a word, after a backslash where it wants one.
fn push_escaped(out: &mut Vec<u8>, byte: u8) -> Result<(), AllocError>
    ensures { OnOk result (out.new.items ≡ out.old.items ++ escaped_as (sort_of byte) byte) }
{
    match sort_of(byte) {
        Sort::Plain => {}
        Sort::Quote | Sort::Backslash => out.push(b'\\')?,
    }
    out.push(byte)?;
    Ok(())
}

/// A word as a string.
fn push_word(out: &mut Vec<u8>, bytes: &[u8]) -> Result<(), AllocError>
    ensures { OnOk result (out.new.items ≡ out.old.items ++ written_word bytes.now) }
{
    out.push(b'"')?;
    let mut left = bytes;
    while let Some((byte, rest)) = left.split_first() {
        push_escaped(out, *byte)?;
        left = rest;
    }
    out.push(b'"')?;
    Ok(())
}

/// The text of a list of words, which `read_words` reads again where there are any.
pub fn write_words(alloc: Global, words: &[Word]) -> Result<Vec<u8>, AllocError>
    ensures { IfOk result (λ out. out.items ≡ written (bytes_of words.now)) }
{
    let mut out = Vec::new(alloc);
    let Some((first, mut left)) = words.split_first() else {
        return Ok(out);
    };
    push_word(&mut out, &first.bytes)?;
    while let Some((word, rest)) = left.split_first() {
        out.push(b',')?;
        push_word(&mut out, &word.bytes)?;
        left = rest;
    }
    Ok(out)
}
