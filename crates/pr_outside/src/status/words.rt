// The words of the command line.
ghost use Rattle.std.specs.Prelude.{◌≡◌, List, ℕ, IfOk, IfSome, None, Some, length, map, drop, string_bytes};
ghost use Rattle.std.specs.Io.{WritesAtMost};
ghost use Rattle.std.specs.declared.option.Option.{Option};
ghost use Rattle.pr_outside.specs.Words.{text_of, word_limit, word_of};
ghost use Rattle.pr_outside.specs.private.Words.{held_bytes, IsCopied, IsCopiedFrom, IsTaken, IsWord};

use std::alloc::{AllocError, Global};
use std::env::FillError;
use std::marker::Model;
use std::rt::Env;
use std::str;

// The greatest length of a word, far above what a system passes (own choice).
const WORD_LIMIT: usize = 1 << 30;

/// The words that the program is called with, its name first.
pub trait CommandLine {
    /// The bytes of each word, where they are told.
    ghost words: { Self → Option (List (List ℕ)) };

    /// Copies the bytes of a word to the front of the buffer, and says how many they are.
    fn copy_word(&self, index: usize, buf: &mut [u8]) -> Result<usize, FillError>
        ensures bound { WritesAtMost result buf.new }
        ensures length { length buf.new ≡ length buf.old }
        ensures word { IfSome (words self.now) (λ all. IsCopied all index buf.new result) };
}

/// The words that the runtime hands over. It tells none.
#[derive(Drop)]
pub struct RuntimeLine<'a, R: Env> {
    rt: &'a R,
}

impl<'a, R: Env> RuntimeLine<'a, R> {
    /// The words of this runtime.
    pub fn new(rt: &'a R) -> RuntimeLine<'a, R> {
        RuntimeLine { rt }
    }
}

impl<R: Env> CommandLine for RuntimeLine<'_, R> {
    ghost words = { λ line. None };

    fn copy_word(&self, index: usize, buf: &mut [u8]) -> Result<usize, FillError> {
        self.rt.arg(index, buf)
    }
}

/// A word in memory.
#[derive(Drop)]
pub struct HeldWord {
    /// What it is, be it a text or not.
    pub bytes: Vec<u8>,
}

/// Words in memory. Contracts see their bytes.
#[derive(Drop)]
pub struct HeldLine {
    words: Vec<HeldWord>,
}

impl Model for HeldLine {
    ghost use Rattle.std.specs.Prelude.{List, ℕ};
    ghost use Rattle.pr_outside.specs.private.Words.{held_bytes};

    ghost Value = { List (List ℕ) };

    ghost view = { λ line. held_bytes line.words.items };
}

impl HeldLine {
    /// These words, the program's name first.
    pub fn new(words: Vec<HeldWord>) -> HeldLine
        ensures { result ≡ held_bytes words.items }
    {
        HeldLine { words }
    }
}

// Copies a word to the front of the buffer, if it fits, and says how long it is.
fn copy_word(word: &[u8], buf: &mut [u8]) -> Result<usize, FillError>
    ensures bound { WritesAtMost result buf.new }
    ensures length { length buf.new ≡ length buf.old }
    ensures word { IsCopiedFrom word.now buf.new result }
{
    if word.len() > buf.len() {
        return Err(FillError::TooLong);
    }
    buf[..word.len()].copy_from_slice(word);
    Ok(word.len())
}

// The same of the word of this index.
fn copy_held(words: &[HeldWord], index: usize, buf: &mut [u8]) -> Result<usize, FillError>
    ensures bound { WritesAtMost result buf.new }
    ensures length { length buf.new ≡ length buf.old }
    ensures word { IsCopied (held_bytes words.now) index buf.new result }
{
    if index >= words.len() {
        return Err(FillError::NotPresent);
    }
    copy_word(&words[index].bytes, buf)
}

impl CommandLine for HeldLine {
    ghost words = { λ line. Some line };

    fn copy_word(&self, index: usize, buf: &mut [u8]) -> Result<usize, FillError> {
        copy_held(&self.words, index, buf)
    }
}

// What came of asking for a word.
#[derive(Drop)]
enum Copied {
    Word { text: String },
    NoWord,
    TooLong,
}

// Bytes that are no text are the empty word, which no form has.
#[tactic(auto, using(crate::proofs::WordTexts::told_text, crate::proofs::WordTexts::told_none))]
fn text_of(bytes: &[u8]) -> &str
    ensures { result.now ≡ text_of bytes.now }
{
    match str::from_utf8(bytes) {
        Ok(text) => text,
        Err(_) => "",
    }
}

// The word of this index, if it has no more than so many bytes.
fn word_within<L: CommandLine>(
    alloc: Global,
    line: &L,
    index: usize,
    size: usize,
) -> Result<Copied, AllocError>
    ensures { IfOk result (λ copied. IfSome (L.words line.now) (λ all. IsTaken all index size copied)) }
{
    let mut bytes = Vec::from_elem(alloc, 0u8, size)?;
    match line.copy_word(index, bytes.as_mut_slice()) {
        Ok(count) => {
            let text = String::from_str(alloc, text_of(&bytes[..count]))?;
            Ok(Copied::Word { text })
        }
        Err(FillError::NotPresent) => Ok(Copied::NoWord),
        Err(FillError::TooLong) => Ok(Copied::TooLong),
    }
}

// The word of this index, or none past the last. One that is too long is the empty word.
fn word_at<L: CommandLine>(
    alloc: Global,
    line: &L,
    index: usize,
) -> Result<Option<String>, AllocError>
    ensures { IfOk result (λ word. IfSome (L.words line.now) (λ all. IsWord all index word)) }
{
    let mut size = 256;
    'growing: while size < WORD_LIMIT {
        match word_within(alloc, line, index, size)? {
            Copied::Word { text } => return Ok(Some(text)),
            Copied::NoWord => return Ok(None),
            Copied::TooLong => size *= 4,
        }
    }
    match word_within(alloc, line, index, WORD_LIMIT)? {
        Copied::Word { text } => Ok(Some(text)),
        Copied::NoWord => Ok(None),
        Copied::TooLong => Ok(Some(String::new(alloc))),
    }
}

/// The words after the program's name. One that is no text, or has more than 2^30 bytes, is the
/// empty word.
pub fn words_of<L: CommandLine>(alloc: Global, line: &L) -> Result<Vec<String>, AllocError>
    ensures { IfOk result (λ words. IfSome (L.words line.now) (λ all. map string_bytes words.items ≡ map word_of (drop 1 all))) }
{
    let mut words = Vec::new(alloc);
    'taking: while let Some(word) = word_at(alloc, line, words.len() + 1)? {
        words.push(word)?;
    }
    Ok(words)
}
