// The words of a command line that is made for a test.
use pr_outside::status::{HeldLine, HeldWord, words_of};
use std::alloc::{AllocError, Global};

/// The words behind a program's name, in brackets: one that is no text is empty, and one of 300
/// bytes is whole.
pub(crate) fn words_shown(alloc: Global) -> Result<String, AllocError> {
    let long = [b'a'; 300];
    let words: [&[u8]; 4] = [b"promtool", b"run", b"\xff", &long];
    let mut held = Vec::new(alloc);
    for word in &words {
        held.push(HeldWord {
            bytes: Vec::from_slice(alloc, word)?,
        })?;
    }
    let mut shown = String::new(alloc);
    for word in &words_of(alloc, &HeldLine::new(held))? {
        shown.push_str(&format!(in alloc; "[{word}]")?)?;
    }
    Ok(shown)
}
