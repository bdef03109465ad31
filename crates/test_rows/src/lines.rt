// The parts of a line.
use std::alloc::{AllocError, Global};

/// What a line asks for, and what is to be answered: they stand apart by ` => `.
pub fn halves(line: &str) -> (&str, &str) {
    line.split_once(" => ").unwrap_or((line, ""))
}

/// The number at the front of a text, or 0, and what stands behind it.
pub fn counted(text: &str) -> (u64, &str) {
    let (number, rest) = text.split_once(' ').unwrap_or((text, ""));
    (number.parse::<u64>().unwrap_or(0), rest)
}

/// Lines that are answered, in one: they stand apart by ` / `.
///
/// # Errors
/// Where memory runs out.
pub fn joined(alloc: Global, lines: &str) -> Result<String, AllocError> {
    let mut text = String::new(alloc);
    for line in lines.lines() {
        if !text.is_empty() {
            text.push_str(" / ")?;
        }
        text.push_str(line)?;
    }
    Ok(text)
}
