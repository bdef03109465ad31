// What a run of a row tells: a line of the status, the lines that are written, and where rows are
// looked at a line `kept SERIES|TIME|POINT` for each that is kept.
use crate::run_rows::lines::{has_mark, marked};
use crate::run_rows::outside::{Change, Outside, Program, made};
use pr_outside::{HeldFile, Row};
use std::alloc::{AllocError, Global};
use std::str;

fn push_words(alloc: Global, words: &mut Vec<String>, text: &str) -> Result<(), AllocError> {
    for word in text.split_whitespace() {
        words.push(String::from_str(alloc, word.trim_matches('"'))?)?;
    }
    Ok(())
}

// The words of a row.
fn words_of(alloc: Global, lines: &str) -> Result<Vec<String>, AllocError> {
    let mut words = Vec::new(alloc);
    if !has_mark(lines, "$") {
        words.push(String::from_str(alloc, "run")?)?;
    }
    for line in lines.lines() {
        let (mark, rest) = marked(line);
        if mark == "$" {
            push_words(alloc, &mut words, rest)?;
        }
    }
    Ok(words)
}

fn push_row(alloc: Global, told: &mut String, row: &Row) -> Result<(), AllocError> {
    let (series, point) = (row.series.as_str(), row.point.as_str());
    let line = format!(in alloc; "kept {series}|{}|{point}\n", row.time)?;
    told.push_str(&line)
}

fn push_rows(alloc: Global, told: &mut String, rows: &[Row]) -> Result<(), AllocError> {
    for row in rows {
        push_row(alloc, told, row)?;
    }
    Ok(())
}

// What is told of a run that has ended.
fn told_of(
    alloc: Global,
    status: u8,
    outside: &Outside,
    looks: bool,
) -> Result<String, AllocError> {
    let written = str::from_utf8(outside.out.bytes()).unwrap_or("no text");
    let mut told = format!(in alloc; "{status}\n{written}")?;
    if looks {
        push_rows(alloc, &mut told, &outside.store.kept()?)?;
    }
    Ok(told)
}

/// What a run of a row tells, with a change.
pub(crate) fn told<P: Program>(
    alloc: Global,
    program: &mut P,
    lines: &str,
    change: Change<'_>,
) -> Result<String, AllocError> {
    let words = words_of(alloc, lines)?;
    let mut outside = made(alloc, lines, change)?;
    let status = program.status(alloc, &words, &mut outside);
    told_of(alloc, status, &outside, has_mark(lines, "kept"))
}

/// What a run writes that reads this input and these files, over an empty store, and no call of which
/// is refused. The words are apart by blanks.
///
/// # Errors
/// Where memory runs out.
pub fn answers<P: Program>(
    alloc: Global,
    program: &mut P,
    words: &str,
    input: Vec<u8>,
    files: Vec<HeldFile>,
) -> Result<String, AllocError> {
    let mut held = Vec::new(alloc);
    push_words(alloc, &mut held, words)?;
    let mut outside = Outside::of(alloc, input, files);
    let _status = program.status(alloc, &held, &mut outside);
    String::from_str(
        alloc,
        str::from_utf8(outside.out.bytes()).unwrap_or("no text"),
    )
}
