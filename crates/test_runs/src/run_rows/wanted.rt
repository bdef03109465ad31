// What a run of a row is to tell, as `told.rt` says it.
use crate::run_rows::lines::{has_mark, marked};
use std::alloc::{AllocError, Global};

/// Appends lines that are apart by ` / `.
pub(crate) fn push_wanted(text: &mut String, lines: &str) -> Result<(), AllocError> {
    for line in lines.split(" / ") {
        text.push_str(line)?;
        text.push('\n')?;
    }
    Ok(())
}

// Appends what a line of a row wants.
fn push_line(text: &mut String, line: &str) -> Result<(), AllocError> {
    let (mark, rest) = marked(line);
    if mark == "<" {
        return push_wanted(text, rest);
    }
    if mark == "+" {
        for _ in rest.split("; ") {
            text.push_str("added\n")?;
        }
    }
    if mark == ">" {
        if let Some((_, lines)) = rest.split_once(" => ") {
            return push_wanted(text, lines);
        }
    }
    Ok(())
}

/// The lines that a row wants to be written.
pub(crate) fn wanted_text(alloc: Global, lines: &str) -> Result<String, AllocError> {
    let mut text = String::new(alloc);
    if !has_mark(lines, "$") {
        let rows = lines.lines().filter(|line| marked(line).0 == "had").count();
        text = format!(in alloc; "opened {rows}\n")?;
    }
    for line in lines.lines() {
        push_line(&mut text, line)?;
    }
    Ok(text)
}

/// The lines of the rows that a row wants to be kept.
pub(crate) fn wanted_rows(alloc: Global, lines: &str) -> Result<String, AllocError> {
    let mut text = String::new(alloc);
    for line in lines.lines() {
        let (mark, rest) = marked(line);
        if mark == "kept" && !rest.is_empty() {
            text.push_str(line)?;
            text.push('\n')?;
        }
    }
    Ok(text)
}

/// So many of the first lines of a text.
pub(crate) fn first_lines(alloc: Global, text: &str, count: u64) -> Result<String, AllocError> {
    let mut front = String::new(alloc);
    for line in text.lines().take(count as usize) {
        front.push_str(line)?;
        front.push('\n')?;
    }
    Ok(front)
}
