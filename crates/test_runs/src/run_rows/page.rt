// The forms of what is printed, beside what the rows of tables have written. The forms are lines: `#`
// and a status, or the words of an answer, in which what is no word of its own stands for others.
use crate::run_rows::lines::counted;

// What a line of a table has written.
fn written(line: &str) -> &str {
    let line = match line.strip_prefix("* ") {
        Some(often) => counted(often).1,
        None => line,
    };
    match line.strip_prefix("< ") {
        Some(text) => text,
        None => line.split_once(" => ").unwrap_or((line, "")).1,
    }
}

// The status of a row, where a line is its first one.
fn status(line: &str) -> &str {
    if !line.starts_with("# ") {
        return "";
    }
    line.rsplit_once(": ").unwrap_or((line, "")).1
}

// Whether a field can only be the name of a kind: letters alone, of which the first is a capital,
// and not all.
fn is_kind(field: &str) -> bool {
    field != "NaN"
        && field.starts_with(|sign: char| sign.is_ascii_uppercase())
        && field.chars().all(|sign| sign.is_ascii_alphabetic())
        && field.chars().any(|sign| sign.is_ascii_lowercase())
}

// Whether a form has this field.
fn has_field(form: &str, field: &str) -> bool {
    form.split_whitespace().any(|other| other == field)
}

// Whether one of the forms has this field.
fn is_known(forms: &str, field: &str) -> bool {
    forms.lines().any(|form| has_field(form, field))
}

// A status that no form has.
fn unknown_status<'a>(forms: &str, line: &'a str) -> Option<&'a str> {
    let status = status(line);
    if status.is_empty() || is_known(forms, status) {
        return None;
    }
    Some(status)
}

/// A status or a kind that a line of a table has, and no form.
pub fn lacking<'a>(forms: &str, line: &'a str) -> Option<&'a str> {
    written(line)
        .split_whitespace()
        .find(|field| is_kind(field) && !is_known(forms, field))
        .or(unknown_status(forms, line))
}

// The words at the front of a form that begin with a small letter.
fn front(form: &str) -> &str {
    form.split(|sign: char| sign.is_ascii_uppercase())
        .next()
        .unwrap_or("")
        .trim_end_matches(|sign: char| !sign.is_ascii_lowercase())
}

/// Whether a line of a table has the status of a form, or has written its first words.
pub fn has_written(line: &str, form: &str) -> bool {
    let (first, rest) = form.split_once(' ').unwrap_or((form, ""));
    if first == "#" {
        status(line) == rest
    } else {
        has_field(written(line), first) && written(line).contains(front(form))
    }
}
