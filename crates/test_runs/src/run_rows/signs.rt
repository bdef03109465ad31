// The signs of tables. In lines of files and of the input `·` stands for a blank, `→` for a tab, `¶`
// for a line feed, `␍` for a carriage return, `□` for a byte order mark, `�` for a byte that is no
// text, and `∎` for the end, without a line feed. `«N TEXT»` stands for N times that text, in which
// `№` is the number of the time, from 0, and `‹A№+B›` is A times that number and B more. Where A is
// not there it is 1, and where `+B` is not there it is 0.
use crate::run_rows::lines::{counted, number_of};
use std::alloc::{AllocError, Global};

// Appends what a sign stands for.
fn push_sign(bytes: &mut Vec<u8>, sign: char) -> Result<(), AllocError> {
    match sign {
        '·' => bytes.push(b' ')?,
        '→' => bytes.push(b'\t')?,
        '¶' => bytes.push(b'\n')?,
        '␍' => bytes.push(b'\r')?,
        '□' => bytes.extend_from_slice(b"\xef\xbb\xbf")?,
        '�' => bytes.push(0xff)?,
        other => bytes.extend_from_slice(other.encode_utf8(&mut [0; 4]).as_bytes())?,
    }
    Ok(())
}

/// Appends a line of a table.
///
/// # Errors
/// Where memory runs out.
pub fn push_text(bytes: &mut Vec<u8>, text: &str) -> Result<(), AllocError> {
    for sign in text.chars() {
        if sign == '∎' {
            return Ok(());
        }
        push_sign(bytes, sign)?;
    }
    bytes.push(b'\n')?;
    Ok(())
}

// What a sum stands for, where `№` is this number.
fn sum_of(sum: &str, number: u64) -> u64 {
    let (times, more) = sum.split_once('№').unwrap_or(("0", sum));
    let times = if times.is_empty() {
        1
    } else {
        number_of(times)
    };
    let more = number_of(more.strip_prefix("+").unwrap_or(more));
    times.saturating_mul(number).saturating_add(more)
}

// Appends a text without sums, in which `№` stands for this number.
fn push_numbered(
    alloc: Global,
    out: &mut String,
    text: &str,
    number: u64,
) -> Result<(), AllocError> {
    let number = format!(in alloc; "{number}")?;
    let numbered = text.replace(alloc, "№", &number)?;
    out.push_str(&numbered)
}

// Appends a text with its sums, in which `№` stands for this number.
fn push_summed(alloc: Global, out: &mut String, text: &str, number: u64) -> Result<(), AllocError> {
    for (place, part) in text.split('‹').enumerate() {
        if place == 0 {
            push_numbered(alloc, out, part, number)?;
            continue;
        }
        let (sum, rest) = part.split_once('›').unwrap_or((part, ""));
        let sum = format!(in alloc; "{}", sum_of(sum, number))?;
        out.push_str(&sum)?;
        push_numbered(alloc, out, rest, number)?;
    }
    Ok(())
}

// Appends a text of a line that stands there once, or for the time with a number.
fn push_part(
    alloc: Global,
    out: &mut String,
    text: &str,
    number: Option<u64>,
) -> Result<(), AllocError> {
    match number {
        Some(number) => push_summed(alloc, out, text, number),
        None => out.push_str(text),
    }
}

// Appends so often a text.
fn push_often(alloc: Global, out: &mut String, count: u64, text: &str) -> Result<(), AllocError> {
    for number in 0..count {
        if text.contains('№') {
            push_summed(alloc, out, text, number)?;
        } else {
            out.push_str(text)?;
        }
    }
    Ok(())
}

// Appends a line with what is repeated in it.
fn push_spelled(
    alloc: Global,
    out: &mut String,
    line: &str,
    number: Option<u64>,
) -> Result<(), AllocError> {
    for (place, part) in line.split('«').enumerate() {
        if place == 0 {
            push_part(alloc, out, part, number)?;
            continue;
        }
        let (repeated, rest) = part.split_once('»').unwrap_or((part, ""));
        let (count, text) = counted(repeated);
        push_often(alloc, out, count, text)?;
        push_part(alloc, out, rest, number)?;
    }
    out.push('\n')
}

// Appends so often a line.
fn push_lines(alloc: Global, out: &mut String, count: u64, line: &str) -> Result<(), AllocError> {
    for number in 0..count {
        push_spelled(alloc, out, line, Some(number))?;
    }
    Ok(())
}

/// The lines of a row with all that is repeated in them.
pub(crate) fn spelled(alloc: Global, lines: &str) -> Result<String, AllocError> {
    let mut out = String::new(alloc);
    for line in lines.lines() {
        match line.strip_prefix("* ") {
            Some(often) => {
                let (count, line) = counted(often);
                push_lines(alloc, &mut out, count, line)?;
            }
            None => push_spelled(alloc, &mut out, line, None)?,
        }
    }
    Ok(out)
}
