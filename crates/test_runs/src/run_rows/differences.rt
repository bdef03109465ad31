// The runs of a row: its own, and those that its lines `each` and `cut` ask for, which end early.
//
// - `each MARK => STATUS: FRONT..`: where the first call of this mark is refused, the run has this
//   status, and has written so many of the first lines as the first FRONT says; then the second, and
//   so on. After the last FRONT no such call is left, and the run is the row's own. A FRONT is
//   a number of lines, and maybe `:` and the number of the first rows that are kept.
// - `cut LENGTH => STATUS: LINES`: of each front of the last file, or of the input where there is no
//   file, that has at most so many bytes and is longer than those of the line before, these lines
//   are told. The last such line is about the front that lacks one byte.
use crate::run_rows::files::{files_of, last_length};
use crate::run_rows::input::input_of;
use crate::run_rows::lines::{has_mark, marked, number_of, odd_line};
use crate::run_rows::outside::{Change, Program};
use crate::run_rows::row::{Wanted, parts, wanted_of};
use crate::run_rows::told::told;
use crate::run_rows::wanted::{first_lines, push_wanted};
use std::alloc::{AllocError, Global};

/// No change.
const WHOLE: Change<'static> = Change {
    mark: "",
    number: 0,
};

// The first line that is told otherwise, as it is told and as it should be.
fn other_line(alloc: Global, told: &str, wanted: &str) -> Result<Option<String>, AllocError> {
    if told == wanted {
        return Ok(None);
    }
    let mut others = told
        .lines()
        .zip(wanted.lines())
        .skip_while(|(one, other)| one == other);
    let (one, other) = others.next().unwrap_or(("more or less", "so much"));
    Ok(Some(format!(in alloc; "told {one}, wanted {other}")?))
}

// Where a run with a change is told otherwise.
fn run_difference<P: Program>(
    alloc: Global,
    program: &mut P,
    lines: &str,
    change: Change<'_>,
    wanted: &str,
) -> Result<Option<String>, AllocError> {
    let told = told(alloc, program, lines, change)?;
    match other_line(alloc, &told, wanted)? {
        Some(text) => {
            let (mark, number) = (change.mark, change.number);
            Ok(Some(format!(in alloc; "{mark} {number}: {text}")?))
        }
        None => Ok(None),
    }
}

// Where the row's own run, or one with a change that alters nothing, is told otherwise.
fn whole_difference<P: Program>(
    alloc: Global,
    program: &mut P,
    row: &Wanted,
    status: u64,
    change: Change<'_>,
) -> Result<Option<String>, AllocError> {
    let wanted = format!(in alloc; "{status}\n{}{}", row.text, row.rows)?;
    run_difference(alloc, program, &row.lines, change, &wanted)
}

// What is told where a run has this status and has written and kept a front.
fn front_wanted(
    alloc: Global,
    row: &Wanted,
    status: &str,
    front: &str,
) -> Result<String, AllocError> {
    let (lines, rows) = front.split_once(':').unwrap_or((front, "0"));
    let text = first_lines(alloc, &row.text, number_of(lines))?;
    let rows = first_lines(alloc, &row.rows, number_of(rows))?;
    format!(in alloc; "{status}\n{text}{rows}")
}

// What stands before ` => `, the status behind it, and what stands behind a colon then.
fn asked(line: &str) -> (&str, &str, &str) {
    let (asked, wanted) = line.split_once(" => ").unwrap_or((line, ""));
    let (status, rest) = wanted.split_once(':').unwrap_or((wanted, ""));
    (asked, status, rest.strip_prefix(' ').unwrap_or(rest))
}

// The first run with a refused call that is told otherwise.
fn refused_difference<P: Program>(
    alloc: Global,
    program: &mut P,
    row: &Wanted,
    line: &str,
) -> Result<Option<String>, AllocError> {
    let (mark, status, fronts) = asked(line);
    let mut number = 1;
    for front in fronts.split_whitespace() {
        let wanted = front_wanted(alloc, row, status, front)?;
        let change = Change { mark, number };
        if let Some(text) = run_difference(alloc, program, &row.lines, change, &wanted)? {
            return Ok(Some(text));
        }
        number = number.saturating_add(1);
    }
    Ok(None)
}

// Where the run is not the row's own, though no call of this mark is left to be refused.
fn unrefused_difference<P: Program>(
    alloc: Global,
    program: &mut P,
    row: &Wanted,
    status: u64,
    line: &str,
) -> Result<Option<String>, AllocError> {
    let (mark, _, fronts) = asked(line);
    let number = (fronts.split_whitespace().count() as u64).saturating_add(1);
    whole_difference(alloc, program, row, status, Change { mark, number })
}

// The first cut from one length up to another one that is told otherwise.
fn cut_difference<P: Program>(
    alloc: Global,
    program: &mut P,
    row: &Wanted,
    from: u64,
    line: &str,
) -> Result<Option<String>, AllocError> {
    let (to, status, answer) = asked(line);
    let mut wanted = format!(in alloc; "{status}\n")?;
    if !answer.is_empty() {
        push_wanted(&mut wanted, answer)?;
    }
    for number in from..number_of(to).saturating_add(1) {
        let change = Change {
            mark: "cut",
            number,
        };
        if let Some(text) = run_difference(alloc, program, &row.lines, change, &wanted)? {
            return Ok(Some(text));
        }
    }
    Ok(None)
}

// The first run that a line asks for, and that is told otherwise.
fn line_difference<P: Program>(
    alloc: Global,
    program: &mut P,
    row: &Wanted,
    status: u64,
    line: &str,
) -> Result<Option<String>, AllocError> {
    let (mark, rest) = marked(line);
    if mark != "each" {
        return Ok(None);
    }
    match refused_difference(alloc, program, row, rest)? {
        Some(text) => Ok(Some(text)),
        None => unrefused_difference(alloc, program, row, status, rest),
    }
}

// The first run with a refused call that is told otherwise.
fn each_difference<P: Program>(
    alloc: Global,
    program: &mut P,
    row: &Wanted,
    status: u64,
) -> Result<Option<String>, AllocError> {
    for line in row.lines.lines() {
        if let Some(text) = line_difference(alloc, program, row, status, line)? {
            return Ok(Some(text));
        }
    }
    Ok(None)
}

// How many bytes the last file has, or the input where there is none.
fn whole_length(alloc: Global, lines: &str) -> Result<usize, AllocError> {
    if has_mark(lines, "@") {
        let files = files_of(alloc, lines)?;
        return Ok(last_length(&files));
    }
    Ok(input_of(alloc, lines)?.len())
}

// The first front that is told otherwise, or where the fronts end before the last one.
fn fronts_difference<P: Program>(
    alloc: Global,
    program: &mut P,
    row: &Wanted,
) -> Result<Option<String>, AllocError> {
    let mut next = 0;
    for line in row.lines.lines() {
        let (mark, rest) = marked(line);
        if mark != "cut" {
            continue;
        }
        if let Some(text) = cut_difference(alloc, program, row, next, rest)? {
            return Ok(Some(text));
        }
        next = number_of(asked(rest).0).saturating_add(1);
    }
    if next > 0 && next != whole_length(alloc, &row.lines)? as u64 {
        return Ok(Some(format!(in alloc; "the cuts end before {next}")?));
    }
    Ok(None)
}

// The first run of a row that is told otherwise.
fn row_difference<P: Program>(
    alloc: Global,
    program: &mut P,
    row: &Wanted,
    status: u64,
) -> Result<Option<String>, AllocError> {
    if let Some(line) = odd_line(&row.lines) {
        return Ok(Some(format!(in alloc; "a line of no kind: {line}")?));
    }
    if let Some(text) = whole_difference(alloc, program, row, status, WHOLE)? {
        return Ok(Some(text));
    }
    match each_difference(alloc, program, row, status)? {
        Some(text) => Ok(Some(text)),
        None => fronts_difference(alloc, program, row),
    }
}

/// The first line of a row that is told otherwise, as it is told and as it should be.
///
/// # Errors
/// Where memory runs out.
pub fn difference<P: Program>(
    alloc: Global,
    program: &mut P,
    text: &str,
) -> Result<Option<String>, AllocError> {
    let (name, status, lines) = parts(text);
    let row = wanted_of(alloc, lines)?;
    match row_difference(alloc, program, &row, status)? {
        Some(text) => Ok(Some(format!(in alloc; "{name}: {text}")?)),
        None => Ok(None),
    }
}
