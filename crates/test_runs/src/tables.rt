// The tables of runs, and the forms of what is printed beside them.
use crate::program::Promtool;
use crate::run_rows::{difference, has_written, lacking};
use pr_outside::Files;
use std::io;
use std::rt::HostRuntime;
use test_rows::text_of;

/// The names of the tables, a line each.
const TABLES: &str = "tables";

/// The forms of what is printed, a line each, as docs/WORDS.md has them.
const FORMS: &str = "forms";

// Tells which rows of a table are told otherwise, and how many it has.
fn tell_table(rt: &HostRuntime, name: &str, table: &str) -> io::Result<()> {
    for row in table.split("\n# ").skip(1) {
        if let Some(text) = difference(rt.alloc(), &mut Promtool, row)? {
            println!(rt; "{name}: {text}")?;
        }
    }
    println!(rt; "{name}: {} rows", table.split("\n# ").skip(1).count())
}

/// Goes over the tables, and gives their texts.
pub(crate) fn tell_tables<F: Files>(rt: &HostRuntime, files: &mut F) -> io::Result<String> {
    let names = text_of(files, TABLES)?;
    let mut tables = String::new(rt.alloc());
    for name in names.lines() {
        let table = text_of(files, name)?;
        tell_table(rt, name, &table)?;
        tables.push_str(&table)?;
    }
    Ok(tables)
}

// Tells which statuses and kinds no form has.
fn tell_lacking(rt: &HostRuntime, forms: &str, tables: &str) -> io::Result<()> {
    for line in tables.lines() {
        if let Some(word) = lacking(forms, line) {
            println!(rt; "no form has {word}")?;
        }
    }
    Ok(())
}

// Tells which forms no row has.
fn tell_unwritten(rt: &HostRuntime, forms: &str, tables: &str) -> io::Result<()> {
    for form in forms.lines() {
        if !tables.lines().any(|line| has_written(line, form)) {
            println!(rt; "no row has written {form}")?;
        }
    }
    Ok(())
}

/// Holds the forms of what is printed against what the rows of these tables have written.
pub(crate) fn tell_forms<F: Files>(
    rt: &HostRuntime,
    files: &mut F,
    tables: &str,
) -> io::Result<()> {
    let forms = text_of(files, FORMS)?;
    tell_lacking(rt, &forms, tables)?;
    tell_unwritten(rt, &forms, tables)?;
    println!(rt; "{FORMS}: {} lines", forms.lines().count())
}
