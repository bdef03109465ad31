// What is read from a text, and shown by no command. A line of a table of readings is a text and
// what is shown of it, apart by ` ⇒ `, both with the signs of tables (`test_runs::run_rows`); or `--` and a comment.
use crate::rule_files::groups_shown;
use crate::run_rows::push_text;
use crate::yaml::tree_shown;
use pr_ast::labels::series::read_series_text;
use pr_ast::print;
use pr_num::read;
use pr_outside::Files;
use pr_top::tmpl::{External, Template};
use pr_words::Text;
use std::alloc::{AllocError, Global};
use std::rt::HostRuntime;
use std::{io, str};
use test_rows::parse::parse;
use test_rows::text_of;

/// What a text is read as.
#[derive(Clone, Copy)]
enum Reading {
    /// An expression: its tree, as it is printed.
    Expression,
    /// A value, a blank and a template: what it expands to, where the label `job` is `api` and
    /// `zone` is `a|b`, the external label `cluster` is `c1`, and the address is `http://x`.
    Template,
    /// A rule file: its groups and rules.
    RuleFile,
    /// YAML: its tree, as `yaml.rt` shows it.
    Yaml,
    /// YAML: its tree, in which the lines of keys and nodes stand after `@`.
    Lines,
}

/// The tables of readings, each a file.
const READINGS: [(&str, Reading); 5] = [
    ("readings/expressions", Reading::Expression),
    ("readings/lines", Reading::Lines),
    ("readings/rule_files", Reading::RuleFile),
    ("readings/templates", Reading::Template),
    ("readings/yaml", Reading::Yaml),
];

fn tree_printed(alloc: Global, text: &str) -> Result<String, AllocError> {
    let Ok(expr) = parse(alloc, text) else {
        return String::from_str(alloc, "no expression");
    };
    let mut out = Vec::new(alloc);
    print(&expr, &mut out)?;
    String::from_str(alloc, str::from_utf8(&out).unwrap_or("no text"))
}

fn external(alloc: Global) -> Result<External, AllocError> {
    match read_series_text(alloc, "{cluster=\"c1\"}") {
        Ok(labels) => Ok(External {
            labels,
            url: Text::from_str(alloc, "http://x")?,
        }),
        Err(_) => Err(AllocError),
    }
}

fn template_expanded(alloc: Global, text: &str) -> Result<String, AllocError> {
    let external = external(alloc)?;
    let (value, text) = text.split_once(' ').unwrap_or(("", text));
    let Ok(value) = read(value.as_bytes()) else {
        return String::from_str(alloc, "no number");
    };
    let Ok(labels) = read_series_text(alloc, "{job=\"api\",zone=\"a|b\"}") else {
        return String::from_str(alloc, "no labels");
    };
    let Ok(template) = Template::parse(alloc, text) else {
        return String::from_str(alloc, "no template");
    };
    template.expand(alloc, &labels, value, &external)
}

// The text of a table, as it is meant.
fn meant(alloc: Global, text: &str) -> Result<String, AllocError> {
    let mut bytes = Vec::new(alloc);
    push_text(&mut bytes, text)?;
    bytes.pop();
    String::from_str(alloc, str::from_utf8(&bytes).unwrap_or("no text"))
}

// A line whose text is read otherwise, with what is shown of it.
fn misread(alloc: Global, reading: Reading, line: &str) -> Result<Option<String>, AllocError> {
    let Some((text, want)) = line.split_once(" ⇒ ") else {
        return Ok(None);
    };
    let text = meant(alloc, text)?;
    let shown = match reading {
        Reading::Expression => tree_printed(alloc, &text)?,
        Reading::Template => template_expanded(alloc, &text)?,
        Reading::RuleFile => groups_shown(alloc, &text)?,
        Reading::Yaml => tree_shown(alloc, &text, false)?,
        Reading::Lines => tree_shown(alloc, &text, true)?,
    };
    if shown == meant(alloc, want)? {
        return Ok(None);
    }
    Ok(Some(format!(in alloc; "{line}: read as {shown}")?))
}

// Tells which lines of a table are read otherwise, and how many it has.
fn tell_lines(rt: &HostRuntime, name: &str, reading: Reading, table: &str) -> io::Result<()> {
    for line in table.lines() {
        if let Some(text) = misread(rt.alloc(), reading, line)? {
            println!(rt; "{name}: {text}")?;
        }
    }
    println!(rt; "{name}: {} lines", table.lines().count())
}

/// Goes over the tables of readings.
pub(crate) fn tell_readings<F: Files>(rt: &HostRuntime, files: &mut F) -> io::Result<()> {
    for (name, reading) in READINGS {
        let table = text_of(files, name)?;
        tell_lines(rt, name, reading, &table)?;
    }
    Ok(())
}
