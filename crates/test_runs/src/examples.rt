// The examples: scripts, an exposition, a rule file and test files, with what the program answers to
// them. A line of `data/answers` has the words, the input behind ` < `, the file of the answers behind
// ` > `, and maybe behind ` & ` the files that are loaded.
use crate::program::Promtool;
use crate::run_rows::answers;
use pr_outside::{Files, HeldFile};
use std::alloc::Global;
use std::io;
use std::rt::HostRuntime;
use test_rows::{bytes_of, text_of};

/// The examples, a line each.
const EXAMPLES: &str = "answers";

fn held<F: Files>(alloc: Global, files: &mut F, name: &str) -> io::Result<HeldFile> {
    let bytes = bytes_of(files, name)?;
    Ok(HeldFile {
        name: String::from_str(alloc, name)?,
        bytes,
    })
}

fn all_held<F: Files>(alloc: Global, files: &mut F, names: &str) -> io::Result<Vec<HeldFile>> {
    let mut all = Vec::new(alloc);
    for name in names.split_whitespace() {
        all.push(held(alloc, files, name)?)?;
    }
    Ok(all)
}

// What is answered to these words, where this is the input and these files are loaded.
fn told<F: Files>(
    alloc: Global,
    files: &mut F,
    words: &str,
    input: &str,
    names: &str,
) -> io::Result<String> {
    let input = bytes_of(files, input)?;
    let loaded = all_held(alloc, files, names)?;
    let text = answers(alloc, &mut Promtool, words, input, loaded)?;
    Ok(text)
}

// Tells whether an example is answered as in its file.
fn tell_example<F: Files>(rt: &HostRuntime, files: &mut F, line: &str) -> io::Result<()> {
    let (example, names) = line.split_once(" & ").unwrap_or((line, ""));
    let (run, wanted) = example.split_once(" > ").unwrap_or((example, ""));
    let (words, input) = run.split_once(" < ").unwrap_or((run, ""));
    let told = told(rt.alloc(), files, words, input, names)?;
    if told == text_of(files, wanted)? {
        println!(rt; "{run}: as in {wanted}")
    } else {
        println!(rt; "{run}: not as in {wanted}:\n{told}")
    }
}

/// Goes over the examples.
pub(crate) fn tell_examples<F: Files>(rt: &HostRuntime, files: &mut F) -> io::Result<()> {
    let examples = text_of(files, EXAMPLES)?;
    for line in examples.lines() {
        tell_example(rt, files, line)?;
    }
    Ok(())
}
