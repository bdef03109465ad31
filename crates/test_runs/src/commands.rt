// Commands of the program, which leave to one another what a store at a path has.
use crate::program::number_of;
use pr_outside::DiskFiles;
use pr_top::program::{ended, run};
use sqlite::Unknown;
use std::alloc::{AllocError, Global};
use std::io;
use test_rows::text_of;

// The words of a command.
fn words_in(alloc: Global, command: &str) -> Result<Vec<String>, AllocError> {
    let mut words = Vec::new(alloc);
    for word in command.split(' ') {
        words.push(String::from_str(alloc, word)?)?;
    }
    Ok(words)
}

/// Runs the commands of the file `commands` one after another, each as the program does, over the
/// files and stores of one folder; and tells the status of each.
pub(crate) fn tell_commands(rt: &HostRuntime) -> io::Result<()> {
    let alloc = rt.alloc();
    let commands = text_of(&mut DiskFiles::new(alloc, rt), "commands")?;
    for command in commands.lines() {
        println!(rt; "$ {command}")?;
        let words = words_in(alloc, command)?;
        let status = number_of(run(rt, &words, Unknown));
        println!(rt; "ends with {status}")?;
    }
    Ok(())
}

/// Ends as the program does by the words of this process, of which there are none; and tells the
/// status.
pub(crate) fn tell_usage(rt: &HostRuntime) -> io::Result<()> {
    println!(rt; "$")?;
    let status = number_of(ended(rt, Unknown));
    println!(rt; "ends with {status}")
}
