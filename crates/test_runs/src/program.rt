// The program, as rows run it.
use crate::run_rows::{Outside, Program};
use pr_top::program::ended_over;
use std::alloc::Global;
use std::process::ExitCode;

/// The number that a process ends with, where it is that of a status.
pub(crate) fn number_of(code: ExitCode) -> u8 {
    for number in 0..9u8 {
        if ExitCode::from(number) == code {
            return number;
        }
    }
    u8::MAX
}

/// The program.
#[derive(Clone, Copy)]
pub(crate) struct Promtool;

impl Program for Promtool {
    fn status(&mut self, alloc: Global, words: &[String], outside: &mut Outside) -> u8 {
        number_of(ended_over(
            alloc,
            words,
            &mut outside.input,
            &mut outside.files,
            &mut outside.store,
            &mut outside.out,
        ))
    }
}
