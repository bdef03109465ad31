//! The program but for its `main`: it makes the real streams, files and store, and hands them with
//! the words of the command line to `pr_top::promtool`.
ghost use Rattle.std.specs.Prelude.{◌≡◌, map, string_bytes};
ghost use Rattle.std.specs.Process.{exit_status};
ghost use Rattle.pr_outside.specs.Status.{status_number};
ghost use Rattle.pr_outside.specs.declared.status.status.Status.{Status};
ghost use Rattle.pr_top.specs.Command.{command_of};
ghost use Rattle.pr_top.specs.Follows.{Promises};
ghost use Rattle.pr_top.specs.Process.{EndsLine};

use crate::promtool;
use pr_keep_sql::{DiskFile, SqlKeeper};
use pr_outside::status::{CommandLine, RuntimeLine, Status, exit_of, words_of};
use pr_outside::{DiskFiles, Files, Keeper, Sink, Source, StdSink, StdSource};
use sqlite::Start;
use std::alloc::Global;
use std::process::ExitCode;
use std::rt::HostRuntime;

/// Does what the words ask for, as [`promtool`] does, and tells how the process ends: by the number
/// of the status.
pub fn ended_over<I: Source, F: Files, K: Keeper, O: Sink>(
    alloc: Global,
    words: &[String],
    input: &mut I,
    files: &mut F,
    keeper: &mut K,
    out: &mut O,
) -> ExitCode
    ensures { (status : Status) × (exit_status result ≡ status_number status) × Promises (command_of (map string_bytes words.now))
        (record { input = I.means input.old; files = F.means files.old; store = K.means keeper.old; out = O.means out.old })
        (record { input = I.means input.new; files = F.means files.new; store = K.means keeper.new; out = O.means out.new }) status }
{
    exit_of(promtool(alloc, words, input, files, keeper, out))
}

/// Does what the words of a command line ask for, and tells how the process ends. Where memory does
/// not suffice for the words, nothing is done.
pub fn ended_by<L: CommandLine, I: Source, F: Files, K: Keeper, O: Sink>(
    alloc: Global,
    line: &L,
    input: &mut I,
    files: &mut F,
    keeper: &mut K,
    out: &mut O,
) -> ExitCode
    ensures { EndsLine (L.words line.now) (record { input = I.means input.old; files = F.means files.old; store = K.means keeper.old; out = O.means out.old })
        (record { input = I.means input.new; files = F.means files.new; store = K.means keeper.new; out = O.means out.new }) (exit_status result) }
{
    match words_of(alloc, line) {
        Ok(words) => ended_over(alloc, &words, input, files, keeper, out),
        Err(_) => exit_of(Status::Memory),
    }
}

/// Runs these words over the real objects, and tells how the process ends. A store at a path stands
/// for what its files held by `start`, which is `sqlite::Unknown` in a program.
pub fn run<T: Start>(rt: &HostRuntime, words: &[String], start: T) -> ExitCode {
    let alloc = rt.alloc();
    let mut input = StdSource::new(rt.stdin());
    let mut out = StdSink::new(rt.stdout());
    let mut files = DiskFiles::new(alloc, rt);
    let mut keeper = SqlKeeper::new(alloc, DiskFile::new(rt, start));
    ended_over(alloc, words, &mut input, &mut files, &mut keeper, &mut out)
}

/// Runs the words that the process was given over the real objects, as [`run`] has them, and tells
/// how it ends.
pub fn ended<T: Start>(rt: &HostRuntime, start: T) -> ExitCode {
    let alloc = rt.alloc();
    let mut input = StdSource::new(rt.stdin());
    let mut out = StdSink::new(rt.stdout());
    let mut files = DiskFiles::new(alloc, rt);
    let mut keeper = SqlKeeper::new(alloc, DiskFile::new(rt, start));
    let line = RuntimeLine::new(rt);
    ended_by(alloc, &line, &mut input, &mut files, &mut keeper, &mut out)
}
