//! Runs each row of the tables and each example, and commands over a store; and tells where what is
//! written, kept, read or answered is not what stands there. With the words PATH, COMMITS and ROWS it
//! makes so many commits of so many rows at a path, or with 0 commits loads each row that is there, to
//! be measured from outside, and tells how many calls were answered.
#![tactic(auto)]

mod commands;
mod engine_rows;
mod examples;
mod folds;
mod program;
mod readings;
mod rule_files;
mod run_rows;
mod sample;
mod tables;
mod unit_rows;
mod words;
mod yaml;

use crate::commands::{tell_commands, tell_usage};
use crate::engine_rows::tell_engines;
use crate::examples::tell_examples;
use crate::folds::ends_of;
use crate::readings::tell_readings;
use crate::sample::{depth_and_number, words_again};
use crate::tables::{tell_forms, tell_tables};
use crate::unit_rows::tell_tests;
use crate::words::words_shown;
use pr_outside::DiskFiles;
use pr_outside::status::{RuntimeLine, words_of};
use sqlite::Unknown;
use std::alloc::Global;
use std::io;
use test_rows::alert_rows::tell_alerts;
use test_rows::queue_rows::tell_queues;
use test_rows::slide_rows::tell_ranges;
use test_rows::store_lines::{tell_stores, tell_work};

// Tells what is shown of small things, a line each.
fn tell_others(rt: &HostRuntime) -> io::Result<()> {
    let alloc = rt.alloc();
    let (depth, number) = depth_and_number(alloc)?;
    println!(rt; "minuses are too deep at {depth}, and 7 is {number}")?;
    println!(rt; "words of the sample: {}", words_again(alloc)?)?;
    println!(rt; "words of a command line: {}", words_shown(alloc)?)?;
    let (first, last) = ends_of(b"fold").unwrap_or((b' ', b' '));
    println!(rt;
        "the ends of `fold`: {}{}",
        char::from(first),
        char::from(last)
    )
}

// So many values that stand for what a file holds.
fn unknowns(alloc: Global, count: usize) -> io::Result<Vec<Unknown>> {
    let mut starts = Vec::new(alloc);
    for _ in 0..count {
        starts.push(Unknown)?;
    }
    Ok(starts)
}

// Goes over the tables of what calls answer that no run shows.
fn tell_calls(rt: &HostRuntime) -> io::Result<()> {
    tell_alerts(rt, "calls/alerts")?;
    tell_engines(rt, "calls/engines")?;
    tell_queues(rt, "calls/queues")?;
    tell_ranges(rt, "calls/ranges")?;
    tell_tests(rt, "calls/tests")?;
    tell_stores(rt, unknowns(rt.alloc(), 64)?)
}

// Goes over the tables of runs and of what is read from texts, and over the examples.
fn tell_runs(rt: &HostRuntime) -> io::Result<()> {
    let mut files = DiskFiles::new(rt.alloc(), rt);
    let tables = tell_tables(rt, &mut files)?;
    tell_forms(rt, &mut files, &tables)?;
    tell_readings(rt, &mut files)?;
    tell_examples(rt, &mut files)
}

// Goes over all.
fn tell(rt: &HostRuntime) -> io::Result<()> {
    tell_runs(rt)?;
    tell_others(rt)?;
    tell_calls(rt)?;
    tell_commands(rt)?;
    tell_usage(rt)
}

fn main(rt: HostRuntime) -> io::Result<()> {
    let words = words_of(rt.alloc(), &RuntimeLine::new(&rt))?;
    if words.is_empty() {
        tell(&rt)
    } else {
        tell_work(&rt, words.as_slice(), Unknown)
    }
}
