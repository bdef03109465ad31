//! The program: it hands what the process was given to `pr_top::program`, and ends with its status.
#![tactic(auto)]

use sqlite::Unknown;
use std::process::ExitCode;

fn main(rt: HostRuntime) -> ExitCode {
    pr_top::program::ended(&rt, Unknown)
}
