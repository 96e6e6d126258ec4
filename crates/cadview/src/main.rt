//! Views of cadastral maps: `cadview svg PLAN`, `cadview table PLAN` and `cadview diff OLD NEW` write a drawing, a table
//! with geometry, or what differs, to standard output.
#![tactic(auto)]

mod answers;
mod args;
mod faults;
mod names;
mod program;

use command_line::run_named;
use program::run_words;
use std::process::ExitCode;

fn main(rt: HostRuntime) -> ExitCode {
    ExitCode::from(run_named(&rt, "cadview", |words| run_words(&rt, words)))
}
