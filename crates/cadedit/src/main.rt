//! The editor of cadastral maps: `cadedit [--depth N] [--stop] [FILE]` does the job in FILE, or on standard input, and writes
//! an answer for each record of its script.
#![tactic(auto)]

use cad_job::run_words;
use command_line::run_named;
use std::process::ExitCode;

/// The program's version, as `--version` tells it. CHANGELOG.md says what each brought.
const VERSION: &str = "1.3.0";

fn main(rt: HostRuntime) -> ExitCode {
    ExitCode::from(run_named(&rt, "cadedit", |words| run_words(&rt, VERSION, words)))
}
