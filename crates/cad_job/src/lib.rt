//! A job from bytes to bytes, and what the program is told by its arguments.
#![tactic(auto)]

mod args;
mod faults;
mod job;
mod path;
mod program;

pub use args::{Args, read_args};
pub use command_line::args_status;
pub use faults::{JobFault, STOPPED_STATUS, Stopped, status};
pub use job::{run_job, run_job_until_refused, run_script};
pub use path::run_path;
pub use program::{run_words, tell};
