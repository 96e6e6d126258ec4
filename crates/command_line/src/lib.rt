//! What the programs do alike: they read the words of their command line, and end with a status.
#![tactic(auto)]

mod status;
mod words;

pub use status::{ARGUMENTS_STATUS, MEMORY_STATUS, args_status};
pub use words::{run_named, tell_refused};
