//! What is promised of a job and of the words of a command line. Each function says a public clause again, and its body is
//! the call: the edits in must-fail/ make that body wrong, and the clause refuses it.
#![tactic(auto)]

mod jobs;
mod words;

pub use jobs::{job, job_until_refused};
pub use words::{line_told, status_of_a_fault, words_of_a_call};
