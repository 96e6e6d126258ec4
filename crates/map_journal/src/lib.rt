//! The journal of a map file: the script lines that were carried out since its tables were written,
//! each under its number. A batch of lines is kept by one commit, and a crash at any moment leaves
//! all of it or none.
#![tactic(auto)]

mod journal;
mod line;
mod opening;

pub use journal::keep_batch;
pub use opening::{keep_crash_open, open_journal};

/// The tree of the journal's table.
pub const JOURNAL: u32 = 0;
