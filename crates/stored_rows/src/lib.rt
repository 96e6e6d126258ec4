//! Tables of a database file whose rows lie in order of entry: each under its place, from 1 and
//! without gaps.
#![tactic(auto)]

mod reading;
mod writing;

pub use reading::{TableError, read_rows};
pub use writing::{Layout, append_rows, clear_rows};
