//! Records of a script whose commands are kept in the journal of a map file, and the lines of a
//! journal carried out again.
#![tactic(auto)]

mod laws;
mod lines;
mod replaying;
mod taking;

pub use laws::{journal_laws, one_meaning};
pub use lines::{line_of_row, row_of_line};
pub use replaying::{ReplayFault, replay};
pub use taking::{Taken, take_row};
