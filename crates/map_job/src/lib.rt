//! A map file: its map, what was done to it since its tables were written, and how many edits can be undone.
#![tactic(auto)]

mod making;
mod opening;
mod serving;
mod settings;

pub use making::make_map;
pub use opening::{OpenFault, OpenMap, open_map};
pub use serving::{ServeFault, Served, serve_batch};
pub use settings::{SETTINGS, put_depth, read_depth};
