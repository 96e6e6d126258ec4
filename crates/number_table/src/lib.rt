//! Values under numbers that mostly follow one another, in order of entry.
#![tactic(auto)]

mod changes;
mod table;

pub use table::NumberTable;
