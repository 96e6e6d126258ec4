//! Rows in order of entry, found by their number and by their place. A row that is taken out
//! leaves its slot, so it comes back at its place without memory and without a move of the others.
#![tactic(auto)]

mod changes;
mod list;
mod marks;
mod moves;

pub use list::EntryList;
