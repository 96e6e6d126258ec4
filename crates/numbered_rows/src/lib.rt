//! Rows in order of entry, found by their numbers: the tables of every kind of map.
#![tactic(auto)]

mod numbered;
mod rows;

pub use numbered::Numbered;
pub use rows::Rows;
