//! How the tables of a map hash numbers: fast, from a start that a stranger can't know.
#![tactic(auto)]

mod hash;
mod hasher;

pub use hash::NumberHash;
pub use hasher::NumberHasher;
