//! The doubly connected edge list of de Berg, Cheong, van Kreveld and Overmars, Computational
//! Geometry, chapter 2, as a table of half-edges by the numbers of their strings.
#![tactic(auto)]

mod changes;
mod half;
mod links;
mod open;
mod packed;
mod rows;
mod table;
mod tally;
mod walk;

pub use half::Half;
pub use open::OpenTable;
pub use table::HalfTable;
pub use tally::{Tally, Ticks};
pub use walk::Walk;
