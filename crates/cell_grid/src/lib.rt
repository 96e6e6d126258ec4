//! The strings and points of a map by the cells that they touch, so that what lies near a segment
//! is found without a look at the rest of the map.
//!
//! Each segment stands in the list of every cell that its box touches. Two segments with a common
//! location have a cell in common, so the cells of a segment's box have all that may meet it. The
//! method is that of cells in J. L. Bentley and J. H. Friedman, "Data structures for range
//! searching" (1979), and of W. R. Franklin's "Adaptive grids for geometric operations" (1984).
//! Cells are squares of two sizes, and for long segments lanes either way.
#![tactic(auto)]

mod block;
mod bounds;
mod entries;
mod entry;
mod grid;
mod held_list;
mod layer;
mod lists;
mod near;
mod packed;
mod segments;

pub use entries::Entries;
pub use entry::{HeldPoint, HeldString};
pub use grid::{Candidates, CellGrid, PointCandidates};
