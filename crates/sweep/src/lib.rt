//! What is told of many things by one sort: which boxes in the plane overlap,
//! and where a value first stands again.
//!
//! It stands on nothing but std, and knows nothing of what the boxes are boxes of: the caller's
//! test is asked by places.
#![tactic(auto)]

mod extent;
mod groups;
mod part;
mod repeats;
mod scan;
mod span;

pub use extent::{Extent, LEAST_ROW_HEIGHT, all_that_overlap_pass, row_height};
pub use groups::all_of_two_groups_pass;
pub use repeats::first_repeated;
pub use scan::{PairTest, all_that_meet_pass};
pub use span::Span;
