//! What is promised of a map. Each function says a public clause again, and its body is the call: the edits in
//! must-fail/ make that body wrong, and the clause refuses it.
#![tactic(auto)]

mod chains;
mod corners;
mod plain;
mod rings;
mod sums;
mod walks;

pub use chains::{one_shared_chain, string_lies_between};
pub use corners::{chosen_corner_of_a_face, corners_are_in_one_ring};
pub use plain::take_a_parcel;
pub use rings::point_of_a_turned_ring;
pub use sums::sum_of_a_ring;
pub use walks::next_side_of_a_walk;
