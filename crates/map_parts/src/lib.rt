//! The parts of a map on half-edges, made from a map and changed in place: its rows, the table of
//! half-edges, one half kept for each ring of a face, and the halves that leave each point.
//!
//! Each edit has a call that begins it, which makes all growths first, so that it can be taken back
//! without memory, and one that does that. The table is the doubly connected edge list of de Berg,
//! Cheong, van Kreveld and Overmars, Computational Geometry, chapter 2.
#![tactic(auto)]

mod building;
mod edits;
mod kept;
mod stars;

pub use building::{add_strings, link_rings};
pub use edits::dividing::{begin_divide, begin_undivide, undivide};
pub use edits::enclosing::{begin_enclose, begin_open, open};
pub use edits::join::{JoinedRows, begin_join, begin_unjoin, half_from, half_to, unjoin};
pub use edits::labels::rename;
pub use edits::merging::{begin_merge_along, begin_unmerge_along, unmerge_along};
pub use edits::merging_island::{begin_merge_island, begin_unmerge_island, unmerge_island};
pub use edits::merging_tried::EndedParcel;
pub use edits::placed_strings::PlacedString;
pub use edits::points::{add_point, move_point, put_point_back, take_point};
pub use edits::sources::{add_source, attach, attach_at, detach, take_source};
pub use edits::split::{begin_split, begin_unsplit, forward, unsplit};
pub use kept::kept_half;
pub use stars::{Spoke, far_in_star, find_half_by_ends, find_half_in_star, half_at, star_of};
