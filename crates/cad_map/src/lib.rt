//! What a map is, when it is valid, and what an edit makes of it.
#![tactic(auto)]

mod boundary;
mod canonical;
mod copying;
mod corner;
mod laws;
mod look;
mod map_rows;
mod outlines;
mod plain;
mod retired;
mod rings;
mod shared_chain;
mod span;
mod stars;
mod store;
mod sums;
mod turn;
mod walk;

pub use boundary::Boundary;
pub use canonical::face_place;
pub use corner::{Corner, are_in_one_ring, chosen_corner};
pub use laws::{faces_balance, one_list, one_outcome, one_shared_chain, parcels_add_up};
pub use look::{far_end, is_end, is_face, position_in};
pub use map_rows::{MapRows, RetiredRow};
pub use plain::PlainMap;
pub use rings::{has_face, position, ring_sum, sum_round};
pub use shared_chain::{
    SharedChain, find_chain_of_sides, find_shared_chain, has_shared_chain, is_shared, shared_count,
};
pub use span::{Span, far_with, span_of};
pub use stars::{Spoke, Stars};
pub use store::{Counts, MapStore, MapView};
pub use sums::sum_of;
pub use turn::sort_in_turn;
pub use walk::Walk;
