//! The laws of edits: what becomes of the corners, sides, faces and rings of a map.
#![tactic(auto)]

mod laws;

pub use laws::{
    areas_bent, areas_stand, areas_swept, counts, divided, enclosed, joined, merged, split_between,
    tables, touched, whole_rings,
};
