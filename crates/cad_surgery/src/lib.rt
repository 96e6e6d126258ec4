//! Maps on half-edges, changed in place.
#![tactic(auto)]

mod ahead;
mod areas;
mod draft;
mod draft_areas;
mod draft_grid;
mod draft_rows;
mod edits;
mod half_map;
mod half_map_edits;
mod laws;
mod play;

pub use edit_records::{ChainString, SmallRecord, touched_by, weight};
pub use half_map::HalfMap;
pub use laws::{
    divisions_bring_chains, edits_exchange_entries, enclosures_bring_islands, halves_make_the_map,
    mergers_take_chains, mergers_take_islands, the_map_makes_halves,
};
