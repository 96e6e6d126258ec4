//! Records of edits, small ones that the edit's reach bounds: what each holds and weighs, the edit
//! that it is of, and what that edit touches of a map and of its grid.
#![tactic(auto)]

mod areas;
mod grid;
mod grid_edits;
mod grid_lists;
mod grid_records;
mod point_strings;
mod record;
mod shared_strings;
mod touched;

pub use areas::{areas_again, areas_back, recut_by, return_areas, turn_areas};
pub use grid::{enter, grid_of, withdraw};
pub use grid_edits::{at, coming, going};
pub use grid_lists::span_between;
pub use grid_records::{what_comes, what_goes};
pub use record::{ChainString, SmallRecord, are_in_range, weight};
pub use touched::touched_by;
