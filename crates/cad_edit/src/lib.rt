//! Why an edit is refused before anything is tried, and edits on a plain map.
#![tactic(auto)]

mod admitted;
mod chains;
mod edits;
mod effect;
mod naming;
mod parcels;
mod placing;
mod reasons;
mod refusal;
mod rings;
mod store;
mod strings_at;

pub use admitted::Admitted;
pub use chains::rows_along;
pub use edits::join::both_sources;
pub use effect::{are_in_range, try_edit};
pub use placing::is_in_ring;
pub use refusal::{admit, first_refusal};
pub use store::{PlainStore, WholeMaps};
pub use strings_at::two_at;
