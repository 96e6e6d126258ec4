//! What a map on half-edges promises beside what every store does. Each function says a public clause again, and its body
//! is the call: the edits in must-fail/ make that body wrong, and the clause refuses it.
#![tactic(auto)]

mod back;
mod table;
mod weight;
mod work;

pub use back::take_back;
pub use table::table_of;
pub use weight::{apply_with_small_record, weight_of_a_record};
pub use work::apply_in_place;
