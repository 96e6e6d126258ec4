//! What any store of a map promises of an edit. Each function says a public clause again, and its body is the call: the
//! edits in must-fail/ make that body wrong, and the clause refuses it. So no store can be proved whose edits do so.
#![tactic(auto)]

mod apply;
mod back;
mod plain;

pub use apply::make;
pub use back::{go_forward, take_back};
pub use plain::{make_on_rows, take_back_on_rows};
