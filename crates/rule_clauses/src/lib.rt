//! What is promised of a map's rules. Each function says a public clause again, and its body is the call: the edits in
//! must-fail/ make that body wrong, and the clause refuses it.
#![tactic(auto)]

mod everywhere;
mod near;

pub use everywhere::first_broken_anywhere;
pub use near::first_broken_near_an_edit;
