//! Short lists under keys. Room is made before a change, and the change is then certain.
#![tactic(auto)]

mod items;
mod lists;
mod short;

pub use lists::KeyLists;
pub use short::Short;
