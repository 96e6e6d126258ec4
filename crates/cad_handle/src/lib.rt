//! A map that is open, as C holds it: a handle that is all zero while it is closed.
#![tactic(auto)]

mod handle;
mod kept;
mod loose;
mod opening;
mod state;

pub use handle::Handle;
pub use kept::Kept;
pub use opening::open_plan;
pub use state::State;
