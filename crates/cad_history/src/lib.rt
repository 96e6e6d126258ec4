//! An editor with undo and redo, over any store of a map.
#![tactic(auto)]

mod commands;
mod editor;
mod laws;
mod sequence;

pub use commands::{Answer, Command, DEPTH_LIMIT, Depth, UndoFault};
pub use editor::Editor;
pub use laws::{histories_stay, one_history};
pub use sequence::{run, step};
