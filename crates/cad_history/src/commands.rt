//! What an editor is told, and what it answers.
ghost use Rattle.std.specs.Prelude.{◌≡◌, ◌↔◌, IsSome, IfSome};
ghost use Rattle.cad_history.specs.Depth.{IsDepth};

use cad_rows::{Edit, Refusal};
use std::marker::Model;

/// The greatest number of edits that can be undone.
pub const DEPTH_LIMIT: usize = 1000;

/// How many edits can be undone, from 1 to 1,000.
#[derive(Clone, Copy, PartialEq, Eq)]
pub struct Depth {
    edits: usize,
}

impl Model for Depth {
    ghost use Rattle.std.specs.Prelude.{ℕ};
    ghost use Rattle.cad_history.specs.Depth.{IsDepth};

    ghost Value = { ℕ };

    ghost view = { λ d. d.edits };

    ghost invariant = { λ d. IsDepth d.edits };

    ghost inverse = { λ n. record { edits = n } };
}

impl Depth {
    /// The depth of so many edits, or `None` where that is 0 or past the greatest.
    pub fn new(edits: usize) -> Option<Depth>
        ensures some { IsSome result ↔ IsDepth edits }
        ensures value { IfSome result (λ depth. depth ≡ edits) }
    {
        if 1 <= edits && edits <= DEPTH_LIMIT {
            Some(Depth { edits })
        } else {
            None
        }
    }

    /// The depth as an integer.
    pub fn get(&self) -> usize
        ensures value { result ≡ self.now }
        ensures within { IsDepth result }
    {
        self.edits
    }
}

/// What an editor can be told to do.
#[derive(Drop)]
pub enum Command {
    /// To make an edit.
    Edit(Edit),
    /// To go one edit back.
    Undo,
    /// To go one edit on, where edits were undone.
    Redo,
}

/// What an editor answers a command.
#[derive(Clone, Copy, PartialEq, Eq)]
pub enum Answer {
    /// It was carried out.
    Done,
    /// There was no edit to go back or on.
    Nothing,
    /// It was refused, and nothing has changed. An undo or a redo is refused for want of memory alone.
    Refused(Refusal),
}

/// Why an undo or a redo did nothing.
#[derive(Clone, Copy, PartialEq, Eq)]
pub enum UndoFault {
    /// There was no edit to go back or on.
    Nothing,
    /// Memory ran out.
    Memory,
}
