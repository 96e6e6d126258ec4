//! The lines of a journal are carried out again.
ghost use Rattle.std.specs.Prelude.{◌≡◌, ◌∷◌, [], true, IfOk, OnOk};
ghost use Rattle.cad_history.specs.History.{History};
ghost use Rattle.cad_history.specs.Standing.{StandsFor, StandsForSome};
ghost use Rattle.map_session.specs.Session.{Replays};

use crate::lines::row_of_line;
use crate::taking::take_row;
use cad_history::Editor;
use cad_map::MapStore;
use cad_rows::Memory;
use sqlite_value::value::Bytes;
use std::alloc::Global;

/// Why a journal isn't carried out.
#[derive(Clone, Copy, Debug, PartialEq, Eq)]
pub enum ReplayFault {
    /// The line at this place, from 0, is no record of a command, or its command isn't carried out.
    Line(usize),
    /// Memory ran out.
    Memory,
}

/// Carries a line's command out, and whether it was.
fn replay_line<M: MapStore>(
    alloc: Global,
    editor: &mut Editor<M>,
    line: &Bytes,
) -> Result<bool, Memory>
    requires { StandsForSome M.map M.belongs editor.old }
    ensures { IfOk result (λ done. done ≡ true
        → (h : History) → StandsFor M.map M.belongs editor.old h → (end : History)
        × Replays h (line.now ∷ []) end × StandsFor M.map M.belongs editor.new end) }
{
    match row_of_line(alloc, line)? {
        Some(row) => {
            let taken = take_row(alloc, editor, &row)?;
            Ok(taken.done)
        }
        None => Ok(false),
    }
}

/// Carries the lines of a journal out in turn. After a fault the editor isn't used again.
pub fn replay<M: MapStore>(
    alloc: Global,
    editor: &mut Editor<M>,
    lines: &[Bytes],
) -> Result<(), ReplayFault>
    requires { StandsForSome M.map M.belongs editor.old }
    ensures { OnOk result ((h : History) → StandsFor M.map M.belongs editor.old h
        → (end : History) × Replays h lines.now end × StandsFor M.map M.belongs editor.new end) }
{
    for (place, line) in lines.iter().enumerate() {
        match replay_line(alloc, editor, line) {
            Ok(true) => {}
            Ok(false) => return Err(ReplayFault::Line(place)),
            Err(Memory) => return Err(ReplayFault::Memory),
        }
    }
    Ok(())
}
