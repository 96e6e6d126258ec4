//! A record of a script is done.
ghost use Rattle.std.specs.Prelude.{◌≡◌, ◌↔◌, true, IfOk};
ghost use Rattle.csv.specs.Records.{fields_of};
ghost use Rattle.cad_history.specs.History.{History};
ghost use Rattle.cad_history.specs.Standing.{StandsFor, StandsForSome};
ghost use Rattle.cad_files.specs.Line.{line_of};
ghost use Rattle.cad_session.specs.Answered.{IsAnswered};
ghost use Rattle.map_session.specs.Session.{IsDoneIf, done_text};

use cad_history::Editor;
use cad_map::MapStore;
use cad_rows::Memory;
use cad_session::answer_of_row;
use csv::ByteRecord;
use std::alloc::Global;

/// What was told of a record, and whether it was a command that was carried out.
#[derive(Drop)]
pub struct Taken {
    pub answer: Vec<u8>,
    pub done: bool,
}

/// The answer to a command that was carried out.
const DONE: &[u8] = b"ok,,,,,,\n";

fn is_done(answer: &[u8]) -> bool
    ensures { result ≡ true ↔ answer.now ≡ done_text }
{
    answer == DONE
}

/// Does what a record of a script asks for. Where it isn't a command that is carried out, the history stays. Where memory
/// runs out the editor isn't used again, since the record may have been done.
pub fn take_row<M: MapStore>(
    alloc: Global,
    editor: &mut Editor<M>,
    row: &ByteRecord,
) -> Result<Taken, Memory>
    requires { StandsForSome M.map M.belongs editor.old }
    ensures { IfOk result (λ taken. (h : History) → StandsFor M.map M.belongs editor.old h →
        (end : History) × IsAnswered h (line_of (fields_of row.now)) taken.answer.items end
        × IsDoneIf taken.done h (fields_of row.now) end × StandsFor M.map M.belongs editor.new end) }
{
    match answer_of_row(alloc, editor, row) {
        Ok(answer) => {
            let done = is_done(answer.as_slice());
            Ok(Taken { answer, done })
        }
        Err(_) => Err(Memory),
    }
}
