//! What a record asks for, done and answered.
ghost use Rattle.std.specs.Prelude.{◌≡◌, Ok, Some, IfOk, IfErr};
ghost use Rattle.csv.specs.Records.{fields_of};
ghost use Rattle.cad_history.specs.History.{History};
ghost use Rattle.cad_history.specs.Standing.{StandsFor, StandsForSome};
ghost use Rattle.cad_files.specs.Line.{line_of};
ghost use Rattle.cad_session.specs.Answered.{IsAnswered, IsUntold};

use crate::faults::Untold;
use cad_files::{
    Line, LineFault, answer_text, area_text, outline_text, plan_text, read_line, syntax_text,
};
use cad_history::{Answer, Command, Editor, step};
use cad_map::MapStore;
use cad_rows::{Memory, Refusal};
use csv::ByteRecord;
use std::alloc::Global;

/// Does what a record of a script asks for, and gives the text of its answer. After a fault the editor can be used on.
pub fn answer_of_row<M: MapStore>(
    alloc: Global,
    editor: &mut Editor<M>,
    row: &ByteRecord,
) -> Result<Vec<u8>, Untold>
    requires { StandsForSome M.map M.belongs editor.old }

    // From each history that the editor stood for it goes to one in which the record is answered.
    ensures told { IfOk result (λ text. (h : History) → StandsFor M.map M.belongs editor.old h →
        (end : History) × IsAnswered h (line_of (fields_of row.now)) text.items end
        × StandsFor M.map M.belongs editor.new end) }

    // Where memory runs out, it stands for the same history, or for that behind the record.
    ensures untold { IfErr result (λ fault. (h : History) → StandsFor M.map M.belongs editor.old h →
        (end : History) × IsUntold h (line_of (fields_of row.now)) fault end
        × StandsFor M.map M.belongs editor.new end) }
{
    match read_line(alloc, row) {
        Ok(Line::Command(command)) => answer_of_command(alloc, editor, &command),
        Ok(Line::Areas) => told(area_text(alloc, editor.map())),
        Ok(Line::Outline(face)) => told(outline_text(alloc, editor.map(), face)),
        Ok(Line::Print) => told(plan_text(alloc, editor.map())),
        Err(LineFault::Syntax) => told(syntax_text(alloc)),
        Err(LineFault::Memory) => Err(Untold::Undone),
    }
}

/// The text of an answer that changes nothing.
fn told(text: Result<Vec<u8>, Memory>) -> Result<Vec<u8>, Untold>
    ensures told { IfOk result (λ told. text ≡ Ok told) }
    ensures untold { IfErr result (λ fault. fault ≡ Untold.Undone) }
{
    match text {
        Ok(text) => Ok(text),
        Err(Memory) => Err(Untold::Undone),
    }
}

/// Carries a command out, and gives the text of its answer.
fn answer_of_command<M: MapStore>(
    alloc: Global,
    editor: &mut Editor<M>,
    command: &Command,
) -> Result<Vec<u8>, Untold>
    requires { StandsForSome M.map M.belongs editor.old }
    ensures told { IfOk result (λ text. (h : History) → StandsFor M.map M.belongs editor.old h →
        (end : History) × IsAnswered h (Some (Line.Command command.now)) text.items end
        × StandsFor M.map M.belongs editor.new end) }
    ensures untold { IfErr result (λ fault. (h : History) → StandsFor M.map M.belongs editor.old h →
        (end : History) × IsUntold h (Some (Line.Command command.now)) fault end
        × StandsFor M.map M.belongs editor.new end) }
{
    let answer = step(editor, command);
    if answer == Answer::Refused(Refusal::Memory) {
        return Err(Untold::Undone);
    }
    match answer_text(alloc, &answer) {
        Ok(text) => Ok(text),
        Err(Memory) => Err(Untold::Done),
    }
}
