//! A record that stands alone.
ghost use Rattle.std.specs.Prelude.{◌≡◌, ◌≢◌, ◌∷◌, [], ℕ, List, IfOk, IfErr};
ghost use Rattle.csv.specs.Reading.{strip_bom};
ghost use Rattle.csv.specs.Records.{fields_of};
ghost use Rattle.cad_history.specs.History.{History};
ghost use Rattle.cad_history.specs.Standing.{StandsFor, StandsForSome};
ghost use Rattle.cad_files.specs.Input.{IsWhole};
ghost use Rattle.cad_files.specs.Line.{line_of};
ghost use Rattle.cad_session.specs.Answered.{IsAnswered, IsSubmitFault};

use crate::answers::answer_of_row;
use crate::faults::{SubmitFault, Untold};
use crate::plain::plain_row;
use cad_files::{InputFault, next_row, records_of};
use cad_history::Editor;
use cad_map::MapStore;
use cad_rows::Memory;
use csv::ByteRecord;
use std::alloc::Global;

/// Does the one record of a text, and gives the text of its answer. After a fault the editor can be used on.
pub fn submit<M: MapStore>(
    alloc: Global,
    editor: &mut Editor<M>,
    text: &[u8],
) -> Result<Vec<u8>, SubmitFault>
    requires { StandsForSome M.map M.belongs editor.old }

    // From each history that the editor stood for it goes to one in which the record is answered.
    ensures told { IfOk result (λ answer. (h : History) → StandsFor M.map M.belongs editor.old h →
        (fields : List (List ℕ)) × (end : History) × IsWhole (strip_bom text.now) (fields ∷ [])
        × IsAnswered h (line_of fields) answer.items end × StandsFor M.map M.belongs editor.new end) }

    // Else it stands for the same history, or for that behind the record, as the fault says.
    ensures untold { IfErr result (λ fault. (h : History) → StandsFor M.map M.belongs editor.old h →
        (end : History) × IsSubmitFault h (strip_bom text.now) fault end
        × StandsFor M.map M.belongs editor.new end) }
{
    let row = match one_row(alloc, text) {
        Ok(row) => row,
        Err(fault) => return Err(fault),
    };
    match answer_of_row(alloc, editor, &row) {
        Ok(answer) => Ok(answer),
        Err(Untold::Undone) => Err(SubmitFault::Undone),
        Err(Untold::Done) => Err(SubmitFault::Done),
    }
}

/// The one record of a text: cut at its commas if the text is plain, and read if not.
fn one_row(alloc: Global, text: &[u8]) -> Result<ByteRecord, SubmitFault>
    ensures row { IfOk result (λ row. IsWhole (strip_bom text.now) (fields_of row ∷ [])) }
    ensures undone { IfErr result (λ fault. fault ≢ SubmitFault.Done) }
{
    match plain_row(alloc, text) {
        Ok(Some(row)) => Ok(row),
        Ok(None) => read_row(alloc, text),
        Err(Memory) => Err(SubmitFault::Undone),
    }
}

/// The one record of a text, by a reader.
fn read_row(alloc: Global, text: &[u8]) -> Result<ByteRecord, SubmitFault>
    ensures row { IfOk result (λ row. IsWhole (strip_bom text.now) (fields_of row ∷ [])) }
    ensures undone { IfErr result (λ fault. fault ≢ SubmitFault.Done) }
{
    let mut reader = records_of(alloc, text);
    let mut row = ByteRecord::new(alloc);
    match next_row(&mut reader, &mut row) {
        Ok(true) => {}
        Ok(false) => return Err(SubmitFault::NotOne),
        Err(fault) => return Err(fault_of_input(fault)),
    }
    let mut more = ByteRecord::new(alloc);
    match next_row(&mut reader, &mut more) {
        Ok(false) => Ok(row),
        Ok(true) => Err(SubmitFault::NotOne),
        Err(fault) => Err(fault_of_input(fault)),
    }
}

/// What a fault of an input is to a text of one record: two records of other lengths aren't one.
fn fault_of_input(fault: InputFault) -> SubmitFault
    ensures { result ≢ SubmitFault.Done }
{
    match fault {
        InputFault::Read | InputFault::Length => SubmitFault::NotOne,
        InputFault::Memory => SubmitFault::Undone,
    }
}
