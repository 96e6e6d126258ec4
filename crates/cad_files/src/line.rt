//! The lines of a script.
ghost use Rattle.std.specs.Prelude.{◌≡◌, Some, None, IfOk, IsErrOf};
ghost use Rattle.csv.specs.Records.{fields_of};
ghost use Rattle.cad_files.specs.Line.{line_of_fields, line_of};

use crate::edit_lines::edit_record;
use crate::fields::{Fields, face, seven};
use cad_history::Command;
use cad_rows::{Face, Memory};
use csv::ByteRecord;
use std::alloc::Global;

/// What a record of a script asks for.
#[derive(Drop)]
pub enum Line {
    /// An edit, an undo or a redo.
    Command(Command),
    /// The areas of the parcels.
    Areas,
    /// The outline of a face.
    Outline(Face),
    /// The plan of the map.
    Print,
}

/// Why a record is no line.
#[derive(Clone, Copy, PartialEq, Eq)]
pub enum LineFault {
    /// It is none of a script.
    Syntax,
    /// Memory ran out.
    Memory,
}

// What seven fields ask for.
#[tactic(auto, unfolding(crate::specs::Line::line_of_fields))]
fn line_record(alloc: Global, r: &Fields<'_>) -> Result<Option<Line>, Memory>
    ensures { IfOk result (λ line. line ≡ line_of_fields r.now) }
{
    if r.is_record(b"undo", 0) {
        Ok(Some(Line::Command(Command::Undo)))
    } else if r.is_record(b"redo", 0) {
        Ok(Some(Line::Command(Command::Redo)))
    } else if r.is_record(b"areas", 0) {
        Ok(Some(Line::Areas))
    } else if r.is_record(b"outline", 1) {
        Ok(face(r.a).map(Line::Outline))
    } else if r.is_record(b"print", 0) {
        Ok(Some(Line::Print))
    } else {
        match edit_record(alloc, r)? {
            Some(edit) => Ok(Some(Line::Command(Command::Edit(edit)))),
            None => Ok(None),
        }
    }
}

/// What a record of a script asks for.
pub fn read_line(alloc: Global, row: &ByteRecord) -> Result<Line, LineFault>
    ensures line { IfOk result (λ line. line_of (fields_of row.now) ≡ Some line) }
    ensures syntax { IsErrOf result LineFault.Syntax → line_of (fields_of row.now) ≡ None }
{
    let Some(fields) = seven(row) else {
        return Err(LineFault::Syntax);
    };
    match line_record(alloc, &fields) {
        Ok(Some(line)) => Ok(line),
        Ok(None) => Err(LineFault::Syntax),
        Err(Memory) => Err(LineFault::Memory),
    }
}
