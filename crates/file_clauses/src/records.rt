//! Records of an input, and what they ask for.
ghost use Rattle.std.specs.Prelude.{◌≡◌, ◌≢◌, ◌++◌, ◌∷◌, [], ℕ, List, Some, None, IfOk, IfErr, IsErrOf, true, false};
ghost use Rattle.csv.specs.Reading.{has_failed};
ghost use Rattle.csv.specs.Records.{fields_of};
ghost use Rattle.cad_files.specs.Input.{HasRead, IsWhole, IsOfOtherLength};
ghost use Rattle.cad_files.specs.Line.{line_of};

use cad_files::{InputFault, Line, LineFault, next_row, read_line};
use csv::{ByteRecord, Reader};
use std::alloc::Global;
use std::io::Read;

/// The next record of an input, and whether there was one.
pub fn next_record<R: Read>(
    reader: &mut Reader<R>,
    row: &mut ByteRecord,
) -> Result<bool, InputFault>
    ensures more { IfOk result (λ found. found ≡ true
        → (text : List ℕ) (rows : List (List (List ℕ))) →
        HasRead R.remaining text rows reader.old
        → HasRead R.remaining text (rows ++ fields_of row.new ∷ []) reader.new) }
    ensures ends { IfOk result (λ found. found ≡ false
        → (text : List ℕ) (rows : List (List (List ℕ))) →
        HasRead R.remaining text rows reader.old → IsWhole text rows) }
    ensures length { IfErr result (λ fault. fault ≡ InputFault.Length
        → (text : List ℕ) (rows : List (List (List ℕ))) →
        HasRead R.remaining text rows reader.old → IsOfOtherLength text rows) }
    ensures failed { IfErr result (λ fault. fault ≢ InputFault.Length
        → (text : List ℕ) (rows : List (List (List ℕ))) →
        HasRead R.remaining text rows reader.old → has_failed reader.new ≡ true) }
{
    next_row(reader, row)
}

/// What a record of a script asks for.
pub fn line_of_a_record(alloc: Global, row: &ByteRecord) -> Result<Line, LineFault>
    ensures line { IfOk result (λ line. line_of (fields_of row.now) ≡ Some line) }
    ensures syntax { IsErrOf result LineFault.Syntax → line_of (fields_of row.now) ≡ None }
{
    read_line(alloc, row)
}
