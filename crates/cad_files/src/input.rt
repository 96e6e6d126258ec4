//! Reading an input record by record.

ghost use Rattle.std.specs.Prelude.{◌≡◌, ◌≢◌, ◌++◌, ◌∷◌, [], ℕ, List, IfOk, IfErr, IfSome, true, false};
ghost use Rattle.csv.specs.Reading.{strip_bom, has_failed};
ghost use Rattle.csv.specs.Records.{fields_of};
ghost use Rattle.cad_files.specs.Input.{HasRead, IsWhole, BeginsWith, IsOfOtherLength};

use csv::{ByteRecord, ErrorKind, Reader, ReaderBuilder};
use std::alloc::Global;
use std::io::Read;

/// Why an input could not be read on.
#[derive(Clone, Copy, Debug, PartialEq, Eq)]
pub enum InputFault {
    /// The reader failed.
    Read,
    /// A record has another number of fields than the first.
    Length,
    /// A growth was refused.
    Memory,
}

/// A reader of the records of an input, of which none was read.
pub fn records_of<R: Read>(alloc: Global, input: R) -> Reader<R>
    ensures { IfSome (R.remaining input)
        (λ bytes. HasRead R.remaining (strip_bom bytes) [] result) }
{
    ReaderBuilder::new()
        .has_headers(false)
        .from_reader(alloc, input)
}

/// The next record into `row`, and whether there was one. After a fault the reader is not used again.
pub fn next_row<R: Read>(reader: &mut Reader<R>, row: &mut ByteRecord) -> Result<bool, InputFault>
    ensures more { IfOk result (λ found. found ≡ true
        → (text : List ℕ) (rows : List (List (List ℕ))) →
        HasRead R.remaining text rows reader.old
        → HasRead R.remaining text (rows ++ fields_of row.new ∷ []) reader.new) }
    ensures ends { IfOk result (λ found. found ≡ false
        → (text : List ℕ) (rows : List (List (List ℕ))) →
        HasRead R.remaining text rows reader.old → IsWhole text rows) }
    ensures length { IfErr result (λ fault. fault ≡ InputFault.Length
        → (text : List ℕ) (rows : List (List (List ℕ))) →
        HasRead R.remaining text rows reader.old → IsOfOtherLength text rows) }
    ensures failed { IfErr result (λ fault. fault ≢ InputFault.Length
        → (text : List ℕ) (rows : List (List (List ℕ))) →
        HasRead R.remaining text rows reader.old → has_failed reader.new ≡ true) }
{
    match reader.read_byte_record(row) {
        Ok(found) => Ok(found),
        Err(e) => match e.kind() {
            ErrorKind::OutOfMemory => Err(InputFault::Memory),
            ErrorKind::UnequalLengths { .. } => Err(InputFault::Length),
            _ => Err(InputFault::Read),
        },
    }
}

/// A text has one list of records, and what its records begin with is a front of it.
pub fn one_reading()
    ensures { (text : List ℕ) (front whole : List (List (List ℕ))) → BeginsWith text front
        → IsWhole text whole → (rest : List (List (List ℕ))) × (whole ≡ front ++ rest) }
{}
