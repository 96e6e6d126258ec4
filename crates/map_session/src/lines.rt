//! A line of a journal: a record as the default writer of `csv` writes it, without its line feed.
ghost use Rattle.std.specs.Prelude.{◌≡◌, IfOk, IfSome};
ghost use Rattle.csv.specs.Records.{fields_of};
ghost use Rattle.cad_files.specs.Texts.{record_text};
ghost use Rattle.map_session.specs.Session.{IsLineOf};

use cad_files::{InputFault, finished, next_row, records_of, writer};
use cad_rows::Memory;
use csv::ByteRecord;
use sqlite_value::value::Bytes;
use std::alloc::Global;

// The text of a record.
#[tactic(auto, unfolding(cad_files::specs::Texts::record_text))]
fn text_of_row(alloc: Global, row: &ByteRecord) -> Result<Vec<u8>, Memory>
    ensures { IfOk result (λ text. text.items ≡ record_text (fields_of row.now)) }
{
    let mut writer = writer(alloc);
    match writer.write_byte_record(row) {
        Ok(()) => finished(writer),
        Err(_) => Err(Memory),
    }
}

/// The line of a record.
pub fn line_of_row(alloc: Global, row: &ByteRecord) -> Result<Bytes, Memory>
    ensures { IfOk result (λ line. IsLineOf line (fields_of row.now)) }
{
    let mut text = text_of_row(alloc, row)?;
    text.pop();
    Ok(Bytes::from_slice(alloc, text.as_slice())?)
}

/// The record of a line, if it is the line of one.
pub fn row_of_line(alloc: Global, line: &Bytes) -> Result<Option<ByteRecord>, Memory>
    ensures { IfOk result (λ found. IfSome found (λ row. IsLineOf line.now (fields_of row))) }
{
    let mut row = ByteRecord::new(alloc);
    match next_row(&mut records_of(alloc, line.as_slice()), &mut row) {
        Ok(true) => {}
        Ok(false) => return Ok(None),
        Err(InputFault::Memory) => return Err(Memory),
        Err(_) => return Ok(None),
    }
    let again = line_of_row(alloc, &row)?;
    if line.as_slice() == again.as_slice() {
        Ok(Some(row))
    } else {
        Ok(None)
    }
}
