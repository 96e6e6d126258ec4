//! A record that is cut at its commas.
ghost use Rattle.std.specs.Prelude.{◌≡◌, ◌<◌, ◌≤◌, ◌∷◌, [], Some, length, drop, IfOk, IfSome};
ghost use Rattle.csv.specs.Machine.{next_record};
ghost use Rattle.csv.specs.Reading.{strip_bom, default_config};
ghost use Rattle.csv.specs.Records.{fields_of};
ghost use Rattle.csv.specs.declared.parser.State.TheVariants as st;
ghost use Rattle.cad_files.specs.Input.{IsWhole};
ghost use Rattle.cad_session.specs.Plain.{IsLineEnd, is_mark as is_mark_of};

use cad_rows::Memory;
use csv::ByteRecord;
use std::alloc::Global;

/// The first byte of a byte order mark.
const BOM_BEGIN: u8 = 0xEF;

/// The one record of a text that is one line with no quote in it, and `None` of another text. It is cut at its commas
/// without a reader, whose tables take longer to make than most records to do.
pub(crate) fn plain_row(alloc: Global, text: &[u8]) -> Result<Option<ByteRecord>, Memory>
    ensures { IfOk result (λ found. IfSome found (λ row.
        IsWhole (strip_bom text.now) (fields_of row ∷ []))) }
{
    let end = line_end(text);
    if end == 0 || text[0] == BOM_BEGIN {
        return Ok(None);
    }
    cut_line(alloc, text, end)
}

/// Where a text ends, but for a line feed at its end.
fn line_end(text: &[u8]) -> usize
    ensures within { result ≤ length text.now }
    ensures ends { IsLineEnd (drop result text.now) }
{
    let len = text.len();
    if len > 0 && text[len - 1] == b'\n' {
        len - 1
    } else {
        len
    }
}

/// The fields between the commas of a text up to its line's end, and `None` where a quote or a line's end stands before.
fn cut_line(alloc: Global, text: &[u8], end: usize) -> Result<Option<ByteRecord>, Memory>
    requires some { 0 < end }
    requires within { end ≤ length text.now }
    requires ends { IsLineEnd (drop end text.now) }
    ensures { IfOk result (λ found. IfSome found (λ row.
        next_record default_config st.StartRecord [] [] text.now
        ≡ Some (fields_of row, st.StartRecord, []))) }
{
    let mut row = ByteRecord::new(alloc);
    let mut start = 0;
    for place in 0..end {
        let byte = text[place];
        if byte == b',' {
            row.push_field(&text[start..place])?;
            start = place + 1;
        } else if is_mark(byte) {
            return Ok(None);
        }
    }
    row.push_field(&text[start..end])?;
    Ok(Some(row))
}

/// Whether a byte is a quote or ends a line.
fn is_mark(byte: u8) -> bool
    ensures { result ≡ is_mark_of byte }
{
    byte == b'"' || byte == b'\r' || byte == b'\n'
}
