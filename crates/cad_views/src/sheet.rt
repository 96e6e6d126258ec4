//! What a sheet is called and what it shows.

use crate::key::COLUMN;
use crate::page::Spot;
use crate::pen::push_text;
use crate::words::cut_to;
use cad_rows::Memory;
use std::alloc::Global;
use unicode_width::UnicodeWidthStr;

/// What a sheet is called and what it shows.
#[derive(Drop)]
pub struct Sheet {
    /// What it is called.
    pub title: String,
    /// The map's name.
    pub plan: String,
    /// The older map's name, where there is one.
    pub since: Option<String>,
}

// The sizes that the letters of a title may have, with the columns for which the sheet has room then.
const SIZES: [(i64, usize); 4] = [(480, 25), (380, 32), (300, 41), (LINE, COLUMNS)];

/// The size of the letters of a name, and the columns for which the sheet has room then.
const LINE: i64 = 240;

const COLUMNS: usize = 52;

// The greatest size at which there is room for a title.
fn size_of(title: &str) -> i64 {
    for (size, columns) in SIZES {
        if title.width() <= columns {
            return size;
        }
    }
    LINE
}

// Writes a line so far down, as far as there is room.
fn push_line(
    alloc: Global,
    text: &mut Vec<u8>,
    y: i64,
    size: i64,
    line: &str,
) -> Result<(), Memory> {
    let words = cut_to(alloc, line, COLUMNS)?;
    push_text(text, "k", &Spot::at(COLUMN, y), size, words.as_str())
}

/// Writes the title, and below it the names of the maps that are shown. `Err` where memory runs out.
pub(crate) fn push_title(alloc: Global, text: &mut Vec<u8>, sheet: &Sheet) -> Result<(), Memory> {
    let title = sheet.title.as_str();
    push_line(alloc, text, 1_500, size_of(title), title)?;
    push_line(alloc, text, 2_050, LINE, sheet.plan.as_str())?;
    if let Some(since) = &sheet.since {
        let mut line = String::from_str(alloc, "since ")?;
        line.push_str(since.as_str())?;
        push_line(alloc, text, 2_450, LINE, line.as_str())?;
    }
    Ok(())
}
