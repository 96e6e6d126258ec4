//! The strings of a drawing.

use crate::edges::{Edge, push_lines};
use crate::marks::{Mark, has_left, string_mark};
use crate::page::Page;
use cad_map::{MapView, PlainMap};
use cad_rows::Memory;
use std::alloc::Global;

// What became of each string, in order of entry.
fn string_marks(
    alloc: Global,
    map: &PlainMap,
    since: Option<&PlainMap>,
) -> Result<Vec<Mark>, Memory> {
    let mut marks = Vec::new(alloc);
    for place in 0..map.counts().strings {
        if let Some(row) = map.string_at(place) {
            marks.push(string_mark(since, map, row))?;
        }
    }
    Ok(marks)
}

// The strings of which this became.
fn lines_with(
    alloc: Global,
    page: &Page,
    map: &PlainMap,
    marks: &[Mark],
    wanted: Mark,
) -> Result<Vec<Edge>, Memory> {
    let mut lines = Vec::new(alloc);
    for place in 0..marks.len() {
        if marks[place] == wanted {
            if let Some(row) = map.string_at(place) {
                lines.push(Edge::between(page, map, row.from, row.to))?;
            }
        }
    }
    Ok(lines)
}

// The class of strings of which this became.
fn class_of(mark: Mark) -> &'static str {
    match mark {
        Mark::Same => "s",
        Mark::Added => "s added",
        Mark::Changed => "s changed",
        Mark::Removed => "s removed",
    }
}

/// Draws each string once, those of which the same became as one path. `Err` where memory runs out.
pub(crate) fn push_strings(
    alloc: Global,
    text: &mut Vec<u8>,
    page: &Page,
    map: &PlainMap,
    since: Option<&PlainMap>,
) -> Result<(), Memory> {
    let marks = string_marks(alloc, map, since)?;
    for mark in [Mark::Same, Mark::Changed, Mark::Added] {
        let lines = lines_with(alloc, page, map, marks.as_slice(), mark)?;
        push_lines(text, class_of(mark), lines.as_slice())?;
    }
    Ok(())
}

/// The strings of an older map, if there is one, that this one hasn't, or has elsewhere, where they were. `Err` where memory
/// runs out.
pub(crate) fn gone_lines(
    alloc: Global,
    page: &Page,
    map: &PlainMap,
    since: Option<&PlainMap>,
) -> Result<Vec<Edge>, Memory> {
    let mut lines = Vec::new(alloc);
    let Some(old) = since else {
        return Ok(lines);
    };
    for place in 0..old.counts().strings {
        if let Some(row) = old.string_at(place) {
            if has_left(old, map, row) {
                lines.push(Edge::between(page, old, row.from, row.to))?;
            }
        }
    }
    Ok(lines)
}

/// Draws strings that aren't where they were. `Err` where memory runs out.
pub(crate) fn push_gone_lines(text: &mut Vec<u8>, lines: &[Edge]) -> Result<(), Memory> {
    push_lines(text, class_of(Mark::Removed), lines)
}
