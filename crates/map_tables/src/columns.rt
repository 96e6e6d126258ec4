//! What a row's columns may hold. Whether they do is asked by writing the row again, so these have no clause.
use cad_rows::{Face, Label, Number, Numbers, SourceNo};
use sqlite_value::row::Row;
use sqlite_value::value::ValueRef;
use std::alloc::{AllocError, Global};
use std::str;

/// The integer of a column.
pub(crate) fn integer(row: &Row, column: usize) -> Option<i64> {
    match row.get(column) {
        ValueRef::Int(value) => Some(value),
        _ => None,
    }
}

/// The number of a column, from 1 to 999,999,999.
pub(crate) fn number<Kind>(row: &Row, column: usize) -> Option<Number<Kind>> {
    match u32::try_from(integer(row, column)?) {
        Ok(value) => Number::new(value),
        Err(_) => None,
    }
}

/// The face of a column: 0 for the outside, or a parcel's number.
pub(crate) fn face(row: &Row, column: usize) -> Option<Face> {
    if integer(row, column) == Some(0) {
        Some(Face::Outside)
    } else {
        Some(Face::Parcel(number(row, column)?))
    }
}

/// The text of a column.
fn text(row: &Row, column: usize) -> Option<&str> {
    match row.get(column) {
        ValueRef::Text(bytes) => str::from_utf8(bytes).ok(),
        _ => None,
    }
}

/// The label of a column. An error where memory runs out.
pub(crate) fn label(alloc: Global, row: &Row, column: usize) -> Result<Option<Label>, AllocError> {
    let Some(text) = text(row, column) else {
        return Ok(None);
    };
    match Label::new(alloc, text) {
        Ok(label) => Ok(label),
        Err(_) => Err(AllocError),
    }
}

/// The sources of a column, with one space between them. An error where memory runs out.
pub(crate) fn sources(
    alloc: Global,
    row: &Row,
    column: usize,
) -> Result<Option<Numbers<SourceNo>>, AllocError> {
    let mut sources = Numbers::new(alloc);
    let Some(text) = text(row, column) else {
        return Ok(None);
    };
    if text.is_empty() {
        return Ok(Some(sources));
    }
    for part in text.split(' ') {
        let Ok(value) = part.parse::<u32>() else {
            return Ok(None);
        };
        let Some(source) = Number::new(value) else {
            return Ok(None);
        };
        if sources.push(source).is_err() {
            return Err(AllocError);
        }
    }
    Ok(Some(sources))
}
