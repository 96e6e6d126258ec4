//! Worked plans, told by groups of records, and the maps and edits of texts.
ghost use Rattle.std.specs.Prelude.{IfOk};
ghost use Rattle.cad_map.specs.Valid.{IsValid};

use cad_files::{Line, build, next_row, read_line, read_plan};
use cad_history::Command;
use cad_map::PlainMap;
use cad_rows::Edit;
use csv::{ByteRecord, ReaderBuilder};
use number_hash::NumberHash;
use std::alloc::{AllocError, Global};
use std::test::Fail;

/// A plan: groups of records, put into an empty one after another. In a group records are parted by a semicolon and a
/// space, and written without the commas that fill them up to seven fields. A record stands in the place of that with its
/// kind and number, or else behind the others of its kind; "-string,11" takes string 11 out.
pub(crate) type Plan = &'static [&'static str];

/// The records of a square of a metre.
pub(crate) const SQUARE_RECORDS: &str =
    "source,1,Plan 7; point,1,0,0,1; point,2,1000,0; point,3,1000,1000; point,4,0,1000; \
    parcel,1,A; string,11,1,2,1,0; string,12,2,3,1,0; string,13,3,4,1,0; string,14,4,1,1,0";

/// A square of a metre.
pub(crate) const SQUARE: Plan = &[SQUARE_RECORDS];

/// An island in that square.
pub(crate) const ISLAND_RECORDS: &str =
    "point,6,700,300; point,7,800,300; point,8,800,500; parcel,2,B; string,31,6,7,2,1; \
    string,32,7,8,2,1; string,33,8,6,2,1";

/// The square with an island.
pub(crate) const ISLAND: Plan = &[SQUARE_RECORDS, ISLAND_RECORDS];

/// A parcel round a triangle, which holds a triangle.
pub(crate) const PINCH_RECORDS: &str =
    "source,1,Plan 7; point,1,0,1000; point,2,3000,500; point,3,3000,1500; point,4,2000,900; \
    point,5,2000,1100; point,6,1000,0; point,7,4000,0; point,8,4000,2000; point,9,1000,2000; \
    parcel,1,A; parcel,2,B; parcel,3,C; string,11,1,6,1,0; string,12,6,7,1,0; string,13,7,8,1,0; \
    string,14,8,9,1,0; string,15,9,1,1,0; string,21,1,2,2,1; string,22,2,3,2,1; \
    string,23,3,1,2,1; string,31,1,4,3,2; string,32,4,5,3,2; string,33,5,1,3,2";

/// A parcel round a triangle, which holds a triangle: all three meet in point 1.
pub(crate) const PINCH: Plan = &[PINCH_RECORDS];

/// The kind of a record, and the number behind it.
fn name_of(record: &str) -> (&str, &str) {
    let mut fields = record.split(',');
    let kind = fields.next().unwrap_or("");
    (kind, fields.next().unwrap_or(""))
}

/// Where the records of a kind stand in a plan.
fn rank(record: &str) -> u32 {
    match name_of(record).0 {
        "plan" => 0,
        "source" => 1,
        "point" => 2,
        "parcel" => 3,
        "string" => 4,
        "retired" => 5,
        _ => 6,
    }
}

/// How many commas a record has outside quotes.
fn commas(record: &str) -> usize {
    let mut count = 0usize;
    for outside in record.split('"').step_by(2) {
        count = count.saturating_add(outside.matches(',').count());
    }
    count
}

/// Appends a record as a line, filled up to seven fields.
pub(crate) fn append(text: &mut String, record: &str) -> Result<(), AllocError> {
    text.push_str(record)?;
    for _ in commas(record)..6 {
        text.push_str(",")?;
    }
    text.push_str("\n")
}

/// Bytes that a worked plan fits into, so that its text doesn't grow in steps.
const ROOM: usize = 2048;

/// A plan without the record that has this one's name.
fn without(alloc: Global, plan: &str, record: &str) -> Result<String, AllocError> {
    let mut text = String::with_capacity(alloc, ROOM)?;
    for line in plan.lines() {
        if name_of(line) != name_of(record) {
            append(&mut text, line)?;
        }
    }
    Ok(text)
}

/// A plan with a record in the place of that with its name, or else behind the others of its kind.
fn with_record(alloc: Global, plan: &str, record: &str) -> Result<String, AllocError> {
    let mut text = String::with_capacity(alloc, ROOM)?;
    let mut is_put = false;
    for line in plan.lines() {
        let is_old = name_of(line) == name_of(record);
        if !is_put && (is_old || rank(line) > rank(record)) {
            append(&mut text, record)?;
            is_put = true;
        }
        if !is_old {
            append(&mut text, line)?;
        }
    }
    Ok(text)
}

/// A plan with a group of records.
fn with_group(alloc: Global, mut text: String, group: &str) -> Result<String, AllocError> {
    for record in group.split("; ") {
        text = match record.strip_prefix('-') {
            Some(gone) => without(alloc, text.as_str(), gone)?,
            None => with_record(alloc, text.as_str(), record)?,
        };
    }
    Ok(text)
}

/// The text of a plan.
pub(crate) fn text_of(alloc: Global, plan: Plan) -> Result<String, AllocError> {
    let mut text = String::new(alloc);
    append(&mut text, "plan,2")?;
    append(&mut text, "open")?;
    for group in plan {
        text = with_group(alloc, text, group)?;
    }
    Ok(text)
}

/// The map of a plan's text.
pub(crate) fn map_of(alloc: Global, plan: &str) -> Result<PlainMap, Fail>
    ensures { IfOk result IsValid }
{
    let mut reader = ReaderBuilder::new()
        .has_headers(false)
        .from_reader(alloc, plan.as_bytes());
    let rows = read_plan(alloc, &mut reader).ok().ok_or("a plan")?;
    match build(alloc, NumberHash::fixed(), &rows) {
        Ok(map) => Ok(map),
        Err(_) => Err(Fail::from("a map")),
    }
}

/// The command that a record asks for, written as in a plan's group.
pub(crate) fn command_of(alloc: Global, record: &str) -> Result<Command, Fail> {
    let mut text = String::new(alloc);
    append(&mut text, record)?;
    let mut reader = ReaderBuilder::new()
        .has_headers(false)
        .from_reader(alloc, text.as_bytes());
    let mut row = ByteRecord::new(alloc);
    let _ = next_row(&mut reader, &mut row);
    match read_line(alloc, &row) {
        Ok(Line::Command(command)) => Ok(command),
        _ => Err(Fail::from("a command")),
    }
}

/// The edit that a record asks for, written in the same way.
pub(crate) fn edit_of(alloc: Global, record: &str) -> Result<Edit, Fail> {
    match command_of(alloc, record)? {
        Command::Edit(edit) => Ok(edit),
        _ => Err(Fail::from("an edit")),
    }
}
