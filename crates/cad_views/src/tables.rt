//! The tables of a map's points and strings.
ghost use Rattle.std.specs.Prelude.{◌≡◌, OnOk, IfOk, map as map_of};
ghost use Rattle.cad_files.specs.Texts.{HasAppended, record_text, text_of};
ghost use Rattle.cad_files.specs.Building.{IsBuilt};
ghost use Rattle.cad_views.specs.Tables.{point_row, string_row, point_table as point_table_of, string_table as string_table_of};

use crate::well_known::{line_geometry, point_geometry};
use cad_files::{PlanRows, PlanString, face_number, finished, list_text, write_record, writer};
use cad_map::{MapView, PlainMap};
use cad_rows::{Memory, PointRow};
use csv::Writer;
use itoa::Buffer;
use std::alloc::Global;

// Writes the record of a point.
fn write_point(alloc: Global, out: &mut Writer<Vec<u8>>, row: &PointRow) -> Result<(), Memory>
    ensures { OnOk result (HasAppended (record_text (point_row row.now)) out.old out.new) }
{
    let mut number = Buffer::new();
    let sources = list_text(alloc, row.sources.as_slice())?;
    let geometry = point_geometry(alloc, row.position)?;
    let number = number.format(row.number.get()).as_bytes();
    let sources = sources.as_slice();
    let geometry = geometry.as_slice();
    write_record(out, &[number, sources, geometry])
}

// Writes the record of each point.
fn write_points(alloc: Global, out: &mut Writer<Vec<u8>>, map: &PlainMap) -> Result<(), Memory>
    ensures { OnOk result
        (HasAppended (text_of (map_of point_row map.now.points)) out.old out.new) }
{
    for place in 0..map.counts().points {
        write_point(alloc, out, map.point_at(place).unwrap())?;
    }
    Ok(())
}

/// The table of a map's points, in order of entry: number, sources, position. `Err` where memory runs out.
pub fn point_table(alloc: Global, map: &PlainMap) -> Result<Vec<u8>, Memory>
    ensures { IfOk result (λ text. text.items ≡ text_of (point_table_of map.now)) }
{
    let mut out = writer(alloc);
    write_record(&mut out, &[b"number", b"sources", b"WKT"])?;
    write_points(alloc, &mut out, map)?;
    let text = finished(out)?;
    Ok(text)
}

// Writes the record of a string.
fn write_string(
    alloc: Global,
    out: &mut Writer<Vec<u8>>,
    map: &PlainMap,
    string: &PlanString,
) -> Result<(), Memory>
    ensures { OnOk result
        (HasAppended (record_text (string_row map.now string.now)) out.old out.new) }
{
    let mut number = Buffer::new();
    let mut from = Buffer::new();
    let mut to = Buffer::new();
    let mut left = Buffer::new();
    let mut right = Buffer::new();
    let sources = list_text(alloc, string.row.sources.as_slice())?;
    let geometry = line_geometry(alloc, map, string.row.from, string.row.to)?;
    let number = number.format(string.row.number.get()).as_bytes();
    let from = from.format(string.row.from.get()).as_bytes();
    let to = to.format(string.row.to.get()).as_bytes();
    let left = left.format(face_number(string.left)).as_bytes();
    let right = right.format(face_number(string.right)).as_bytes();
    let sources = sources.as_slice();
    let geometry = geometry.as_slice();
    write_record(out, &[number, from, to, left, right, sources, geometry])
}

// Writes the record of each string of a plan.
fn write_strings(
    alloc: Global,
    out: &mut Writer<Vec<u8>>,
    map: &PlainMap,
    strings: &[PlanString],
) -> Result<(), Memory>
    ensures { OnOk result
        (HasAppended (text_of (map_of (string_row map.now) strings.now)) out.old out.new) }
{
    for place in 0..strings.len() {
        write_string(alloc, out, map, &strings[place])?;
    }
    Ok(())
}

/// The table of the strings of a map that was built of these rows, in order of entry: number, first and last point, the
/// faces left and right, 0 for the outside, sources, line. `Err` where memory runs out.
pub fn string_table(alloc: Global, rows: &PlanRows, map: &PlainMap) -> Result<Vec<u8>, Memory>
    requires { IsBuilt rows.now map.now }
    ensures { IfOk result (λ text. text.items ≡ text_of (string_table_of map.now)) }
{
    let mut out = writer(alloc);
    write_record(
        &mut out,
        &[
            b"number", b"from", b"to", b"left", b"right", b"sources", b"WKT",
        ],
    )?;
    write_strings(alloc, &mut out, map, rows.strings.as_slice())?;
    let text = finished(out)?;
    Ok(text)
}
