//! The table of a map's parcels.
ghost use Rattle.std.specs.Prelude.{◌≡◌, ◌≤◌, ◌^◌, OnOk, IfOk, List, unsigned_abs};
ghost use Rattle.cad_map.specs.Valid.{IsValid};
ghost use Rattle.cad_files.specs.Texts.{Record, HasAppended, record_text, text_of};
ghost use Rattle.cad_views.specs.Tables.{TellsParcel, AreTold, IsParcelTable};

use crate::areas::face_area;
use crate::cut::cut_rings;
use crate::well_known::polygon_geometry;
use cad_files::{area_text_of, finished, hundredths, list_text, write_record, writer};
use cad_map::{MapView, PlainMap};
use cad_rows::{Face, Memory, ParcelRow};
use csv::Writer;
use itoa::Buffer;
use std::alloc::Global;

// Writes the record of a parcel of a valid map.
fn write_parcel(
    alloc: Global,
    out: &mut Writer<Vec<u8>>,
    map: &PlainMap,
    row: &ParcelRow,
) -> Result<(), Memory>
    requires { IsValid map.now }
    ensures { OnOk result ((told : Record) × TellsParcel map.now row.now told
        × HasAppended (record_text told) out.old out.new) }
{
    let mut number = Buffer::new();
    let mut digits = Buffer::new();
    let doubled = face_area(map, Face::Parcel(row.number));
    let area = area_text_of(alloc, hundredths(doubled))?;
    let sources = list_text(alloc, row.sources.as_slice())?;
    let pieces = cut_rings(alloc, map, Face::Parcel(row.number))?;
    let geometry = polygon_geometry(alloc, map, pieces.as_slice())?;
    let number = number.format(row.number.get()).as_bytes();
    let label = row.label.as_str().as_bytes();
    let area = area.as_slice();
    let doubled = digits.format(doubled).as_bytes();
    let sources = sources.as_slice();
    let geometry = geometry.as_slice();
    write_record(out, &[number, label, area, doubled, sources, geometry])?;
    Ok(())
}

// Writes the record of each parcel of a valid map.
fn write_parcels(alloc: Global, out: &mut Writer<Vec<u8>>, map: &PlainMap) -> Result<(), Memory>
    requires { IsValid map.now }
    ensures { OnOk result ((told : List Record)
        × AreTold (TellsParcel map.now) map.now.parcels told
        × HasAppended (text_of told) out.old out.new) }
{
    for place in 0..map.counts().parcels {
        write_parcel(alloc, out, map, map.parcel_at(place).unwrap())?;
    }
    Ok(())
}

/// The table of the parcels of a valid map, in order of entry: number, label, area in square metres, doubled area in
/// square millimetres, sources, and a polygon, whose rings pass no point twice. `Err` where memory runs out.
pub fn parcel_table(alloc: Global, map: &PlainMap) -> Result<Vec<u8>, Memory>
    requires { IsValid map.now }
    ensures { IfOk result (λ text. (told : List Record) × IsParcelTable map.now told
        × (text.items ≡ text_of told)) }
{
    let mut out = writer(alloc);
    write_record(
        &mut out,
        &[b"number", b"label", b"area", b"doubled", b"sources", b"WKT"],
    )?;
    write_parcels(alloc, &mut out, map)?;
    let text = finished(out)?;
    Ok(text)
}
