//! The tables of a map's sources and retired numbers, which have no geometry.
ghost use Rattle.std.specs.Prelude.{◌≡◌, OnOk, IfOk, map as map_of};
ghost use Rattle.cad_files.specs.Texts.{HasAppended, record_text, text_of};
ghost use Rattle.cad_views.specs.Tables.{source_row, source_table as source_table_of, retired_row, retired_table as retired_table_of};

use cad_files::{finished, write_record, writer};
use cad_map::{MapView, PlainMap};
use cad_rows::{Memory, ParcelNo, SourceRow};
use csv::Writer;
use itoa::Buffer;
use std::alloc::Global;

// Writes the record of a source.
fn write_source(out: &mut Writer<Vec<u8>>, row: &SourceRow) -> Result<(), Memory>
    ensures { OnOk result (HasAppended (record_text (source_row row.now)) out.old out.new) }
{
    let mut number = Buffer::new();
    let number = number.format(row.number.get()).as_bytes();
    let text = row.text.as_str().as_bytes();
    write_record(out, &[number, text])
}

// Writes the record of each source.
fn write_sources(out: &mut Writer<Vec<u8>>, map: &PlainMap) -> Result<(), Memory>
    ensures { OnOk result
        (HasAppended (text_of (map_of source_row map.now.sources)) out.old out.new) }
{
    for place in 0..map.counts().sources {
        write_source(out, map.source_at(place).unwrap())?;
    }
    Ok(())
}

/// The table of a map's sources, in order of entry: number, text. `Err` where memory runs out.
pub fn source_table(alloc: Global, map: &PlainMap) -> Result<Vec<u8>, Memory>
    ensures { IfOk result (λ text. text.items ≡ text_of (source_table_of map.now)) }
{
    let mut out = writer(alloc);
    write_record(&mut out, &[b"number", b"text"])?;
    write_sources(&mut out, map)?;
    let text = finished(out)?;
    Ok(text)
}

// Writes the record of a retired number.
fn write_retired(out: &mut Writer<Vec<u8>>, parcel: ParcelNo) -> Result<(), Memory>
    ensures { OnOk result (HasAppended (record_text (retired_row parcel)) out.old out.new) }
{
    let mut number = Buffer::new();
    let number = number.format(parcel.get()).as_bytes();
    write_record(out, &[number])
}

// Writes the record of each retired number.
fn write_all_retired(out: &mut Writer<Vec<u8>>, map: &PlainMap) -> Result<(), Memory>
    ensures { OnOk result
        (HasAppended (text_of (map_of retired_row map.now.retired)) out.old out.new) }
{
    for place in 0..map.counts().retired {
        write_retired(out, map.retired_at(place).unwrap())?;
    }
    Ok(())
}

/// The table of the numbers of parcels that mergers ended, in order of entry. `Err` where memory runs out.
pub fn retired_table(alloc: Global, map: &PlainMap) -> Result<Vec<u8>, Memory>
    ensures { IfOk result (λ text. text.items ≡ text_of (retired_table_of map.now)) }
{
    let mut out = writer(alloc);
    write_record(&mut out, &[b"number"])?;
    write_all_retired(&mut out, map)?;
    let text = finished(out)?;
    Ok(text)
}
