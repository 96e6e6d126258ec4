//! The text of the areas of a map's parcels.
ghost use Rattle.std.specs.Prelude.{◌≡◌, ◌≤◌, ◌<◌, ◌^◌, ◌/◌, ◌++◌, codes, decimal, OnOk, IfOk, map, unsigned_abs};
ghost use Rattle.cad_map.specs.Valid.{IsValid};
ghost use Rattle.cad_files.specs.Texts.{HasAppended, record_text, text_of};
ghost use Rattle.cad_files.specs.Reports.{hundredths_of, area_field, sign_field, two_digits, area_record, area_record_in, area_records};

use crate::writing::{finished, write_record, writer as new_writer};
use cad_map::{MapView, sum_of};
use cad_rows::{Face, Memory, ParcelRow};
use csv::Writer;
use geo_exact::DoubledArea;
use itoa::Buffer;
use std::alloc::Global;

/// Hundredths of a square metre in an area in doubled square millimetres, rounded half up. Takes no memory.
pub fn hundredths(a2: i128) -> i128
    requires { unsigned_abs a2 ≤ 10 ^ 26 }
    ensures { result ≡ hundredths_of a2 }
{
    (a2 + 10_000).div_euclid(20_000)
}

// A number below 100, in two digits.
fn push_two_digits(text: &mut Vec<u8>, number: u8) -> Result<(), Memory>
    requires { number < 100 }
    ensures { OnOk result (text.new.items ≡ text.old.items ++ two_digits number) }
{
    text.push(b'0' + number / 10)?;
    text.push(b'0' + number % 10)?;
    Ok(())
}

/// The beginning of a decimal text of so many parts, where a whole has `parts` of them: the sign, the wholes and the dot.
/// `Err` where memory runs out.
pub fn begun_decimal(alloc: Global, value: i128, parts: u128) -> Result<Vec<u8>, Memory>
    requires { 0 < parts }
    ensures { IfOk result (λ text. text.items
        ≡ sign_field value ++ (decimal (unsigned_abs value / parts) ++ codes ".")) }
{
    let mut text = Vec::new(alloc);
    if value < 0 {
        text.push(b'-')?;
    }
    let mut whole = Buffer::new();
    text.extend_from_slice(whole.format(value.unsigned_abs() / parts).as_bytes())?;
    text.push(b'.')?;
    Ok(text)
}

/// The field of so many hundredths of a square metre, in square metres. `Err` where memory runs out.
#[tactic(auto, unfolding(crate::specs::Reports::area_field))]
pub fn area_text_of(alloc: Global, h: i128) -> Result<Vec<u8>, Memory>
    ensures { IfOk result (λ text. text.items ≡ area_field h) }
{
    let mut text = begun_decimal(alloc, h, 100)?;
    push_two_digits(&mut text, (h.unsigned_abs() % 100) as u8)?;
    Ok(text)
}

// Writes the record of a parcel with this doubled area.
fn write_area(
    alloc: Global,
    writer: &mut Writer<Vec<u8>>,
    row: &ParcelRow,
    a2: i128,
) -> Result<(), Memory>
    requires { unsigned_abs a2 ≤ 10 ^ 26 }
    ensures { OnOk result
        (HasAppended (record_text (area_record row.now a2)) writer.old writer.new) }
{
    let mut number = Buffer::new();
    let mut doubled = Buffer::new();
    let area = area_text_of(alloc, hundredths(a2))?;
    let number = number.format(row.number.get()).as_bytes();
    let label = row.label.as_str().as_bytes();
    let doubled = doubled.format(a2).as_bytes();
    let area = area.as_slice();
    write_record(writer, &[b"area", number, label, doubled, area, b"", b""])
}

// Writes the record of each parcel.
fn write_areas<M: MapView>(
    alloc: Global,
    writer: &mut Writer<Vec<u8>>,
    view: &M,
) -> Result<(), Memory>
    requires { IsValid (M.map view.now) }
    ensures { OnOk result
        (HasAppended (text_of
        (map (area_record_in (M.map view.now)) (M.map view.now).parcels)) writer.old writer.new) }
{
    for place in 0..view.counts().parcels {
        let row = view.parcel_at(place).unwrap();
        let a2 = sum_of(view, Face::Parcel(row.number), &DoubledArea).unwrap();
        write_area(alloc, writer, row, a2)?;
    }
    Ok(())
}

/// The areas of the parcels of a valid map, in order of entry, in doubled square millimetres and in square metres. An
/// error where memory runs out.
pub fn area_text<M: MapView>(alloc: Global, view: &M) -> Result<Vec<u8>, Memory>
    requires { IsValid (M.map view.now) }
    ensures { IfOk result (λ text. text.items ≡ text_of (area_records (M.map view.now))) }
{
    let mut writer = new_writer(alloc);
    write_areas(alloc, &mut writer, view)?;
    write_record(&mut writer, &[b"end", b"", b"", b"", b"", b"", b""])?;
    let text = finished(writer)?;
    Ok(text)
}
