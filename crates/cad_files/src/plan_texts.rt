//! The text of a map's plan.
ghost use Rattle.std.specs.Prelude.{◌≡◌, ◌<◌, ℕ, List, length, slice_get, OnOk, IfOk, IfSome, map, decimal};
ghost use Rattle.cad_files.specs.Texts.{HasAppended, record_text, text_of, face_field, source_record, point_record, parcel_record, string_record, retired_record, records_of, plan_records};
ghost use Rattle.cad_map.specs.Map.{Map};
ghost use Rattle.cad_map.specs.Valid.{IsValid};
ghost use Rattle.cad_files.specs.Input.{IsWhole};
ghost use Rattle.cad_files.specs.Plan.{plan_of, opened};
ghost use Rattle.cad_files.specs.Building.{rows_of, IsBuilt};
ghost use Rattle.cad_files.specs.PlanMap.{IsPlanOf, IsFaultOf};
ghost use Rattle.cad_files.specs.declared.faults.PlanFault.{PlanFault};

use crate::kinds::Kind;
use crate::list_texts::list_text;
use crate::writing::{finished, write_record, writer as new_writer};
use cad_map::MapView;
use cad_rows::{Face, Memory, ParcelNo, ParcelRow, PointRow, SourceRow, StringRow};
use csv::Writer;
use itoa::Buffer;
use std::alloc::Global;

// Writes the record of a source.
fn write_source(writer: &mut Writer<Vec<u8>>, row: &SourceRow) -> Result<(), Memory>
    ensures { OnOk result
        (HasAppended (record_text (source_record row.now)) writer.old writer.new) }
{
    let mut number = Buffer::new();
    let number = number.format(row.number.get()).as_bytes();
    let text = row.text.as_str().as_bytes();
    write_record(writer, &[b"source", number, text, b"", b"", b"", b""])
}

// Writes the record of a point.
fn write_point(alloc: Global, writer: &mut Writer<Vec<u8>>, row: &PointRow) -> Result<(), Memory>
    ensures { OnOk result (HasAppended (record_text (point_record row.now)) writer.old writer.new) }
{
    let mut number = Buffer::new();
    let mut x = Buffer::new();
    let mut y = Buffer::new();
    let sources = list_text(alloc, row.sources.as_slice())?;
    let number = number.format(row.number.get()).as_bytes();
    let x = x.format(row.position.x).as_bytes();
    let y = y.format(row.position.y).as_bytes();
    let sources = sources.as_slice();
    write_record(writer, &[b"point", number, x, y, sources, b"", b""])
}

// Writes the record of a parcel.
fn write_parcel(alloc: Global, writer: &mut Writer<Vec<u8>>, row: &ParcelRow) -> Result<(), Memory>
    ensures { OnOk result
        (HasAppended (record_text (parcel_record row.now)) writer.old writer.new) }
{
    let mut number = Buffer::new();
    let sources = list_text(alloc, row.sources.as_slice())?;
    let number = number.format(row.number.get()).as_bytes();
    let label = row.label.as_str().as_bytes();
    let sources = sources.as_slice();
    write_record(writer, &[b"parcel", number, label, sources, b"", b"", b""])
}

/// The number that stands for a face.
pub fn face_number(face: Face) -> u32
    ensures { decimal result ≡ face_field face }
{
    match face {
        Face::Outside => 0,
        Face::Parcel(parcel) => parcel.get(),
    }
}

// Writes the record of a string with these faces.
fn write_string(
    alloc: Global,
    writer: &mut Writer<Vec<u8>>,
    row: &StringRow,
    left: Face,
    right: Face,
) -> Result<(), Memory>
    ensures { OnOk result
        (HasAppended (record_text
        (string_record (record { row = row.now; left = left; right = right }))) writer.old
        writer.new) }
{
    let mut number = Buffer::new();
    let mut from = Buffer::new();
    let mut to = Buffer::new();
    let mut left_digits = Buffer::new();
    let mut right_digits = Buffer::new();
    let sources = list_text(alloc, row.sources.as_slice())?;
    let number = number.format(row.number.get()).as_bytes();
    let from = from.format(row.from.get()).as_bytes();
    let to = to.format(row.to.get()).as_bytes();
    let left = left_digits.format(face_number(left)).as_bytes();
    let right = right_digits.format(face_number(right)).as_bytes();
    let sources = sources.as_slice();
    write_record(writer, &[b"string", number, from, to, left, right, sources])
}

// Writes the record of a retired number.
fn write_retired_number(writer: &mut Writer<Vec<u8>>, parcel: ParcelNo) -> Result<(), Memory>
    ensures { OnOk result
        (HasAppended (record_text (retired_record parcel)) writer.old writer.new) }
{
    let mut number = Buffer::new();
    let number = number.format(parcel.get()).as_bytes();
    write_record(writer, &[b"retired", number, b"", b"", b"", b"", b""])
}

// How many rows of a kind there are.
#[tactic(auto, using(std::proofs::lemmas::Grind::common_steps))]
fn count_of<M: MapView>(view: &M, kind: Kind) -> usize
    ensures { result ≡ length (records_of (M.map view.now) kind) }
{
    let counts = view.counts();
    match kind {
        Kind::Sources => counts.sources,
        Kind::Points => counts.points,
        Kind::Parcels => counts.parcels,
        Kind::Strings => counts.strings,
        Kind::Retired => counts.retired,
    }
}

// Writes the record of the row of a kind at a place, of a string with its present faces.
#[tactic(auto, using(std::proofs::lemmas::Grind::common_steps))]
fn write_row<M: MapView>(
    alloc: Global,
    writer: &mut Writer<Vec<u8>>,
    view: &M,
    kind: Kind,
    place: usize,
) -> Result<(), Memory>
    requires valid { IsValid (M.map view.now) }
    requires there { place < length (records_of (M.map view.now) kind) }
    ensures { OnOk result
        (IfSome (slice_get (records_of (M.map view.now) kind) place)
        (λ r. HasAppended (record_text r) writer.old writer.new)) }
{
    match kind {
        Kind::Sources => write_source(writer, view.source_at(place).unwrap()),
        Kind::Points => write_point(alloc, writer, view.point_at(place).unwrap()),
        Kind::Parcels => write_parcel(alloc, writer, view.parcel_at(place).unwrap()),
        Kind::Strings => {
            let row = view.string_at(place).unwrap();
            let (left, right) = view.left_right(row.number).unwrap();
            write_string(alloc, writer, row, left, right)
        }
        Kind::Retired => write_retired_number(writer, view.retired_at(place).unwrap()),
    }
}

// Writes a record for each row of a kind.
fn write_rows<M: MapView>(
    alloc: Global,
    writer: &mut Writer<Vec<u8>>,
    view: &M,
    kind: Kind,
) -> Result<(), Memory>
    requires { IsValid (M.map view.now) }
    ensures { OnOk result
        (HasAppended (text_of (records_of (M.map view.now) kind)) writer.old writer.new) }
{
    for place in 0..count_of(view, kind) {
        write_row(alloc, writer, view, kind, place)?;
    }
    Ok(())
}

/// The text of the plan of a valid map: sources, points, parcels, strings with their present faces, and
/// retired numbers, each in order of entry. `Err` where memory runs out.
pub fn plan_text<M: MapView>(alloc: Global, view: &M) -> Result<Vec<u8>, Memory>
    requires { IsValid (M.map view.now) }
    ensures { IfOk result (λ text. text.items ≡ text_of (plan_records (M.map view.now))) }
{
    let mut writer = new_writer(alloc);
    write_record(&mut writer, &[b"plan", b"2", b"", b"", b"", b"", b""])?;
    write_rows(alloc, &mut writer, view, Kind::Sources)?;
    write_rows(alloc, &mut writer, view, Kind::Points)?;
    write_rows(alloc, &mut writer, view, Kind::Parcels)?;
    write_rows(alloc, &mut writer, view, Kind::Strings)?;
    write_rows(alloc, &mut writer, view, Kind::Retired)?;
    write_record(&mut writer, &[b"open", b"", b"", b"", b"", b"", b""])?;
    let text = finished(writer)?;
    Ok(text)
}

/// The text of a map's plan is read as its records; those of a valid map give its rows again, in their
/// order, and the rows the map, and no other.
pub fn plans_again()
    ensures text { (m : Map) → IsWhole (text_of (plan_records m)) (plan_records m) }
    ensures read { (m : Map) → IsValid m → plan_of (plan_records m) ≡ opened (rows_of m) }
    ensures built { (m : Map) → IsValid m → IsBuilt (rows_of m) m }
    ensures only { (m n : Map) → IsValid m → IsPlanOf (plan_records m) n → n ≡ m }
{}

/// A list of records comes to one thing as a plan: one map, or one fault, and never both.
pub fn one_plan()
    ensures map { (records : List (List (List ℕ))) (m n : Map) → IsPlanOf records m
        → IsPlanOf records n → m ≡ n }
    ensures fault { (records : List (List (List ℕ))) (f g : PlanFault) → IsFaultOf records f
        → IsFaultOf records g → f ≡ g }
    ensures either { (records : List (List (List ℕ))) (m : Map) (f : PlanFault)
        → IsPlanOf records m → ¬ IsFaultOf records f }
{}
