//! Reading a plan.
ghost use Rattle.std.specs.Prelude.{◌≡◌, ◌≢◌, ◌+◌, ◌<◌, ◌^◌, [], ℕ, List, true, false, Some, None, IfOk, IfErr, IfSome, OnOk, if◌then◌else◌};
ghost use Rattle.csv.specs.Records.{fields_of};
ghost use Rattle.cad_files.specs.Input.{HasRead, HasStopped};
ghost use Rattle.cad_files.specs.Fields.{repeated};
ghost use Rattle.cad_files.specs.Rows.{no_rows, sources_of, plan_limit, HasOneMore};
ghost use Rattle.cad_files.specs.Plan.{beginning, reading, opened, faulty, is_within as is_within_of, row_of, is_placed, with_one_more, record_step, plan_step, plan_of, IsPlanFault, IsOfReading, IsTaken};
ghost use Rattle.cad_files.specs.declared.faults.PlanFault.TheVariants as faults;
ghost use Rattle.cad_files.specs.declared.plan_records.PlanRecord.TheVariants as records;
ghost use Rattle.cad_files.specs.declared.rows.PlanRow.TheVariants as rows;

use crate::faults::PlanFault;
use crate::fields::seven;
use crate::input::{InputFault, next_row};
use crate::plan_records::{
    ParcelRecord, PlanRecord, PointRecord, StringRecord, Version, plan_record, plan_version,
};
use crate::rows::{PlanRow, PlanRows, PlanString};
use cad_rows::{ParcelRow, PointRow, SOURCE_LIMIT, StringRow};
use csv::{ByteRecord, Reader};
use geo_exact::{COORDINATE_LIMIT, Pt};
use std::alloc::Global;
use std::io::Read;

/// The farthest that a coordinate may lie from zero in a plan of version 1, either way.
const FIRST_LIMIT: i64 = 1_000_000_000;

// Whether a coordinate is within the limit of the version.
fn is_within(version: Version, z: i64) -> bool
    ensures { result ≡ is_within_of version z }
{
    match version {
        Version::One => -FIRST_LIMIT <= z && z <= FIRST_LIMIT,
        Version::Two => -COORDINATE_LIMIT <= z && z <= COORDINATE_LIMIT,
    }
}

// The row of a point, whose record has this number.
fn point_row(version: Version, count: u64, point: PointRecord) -> Result<PointRow, PlanFault>
    ensures row { IfOk result (λ row. row_of (records.Point point) ≡ Some (rows.Point row)) }
    ensures placed { OnOk result (is_placed version (records.Point point) ≡ true) }
    ensures once { IfOk result (λ row. repeated [] row.sources ≡ None) }
    ensures err { IfErr result (λ fault. (fault ≡ faults.Range count)
        × (is_placed version (records.Point point) ≡ false)) }
{
    if !is_within(version, point.x) || !is_within(version, point.y) {
        return Err(PlanFault::Range(count));
    }
    let Some(position) = Pt::new(point.x, point.y) else {
        return Err(PlanFault::Range(count));
    };
    let number = point.number;
    let sources = point.sources.into_numbers();
    Ok(PointRow {
        number,
        position,
        sources,
    })
}

// The row of a parcel.
fn parcel_row(parcel: ParcelRecord) -> ParcelRow
    ensures row { row_of (records.Parcel parcel) ≡ Some (rows.Parcel result) }
    ensures once { repeated [] result.sources ≡ None }
{
    let number = parcel.number;
    let label = parcel.label;
    let sources = parcel.sources.into_numbers();
    ParcelRow {
        number,
        label,
        sources,
    }
}

// The row of a string, with the faces on its two sides.
fn string_row(string: StringRecord) -> PlanString
    ensures row { row_of (records.String string) ≡ Some (rows.String result) }
    ensures once { repeated [] result.row.sources ≡ None }
{
    let row = StringRow {
        number: string.number,
        from: string.from,
        to: string.to,
        sources: string.sources.into_numbers(),
    };
    PlanString {
        row,
        left: string.left,
        right: string.right,
    }
}

// The row that the record with this number gives, and none where it ends the plan.
fn record_row(version: Version, count: u64, given: PlanRecord) -> Result<Option<PlanRow>, PlanFault>
    ensures row { IfOk result (λ row. row ≡ row_of given) }
    ensures placed { OnOk result (is_placed version given ≡ true) }
    ensures once { IfOk result (λ row. IfSome row (λ r. repeated [] (sources_of r) ≡ None)) }
    ensures err { IfErr result (λ fault. (fault ≡ faults.Range count)
        × (is_placed version given ≡ false)) }
{
    Ok(Some(match given {
        PlanRecord::Open => return Ok(None),
        PlanRecord::Source(row) => PlanRow::Source(row),
        PlanRecord::Point(point) => PlanRow::Point(point_row(version, count, point)?),
        PlanRecord::Parcel(parcel) => PlanRow::Parcel(parcel_row(parcel)),
        PlanRecord::String(string) => PlanRow::String(string_row(string)),
        PlanRecord::Retired(parcel) => PlanRow::Retired(parcel),
    }))
}

// Adds a row, where its sources are few and there is room for it.
fn add_row(rows: &mut PlanRows, row: PlanRow) -> Result<(), PlanFault>
    requires { repeated [] (sources_of row) ≡ None }
    ensures { IsTaken result rows.old rows.new (with_one_more rows.old row) }
{
    if row.source_count() > SOURCE_LIMIT || !rows.has_room(&row) {
        return Err(PlanFault::Full);
    }
    rows.put(row)?;
    Ok(())
}

// Takes what the record with this number means into the rows, and says whether the plan goes on.
fn take_record(
    version: Version,
    count: u64,
    rows: &mut PlanRows,
    found: Option<PlanRecord>,
) -> Result<bool, PlanFault>
    ensures ok { IfOk result (λ more. record_step version count rows.old found
        ≡ (if more then reading version count rows.new else opened rows.new)) }
    ensures err { IfErr result (λ fault. fault ≢ faults.Memory
        → record_step version count rows.old found ≡ faulty fault) }
    ensures grows { IfOk result (λ more. more ≡ true → HasOneMore rows.old rows.new) }
{
    let Some(given) = found else {
        return Err(PlanFault::Syntax(count));
    };
    let Some(row) = record_row(version, count, given)? else {
        return Ok(false);
    };
    add_row(rows, row)?;
    Ok(true)
}

// Takes a record after the first into the rows, and says whether the plan goes on.
#[tactic(auto, unfolding(crate::specs::Plan::plan_step))]
fn take_row(
    alloc: Global,
    version: Version,
    before: u64,
    rows: &mut PlanRows,
    row: &ByteRecord,
) -> Result<bool, PlanFault>
    requires { before + 1 < 2 ^ 64 }
    ensures ok { IfOk result
        (λ more. plan_step (reading version before rows.old) (fields_of row.now)
        ≡ (if more then reading version (before + 1) rows.new else opened rows.new)) }
    ensures err { IfErr result (λ fault. fault ≢ faults.Memory
        → plan_step (reading version before rows.old) (fields_of row.now) ≡ faulty fault) }
    ensures grows { IfOk result (λ more. more ≡ true → HasOneMore rows.old rows.new) }
{
    let Some(fields) = seven(row) else {
        return Err(PlanFault::Syntax(before + 1));
    };
    let found = plan_record(alloc, &fields)?;
    take_record(version, before + 1, rows, found)
}

// Takes the first record.
#[tactic(auto, unfolding(crate::specs::Plan::plan_step))]
fn take_first(row: &ByteRecord) -> Result<Version, PlanFault>
    ensures ok { IfOk result (λ version. plan_step beginning (fields_of row.now)
        ≡ reading version 1 no_rows) }
    ensures err { IfErr result (λ fault. plan_step beginning (fields_of row.now) ≡ faulty fault) }
{
    let Some(fields) = seven(row) else {
        return Err(PlanFault::Syntax(1));
    };
    match plan_version(&fields) {
        Some(version) => Ok(version),
        None => Err(PlanFault::Version),
    }
}

/// Reads a plan up to its `open` record and no record further. After a fault the reader is not used
/// again.
pub fn read_plan<R: Read>(alloc: Global, reader: &mut Reader<R>) -> Result<PlanRows, PlanFault>
    ensures ok { IfOk result (λ plan. (text : List ℕ) → HasRead R.remaining text [] reader.old
        → (rows : List (List (List ℕ))) × HasRead R.remaining text rows reader.new
        × (plan_of rows ≡ opened plan)) }
    ensures err { IfErr result (λ fault. (text : List ℕ) → HasRead R.remaining text [] reader.old
        → IsPlanFault text fault) }
    // After a read fault or want of memory no more than the records of a plan were read.
    ensures few { IfErr result (λ fault. IsOfReading fault → (text : List ℕ)
        → HasRead R.remaining text [] reader.old
        → HasStopped R.remaining text (plan_limit + 2) reader.new) }
{
    let mut row = ByteRecord::new(alloc);
    match next_row(reader, &mut row) {
        Ok(true) => {}
        Ok(false) => return Err(PlanFault::NoOpen),
        Err(InputFault::Read) => return Err(PlanFault::Read),
        Err(InputFault::Length) => return Err(PlanFault::Length),
        Err(InputFault::Memory) => return Err(PlanFault::Memory),
    }
    let version = match take_first(&row) {
        Ok(version) => version,
        Err(fault) => return Err(fault),
    };
    let mut rows = PlanRows::new(alloc);
    let mut count = 1u64;
    loop {
        match next_row(reader, &mut row) {
            Ok(true) => {}
            Ok(false) => return Err(PlanFault::NoOpen),
            Err(InputFault::Read) => return Err(PlanFault::Read),
            Err(InputFault::Length) => return Err(PlanFault::Length),
            Err(InputFault::Memory) => return Err(PlanFault::Memory),
        }
        match take_row(alloc, version, count, &mut rows, &row) {
            Ok(true) => {}
            Ok(false) => return Ok(rows),
            Err(fault) => return Err(fault),
        }
        count += 1;
    }
}
