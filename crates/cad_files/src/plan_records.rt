//! The records of a plan, each by itself.
ghost use Rattle.std.specs.Prelude.{◌≡◌, IfOk};
ghost use Rattle.cad_files.specs.PlanRecords.{version_of, source_of_fields, point_of_fields, parcel_of_fields, string_of_fields, plan_of_fields};

use crate::fields::{Fields, coordinate, face, number_and_text, row_number, text};
use crate::lists::{DistinctSources, distinct_sources};
use cad_rows::{Face, Label, Memory, ParcelNo, PointNo, SourceRow, StringNo};
use std::alloc::Global;

/// The version of a plan.
#[derive(Clone, Copy, PartialEq, Eq)]
pub enum Version {
    One,
    Two,
}

/// A point of a plan, whose coordinates may be out of range and whose sources may be too many.
#[derive(Drop)]
pub struct PointRecord {
    pub number: PointNo,
    pub x: i64,
    pub y: i64,
    pub sources: DistinctSources,
}

/// A parcel of a plan, whose sources may be too many.
#[derive(Drop)]
pub struct ParcelRecord {
    pub number: ParcelNo,
    pub label: Label,
    pub sources: DistinctSources,
}

/// A string of a plan with the faces on its two sides, seen from its first to its second point; its
/// sources may be too many.
#[derive(Drop)]
pub struct StringRecord {
    pub number: StringNo,
    pub from: PointNo,
    pub to: PointNo,
    pub left: Face,
    pub right: Face,
    pub sources: DistinctSources,
}

/// A record of a plan after the first.
#[derive(Drop)]
pub enum PlanRecord {
    Source(SourceRow),
    Point(PointRecord),
    Parcel(ParcelRecord),
    String(StringRecord),
    Retired(ParcelNo),
    Open,
}

/// The version of a plan that begins with this record.
#[tactic(auto, unfolding(crate::specs::PlanRecords::version_of))]
pub(crate) fn plan_version(r: &Fields<'_>) -> Option<Version>
    ensures { result ≡ version_of r.now }
{
    if !r.is_record(b"plan", 1) {
        return None;
    }
    if r.a == b"1".as_slice() {
        Some(Version::One)
    } else if r.a == b"2".as_slice() {
        Some(Version::Two)
    } else {
        None
    }
}

// A source: its number, and its text.
#[tactic(auto, unfolding(crate::specs::PlanRecords::source_of_fields))]
fn source_record(alloc: Global, r: &Fields<'_>) -> Result<Option<PlanRecord>, Memory>
    ensures { IfOk result (λ o. o ≡ source_of_fields r.now) }
{
    let Some((number, text)) = number_and_text(alloc, r)? else {
        return Ok(None);
    };
    Ok(Some(PlanRecord::Source(SourceRow { number, text })))
}

// A point: its number, its position, and its sources.
#[tactic(auto, unfolding(crate::specs::PlanRecords::point_of_fields))]
fn point_record(alloc: Global, r: &Fields<'_>) -> Result<Option<PlanRecord>, Memory>
    ensures { IfOk result (λ o. o ≡ point_of_fields r.now) }
{
    let (Some(number), Some(x), Some(y)) = (row_number(r.a), coordinate(r.b), coordinate(r.c))
    else {
        return Ok(None);
    };
    let Some(sources) = distinct_sources(alloc, r.d)? else {
        return Ok(None);
    };
    Ok(Some(PlanRecord::Point(PointRecord {
        number,
        x,
        y,
        sources,
    })))
}

// A parcel: its number, its label, and its sources.
#[tactic(auto, unfolding(crate::specs::PlanRecords::parcel_of_fields))]
fn parcel_record(alloc: Global, r: &Fields<'_>) -> Result<Option<PlanRecord>, Memory>
    ensures { IfOk result (λ o. o ≡ parcel_of_fields r.now) }
{
    let (Some(number), Some(label), Some(sources)) = (
        row_number(r.a),
        text(alloc, r.b)?,
        distinct_sources(alloc, r.c)?,
    ) else {
        return Ok(None);
    };
    Ok(Some(PlanRecord::Parcel(ParcelRecord {
        number,
        label,
        sources,
    })))
}

// A string: its number, its points, the faces to its left and right, and its sources.
#[tactic(auto, unfolding(crate::specs::PlanRecords::string_of_fields))]
fn string_record(alloc: Global, r: &Fields<'_>) -> Result<Option<PlanRecord>, Memory>
    ensures { IfOk result (λ o. o ≡ string_of_fields r.now) }
{
    let (Some(number), Some(from), Some(to)) = (row_number(r.a), row_number(r.b), row_number(r.c))
    else {
        return Ok(None);
    };
    let (Some(left), Some(right)) = (face(r.d), face(r.e)) else {
        return Ok(None);
    };
    let Some(sources) = distinct_sources(alloc, r.f)? else {
        return Ok(None);
    };
    Ok(Some(PlanRecord::String(StringRecord {
        number,
        from,
        to,
        left,
        right,
        sources,
    })))
}

/// What a record after the first means, or `None` where it is none of a plan.
#[tactic(auto, unfolding(crate::specs::PlanRecords::plan_of_fields))]
pub(crate) fn plan_record(alloc: Global, r: &Fields<'_>) -> Result<Option<PlanRecord>, Memory>
    ensures { IfOk result (λ o. o ≡ plan_of_fields r.now) }
{
    if r.is_record(b"source", 2) {
        source_record(alloc, r)
    } else if r.is_record(b"point", 4) {
        point_record(alloc, r)
    } else if r.is_record(b"parcel", 3) {
        parcel_record(alloc, r)
    } else if r.is_record(b"string", 6) {
        string_record(alloc, r)
    } else if r.is_record(b"retired", 1) {
        Ok(row_number(r.a).map(PlanRecord::Retired))
    } else if r.is_record(b"open", 0) {
        Ok(Some(PlanRecord::Open))
    } else {
        Ok(None)
    }
}
