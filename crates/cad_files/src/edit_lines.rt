//! The lines of a script that ask for edits.
ghost use Rattle.std.specs.Prelude.{◌≡◌, Some, None, IfOk};
ghost use Rattle.cad_files.specs.Line.{placed_point_of, attachment_of, new_parcel_of, division_of, enclosure_of, split_of_fields, numbers_edit_of, edit_of_fields};

use crate::fields::{Fields, coordinate, face, item, number_and_text, row_number, text};
use crate::lists::number_list;
use cad_rows::{Edit, Face, Item, Label, Memory, Numbers, ParcelNo, PointNo, SourceNo, StringNo};
use std::alloc::Global;

/// A point's number, and a position.
#[derive(Drop)]
struct PlacedPoint {
    point: PointNo,
    x: i64,
    y: i64,
}

/// An item, and a source's number.
#[derive(Drop)]
struct Attachment {
    item: Item,
    source: SourceNo,
}

/// A face, the points of a chain, the strings along it, and the new parcel's number, label and source.
#[derive(Drop)]
struct NewParcel {
    face: Face,
    points: Numbers<PointNo>,
    strings: Numbers<StringNo>,
    parcel: ParcelNo,
    label: Label,
    source: SourceNo,
}

impl NewParcel {
    // The edit that divides the face along the chain.
    fn divided(self) -> Edit
        ensures { result ≡ division_of self }
    {
        Edit::Divide {
            face: self.face,
            chain: self.points,
            strings: self.strings,
            parcel: self.parcel,
            label: self.label,
            source: self.source,
        }
    }

    // The edit that makes the chain an island in the face.
    fn enclosed(self) -> Edit
        ensures { result ≡ enclosure_of self }
    {
        Edit::Enclose {
            face: self.face,
            points: self.points,
            strings: self.strings,
            parcel: self.parcel,
            label: self.label,
            source: self.source,
        }
    }
}

// A point's number, and a position.
#[tactic(auto, unfolding(crate::specs::Line::placed_point_of))]
fn read_placed_point(r: &Fields<'_>) -> Option<PlacedPoint>
    ensures { result ≡ placed_point_of r.now }
{
    let point = row_number(r.a)?;
    let x = coordinate(r.b)?;
    let y = coordinate(r.c)?;
    Some(PlacedPoint { point, x, y })
}

// An item, and a source's number.
#[tactic(auto, unfolding(crate::specs::Line::attachment_of))]
fn read_attachment(r: &Fields<'_>) -> Option<Attachment>
    ensures { result ≡ attachment_of r.now }
{
    let item = item(r.a, r.b)?;
    let source = row_number(r.c)?;
    Some(Attachment { item, source })
}

// A face, the points of a chain, the strings along it, and the new parcel's number, label and source.
#[tactic(auto, unfolding(crate::specs::Line::new_parcel_of))]
fn read_new_parcel(alloc: Global, r: &Fields<'_>) -> Result<Option<NewParcel>, Memory>
    ensures { IfOk result (λ parcel. parcel ≡ new_parcel_of r.now) }
{
    let (Some(face), Some(parcel), Some(source)) = (face(r.a), row_number(r.d), row_number(r.f))
    else {
        return Ok(None);
    };
    let (Some(points), Some(strings)) = (number_list(alloc, r.b)?, number_list(alloc, r.c)?) else {
        return Ok(None);
    };
    let Some(label) = text(alloc, r.e)? else {
        return Ok(None);
    };
    Ok(Some(NewParcel {
        face,
        points,
        strings,
        parcel,
        label,
        source,
    }))
}

// A string, a new point and its position, and the numbers of the string's two halves.
#[tactic(auto, unfolding(crate::specs::Line::split_of_fields))]
fn split(r: &Fields<'_>) -> Option<Edit>
    ensures { result ≡ split_of_fields r.now }
{
    Some(Edit::Split {
        string: row_number(r.a)?,
        point: row_number(r.b)?,
        x: coordinate(r.c)?,
        y: coordinate(r.d)?,
        first: row_number(r.e)?,
        second: row_number(r.f)?,
    })
}

// The edit that seven fields ask for by numbers, faces and items alone, if they ask for one.
#[tactic(auto, unfolding(crate::specs::Line::numbers_edit_of))]
fn numbers_edit(r: &Fields<'_>) -> Option<Edit>
    ensures { result ≡ numbers_edit_of r.now }
{
    if r.is_record(b"add-point", 3) {
        let PlacedPoint { point, x, y } = read_placed_point(r)?;
        Some(Edit::AddPoint { point, x, y })
    } else if r.is_record(b"drop-point", 1) {
        let point = row_number(r.a)?;
        Some(Edit::DropPoint { point })
    } else if r.is_record(b"split", 6) {
        split(r)
    } else if r.is_record(b"join", 2) {
        let (point, string) = (row_number(r.a)?, row_number(r.b)?);
        Some(Edit::Join { point, string })
    } else if r.is_record(b"merge", 2) {
        let (kept, ended) = (face(r.a)?, face(r.b)?);
        Some(Edit::Merge { kept, ended })
    } else if r.is_record(b"move", 3) {
        let PlacedPoint { point, x, y } = read_placed_point(r)?;
        Some(Edit::Move { point, x, y })
    } else if r.is_record(b"attach", 3) {
        let Attachment { item, source } = read_attachment(r)?;
        Some(Edit::Attach { item, source })
    } else if r.is_record(b"detach", 3) {
        let Attachment { item, source } = read_attachment(r)?;
        Some(Edit::Detach { item, source })
    } else {
        None
    }
}

/// The edit that seven fields ask for, if they ask for one.
#[tactic(auto, unfolding(crate::specs::Line::edit_of_fields))]
pub(crate) fn edit_record(alloc: Global, r: &Fields<'_>) -> Result<Option<Edit>, Memory>
    ensures { IfOk result (λ edit. edit ≡ edit_of_fields r.now) }
{
    if r.is_record(b"add-source", 2) {
        let added = number_and_text(alloc, r)?;
        Ok(added.map(|(source, text)| Edit::AddSource { source, text }))
    } else if r.is_record(b"rename", 2) {
        let renamed = number_and_text(alloc, r)?;
        Ok(renamed.map(|(parcel, label)| Edit::Rename { parcel, label }))
    } else if r.is_record(b"divide", 6) {
        let new = read_new_parcel(alloc, r)?;
        Ok(new.map(NewParcel::divided))
    } else if r.is_record(b"enclose", 6) {
        let new = read_new_parcel(alloc, r)?;
        Ok(new.map(NewParcel::enclosed))
    } else {
        Ok(numbers_edit(r))
    }
}
