//! How the rows of a plan stand in tables.
ghost use Rattle.map_tables.specs.Fields.{source_fields, point_fields, parcel_fields, string_fields, retired_fields};
ghost use Rattle.map_tables.specs.Fields.{face_value};
ghost use Rattle.std.specs.Prelude.{◌≡◌, ◌++◌, ◌∷◌, [], ℕ, pos, OnOk};
ghost use Rattle.sqlite_value.specs.declared.value.Value.TheVariants.{Int, Text};
ghost use Rattle.cad_files.specs.Texts.{list_field};

use crate::columns::{face, integer, label, number, sources};
use cad_files::{PlanString, list_text};
use cad_rows::{
    Face, Label, Number, Numbers, ParcelNo, ParcelRow, PointRow, SourceNo, SourceRow, StringRow,
};
use geo_exact::Pt;
use sqlite_value::row::Row;
use sqlite_value::value::ValueRef;
use std::alloc::{AllocError, Global};
use stored_rows::Layout;

/// The columns of a plan's rows behind their place. `source`: number, text. `point`: number, x and y in mm, sources.
/// `parcel`: number, label, sources. `string`: number, first and second point, the face to the left and to the right,
/// sources. `retired`: number. A face is a parcel's number, or 0 for the outside; sources are a text, as in a plan.
#[derive(Drop)]
pub struct PlanLayout {
    alloc: Global,
}

impl PlanLayout {
    /// The layout of all five tables.
    pub fn new(alloc: Global) -> PlanLayout {
        PlanLayout { alloc }
    }

    /// Writes a list of sources as a text.
    fn write_sources(&self, list: &Numbers<SourceNo>, row: &mut Row) -> Result<(), AllocError>
        ensures { OnOk result (row.new ≡ row.old ++ Text (list_field list.now) ∷ []) }
    {
        match list_text(self.alloc, list.as_slice()) {
            Ok(text) => row.push(ValueRef::Text(text.as_slice())),
            Err(_) => Err(AllocError),
        }
    }
}

/// Writes a number.
fn write_number<Kind>(no: &Number<Kind>, row: &mut Row) -> Result<(), AllocError>
    ensures { OnOk result (row.new ≡ row.old ++ Int (pos no.now) ∷ []) }
{
    row.push(ValueRef::Int(i64::from(no.get())))
}

/// Writes a position: x and y in mm.
fn write_position(position: Pt, row: &mut Row) -> Result<(), AllocError>
    ensures { OnOk result (row.new ≡ row.old ++ Int position.x ∷ Int position.y ∷ []) }
{
    row.push(ValueRef::Int(position.x))?;
    row.push(ValueRef::Int(position.y))
}

/// Writes a face.
fn write_face(face: Face, row: &mut Row) -> Result<(), AllocError>
    ensures { OnOk result (row.new ≡ row.old ++ Int (pos (face_value face)) ∷ []) }
{
    match face {
        Face::Outside => row.push(ValueRef::Int(0)),
        Face::Parcel(parcel) => write_number(&parcel, row),
    }
}

/// Writes a label.
fn write_label(label: &Label, row: &mut Row) -> Result<(), AllocError>
    ensures { OnOk result (row.new ≡ row.old ++ Text label.now ∷ []) }
{
    row.push(ValueRef::Text(label.as_str().as_bytes()))
}

impl Layout<SourceRow> for PlanLayout {
    ghost fields = { λ _ r. source_fields r };

    fn write(&self, item: &SourceRow, row: &mut Row) -> Result<(), AllocError> {
        write_number(&item.number, row)?;
        write_label(&item.text, row)
    }

    fn read(&self, alloc: Global, row: &Row) -> Result<Option<SourceRow>, AllocError> {
        let (Some(number), Some(text)) = (number(row, 2), label(alloc, row, 3)?) else {
            return Ok(None);
        };
        Ok(Some(SourceRow { number, text }))
    }
}

impl Layout<PointRow> for PlanLayout {
    ghost fields = { λ _ r. point_fields r };

    fn write(&self, item: &PointRow, row: &mut Row) -> Result<(), AllocError> {
        write_number(&item.number, row)?;
        write_position(item.position, row)?;
        self.write_sources(&item.sources, row)
    }

    fn read(&self, alloc: Global, row: &Row) -> Result<Option<PointRow>, AllocError> {
        let (Some(number), Some(x), Some(y)) = (number(row, 2), integer(row, 3), integer(row, 4))
        else {
            return Ok(None);
        };
        let (Some(position), Some(sources)) = (Pt::new(x, y), sources(alloc, row, 5)?) else {
            return Ok(None);
        };
        Ok(Some(PointRow {
            number,
            position,
            sources,
        }))
    }
}

impl Layout<ParcelRow> for PlanLayout {
    ghost fields = { λ _ r. parcel_fields r };

    fn write(&self, item: &ParcelRow, row: &mut Row) -> Result<(), AllocError> {
        write_number(&item.number, row)?;
        write_label(&item.label, row)?;
        self.write_sources(&item.sources, row)
    }

    fn read(&self, alloc: Global, row: &Row) -> Result<Option<ParcelRow>, AllocError> {
        let (Some(number), Some(label), Some(sources)) = (
            number(row, 2),
            label(alloc, row, 3)?,
            sources(alloc, row, 4)?,
        ) else {
            return Ok(None);
        };
        Ok(Some(ParcelRow {
            number,
            label,
            sources,
        }))
    }
}

impl Layout<PlanString> for PlanLayout {
    ghost fields = { λ _ s. string_fields s };

    fn write(&self, item: &PlanString, row: &mut Row) -> Result<(), AllocError> {
        write_number(&item.row.number, row)?;
        write_number(&item.row.from, row)?;
        write_number(&item.row.to, row)?;
        write_face(item.left, row)?;
        write_face(item.right, row)?;
        self.write_sources(&item.row.sources, row)
    }

    fn read(&self, alloc: Global, row: &Row) -> Result<Option<PlanString>, AllocError> {
        let (Some(number), Some(from), Some(to)) = (number(row, 2), number(row, 3), number(row, 4))
        else {
            return Ok(None);
        };
        let (Some(left), Some(right)) = (face(row, 5), face(row, 6)) else {
            return Ok(None);
        };
        let Some(sources) = sources(alloc, row, 7)? else {
            return Ok(None);
        };
        Ok(Some(PlanString {
            row: StringRow {
                number,
                from,
                to,
                sources,
            },
            left,
            right,
        }))
    }
}

impl Layout<ParcelNo> for PlanLayout {
    ghost fields = { λ _ n. retired_fields n };

    fn write(&self, item: &ParcelNo, row: &mut Row) -> Result<(), AllocError> {
        write_number(item, row)
    }

    fn read(&self, _alloc: Global, row: &Row) -> Result<Option<ParcelNo>, AllocError> {
        Ok(number(row, 2))
    }
}
