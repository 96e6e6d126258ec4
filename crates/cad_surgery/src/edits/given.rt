//! What a division or an enclosure gives: the halves along its strings, and what its record keeps.
ghost use Rattle.std.specs.Prelude.{◌≡◌, ◌<◌, ◌≤◌, ◌∷◌, ◌++◌, [], length, map as map_by, IfOk};
ghost use Rattle.cad_map.specs.Chain.{start_of};
ghost use Rattle.half_table.specs.Half.{forward_of};
ghost use Rattle.cad_surgery.specs.Enclosures.{parcel_by};
ghost use Rattle.cad_surgery.specs.NewParcels.{BringsParcel, edit_as, kept_by};

use cad_rows::{
    Edit, Face, Label, Memory, Numbers, ParcelNo, ParcelRow, PointNo, SourceNo, StringNo,
};
use half_table::Half;
use map_parts::forward;
use std::alloc::Global;

/// Whether a parcel comes by a division or by an enclosure.
#[derive(Clone, Copy)]
pub(crate) enum Kind {
    Divide,
    Enclose,
}

/// What a division or an enclosure names and gives.
#[derive(Clone, Copy)]
pub(crate) struct NewParcel<'a> {
    pub(crate) face: Face,
    pub(crate) points: &'a [PointNo],
    pub(crate) strings: &'a [StringNo],
    pub(crate) parcel: ParcelNo,
    pub(crate) label: &'a Label,
    pub(crate) source: SourceNo,
}

/// What a division or an enclosure names and gives, in the lists in which it does.
pub(crate) fn new_parcel<'a>(
    face: Face,
    points: &'a Numbers<PointNo>,
    strings: &'a Numbers<StringNo>,
    parcel: ParcelNo,
    label: &'a Label,
    source: SourceNo,
) -> NewParcel<'a>
    ensures face { result.face ≡ face }
    ensures points { result.points.now ≡ points.now }
    ensures strings { result.strings.now ≡ strings.now }
    ensures parcel { result.parcel ≡ parcel }
    ensures label { result.label.now ≡ label.now }
    ensures source { result.source ≡ source }
{
    NewParcel {
        face,
        points: points.as_slice(),
        strings: strings.as_slice(),
        parcel,
        label,
        source,
    }
}

/// The row of its parcel.
pub(crate) fn parcel_of(alloc: Global, new: &NewParcel<'_>) -> Result<ParcelRow, Memory>
    ensures { IfOk result (λ row. row ≡ parcel_by new.now) }
{
    let mut sources = Numbers::new(alloc);
    sources.push(new.source)?;
    let label = new.label.copy()?;
    Ok(ParcelRow {
        number: new.parcel,
        label,
        sources,
    })
}

/// The first half of a path, and the others.
pub(crate) fn first_and_rest(path: &[Half]) -> (&Half, &[Half])
    requires { 0 < length path.now }
    ensures { path.now ≡ result.0.now ∷ result.1.now }
{
    (&path[0], &path[1..])
}

/// The points of a ring, and the first of them once more.
pub(crate) fn closed(alloc: Global, points: &[PointNo]) -> Result<Vec<PointNo>, Memory>
    requires { 1 ≤ length points.now }
    ensures { IfOk result (λ closed. closed.items ≡ points.now ++ start_of points.now ∷ []) }
{
    let mut closed = Vec::from_slice(alloc, points)?;
    closed.push(points[0])?;
    Ok(closed)
}

/// The halves of strings, each from its string's first point to its second.
pub(crate) fn halves_of(alloc: Global, strings: &[StringNo]) -> Result<Vec<Half>, Memory>
    ensures { IfOk result (λ path. path.items ≡ map_by forward_of strings.now) }
{
    let mut path = Vec::new(alloc);
    for place in 0..strings.len() {
        path.push(forward(&strings[place]))?;
    }
    Ok(path)
}

/// What the record of a division or an enclosure keeps of the edit: the points, strings and label
/// that it gives.
#[derive(Drop)]
pub(crate) struct Kept {
    pub(crate) points: Numbers<PointNo>,
    pub(crate) strings: Numbers<StringNo>,
    pub(crate) label: Label,
}

// Copies of what an edit gives.
fn kept_of(
    points: &Numbers<PointNo>,
    strings: &Numbers<StringNo>,
    label: &Label,
) -> Result<Kept, Memory>
    ensures { IfOk result
        (λ k. k ≡ record { points = points.now; strings = strings.now; label = label.now }) }
{
    Ok(Kept {
        points: points.copy()?,
        strings: strings.copy()?,
        label: label.copy()?,
    })
}

/// What a division or an enclosure names and gives, with what its record keeps of it.
#[derive(Drop)]
pub(crate) struct Given<'a> {
    pub(crate) kind: Kind,
    pub(crate) new: NewParcel<'a>,
    pub(crate) kept: Kept,
}

/// What an edit gives, and copies of it.
pub(crate) fn given_by(edit: &Edit) -> Result<Given<'_>, Memory>
    requires { BringsParcel edit.now }
    ensures edit { IfOk result (λ g. edit_as g.kind g.new ≡ edit.now) }
    ensures kept { IfOk result (λ g. g.kept ≡ kept_by g.new) }
{
    match edit {
        Edit::Divide {
            face,
            chain,
            strings,
            parcel,
            label,
            source,
        } => {
            let kind = Kind::Divide;
            let new = new_parcel(*face, chain, strings, *parcel, label, *source);
            let kept = kept_of(chain, strings, label)?;
            Ok(Given { kind, new, kept })
        }
        Edit::Enclose {
            face,
            points,
            strings,
            parcel,
            label,
            source,
        } => {
            let kind = Kind::Enclose;
            let new = new_parcel(*face, points, strings, *parcel, label, *source);
            let kept = kept_of(points, strings, label)?;
            Ok(Given { kind, new, kept })
        }
        _ => unreachable!(),
    }
}
