//! A closed chain of points made an island of a face.
ghost use Rattle.std.specs.Prelude.{◌≡◌, ◌≤◌, None, length, IsTrue, [], ◌∷◌, map as map_of, IfOk, ◌++◌, OnOk};
ghost use Rattle.std.specs.List.{AllByRecursion};
ghost use Rattle.cad_map.specs.Chain.{start_of};
ghost use Rattle.cad_map.specs.Map.{has_point};
ghost use Rattle.cad_map.specs.Valid.{IsValid};
ghost use Rattle.cad_rows.specs.declared.names.Face.TheVariants.{Parcel};
ghost use Rattle.cad_map.specs.Boundaries.{canonical_order};
ghost use Rattle.cad_map.specs.Division.{hole_placed as hole_placed_of, boundaries_enclosed};
ghost use Rattle.cad_map.specs.Rings.{HasWholeRings};
ghost use Rattle.cad_map.specs.Refusals.{first_refusal as first_refusal_of};
ghost use Rattle.cad_map.specs.Asked.{GivesInRange};
ghost use Rattle.cad_rows.specs.declared.edits.Edit.TheVariants.{Enclose as EncloseOf};
ghost use Rattle.cad_map.specs.Changes.{enclose as enclose_of};

use crate::chains::rows_along;
use crate::parcels::{NewParcel, put_new_parcel, put_strings};
use crate::placing::hole_placed;
use cad_map::{Boundary, PlainMap};
use cad_rings::Ring;
use cad_rows::{Face, Memory, ParcelNo, PointNo, StringNo};
use std::alloc::Global;

/// Makes a closed chain of points an island of a face.
pub(crate) fn enclose(
    map: &mut PlainMap,
    face: Face,
    points: &[PointNo],
    strings: &[StringNo],
    new: &NewParcel<'_>,
) -> Result<(), Memory>
    requires valid { IsValid map.old }
    requires range { GivesInRange
        (EncloseOf face points.now strings.now new.now.number new.now.label.now new.now.source) }
    requires allowed { first_refusal_of map.old
        (EncloseOf face points.now strings.now new.now.number new.now.label.now new.now.source)
        ≡ None }
    ensures { OnOk result (map.new
        ≡ enclose_of map.old face points.now strings.now new.now.number new.now.label.now
        new.now.source) }
{
    let boundaries = enclosed_boundaries(map, face, new.number, points)?;
    let closed = closed(map.allocator(), points)?;
    let rows = rows_along(map.allocator(), closed.as_slice(), strings, new.source)?;
    put_strings(map, rows.as_slice())?;
    put_new_parcel(map, new)?;
    map.set_boundaries(boundaries);
    Ok(())
}

/// The points, and the first of them once more.
fn closed(alloc: Global, points: &[PointNo]) -> Result<Vec<PointNo>, Memory>
    requires { 1 ≤ length points.now }
    ensures { IfOk result (λ closed. closed.items ≡ points.now ++ start_of points.now ∷ []) }
{
    let mut closed = Vec::from_slice(alloc, points)?;
    closed.push(points[0])?;
    Ok(closed)
}

/// All rings after a closed chain of points is made an island in a face. An error where memory runs out.
pub(crate) fn enclosed_boundaries(
    map: &PlainMap,
    face: Face,
    new: ParcelNo,
    points: &[PointNo],
) -> Result<Vec<Boundary>, Memory>
    requires whole { HasWholeRings map.now }
    requires long { 2 ≤ length points.now }
    ensures { IfOk result (λ made. canonical_order made.items
        ≡ canonical_order (boundaries_enclosed map.now face (Parcel new) points.now)) }
{
    let ring = Ring::from_points(map.allocator(), points)?;
    let reversed = ring.reversed()?;
    let parcel = Face::Parcel(new);
    let mut made = all_placed(map, &face, &parcel, &ring)?;
    made.push(Boundary { face: parcel, ring })?;
    made.push(Boundary {
        face,
        ring: reversed,
    })?;
    Ok(made)
}

/// Each ring of the map, as it is placed after a ring is put round holes of a face.
fn all_placed(map: &PlainMap, face: &Face, new: &Face, ring: &Ring) -> Result<Vec<Boundary>, Memory>
    requires whole { HasWholeRings map.now }
    ensures { IfOk result (λ placed. placed.items
        ≡ map_of (hole_placed_of map.now face.now new.now ring.now) map.now.boundaries) }
{
    let mut placed = Vec::new(map.allocator());
    for boundary in map.boundaries() {
        placed.push(hole_placed(map, face, new, ring, boundary)?)?;
    }
    Ok(placed)
}
