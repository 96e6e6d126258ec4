//! Whether the holes of each face lie in its outline and apart, asked of a plain map: the rings of a
//! face stand together there, and no ring is walked.
ghost use Rattle.std.specs.Prelude.{◌≡◌, map as map_of, IfOk};
ghost use Rattle.std.specs.List.{AllByRecursion};
ghost use Rattle.cad_map.specs.Map.{rings_of, position_of};
ghost use Rattle.cad_map.specs.Valid.{has_sound_holes as has_sound_holes_of};
ghost use Rattle.cad_map.specs.Valid.{has_holes_in_place as has_holes_in_place_of};
ghost use Rattle.cad_map.specs.Rings.{HasWholeRings};
ghost use Rattle.cad_valid.specs.Rings.{IsRingOf};
ghost use Rattle.cad_valid.specs.Shapes.{shape_of, told_apart};

use crate::face_shapes::FaceShapes;
use crate::shapes::PlacedRing;
use cad_map::{Boundary, MapView, PlainMap};
use cad_rings::Ring;
use cad_rows::{Face, Memory};
use std::alloc::Global;

/// Whether the anchor of each negative ring is inside the positive ring of its face, and in no
/// other negative one.
///
/// Only faces of two rings or more need a look. Memory is that of the positions of one face's rings
/// at a time, 32 bytes a side, and of their holes' boxes. Time is that of each hole with each side of
/// its outline, of the sort of the boxes, and of each two holes whose boxes overlap.
pub(crate) fn has_holes_in_place_swept(alloc: Global, map: &PlainMap) -> Result<bool, Memory>
    requires { HasWholeRings map.now }
    ensures { IfOk result (λ b. b ≡ has_holes_in_place_of map.now) }
{
    if !has_sound_holes(alloc, map, Face::Outside)? {
        return Ok(false);
    }
    for place in 0..map.counts().parcels {
        let parcel = map.parcel_at(place).unwrap();
        if !has_sound_holes(alloc, map, Face::Parcel(parcel.number))? {
            return Ok(false);
        }
    }
    Ok(true)
}

/// Whether the holes of one face lie in its outline and apart. A ring alone does.
fn has_sound_holes(alloc: Global, map: &PlainMap, face: Face) -> Result<bool, Memory>
    requires { HasWholeRings map.now }
    ensures { IfOk result (λ b. b ≡ has_sound_holes_of map.now (rings_of map.now face)) }
{
    let run = map.run_of(face);
    if run.len() < 2 {
        return Ok(true);
    }
    let shapes = shapes_of(alloc, map, run)?;
    shapes.has_sound_holes(alloc)
}

/// These rings as they lie.
fn shapes_of(alloc: Global, map: &PlainMap, run: &[Boundary]) -> Result<FaceShapes, Memory>
    requires { AllByRecursion (IsRingOf map.now) (map_of (λ b. b.ring) run.now) }
    ensures { IfOk result (λ shapes. shapes
        ≡ told_apart (map_of (shape_of (position_of map.now)) (map_of (λ b. b.ring) run.now))) }
{
    let mut shapes = FaceShapes::none(alloc);
    for boundary in run {
        shapes.add(placed_ring(alloc, map, &boundary.ring)?)?;
    }
    Ok(shapes)
}

/// The ring of a map, each of its points looked up.
fn placed_ring(alloc: Global, map: &PlainMap, ring: &Ring) -> Result<PlacedRing, Memory>
    requires { IsRingOf map.now ring.now }
    ensures { IfOk result (λ placed. placed ≡ shape_of (position_of map.now) ring.now) }
{
    PlacedRing::of(alloc, map, ring.points()[0], ring.sides())
}
