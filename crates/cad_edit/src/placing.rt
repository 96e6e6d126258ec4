//! Which holes of a face go to a new face with the ring that is put round them.
ghost use Rattle.std.specs.Prelude.{◌≡◌, ◌&&◌, IfOk};
ghost use Rattle.std.specs.List.{Contains};
ghost use Rattle.cad_map.specs.Map.{is_negative, is_in_ring as is_in_ring_of};
ghost use Rattle.cad_map.specs.Division.{hole_placed as hole_placed_of};
ghost use Rattle.cad_map.specs.Rings.{HasWholeRings};
ghost use Rattle.cad_rings.specs.Cycle.{anchor_of};
ghost use Rattle.cad_map.specs.Boundaries.{is_face as is_face_of};

use cad_map::{Boundary, MapView, PlainMap, is_face, position, sum_round};
use cad_rings::Ring;
use cad_rows::{Face, Memory, PointNo};
use geo_exact::{DoubledArea, crosses};

/// A ring of the map, at a new face if it is a hole of the face whose anchor is inside the new ring, and else as it is.
pub(crate) fn hole_placed(
    map: &PlainMap,
    face: &Face,
    new: &Face,
    ring: &Ring,
    boundary: &Boundary,
) -> Result<Boundary, Memory>
    requires whole { HasWholeRings map.now }
    requires there { Contains map.now.boundaries boundary.now }
    ensures { IfOk result
        (λ placed. placed ≡ hole_placed_of map.now face.now new.now ring.now boundary.now) }
{
    let mut placed = boundary.copy()?;
    if is_hole_inside(map, face, ring, boundary) {
        placed.face = *new;
    }
    Ok(placed)
}

/// Whether a ring of the map is a hole of a face whose anchor is inside another ring.
fn is_hole_inside(map: &PlainMap, face: &Face, ring: &Ring, boundary: &Boundary) -> bool
    requires whole { HasWholeRings map.now }
    requires there { Contains map.now.boundaries boundary.now }
    ensures { result ≡ (is_face_of face.now boundary.now.face
        && is_negative map.now boundary.now.ring
        && is_in_ring_of map.now ring.now (anchor_of boundary.now.ring)) }
{
    is_face(face, &boundary.face)
        && sum_round(map, &boundary.ring, &DoubledArea) < 0
        && is_in_ring(map, ring, boundary.ring.anchor())
}

/// Whether a point is inside a ring: an odd number of the ring's sides is counted there.
pub fn is_in_ring<M: MapView>(map: &M, ring: &Ring, point: PointNo) -> bool
    ensures { result ≡ is_in_ring_of (M.map map.now) ring.now point }
{
    let at = position(map, point);
    let mut inside = false;
    for (from, to) in ring.sides() {
        if crosses(position(map, from), position(map, to), at) {
            inside = !inside;
        }
    }
    inside
}
