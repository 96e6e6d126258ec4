//! Corners of a face's rings.
ghost use Rattle.std.specs.Prelude.{◌≡◌, ◌&&◌};
ghost use Rattle.std.specs.List.{Contains, list_any};
ghost use Rattle.cad_rows.specs.declared.names.Face.{Face as FaceOf};
ghost use Rattle.cad_rings.specs.Cycle.{has_side, sides_of};
ghost use Rattle.cad_map.specs.Chain.{leaving, chosen_corner as chosen_corner_of};
ghost use Rattle.cad_map.specs.Map.{rings_of, face_corners};
ghost use Rattle.cad_map.specs.Valid.{IsValid};

use cad_map::{Corner, MapView, are_in_one_ring, chosen_corner};
use cad_rows::{Face, PointNo};

/// The corner of a face at a point whose sector has another point; of several, the one whose following point has the
/// least number.
pub fn chosen_corner_of_a_face<M: MapView>(
    map: &M,
    face: &Face,
    at: PointNo,
    towards: PointNo,
) -> Option<Corner>
    requires { IsValid (M.map map.now) }
    ensures { result ≡ chosen_corner_of (M.map map.now) face.now at towards }
{
    chosen_corner(map, face, at, towards)
}

/// Whether the sides that leave two corners are in one ring.
pub fn corners_are_in_one_ring<M: MapView>(map: &M, first: &Corner, last: &Corner) -> bool
    requires { IsValid (M.map map.now) }
    ensures { (face : FaceOf) → Contains (face_corners (M.map map.now) face) first.now
        → result ≡ list_any
        (λ r. has_side (leaving first.now) (sides_of r) && has_side (leaving last.now) (sides_of r))
        (rings_of (M.map map.now) face) }
{
    are_in_one_ring(map, first, last)
}
