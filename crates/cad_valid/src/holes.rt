//! Whether the holes of each face lie in its outline, and apart from one another.
ghost use Rattle.std.specs.Prelude.{◌≡◌, ◌+◌, ◌<◌, drop, length, filter, IsTrue};
ghost use Rattle.std.specs.List.{list_all};
ghost use Rattle.cad_map.specs.Map.{rings_at, rings_of, has_point, position_of, is_positive, is_in_ring as is_in_ring_of};
ghost use Rattle.cad_map.specs.Valid.{are_holes_inside as are_holes_inside_of, are_holes_apart as are_holes_apart_of, has_sound_holes as has_sound_holes_of, has_holes_in_place as has_holes_in_place_of};
ghost use Rattle.cad_map.specs.Rings.{HasWholeRings, ring_at};
ghost use Rattle.cad_valid.specs.Holes.{has_inside_if_outline as has_inside_if_outline_of, is_inside_if_hole as is_inside_if_hole_of, are_apart as are_apart_of, is_apart_if_hole as is_apart_if_hole_of, is_apart_from_holes};
ghost use Rattle.cad_valid.specs.Shapes.{shape_of};

use crate::rings::{anchor_of, is_hole, is_in_ring, is_outline};
use crate::shapes::{self, Enclosing};
use cad_map::{MapView, position};
use cad_rows::{Face, PointNo};
use geo_exact::Pt;

/// Whether the anchor of each negative ring is inside the positive ring of its face, and in no other negative one.
pub(crate) fn has_holes_in_place<M: MapView>(map: &M) -> bool
    requires { HasWholeRings (M.map map.now) }
    ensures { result ≡ has_holes_in_place_of (M.map map.now) }
{
    if !has_sound_holes(map, &Face::Outside) {
        return false;
    }
    for place in 0..map.counts().parcels {
        let parcel = map.parcel_at(place).unwrap();
        if !has_sound_holes(map, &Face::Parcel(parcel.number)) {
            return false;
        }
    }
    true
}

/// Whether the holes of one face lie in its outline and apart. A ring alone does.
pub fn has_sound_holes<M: MapView>(map: &M, face: &Face) -> bool
    requires { HasWholeRings (M.map map.now) }
    ensures { result ≡ has_sound_holes_of (M.map map.now) (rings_of (M.map map.now) face.now) }
{
    if map.ring_count(*face) < 2 {
        return true;
    }
    are_holes_inside(map, face) && are_holes_apart(map, face)
}

/// Whether the anchor of each negative ring of a face is inside each positive one.
fn are_holes_inside<M: MapView>(map: &M, face: &Face) -> bool
    requires { HasWholeRings (M.map map.now) }
    ensures { result ≡ are_holes_inside_of (M.map map.now) (rings_of (M.map map.now) face.now) }
{
    for place in 0..map.ring_count(*face) {
        if !is_inside_if_hole(map, face, place) {
            return false;
        }
    }
    true
}

/// Whether a ring of a face isn't negative, or its anchor is inside each positive one.
fn is_inside_if_hole<M: MapView>(map: &M, face: &Face, place: usize) -> bool
    requires whole { HasWholeRings (M.map map.now) }
    requires there { place < length (rings_at face.now (M.rings map.now)) }
    ensures { result ≡ is_inside_if_hole_of (M.map map.now) (rings_at face.now (M.rings map.now))
        (ring_at (M.rings map.now) face.now place) }
{
    !is_hole(map, face, place) || is_in_outlines(map, face, anchor_of(map, face, place))
}

/// Whether a point is inside each positive ring of a face.
fn is_in_outlines<M: MapView>(map: &M, face: &Face, point: PointNo) -> bool
    requires whole { HasWholeRings (M.map map.now) }
    requires there { IsTrue (has_point (M.map map.now) point) }
    ensures { result ≡ list_all (λ outline. is_in_ring_of (M.map map.now) outline point)
        (filter (is_positive (M.map map.now)) (rings_at face.now (M.rings map.now))) }
{
    for place in 0..map.ring_count(*face) {
        if !has_inside_if_outline(map, face, place, point) {
            return false;
        }
    }
    true
}

/// Whether a ring of a face isn't positive, or has a point inside.
fn has_inside_if_outline<M: MapView>(map: &M, face: &Face, place: usize, point: PointNo) -> bool
    requires whole { HasWholeRings (M.map map.now) }
    requires there { place < length (rings_at face.now (M.rings map.now)) }
    requires point_there { IsTrue (has_point (M.map map.now) point) }
    ensures { result ≡ has_inside_if_outline_of (M.map map.now) point
        (ring_at (M.rings map.now) face.now place) }
{
    !is_outline(map, face, place) || is_in_ring(map, face, place, position(map, point))
}

/// Whether of two negative rings of a face neither has the other's anchor inside.
fn are_holes_apart<M: MapView>(map: &M, face: &Face) -> bool
    requires { HasWholeRings (M.map map.now) }
    ensures { result ≡ are_holes_apart_of (M.map map.now) (rings_of (M.map map.now) face.now) }
{
    for place in 0..map.ring_count(*face) {
        if !is_apart_from_later(map, face, place) {
            return false;
        }
    }
    true
}

/// Whether a ring of a face isn't negative, or is apart from each later negative one.
fn is_apart_from_later<M: MapView>(map: &M, face: &Face, place: usize) -> bool
    requires whole { HasWholeRings (M.map map.now) }
    requires there { place < length (rings_at face.now (M.rings map.now)) }
    ensures { result ≡ is_apart_from_holes (M.map map.now)
        (ring_at (M.rings map.now) face.now place)
        (drop (place + 1) (rings_at face.now (M.rings map.now))) }
{
    !is_hole(map, face, place) || is_apart_from(map, face, place)
}

/// Whether a ring of a face and each later negative one have neither the other's anchor inside.
fn is_apart_from<M: MapView>(map: &M, face: &Face, place: usize) -> bool
    requires whole { HasWholeRings (M.map map.now) }
    requires there { place < length (rings_at face.now (M.rings map.now)) }
    ensures { result ≡ list_all
        (is_apart_if_hole_of (M.map map.now) (ring_at (M.rings map.now) face.now place))
        (drop (place + 1) (rings_at face.now (M.rings map.now))) }
{
    let rings = map.ring_count(*face);
    for other in place + 1..rings {
        if !is_apart_if_hole(map, face, place, other) {
            return false;
        }
    }
    true
}

/// Whether the second of two rings of a face isn't negative, or neither has the other's anchor inside.
fn is_apart_if_hole<M: MapView>(map: &M, face: &Face, place: usize, other: usize) -> bool
    requires whole { HasWholeRings (M.map map.now) }
    requires there { place < length (rings_at face.now (M.rings map.now)) }
    requires other_there { other < length (rings_at face.now (M.rings map.now)) }
    ensures { result ≡ is_apart_if_hole_of (M.map map.now)
        (ring_at (M.rings map.now) face.now place) (ring_at (M.rings map.now) face.now other) }
{
    !is_hole(map, face, other) || are_apart(map, face, place, other)
}

/// Whether of two rings of a face neither has the other's anchor inside.
fn are_apart<M: MapView>(map: &M, face: &Face, place: usize, other: usize) -> bool
    requires whole { HasWholeRings (M.map map.now) }
    requires there { place < length (rings_at face.now (M.rings map.now)) }
    requires other_there { other < length (rings_at face.now (M.rings map.now)) }
    ensures { result ≡ are_apart_of (M.map map.now) (ring_at (M.rings map.now) face.now place)
        (ring_at (M.rings map.now) face.now other) }
{
    let first = WalkedRing {
        map,
        face: *face,
        place,
    };
    let second = WalkedRing {
        map,
        face: *face,
        place: other,
    };
    shapes::are_apart(&first, &second)
}

/// A ring of a face, which is walked each time it is asked.
#[derive(Drop)]
struct WalkedRing<'a, M: MapView> {
    map: &'a M,
    face: Face,
    place: usize,
}

impl<M: MapView> Enclosing for WalkedRing<'_, M> {
    ghost can_tell = { λ r. HasWholeRings (M.map r.map.now)
        × (r.place < length (rings_at r.face (M.rings r.map.now))) };

    ghost shape = { λ r. shape_of (position_of (M.map r.map.now))
        (ring_at (M.rings r.map.now) r.face r.place) };

    fn anchor(&self) -> Pt {
        position(self.map, anchor_of(self.map, &self.face, self.place))
    }

    fn has_inside(&self, at: Pt) -> bool {
        is_in_ring(self.map, &self.face, self.place, at)
    }
}
