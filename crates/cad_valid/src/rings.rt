//! The rings of a face, each walked along its sides.
ghost use Rattle.std.specs.Prelude.{◌≡◌, ◌↔◌, ◌<◌, length, IsTrue};
ghost use Rattle.geo_exact.specs.Measure.{doubled_area};
ghost use Rattle.geo_exact.specs.Inside.{is_inside};
ghost use Rattle.cad_rings.specs.Cycle.{anchor_of as anchor_of_ring, placed, sides_of};
ghost use Rattle.cad_map.specs.Boundaries.{canonical_order};
ghost use Rattle.cad_map.specs.Map.{rings_at, rings_of, position_of, has_point, sum_of_ring, is_positive, is_negative};
ghost use Rattle.cad_map.specs.Rings.{HasWholeRings, ring_at};

use cad_map::{MapView, Walk, position};
use cad_rows::{Face, PointNo};
use geo_exact::{Pt, crosses};

/// Whether a face has one ring, and no more.
#[tactic(auto, using(crate::proofs::RingsInMap::rings_counted))]
pub fn has_one_ring<M: MapView>(map: &M, face: &Face) -> bool
    ensures one { IsTrue result ↔ (length (rings_of (M.map map.now) face.now) ≡ 1) }
    // The rings are those of the map.
    ensures canonical_order { canonical_order (M.rings map.now) ≡ (M.map map.now).boundaries }
{
    map.ring_count(*face) == 1
}

/// Whether a ring of a face has positive doubled area.
pub(crate) fn is_outline<M: MapView>(map: &M, face: &Face, place: usize) -> bool
    requires whole { HasWholeRings (M.map map.now) }
    requires there { place < length (rings_at face.now (M.rings map.now)) }
    ensures { result ≡ is_positive (M.map map.now) (ring_at (M.rings map.now) face.now place) }
{
    doubled_area_of(map, face, place) > 0
}

/// Whether a ring of a face has negative doubled area.
pub fn is_hole<M: MapView>(map: &M, face: &Face, place: usize) -> bool
    requires whole { HasWholeRings (M.map map.now) }
    requires there { place < length (rings_at face.now (M.rings map.now)) }
    ensures { result ≡ is_negative (M.map map.now) (ring_at (M.rings map.now) face.now place) }
{
    doubled_area_of(map, face, place) < 0
}

/// The doubled area of a ring of a face, in doubled square millimetres.
pub fn doubled_area_of<M: MapView>(map: &M, face: &Face, place: usize) -> i128
    requires whole { HasWholeRings (M.map map.now) }
    requires there { place < length (rings_at face.now (M.rings map.now)) }
    ensures { result ≡ sum_of_ring doubled_area (M.map map.now)
        (ring_at (M.rings map.now) face.now place) }
{
    map.ring_area(*face, place)
}

/// The anchor of a ring of a face, its least point.
pub fn anchor_of<M: MapView>(map: &M, face: &Face, place: usize) -> PointNo
    requires whole { HasWholeRings (M.map map.now) }
    requires there { place < length (rings_at face.now (M.rings map.now)) }
    ensures value { result ≡ anchor_of_ring (ring_at (M.rings map.now) face.now place) }
    ensures point { IsTrue (has_point (M.map map.now) result) }
{
    let walk = Walk::of_ring(map, face, place);
    let (mut least, _) = walk.first_side();
    for (point, _) in walk {
        if point.get() < least.get() {
            least = point;
        }
    }
    least
}

/// Whether a position is inside a ring of a face: an odd number of the ring's sides is counted there.
pub(crate) fn is_in_ring<M: MapView>(map: &M, face: &Face, place: usize, at: Pt) -> bool
    requires whole { HasWholeRings (M.map map.now) }
    requires there { place < length (rings_at face.now (M.rings map.now)) }
    ensures { result ≡ is_inside
        (placed (position_of (M.map map.now)) (sides_of (ring_at (M.rings map.now) face.now place)))
        at }
{
    let mut inside = false;
    for (a, b) in Walk::of_ring(map, face, place) {
        if crosses(position(map, a), position(map, b), at) {
            inside = !inside;
        }
    }
    inside
}
