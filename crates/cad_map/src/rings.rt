//! The rings of a face of any map, each walked along its sides.
ghost use Rattle.std.specs.Prelude.{◌≡◌, ◌<◌, ◌≤◌, ◌*◌, length};
ghost use Rattle.cad_rows.specs.Limits.{string_limit};
ghost use Rattle.cad_map.specs.Map.{rings_at, position_of, has_face as has_face_of, sum_of_ring};
ghost use Rattle.cad_map.specs.Rings.{HasWholeRings, ring_at};

use crate::store::MapView;
use crate::walk::Walk;
use cad_rings::Ring;
use cad_rows::{Face, PointNo};
use geo_exact::{Pt, SideMeasure};

/// The position of a point, and of one that isn't there the origin.
pub fn position<M: MapView>(map: &M, no: PointNo) -> Pt
    ensures { result ≡ position_of (M.map map.now) no }
{
    match map.point(no) {
        Some(row) => row.position,
        None => Pt { x: 0, y: 0 },
    }
}

/// Whether a face is the outside or a parcel of the map.
pub fn has_face<M: MapView>(map: &M, face: &Face) -> bool
    ensures { result ≡ has_face_of (M.map map.now) face.now }
{
    match face {
        Face::Outside => true,
        Face::Parcel(no) => map.parcel(*no).is_some(),
    }
}

/// The measures of the sides of a face's ring at a place, added up. Takes no memory.
pub fn ring_sum<M: MapView, F: SideMeasure>(map: &M, face: &Face, place: usize, measure: &F) -> i128
    requires whole { HasWholeRings (M.map map.now) }
    requires there { place < length (rings_at face.now (M.rings map.now)) }
    ensures { result ≡ sum_of_ring (F.measure measure.now) (M.map map.now)
        (ring_at (M.rings map.now) face.now place) }
{
    let walk = Walk::of_ring(map, face, place);
    let (mut last, _) = walk.first_side();
    let mut lies = position(map, last);
    let mut sum = 0;
    for (a, b) in walk {
        let from = position_beside(map, a, last, lies);
        last = b;
        lies = position(map, b);
        sum += measure.of(from, lies);
    }
    sum
}

// The position of a point, which mostly is the one that is known to lie at `lies`.
fn position_beside<M: MapView>(map: &M, no: PointNo, known: PointNo, lies: Pt) -> Pt
    requires { lies ≡ position_of (M.map map.now) known }
    ensures { result ≡ position_of (M.map map.now) no }
{
    if no == known { lies } else { position(map, no) }
}

/// The measures of a ring's sides, added up, its points being where the map has them. Takes no
/// memory.
pub fn sum_round<M: MapView, F: SideMeasure>(map: &M, ring: &Ring, measure: &F) -> i128
    requires { length ring.now ≤ 2 * string_limit }
    ensures { result ≡ sum_of_ring (F.measure measure.now) (M.map map.now) ring.now }
{
    let mut sum = 0;
    for (from, to) in ring.sides() {
        sum += measure.of(position(map, from), position(map, to));
    }
    sum
}
