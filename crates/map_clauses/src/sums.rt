//! Sums over the sides of a ring.
ghost use Rattle.std.specs.Prelude.{◌≡◌, ◌<◌, length};
ghost use Rattle.cad_map.specs.Map.{rings_at, sum_of_ring};
ghost use Rattle.cad_map.specs.Rings.{HasWholeRings, ring_at};

use cad_map::{MapView, ring_sum};
use cad_rows::Face;
use geo_exact::SideMeasure;

/// The measures of the sides of a face's ring at a place, added up.
pub fn sum_of_a_ring<M: MapView, F: SideMeasure>(
    map: &M,
    face: &Face,
    place: usize,
    measure: &F,
) -> i128
    requires whole { HasWholeRings (M.map map.now) }
    requires there { place < length (rings_at face.now (M.rings map.now)) }
    ensures { result ≡ sum_of_ring (F.measure measure.now) (M.map map.now)
        (ring_at (M.rings map.now) face.now place) }
{
    ring_sum(map, face, place, measure)
}
