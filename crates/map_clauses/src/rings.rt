//! A ring, written from another of its points on.
ghost use Rattle.std.specs.Prelude.{◌≡◌, ◌≤◌, ◌<◌, length, slice_index};
ghost use Rattle.cad_rings.specs.Cycle.{turned};

use cad_rings::Ring;
use cad_rows::PointNo;

/// The point at a place of a ring as it is written from another place on.
pub fn point_of_a_turned_ring(ring: &Ring, start: usize, place: usize) -> PointNo
    requires start { start ≤ length ring.now }
    requires place { place < length ring.now }
    ensures { result ≡ slice_index (turned start ring.now) place }
{
    ring.turned_at(start, place)
}
