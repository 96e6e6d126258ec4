//! Looking through the rings of a map.
ghost use Rattle.std.specs.Prelude.{◌≡◌, find, option_map};
ghost use Rattle.cad_rings.specs.Cycle.{has_side, sides_of};
ghost use Rattle.std.specs.Option.{option_copied};

use cad_map::Boundary;
use cad_rings::Ring;
use cad_rows::PointNo;

/// The first of these rings that has the side from one point to another.
pub(crate) fn ring_with(boundaries: &[Boundary], from: PointNo, to: PointNo) -> Option<&Ring>
    ensures { option_copied result
        ≡ option_map (λ b. b.ring)
        (find (λ b. has_side (from, to) (sides_of b.ring)) boundaries.now) }
{
    for boundary in boundaries {
        if boundary.ring.has_side(from, to) {
            return Some(&boundary.ring);
        }
    }
    None
}
