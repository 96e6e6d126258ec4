ghost use Rattle.std.specs.Prelude.{◌≡◌, not};
ghost use Rattle.geo_exact.specs.Sector.{in_sector, AreThreeDirections};

use crate::orientation::{is_left_of, is_right_of, points_back};
use crate::position::Pt;

/// Whether w is in the sector at v from the direction of n counterclockwise to that of p, the two directions left out.
/// Where n and p lie in one direction the sector is the full turn without it.
///
/// The case table is the rule for all positions, also where some of them are equal. It is built of half-plane tests, as in
/// de Berg et al., Computational Geometry, chapters 1 and 2, where it tells which half-edge comes next around a vertex.
pub fn in_sector(v: Pt, n: Pt, p: Pt, w: Pt) -> bool
    ensures { result ≡ in_sector v n p w }
{
    if is_left_of(v, n, p) {
        is_left_of(v, n, w) && is_left_of(v, w, p)
    } else if is_right_of(v, n, p) {
        is_right_of(v, p, w) || is_right_of(v, w, n)
    } else if points_back(v, n, p) {
        is_left_of(v, n, w)
    } else {
        is_left_of(v, n, w) || is_right_of(v, n, w) || points_back(v, n, w)
    }
}

/// Does nothing. Its contract is a law of [`in_sector`]: of three different directions n, p and w from v, either w is
/// in the sector from n to p, or n is in the sector from w to p, and not both. So of two directions exactly one is met
/// first on the way round to a third.
pub fn one_direction_is_first(v: Pt, n: Pt, p: Pt, w: Pt)
    ensures { AreThreeDirections v n p w → in_sector v n p w ≡ not (in_sector v w p n) }
{}
