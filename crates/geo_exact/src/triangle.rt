ghost use Rattle.std.specs.Prelude.{◌≡◌};
ghost use Rattle.geo_exact.specs.Triangle.{is_outside};

use crate::orientation::{is_left_of, is_right_of};
use crate::position::Pt;

/// Whether r lies beyond one of the sides of the triangle abc, whichever way round its corners stand. Of one without
/// area nothing lies outside.
///
/// By one orientation for each side, as de Berg et al., Computational Geometry, chapter 1, tell a convex polygon's
/// inside.
pub fn lies_outside(a: Pt, b: Pt, c: Pt, r: Pt) -> bool
    ensures { result ≡ is_outside a b c r }
{
    if is_left_of(a, b, c) {
        is_right_of(a, b, r) || is_right_of(b, c, r) || is_right_of(c, a, r)
    } else {
        is_right_of(a, b, c) && (is_left_of(a, b, r) || is_left_of(b, c, r) || is_left_of(c, a, r))
    }
}
