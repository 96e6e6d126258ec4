ghost use Rattle.std.specs.Prelude.{◌≡◌};
ghost use Rattle.geo_exact.specs.Inside.{is_counted, is_counted_upwards};

use crate::orientation::is_left_of;
use crate::position::Pt;

// The side from a to b begins at or below q and ends above it, with q to its left.
pub(crate) fn crosses_upwards(a: Pt, b: Pt, q: Pt) -> bool
    ensures { result ≡ is_counted_upwards a b q }
{
    a.y <= q.y && q.y < b.y && is_left_of(a, b, q)
}

/// Whether the side between a and b is counted at q: the ray from q to the east crosses it, where the lower end of a side
/// belongs to it and the upper end doesn't. A location is inside a ring where an odd number of its sides is counted.
///
/// The crossing test for a point in a polygon of O'Rourke, Computational Geometry in C, section 7.4.
pub fn crosses(a: Pt, b: Pt, q: Pt) -> bool
    ensures { result ≡ is_counted a b q }
{
    crosses_upwards(a, b, q) || crosses_upwards(b, a, q)
}
