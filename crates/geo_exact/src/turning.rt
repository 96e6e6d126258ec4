ghost use Rattle.std.specs.Prelude.{◌≡◌};
ghost use Rattle.geo_exact.specs.Turning.{is_ahead as is_ahead_of, is_met_first as is_met_before};

use crate::orientation::is_left_of;
use crate::position::Pt;

// Whether a lies in the first half of a turn about v that begins in the east.
fn is_ahead(v: Pt, a: Pt) -> bool
    ensures { result ≡ is_ahead_of v a }
{
    a.y > v.y || (a.y >= v.y && a.x > v.x)
}

/// Whether a turn counterclockwise about v, begun in the east, meets the direction to a before the one to b, which is
/// another. By half-planes and one orientation, as points are sorted by angle in Cormen et al., Introduction to
/// Algorithms, chapter 33. Where a or b lies at v it tells nothing.
pub fn is_met_first(v: Pt, a: Pt, b: Pt) -> bool
    ensures { result ≡ is_met_before v a b }
{
    if is_ahead(v, a) {
        !is_ahead(v, b) || is_left_of(v, a, b)
    } else {
        !is_ahead(v, b) && is_left_of(v, a, b)
    }
}
