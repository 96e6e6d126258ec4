//! Sides of a ring looked for, and what comes after one.
ghost use Rattle.std.specs.Prelude.{◌≡◌, ◌≤◌, length, position};
ghost use Rattle.cad_rings.specs.Cycle.{sides_of, is_side as is_side_of, has_side as has_side_of, after_side as after_side_of};

use crate::canonical::turned_at;
use crate::sides::side_at;
use cad_rows::PointNo;

/// The point that a ring passes after the side from one point to another: of several times that it goes along it, after
/// the first.
pub(crate) fn after_side(points: &[PointNo], from: PointNo, to: PointNo) -> Option<PointNo>
    requires { 2 ≤ length points.now }
    ensures { result ≡ after_side_of (from, to) points.now }
{
    let (mut before, mut at) = (points[0], points[1]);
    for place in 0..points.len() {
        let after = turned_at(points, 2, place);
        if before.get() == from.get() && at.get() == to.get() {
            return Some(after);
        }
        before = at;
        at = after;
    }
    None
}

/// Whether the ring has the side from one point to another.
pub(crate) fn has_side(points: &[PointNo], from: PointNo, to: PointNo) -> bool
    ensures { result ≡ has_side_of (from, to) (sides_of points.now) }
{
    for place in 0..points.len() {
        let (a, b) = side_at(points, place);
        if from.get() == a.get() && to.get() == b.get() {
            return true;
        }
    }
    false
}

// Whether a side leads from one point to another.
fn is_side(side: (PointNo, PointNo), from: PointNo, to: PointNo) -> bool
    ensures { result ≡ is_side_of (from, to) side }
{
    from.get() == side.0.get() && to.get() == side.1.get()
}

/// The place of the side from one point to another: of several times that the ring goes along it, the first.
pub(crate) fn place_of(points: &[PointNo], from: PointNo, to: PointNo) -> Option<usize>
    ensures { result ≡ position (is_side_of (from, to)) (sides_of points.now) }
{
    for place in 0..points.len() {
        if is_side(side_at(points, place), from, to) {
            return Some(place);
        }
    }
    None
}
