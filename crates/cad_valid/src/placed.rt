//! Strings with the positions of their ends, and where two of them may meet.
ghost use Rattle.std.specs.Prelude.{◌≡◌};
ghost use Rattle.geo_exact.specs.Position.{Position};
ghost use Rattle.cad_map.specs.Map.{position_of};
ghost use Rattle.cad_valid.specs.Placed.{IsPlacedIn, placed_string as placed_string_of};
ghost use Rattle.cad_valid.specs.Placed.{placed_point as placed_point_of};
ghost use Rattle.cad_valid.specs.Placed.{is_placed_end as is_end_of, near_position as near_position_of};
ghost use Rattle.cad_valid.specs.Placed.{far_position as far_position_of, meets_only_at};
ghost use Rattle.cad_valid.specs.Placed.{meets_at_ends, is_only_end};

use cad_map::{MapView, position};
use cad_rows::{PointNo, PointRow, StringRow};
use geo_exact::{Pt, meets, on_segment};

/// A string from one point to another as it lies on the map, or a point as one from itself to
/// itself.
#[derive(Clone, Copy)]
pub struct Placed {
    /// The point that it leads from.
    pub from: PointNo,
    /// The point that it leads to.
    pub to: PointNo,
    /// The position of the point that it leads from.
    pub a: Pt,
    /// The position of the point that it leads to.
    pub b: Pt,
}

impl Placed {
    /// Whether it leads from a point or to it.
    pub fn is_end(&self, point: PointNo) -> bool
        ensures { result ≡ is_end_of self.now point }
    {
        self.from == point || self.to == point
    }

    /// The position of one of its ends.
    fn near_position(&self, point: PointNo) -> Pt
        ensures { result ≡ near_position_of self.now point }
    {
        if self.from == point { self.a } else { self.b }
    }

    /// The position of the other end.
    fn far_position(&self, point: PointNo) -> Pt
        ensures { result ≡ far_position_of self.now point }
    {
        if self.from == point { self.b } else { self.a }
    }
}

/// A string of the map as it lies there.
pub fn placed_string<M: MapView>(map: &M, string: &StringRow) -> Placed
    ensures { result ≡ placed_string_of (M.map map.now) string.now }
{
    Placed {
        from: string.from,
        to: string.to,
        a: position(map, string.from),
        b: position(map, string.to),
    }
}

/// The position of a point that mostly is an end of a string that was looked up.
fn position_beside<M: MapView>(map: &M, here: &Placed, point: PointNo) -> Pt
    requires { IsPlacedIn (M.map map.now) here.now }
    ensures { result ≡ position_of (M.map map.now) point }
{
    if here.from == point {
        here.a
    } else if here.to == point {
        here.b
    } else {
        position(map, point)
    }
}

/// A string of the map that mostly has an end in common with one that was looked up.
pub fn placed_beside<M: MapView>(map: &M, here: &Placed, string: &StringRow) -> Placed
    requires { IsPlacedIn (M.map map.now) here.now }
    ensures { result ≡ placed_string_of (M.map map.now) string.now }
{
    Placed {
        from: string.from,
        to: string.to,
        a: position_beside(map, here, string.from),
        b: position_beside(map, here, string.to),
    }
}

/// A point as it lies on the map.
pub fn placed_point(point: &PointRow) -> Placed
    ensures { result ≡ placed_point_of point.now }
{
    Placed {
        from: point.number,
        to: point.number,
        a: point.position,
        b: point.position,
    }
}

/// Whether two strings have no common location but a shared end.
pub fn meet_at_ends(string: &Placed, other: &Placed) -> bool
    ensures { result ≡ meets_at_ends string.now other.now }
{
    if other.is_end(string.from) {
        meet_only_at(string, other, string.from)
    } else if other.is_end(string.to) {
        meet_only_at(string, other, string.to)
    } else {
        !meets(string.a, string.b, other.a, other.b)
    }
}

/// Whether two strings that share an end have no other common location. They have one exactly where
/// the far end of one lies on the other.
fn meet_only_at(string: &Placed, other: &Placed, shared: PointNo) -> bool
    ensures { result ≡ meets_only_at string.now other.now shared }
{
    let start = string.near_position(shared);
    let a = string.far_position(shared);
    let b = other.far_position(shared);
    !on_segment(start, a, b) && !on_segment(start, b, a)
}

/// Whether a point doesn't lie on a string, or is one of its ends.
pub fn lies_only_as_end(point: &Placed, string: &Placed) -> bool
    ensures { result ≡ is_only_end point.now string.now }
{
    string.is_end(point.from) || !on_segment(string.a, string.b, point.a)
}
