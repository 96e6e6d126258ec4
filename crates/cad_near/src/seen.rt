//! What an edit touched, as it lies on the map, where that is little and near together.
ghost use Rattle.std.specs.Prelude.{◌≡◌, ◌<◌, ◌≤ℤ◌, [], length, false, IsTrue};
ghost use Rattle.std.specs.List.{AllByRecursion, Contains};
ghost use Rattle.geo_exact.specs.Position.{Position, InRange};
ghost use Rattle.cad_map.specs.Valid.{HasSoundRows};
ghost use Rattle.cad_near.specs.Near.{OfPoint, OfString, touched_of};
ghost use Rattle.cad_near.specs.Seen.{IsSeen, IsInReach, HasInReach};
ghost use Rattle.cad_near.specs.Seen.{lying_string as lying_string_of, lying_point as lying_point_of};

use crate::Touched;
use arrayvec::ArrayVec;
use cad_map::{MapView, position};
use cad_rows::{PointNo, PointRow, StringNo, StringRow};
use geo_exact::Pt;

/// A string between the positions of its ends, or a point as a string from where it lies to there.
#[derive(Clone, Copy)]
pub(crate) struct Lying {
    pub(crate) number: u32,
    pub(crate) a: Pt,
    pub(crate) b: Pt,
}

/// A blank, which nobody sees.
impl Default for Lying {
    fn default() -> Lying {
        Lying {
            number: 0,
            a: Pt { x: 0, y: 0 },
            b: Pt { x: 0, y: 0 },
        }
    }
}

/// A box, from its corner in the southwest to the one in the northeast.
#[derive(Clone, Copy)]
pub(crate) struct Reach {
    pub(crate) low: Pt,
    pub(crate) high: Pt,
}

/// The strings and points that an edit touched, and a box that they lie in.
#[derive(Drop)]
pub(crate) struct Seen {
    pub(crate) strings: ArrayVec<Lying, 8>,
    pub(crate) points: ArrayVec<Lying, 16>,
    pub(crate) reach: Reach,
}

/// The longest side of a box, in millimetres, that is looked at whole. In a wider one there may be
/// much that lies near nothing that was touched.
const MOST_REACH: i64 = 200_000;

/// A string of the map, between the positions of its ends.
pub(crate) fn lying_string<M: MapView>(map: &M, string: &StringRow) -> Lying
    ensures { result ≡ lying_string_of (M.map map.now) string.now }
{
    Lying {
        number: string.number.get(),
        a: position(map, string.from),
        b: position(map, string.to),
    }
}

/// A point, where it lies.
pub(crate) fn lying_point(point: &PointRow) -> Lying
    ensures { result ≡ lying_point_of point.now }
{
    Lying {
        number: point.number.get(),
        a: point.position,
        b: point.position,
    }
}

impl Seen {
    /// Nothing, before anything is gathered.
    pub(crate) fn none() -> Seen
        ensures strings { result.strings.items ≡ [] }
        ensures points { result.points.items ≡ [] }
    {
        let origin = Pt { x: 0, y: 0 };
        Seen {
            strings: ArrayVec::new(),
            points: ArrayVec::new(),
            reach: Reach {
                low: origin,
                high: origin,
            },
        }
    }
}

/// Gathers those of these strings that the map has. `false` where they are more than eight.
fn gather_strings<M: MapView>(map: &M, strings: &[StringNo], seen: &mut ArrayVec<Lying, 8>) -> bool
    requires sound { HasSoundRows (M.map map.now) }
    requires none { seen.old.items ≡ [] }
    ensures all { IsTrue result → AllByRecursion
        (OfString (M.map map.now) (λ s. Contains seen.new.items (lying_string_of (M.map map.now) s)))
        strings.now }
    ensures many { result ≡ false → 8 < length strings.now }
{
    for place in 0..strings.len() {
        if let Some(row) = map.string(strings[place]) {
            if seen.is_full() {
                return false;
            }
            seen.push(lying_string(map, row));
        }
    }
    true
}

/// Gathers those of these points that the map has. `false` where they are more than sixteen.
fn gather_points<M: MapView>(map: &M, points: &[PointNo], seen: &mut ArrayVec<Lying, 16>) -> bool
    requires sound { HasSoundRows (M.map map.now) }
    requires none { seen.old.items ≡ [] }
    ensures all { IsTrue result → AllByRecursion
        (OfPoint (M.map map.now) (λ p. Contains seen.new.items (lying_point_of p))) points.now }
    ensures many { result ≡ false → 16 < length points.now }
{
    for place in 0..points.len() {
        if let Some(row) = map.point(points[place]) {
            if seen.is_full() {
                return false;
            }
            seen.push(lying_point(row));
        }
    }
    true
}

/// The lesser of two coordinates.
fn lesser(a: i64, b: i64) -> i64
    requires first { InRange a }
    requires second { InRange b }
    ensures in_range { InRange result }
    ensures at_first { result ≤ℤ a }
    ensures at_second { result ≤ℤ b }
{
    a.min(b)
}

/// The greater of two coordinates.
fn greater(a: i64, b: i64) -> i64
    requires first { InRange a }
    requires second { InRange b }
    ensures in_range { InRange result }
    ensures at_first { a ≤ℤ result }
    ensures at_second { b ≤ℤ result }
{
    a.max(b)
}

/// The box of this one and a position.
pub(crate) fn grown(reach: Reach, p: Pt) -> Reach
    ensures within { IsInReach result p }
    ensures kept { (q : Position) → IsInReach reach q → IsInReach result q }
{
    Reach {
        low: Pt {
            x: lesser(reach.low.x, p.x),
            y: lesser(reach.low.y, p.y),
        },
        high: Pt {
            x: greater(reach.high.x, p.x),
            y: greater(reach.high.y, p.y),
        },
    }
}

/// The box of this one and all these strings or points.
fn grown_by(reach: Reach, items: &[Lying]) -> Reach
    ensures all { AllByRecursion (HasInReach result) items.now }
    ensures kept { (q : Position) → IsInReach reach q → IsInReach result q }
{
    let mut grown_so_far = reach;
    for item in items {
        grown_so_far = grown(grown(grown_so_far, item.a), item.b);
    }
    grown_so_far
}

/// Whether a box is small enough to be looked at whole.
pub(crate) fn is_small(reach: &Reach) -> bool {
    reach.high.x - reach.low.x <= MOST_REACH && reach.high.y - reach.low.y <= MOST_REACH
}

/// Gathers what an edit touched, where that is little and near together. It is gathered in place,
/// since what is gathered is large to be handed on.
pub(crate) fn gather<M: MapView>(map: &M, touched: &Touched, seen: &mut Seen) -> bool
    requires sound { HasSoundRows (M.map map.now) }
    requires no_strings { seen.old.strings.items ≡ [] }
    requires no_points { seen.old.points.items ≡ [] }
    ensures { IsTrue result → IsSeen (M.map map.now) (touched_of touched.now) seen.new }
{
    if !gather_strings(map, touched.strings.as_slice(), &mut seen.strings) {
        return false;
    }
    if !gather_points(map, touched.points.as_slice(), &mut seen.points) {
        return false;
    }
    let Some(first) = seen.points.as_slice().first() else {
        return false;
    };
    let at_first = Reach {
        low: first.a,
        high: first.a,
    };
    let with_strings = grown_by(at_first, seen.strings.as_slice());
    seen.reach = grown_by(with_strings, seen.points.as_slice());
    is_small(&seen.reach)
}
