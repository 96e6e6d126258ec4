//! Whether what the grid holds near touched strings and points is seen to keep V3 and V4, by where it
//! is held. A look at rows is needed only where something held seems to be in the way: an edit's
//! strings and points may be held where they were before, too.
ghost use Rattle.std.specs.Prelude.{◌≡◌, ◌↔◌, IsTrue};
ghost use Rattle.std.specs.List.{list_all, list_any};
ghost use Rattle.cad_map.specs.Valid.{HasSoundRows};
ghost use Rattle.cad_near.specs.Near.{HoldsMap};
ghost use Rattle.cad_valid.specs.Placed.{have_common as have_common_of};
ghost use Rattle.cad_near.specs.Seen.{starts_alone as starts_alone_of, meets_by_sight, lies_by_sight as lies_by_sight_of};
ghost use Rattle.cad_near.specs.Seen.{held_string, held_point, lies_alike, HasStringThere, HasPointThere};
ghost use Rattle.cad_near.specs.Seen.{is_clear_of, is_clear_string as is_clear_string_of};
ghost use Rattle.cad_near.specs.Seen.{is_itself as is_itself_of};
ghost use Rattle.cad_near.specs.Seen.{is_met_by_sight as is_met_by_sight_of};
ghost use Rattle.cad_near.specs.Seen.{ends_at as ends_at_of, are_at_ends};
ghost use Rattle.cad_near.specs.Seen.{is_apart_from as is_apart_from_of, is_lone_point as is_lone_point_of};
ghost use Rattle.cad_near.specs.Seen.{SeesStrings, SeesPoints, OfHeldString, OfHeldPoint};

use crate::seen::{Lying, Seen, lying_point, lying_string};
use cad_map::MapView;
use cad_valid::is_same;
use cell_grid::{CellGrid, HeldPoint, HeldString};
use geo_exact::{Pt, have_boxes_in_common, meets, on_segment};

/// Whether the segments ab and cd have a common location.
fn have_common(a: Pt, b: Pt, c: Pt, d: Pt) -> bool
    ensures { result ≡ have_common_of a b c d }
{
    meets(a, b, c, d)
}

/// Whether q lies on the segment ab. Most positions near it aren't even in its box.
fn lies_on(a: Pt, b: Pt, q: Pt) -> bool
    ensures { result ≡ have_common_of a b q q }
{
    have_boxes_in_common(a, b, q, q) && on_segment(a, b, q)
}

/// Whether neither of the segments from v to a and from v to b has the other's far end.
fn starts_alone(v: Pt, a: Pt, b: Pt) -> bool
    ensures { result ≡ starts_alone_of v a b }
{
    !lies_on(v, a, b) && !lies_on(v, b, a)
}

/// Whether the segments ab and cd are seen to have no common location but a shared end.
#[inline(always)]
fn meet_by_sight(a: Pt, b: Pt, c: Pt, d: Pt) -> bool
    ensures { result ≡ meets_by_sight a b c d }
{
    if !have_boxes_in_common(a, b, c, d) {
        true
    } else if is_same(a, c) {
        starts_alone(a, b, d)
    } else if is_same(a, d) {
        starts_alone(a, b, c)
    } else if is_same(b, c) {
        starts_alone(b, a, d)
    } else if is_same(b, d) {
        starts_alone(b, a, c)
    } else {
        !have_common(a, b, c, d)
    }
}

/// Whether a position is seen to lie on a segment only as its end.
fn lies_by_sight(p: Pt, a: Pt, b: Pt) -> bool
    ensures { result ≡ lies_by_sight_of p a b }
{
    is_same(p, a) || is_same(p, b) || !lies_on(a, b, p)
}

/// Whether two strings lie between the same positions.
fn lie_alike(f: &Lying, g: &Lying) -> bool
    ensures { result ≡ lies_alike f.now g.now }
{
    is_same(f.a, g.a) && is_same(f.b, g.b)
}

/// Whether of two strings one is the other, where it lies. Few have the same number, so this is
/// asked first.
fn is_itself(f: &Lying, g: &Lying) -> bool
    ensures { result ≡ is_itself_of f.now g.now }
{
    f.number == g.number && lie_alike(f, g)
}

/// Whether of two strings one is the other, or they are seen to meet only at a shared end.
fn is_clear(f: &Lying, g: &Lying) -> bool
    ensures { result ≡ is_clear_of f.now g.now }
{
    f.number == g.number || meet_by_sight(f.a, f.b, g.a, g.b)
}

/// Whether a string is seen to be clear of all of these.
fn is_clear_of_all(strings: &[Lying], f: &Lying) -> bool
    ensures { result ≡ list_all (λ s. is_clear_of s f.now) strings.now }
{
    for string in strings {
        if !is_clear(string, f) {
            return false;
        }
    }
    true
}

/// Whether a string is seen to bear none of these points but as its end.
fn bears_by_sight(points: &[Lying], f: &Lying) -> bool
    ensures { result ≡ list_all (λ p. lies_by_sight_of p.a f.now.a f.now.b) points.now }
{
    for point in points {
        if !lies_by_sight(point.a, f.a, f.b) {
            return false;
        }
    }
    true
}

/// Whether a string is seen to be clear of all strings and points that were gathered, told from
/// each of them. Few strings need it.
#[inline(never)]
fn is_clear_compared(seen: &Seen, f: &Lying) -> bool
    ensures { result ≡ is_clear_string_of seen.now f.now }
{
    is_clear_of_all(seen.strings.as_slice(), f) && bears_by_sight(seen.points.as_slice(), f)
}

/// Whether a string ends at a position.
fn ends_at(f: &Lying, p: Pt) -> bool
    ensures { result ≡ ends_at_of f.now p }
{
    is_same(p, f.a) || is_same(p, f.b)
}

/// Whether one of these strings ends at a position.
fn is_at_an_end(strings: &[Lying], p: Pt) -> bool
    ensures { result ≡ list_any (λ s. ends_at_of s p) strings.now }
{
    for string in strings {
        if ends_at(string, p) {
            return true;
        }
    }
    false
}

/// Whether each point that was gathered lies where a string that was gathered ends.
fn are_ends(seen: &Seen) -> bool
    ensures { result ≡ are_at_ends seen.now }
{
    for point in seen.points.as_slice() {
        if !is_at_an_end(seen.strings.as_slice(), point.a) {
            return false;
        }
    }
    true
}

/// Whether of two strings one is the other where it lies, or they are seen to meet only at a shared
/// end. Then the ends of the first lie on the second only as its ends.
fn is_met_by_sight(f: &Lying, g: &Lying) -> bool
    ensures { result ≡ is_met_by_sight_of f.now g.now }
{
    is_itself(f, g) || meet_by_sight(f.a, f.b, g.a, g.b)
}

/// Whether a string is seen to meet each of these only at a shared end, or is it where it lies.
fn are_met_by_sight(strings: &[Lying], f: &Lying) -> bool
    ensures { result ≡ list_all (λ s. is_met_by_sight_of s f.now) strings.now }
{
    for string in strings {
        if !is_met_by_sight(string, f) {
            return false;
        }
    }
    true
}

/// Whether a string is seen to be clear of all strings and points that were gathered. If these
/// points are all ends of these strings, one that meets the strings only at ends bears no point.
/// Nor does one of these strings that lies where it was gathered.
fn is_clear_string(seen: &Seen, ends: bool, f: &Lying) -> bool
    requires { ends ≡ are_at_ends seen.now }
    ensures { result ≡ is_clear_string_of seen.now f.now }
{
    if ends && are_met_by_sight(seen.strings.as_slice(), f) {
        return true;
    }
    is_clear_compared(seen, f)
}

/// Whether a point is seen to lie on none of these strings but as its end.
fn is_clear_point(strings: &[Lying], f: &Lying) -> bool
    ensures { result ≡ list_all (λ s. lies_by_sight_of f.now.a s.a s.b) strings.now }
{
    for string in strings {
        if !lies_by_sight(f.a, string.a, string.b) {
            return false;
        }
    }
    true
}

/// Whether of two points one is the other, or they are seen to lie apart.
fn is_apart_from(f: &Lying, g: &Lying) -> bool
    ensures { result ≡ is_apart_from_of f.now g.now }
{
    f.number == g.number || !is_same(f.a, g.a)
}

/// Whether a point is seen to lie apart from all of these.
fn is_apart_point(points: &[Lying], f: &Lying) -> bool
    ensures { result ≡ list_all (λ p. is_apart_from_of p f.now) points.now }
{
    for point in points {
        if !is_apart_from(point, f) {
            return false;
        }
    }
    true
}

/// A held string, between the positions where it is held.
fn lying_held(held: &HeldString) -> Lying
    ensures { result ≡ held_string held.now }
{
    Lying {
        number: held.string.get(),
        a: held.from,
        b: held.to,
    }
}

/// A held point, where it is held.
fn lying_held_point(held: &HeldPoint) -> Lying
    ensures { result ≡ held_point held.now }
{
    Lying {
        number: held.point.get(),
        a: held.position,
        b: held.position,
    }
}

/// Whether the map doesn't have a string where it is held.
#[tactic(auto, using(crate::proofs::SightOfMap::rows_gone))]
fn is_stale<M: MapView>(map: &M, held: &HeldString) -> bool
    requires { HasSoundRows (M.map map.now) }
    ensures { IsTrue result ↔ (¬ HasStringThere (M.map map.now) held.now) }
{
    match map.string(held.string) {
        Some(row) => !lie_alike(&lying_string(map, row), &lying_held(held)),
        None => true,
    }
}

/// Whether the map doesn't have a point where it is held.
#[tactic(auto, using(crate::proofs::SightOfMap::rows_gone))]
fn is_stale_point<M: MapView>(map: &M, held: &HeldPoint) -> bool
    requires { HasSoundRows (M.map map.now) }
    ensures { IsTrue result ↔ (¬ HasPointThere (M.map map.now) held.now) }
{
    match map.point(held.point) {
        Some(row) => !lie_alike(&lying_point(row), &lying_held_point(held)),
        None => true,
    }
}

/// Whether a held string is seen to be clear, or isn't the map's.
fn passes<M: MapView>(map: &M, seen: &Seen, ends: bool, held: &HeldString) -> bool
    requires sound { HasSoundRows (M.map map.now) }
    requires ends { ends ≡ are_at_ends seen.now }
    ensures { IsTrue result
        ↔ OfHeldString (M.map map.now) (is_clear_string_of seen.now) held.now }
{
    is_clear_string(seen, ends, &lying_held(held)) || is_stale(map, held)
}

/// Whether a point is seen to be clear of all strings and points that were gathered.
fn is_lone_point(seen: &Seen, f: &Lying) -> bool
    ensures { result ≡ is_lone_point_of seen.now f.now }
{
    is_clear_point(seen.strings.as_slice(), f) && is_apart_point(seen.points.as_slice(), f)
}

/// Whether a held point is seen to be clear, or isn't the map's.
fn passes_point<M: MapView>(map: &M, seen: &Seen, held: &HeldPoint) -> bool
    requires { HasSoundRows (M.map map.now) }
    ensures { IsTrue result
        ↔ OfHeldPoint (M.map map.now) (is_lone_point_of seen.now) held.now }
{
    is_lone_point(seen, &lying_held_point(held)) || is_stale_point(map, held)
}

/// Whether all strings of the map near what was gathered are seen to be clear of it.
pub(crate) fn sees_strings_clear<M: MapView>(map: &M, grid: &CellGrid, seen: &Seen) -> bool
    requires sound { HasSoundRows (M.map map.now) }
    requires held { HoldsMap grid.now (M.map map.now) }
    ensures { IsTrue result
        ↔ SeesStrings (M.map map.now) seen.now (is_clear_string_of seen.now) }
{
    let ends = are_ends(seen);
    grid.candidates(seen.reach.low, seen.reach.high)
        .all(|held| passes(map, seen, ends, &held))
}

/// And whether all points are seen to be clear of it.
pub(crate) fn sees_points_clear<M: MapView>(map: &M, grid: &CellGrid, seen: &Seen) -> bool
    requires sound { HasSoundRows (M.map map.now) }
    requires held { HoldsMap grid.now (M.map map.now) }
    ensures { IsTrue result
        ↔ SeesPoints (M.map map.now) seen.now (is_lone_point_of seen.now) }
{
    grid.point_candidates(seen.reach.low, seen.reach.high)
        .all(|held| passes_point(map, seen, &held))
}
