//! Whether the corners at touched points, and at the ends of touched strings, are empty.
ghost use Rattle.std.specs.Prelude.{◌≡◌, ◌↔◌, ℕ, IsTrue, IfSome, Some, drop, take, slice_get, option_map};
ghost use Rattle.std.specs.List.{AllByRecursion};
ghost use Rattle.cad_map.specs.Map.{far_end as far_end_of};
ghost use Rattle.cad_map.specs.Rings.{HasWholeRings};
ghost use Rattle.cad_near.specs.Near.{OfString, HasEmptyCornersAt, HasEmptyEnds};
ghost use Rattle.cad_near.specs.Near.{HasEmptyCornersRound, IsSeenBetween};

use crate::rays::{MOST_RAYS, are_empty_between, rays_at};
use crate::turns::empty_by_turn;
use cad_map::{MapView, far_end, far_with, is_end, position};
use cad_rows::{PointNo, StringNo, StringRow};
use cad_valid::is_empty_after;
use geo_exact::in_sector;
use std::alloc::Global;

/// Whether the corners at each of these points are empty.
pub(crate) fn are_empty_at<M: MapView>(alloc: Global, map: &M, points: &[PointNo]) -> bool
    requires { HasWholeRings (M.map map.now) }
    ensures { IsTrue result ↔ AllByRecursion (HasEmptyCornersAt (M.map map.now)) points.now }
{
    points
        .iter()
        .all(|point| has_empty_corners(alloc, map, *point))
}

/// Whether the corners at both ends of each of these strings are empty, where those at these points
/// are. Strings that an edit touched often come in the order of these points, or share an end: one
/// that stands at a string's place or the next, or that the string before has, isn't looked at again.
pub(crate) fn are_empty_at_ends<M: MapView>(
    alloc: Global,
    map: &M,
    strings: &[StringNo],
    points: &[PointNo],
) -> bool
    requires whole { HasWholeRings (M.map map.now) }
    requires points { AllByRecursion (HasEmptyCornersAt (M.map map.now)) points.now }
    ensures { IsTrue result
        ↔ AllByRecursion (OfString (M.map map.now) (HasEmptyEnds (M.map map.now))) strings.now }
{
    let mut before: Option<&StringRow> = None;
    for place in 0..strings.len() {
        if let Some(string) = map.string(strings[place]) {
            if !has_empty_ends(alloc, map, string, before, two_from(points, place)) {
                return false;
            }
            before = Some(string);
        }
    }
    true
}

/// The point at a place and the next, so far as there are any.
fn two_from(points: &[PointNo], place: usize) -> &[PointNo]
    ensures { result.now ≡ take 2 (drop place points.now) }
{
    let rest = &points[place.min(points.len())..];
    &rest[..rest.len().min(2)]
}

/// Whether the corners at both ends of a string are empty, where those at the ends of the string
/// before and at these points are.
fn has_empty_ends<M: MapView>(
    alloc: Global,
    map: &M,
    string: &StringRow,
    before: Option<&StringRow>,
    points: &[PointNo],
) -> bool
    requires whole { HasWholeRings (M.map map.now) }
    requires before { IfSome before (λ s. HasEmptyEnds (M.map map.now) s.now) }
    requires points { AllByRecursion (HasEmptyCornersAt (M.map map.now)) points.now }
    ensures { IsTrue result ↔ HasEmptyEnds (M.map map.now) string.now }
{
    is_empty_end(alloc, map, string.from, before, points)
        && is_empty_end(alloc, map, string.to, before, points)
}

/// Whether the corners at a point are empty, where those at the ends of the string before and at
/// these points are.
fn is_empty_end<M: MapView>(
    alloc: Global,
    map: &M,
    end: PointNo,
    before: Option<&StringRow>,
    points: &[PointNo],
) -> bool
    requires whole { HasWholeRings (M.map map.now) }
    requires before { IfSome before (λ s. HasEmptyEnds (M.map map.now) s.now) }
    requires points { AllByRecursion (HasEmptyCornersAt (M.map map.now)) points.now }
    ensures { IsTrue result ↔ HasEmptyCornersAt (M.map map.now) end }
{
    if let Some(string) = before {
        if is_end(string, end) {
            return true;
        }
    }
    points.contains(&end) || has_empty_corners(alloc, map, end)
}

/// Whether the far end of a point's string at a place sees the point between the two strings of its own
/// that are next to that one.
fn is_seen_between<M: MapView>(map: &M, point: PointNo, place: usize, far: PointNo) -> bool
    requires whole { HasWholeRings (M.map map.now) }
    requires far { option_map (λ s. far_end_of s point)
        (slice_get (M.view_strings map.now point) place) ≡ Some far }
    ensures { IsTrue result ↔ IsSeenBetween (M.map map.now) point far }
{
    match map.beyond(point, place) {
        Some((before, after)) => in_sector(
            position(map, far),
            position(map, after),
            position(map, before),
            position(map, point),
        ),
        None => false,
    }
}

/// Whether the corners at the far end of a moved point's string at a place are empty, where they are at
/// each end that sees the point between the two strings next to its own.
fn is_empty_far<M: MapView>(
    alloc: Global,
    map: &M,
    point: PointNo,
    place: usize,
    far: PointNo,
) -> bool
    requires whole { HasWholeRings (M.map map.now) }
    requires seen { (q : ℕ) → IsSeenBetween (M.map map.now) point q
        → HasEmptyCornersAt (M.map map.now) q }
    requires far { option_map (λ s. far_end_of s point)
        (slice_get (M.view_strings map.now point) place) ≡ Some far }
    ensures { IsTrue result ↔ HasEmptyCornersAt (M.map map.now) far }
{
    is_seen_between(map, point, place, far) || has_empty_corners(alloc, map, far)
}

/// Whether the corners at the far ends of a moved point's strings are empty, where they are at each end
/// that sees it between the two strings next to its own. Mostly all do, and then no other strings of
/// theirs are looked at.
pub(crate) fn are_empty_round<M: MapView>(alloc: Global, map: &M, point: PointNo) -> bool
    requires whole { HasWholeRings (M.map map.now) }
    requires seen { (q : ℕ) → IsSeenBetween (M.map map.now) point q
        → HasEmptyCornersAt (M.map map.now) q }
    ensures { IsTrue result ↔ HasEmptyCornersRound (M.map map.now) point }
{
    for place in 0..map.degree(point) {
        let far = far_with(map, point, place).unwrap();
        if !is_empty_far(alloc, map, point, place, far) {
            return false;
        }
    }
    true
}

/// Whether the corners at a point are empty.
fn has_empty_corners<M: MapView>(alloc: Global, map: &M, point: PointNo) -> bool
    requires { HasWholeRings (M.map map.now) }
    ensures { IsTrue result ↔ HasEmptyCornersAt (M.map map.now) point }
{
    if map.degree(point) > MOST_RAYS {
        return has_empty_corners_of_many(alloc, map, point);
    }
    let rays = rays_at(map, point);
    are_empty_between(map, point, rays.as_slice())
}

/// Whether the corners at a point of many strings are empty.
fn has_empty_corners_of_many<M: MapView>(alloc: Global, map: &M, point: PointNo) -> bool
    requires { HasWholeRings (M.map map.now) }
    ensures { IsTrue result ↔ HasEmptyCornersAt (M.map map.now) point }
{
    match empty_by_turn(alloc, map, point) {
        Some(empty) => empty,
        None => has_empty_corners_one_by_one(map, point),
    }
}

/// The same without memory. Each corner is met by the side before it, which is a side of one of the
/// point's strings.
#[tactic(auto, using(cad_valid::proofs::CallerLemmas::star_begun))]
fn has_empty_corners_one_by_one<M: MapView>(map: &M, point: PointNo) -> bool
    requires { HasWholeRings (M.map map.now) }
    ensures { IsTrue result ↔ HasEmptyCornersAt (M.map map.now) point }
{
    for place in 0..map.degree(point) {
        let from = far_end(map.string_with(point, place).unwrap(), point);
        if !is_empty_after(map, from, point) {
            return false;
        }
    }
    true
}
