//! Looking through rows and rings, one after another.
ghost use Rattle.std.specs.Prelude.{◌≡◌, ◌≤◌, ◌*◌, option_map, find, length, map, filter, IfSome, IfNone, IsFalse};
ghost use Rattle.std.specs.Prelude.{slice_get, slice_range, if◌then◌else◌};
ghost use Rattle.std.specs.Bool.{OnTrue};
ghost use Rattle.std.specs.List.{Contains};
ghost use Rattle.std.specs.Option.{option_copied};
ghost use Rattle.geo_exact.specs.Measure.{doubled_area};
ghost use Rattle.cad_rows.specs.Limits.{string_limit};
ghost use Rattle.cad_rings.specs.Cycle.{has_side as has_side_of, sides_of, corners_of};
ghost use Rattle.cad_rings.specs.Surgery.{corner};
ghost use Rattle.numbered_rows.specs.Rows.{rows_in};
ghost use Rattle.cad_map.specs.Boundaries.{is_face as is_face_of, canonical_order, sides_in, corners_in, EndsBelow, BeginsFrom, IsFirstFrom};
ghost use Rattle.cad_map.specs.Map.{is_end as is_end_of, far_end as far_end_of, point_after as point_after_in, rings_at, empty_map, position_of, sum_of_ring};

use crate::boundary::Boundary;
use crate::canonical::face_place;
use cad_rings::Ring;
use cad_rows::{Face, PointNo, PointRow, StringRow};
use geo_exact::{DoubledArea, Pt, SideMeasure};
use numbered_rows::Rows;

/// Whether a string leads from a point or to it.
pub fn is_end(string: &StringRow, point: PointNo) -> bool
    ensures { result ≡ is_end_of string.now point }
{
    string.from == point || string.to == point
}

/// The other end of a string that ends at a point: where it leads to, if it leads from there, and otherwise where it
/// leads from.
pub fn far_end(string: &StringRow, point: PointNo) -> PointNo
    ensures { result ≡ far_end_of string.now point }
{
    if string.from == point {
        string.to
    } else {
        string.from
    }
}

/// One where a test passes, and otherwise zero.
pub(crate) fn one_if(test: bool) -> usize
    ensures { result ≡ (if test then 1 else 0) }
{
    if test { 1 } else { 0 }
}

/// How many of these strings have the point.
pub(crate) fn strings_with(strings: &Rows<StringRow>, point: PointNo) -> usize
    ensures { result ≡ length (filter (λ s. is_end_of s point) (rows_in strings.now)) }
{
    let mut count = 0;
    for place in 0..strings.len() {
        let row = strings.at(place).unwrap();
        count += one_if(is_end(row, point));
    }
    count
}

/// The string at a place among those of these that have the point, and `None` past the last.
pub(crate) fn string_with(
    strings: &Rows<StringRow>,
    point: PointNo,
    place: usize,
) -> Option<&StringRow>
    ensures { option_copied result
        ≡ slice_get (filter (λ s. is_end_of s point) (rows_in strings.now)) place }
{
    let mut left = place;
    for at in 0..strings.len() {
        let row = strings.at(at).unwrap();
        if is_end(row, point) {
            if left == 0 {
                return Some(row);
            }
            left -= 1;
        }
    }
    None
}

/// The face of the first of these rings that has the side from one point to another.
pub(crate) fn face_with(boundaries: &[Boundary], from: PointNo, to: PointNo) -> Option<Face>
    ensures { result ≡ option_map (λ b. b.face)
        (find (λ b. has_side_of (from, to) (sides_of b.ring)) boundaries.now) }
{
    for boundary in boundaries {
        if boundary.ring.has_side(from, to) {
            return Some(boundary.face);
        }
    }
    None
}

/// The point that comes after the side from one point to another in the first of these rings that has it.
pub(crate) fn point_after(boundaries: &[Boundary], from: PointNo, to: PointNo) -> Option<PointNo>
    ensures { result ≡ point_after_in (from, to) boundaries.now }
{
    for boundary in boundaries {
        if let Some(after) = boundary.ring.after(from, to) {
            return Some(after);
        }
    }
    None
}

/// The point that comes before a side in a ring, and `None` where the ring doesn't have that side.
fn before_in(ring: &Ring, from: PointNo, to: PointNo) -> Option<PointNo>
    ensures some { IfSome result (λ u. Contains (corners_of ring.now) (corner u from to)) }
    ensures none { IfNone result (IsFalse (has_side_of (from, to) (sides_of ring.now))) }
{
    let place = ring.place_of(from, to)?;
    Some(ring.turned_at(place, ring.len() - 1))
}

/// The point that comes before the side from one point to another in the first of these rings that has it.
pub(crate) fn point_before(boundaries: &[Boundary], from: PointNo, to: PointNo) -> Option<PointNo>
    ensures some { IfSome result (λ u. Contains (corners_in boundaries.now) (corner u from to)) }
    ensures none { IfNone result (IsFalse (has_side_of (from, to) (sides_in boundaries.now))) }
{
    for boundary in boundaries {
        if let Some(before) = before_in(&boundary.ring, from, to) {
            return Some(before);
        }
    }
    None
}

/// Whether two faces are one.
pub fn is_face(a: &Face, b: &Face) -> bool
    ensures { result ≡ is_face_of a.now b.now }
{
    face_place(*a) == face_place(*b)
}

/// The boundaries of a face, among boundaries in canonical order: they stand
/// together there.
pub(crate) fn run_of<'a>(boundaries: &'a [Boundary], face: &Face) -> &'a [Boundary]
    requires { canonical_order boundaries.now ≡ boundaries.now }
    ensures { map (λ b. b.ring) result.now ≡ rings_at face.now boundaries.now }
{
    let (first, end) = places_of(boundaries, face);
    &boundaries[first..end]
}

/// The ring at a place among those that have the face to their left.
pub(crate) fn ring_at(boundaries: &[Boundary], face: Face, place: usize) -> Option<&Ring>
    requires { canonical_order boundaries.now ≡ boundaries.now }
    ensures { option_copied result ≡ slice_get (rings_at face boundaries.now) place }
{
    let boundary = run_of(boundaries, &face).get(place)?;
    Some(&boundary.ring)
}

/// How many rings have the face to their left.
pub(crate) fn rings_with(boundaries: &[Boundary], face: &Face) -> usize
    requires { canonical_order boundaries.now ≡ boundaries.now }
    ensures { result ≡ length (rings_at face.now boundaries.now) }
{
    run_of(boundaries, face).len()
}

/// The position of a point by these rows, and of one that isn't there the origin. Takes no memory.
pub fn position_in(points: &Rows<PointRow>, no: PointNo) -> Pt
    ensures { result ≡ position_of (record empty_map { points = rows_in points.now }) no }
{
    match points.get(no.get()) {
        Some(row) => row.position,
        None => Pt { x: 0, y: 0 },
    }
}

/// The doubled area of a ring, its points being where these rows have them. Takes no memory.
pub(crate) fn area_of(points: &Rows<PointRow>, ring: &Ring) -> i128
    requires { length ring.now ≤ 2 * string_limit }
    ensures { result
        ≡ sum_of_ring doubled_area (record empty_map { points = rows_in points.now }) ring.now }
{
    let mut area = 0;
    for (from, to) in ring.sides() {
        area += DoubledArea.of(position_in(points, from), position_in(points, to));
    }
    area
}

/// Whether the boundary before a place, if there is one, is of a face below a bound.
fn ends_below(boundaries: &[Boundary], at: usize, bound: u64) -> bool
    requires { at ≤ length boundaries.now }
    ensures { OnTrue result (EndsBelow boundaries.now bound at) }
{
    if at == 0 {
        return true;
    }
    face_place(boundaries[at - 1].face) < bound
}

/// Whether the boundary at a place, if there is one, is of a face from a bound on.
fn begins_from(boundaries: &[Boundary], at: usize, bound: u64) -> bool
    requires { at ≤ length boundaries.now }
    ensures { OnTrue result (BeginsFrom boundaries.now bound at) }
{
    if at == boundaries.len() {
        return true;
    }
    bound <= face_place(boundaries[at].face)
}

/// Where the boundaries of faces from a bound on begin. It is looked for first at a place where it
/// mostly is, and else by halving.
fn first_from(boundaries: &[Boundary], bound: u64, guessed: usize) -> usize
    requires { canonical_order boundaries.now ≡ boundaries.now }
    ensures within { result ≤ length boundaries.now }
    ensures first { IsFirstFrom boundaries.now bound result }
{
    if guessed <= boundaries.len()
        && ends_below(boundaries, guessed, bound)
        && begins_from(boundaries, guessed, bound)
    {
        return guessed;
    }
    boundaries.partition_point(|b| face_place(b.face) < bound)
}

/// Where the boundaries of a face begin if each face from the second boundary's on has one, and the
/// numbers of parcels follow one another.
fn guessed_place(boundaries: &[Boundary], place: u64) -> usize {
    match boundaries.get(1) {
        Some(second) => place.wrapping_sub(face_place(second.face)).wrapping_add(1) as usize,
        None => 0,
    }
}

/// Where the boundaries of a face begin and where they end.
fn places_of(boundaries: &[Boundary], face: &Face) -> (usize, usize)
    requires { canonical_order boundaries.now ≡ boundaries.now }
    ensures rise { result.0 ≤ result.1 }
    ensures within { result.1 ≤ length boundaries.now }
    ensures rings { map (λ b. b.ring) (slice_range boundaries.now result.0 result.1)
        ≡ rings_at face.now boundaries.now }
{
    let place = face_place(*face);
    let first = first_from(boundaries, place, guessed_place(boundaries, place));
    let end = first_from(boundaries, place + 1, first.saturating_add(1));
    (first, end)
}
