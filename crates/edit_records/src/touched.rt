//! What an edit touches, listed on the map before it.
ghost use Rattle.std.specs.Prelude.{◌≡◌, ◌<◌, ◌∷◌, [], ℕ, length, IsTrue, IsSome, Some, None, IfOk, OnOk, IsPermutation};
ghost use Rattle.std.specs.List.{Contains};
ghost use Rattle.cad_rings.specs.Cycle.{Side, opposite, sides_of};
ghost use Rattle.cad_rows.specs.declared.names.Face.{Face as FaceOf};
ghost use Rattle.cad_rows.specs.declared.names.Face.TheVariants as face_of;
ghost use Rattle.cad_rows.specs.declared.rows.StringRow.{StringRow as StringOf};
ghost use Rattle.cad_map.specs.declared.boundary.Boundary.{Boundary as BoundaryOf};
ghost use Rattle.cad_map.specs.Effects.{after};
ghost use Rattle.cad_map.specs.Map.{far_end as far_end_of, position_of, rings_at, string_of, strings_at};
ghost use Rattle.cad_map.specs.Rings.{HasWholeRings, ring_at};
ghost use Rattle.cad_map.specs.Touched.{IsTouched, neighbours};
ghost use Rattle.cad_map.specs.Valid.{IsValid};
ghost use Rattle.cad_map.specs.Views.{HasSide};
ghost use Rattle.cad_laws.specs.Touching.{goes_along, joined_between, passes, touching};
ghost use Rattle.cad_laws.specs.Tried.{IsTried};
ghost use Rattle.cad_near.specs.Near.{touched_of};
ghost use Rattle.edit_records.specs.Told.{Tells};

use crate::point_strings::{span_at_place, string_at};
use cad_map::{MapView, Walk, far_end, far_with, is_face, position};
use cad_near::{Joined, Moved, Touched};
use cad_rows::{Edit, Face, Memory, ParcelNo, PointNo, StringNo};
use std::alloc::Global;

/// Adds the faces on both sides of a string: those of the rings that go along it.
pub(crate) fn add_faces<M: MapView>(
    faces: &mut Vec<Face>,
    map: &M,
    string: StringNo,
) -> Result<(), Memory>
    requires valid { IsValid (M.map map.now) }
    requires there { IsSome (string_of (M.map map.now) string) }
    ensures keeps { OnOk result
        ((f : FaceOf) → Contains faces.old.items f → Contains faces.new.items f) }
    ensures beside { OnOk result
        ((s : StringOf) (b : BoundaryOf) → string_of (M.map map.now) string ≡ Some s
        → Contains (M.map map.now).boundaries b → IsTrue (goes_along s b.ring)
        → Contains faces.new.items b.face) }
{
    let (left, right) = map.left_right(string).unwrap();
    faces.push(left)?;
    faces.push(right)?;
    Ok(())
}

/// The face of the ring that comes to a point along one of its strings, from that string's other end.
fn face_into<M: MapView>(map: &M, far: PointNo, point: PointNo) -> Face
    requires valid { IsValid (M.map map.now) }
    requires there { (s : StringOf) × Contains (strings_at (M.map map.now) point) s
        × (far_end_of s point ≡ far) }
    ensures { (b : BoundaryOf) → Contains (M.map map.now).boundaries b
        → Contains {X = Side} (sides_of b.ring) (far, point) → result ≡ b.face }
{
    map.face_of(far, point).unwrap()
}

/// These faces, each named once. It takes no memory.
fn each_once(faces: Vec<Face>) -> Vec<Face>
    ensures { (f : FaceOf) → Contains faces.items f → Contains result.items f }
{
    let mut once = faces;
    once.sort_unstable();
    once.dedup_by(|a, b| is_face(a, b));
    once
}

/// The faces of the rings that pass a point, each named once: each ring comes to it along one of its
/// strings, and a face may lie between many of these.
pub(crate) fn faces_at<M: MapView>(
    alloc: Global,
    map: &M,
    point: PointNo,
) -> Result<Vec<Face>, Memory>
    requires { IsValid (M.map map.now) }
    ensures { IfOk result (λ faces. (b : BoundaryOf) → Contains (M.map map.now).boundaries b
        → IsTrue (passes point b.ring) → Contains faces.items b.face) }
{
    let mut faces = Vec::new(alloc);
    for place in 0..map.degree(point) {
        let far = far_with(map, point, place).unwrap();
        faces.push(face_into(map, far, point))?;
    }
    Ok(each_once(faces))
}

/// The numbers of the strings at a point.
pub(crate) fn strings_of<M: MapView>(
    alloc: Global,
    map: &M,
    point: PointNo,
) -> Result<Vec<StringNo>, Memory>
    ensures { IfOk result (λ strings. (s : StringOf) → Contains (strings_at (M.map map.now) point) s
        → Contains strings.items s.number) }
{
    let mut strings = Vec::new(alloc);
    for place in 0..map.degree(point) {
        let span = span_at_place(map, point, place);
        strings.push(span.string)?;
    }
    Ok(strings)
}

// Nothing.
fn nothing(alloc: Global) -> Touched
    ensures { touched_of result ≡ touching [] [] [] }
{
    Touched {
        points: Vec::new(alloc),
        strings: Vec::new(alloc),
        faces: Vec::new(alloc),
        moved: None,
        joined: None,
    }
}

// A point that is on no string.
fn lone(alloc: Global, point: PointNo) -> Result<Touched, Memory>
    ensures point { IfOk result (λ t. Contains t.points.items point) }
    ensures told { IfOk result (λ t. Tells (touched_of t) None None) }
{
    let mut touched = nothing(alloc);
    touched.points.push(point)?;
    Ok(touched)
}

// A point that is moved, its strings, the faces round it, and where it lay.
fn around<M: MapView>(alloc: Global, map: &M, point: PointNo) -> Result<Touched, Memory>
    requires { IsValid (M.map map.now) }
    ensures point { IfOk result (λ t. Contains t.points.items point) }
    ensures strings { IfOk result
        (λ t. (s : StringOf) → Contains (strings_at (M.map map.now) point) s
        → Contains t.strings.items s.number) }
    ensures faces { IfOk result (λ t. (b : BoundaryOf) → Contains (M.map map.now).boundaries b
        → IsTrue (passes point b.ring) → Contains t.faces.items b.face) }
    ensures told { IfOk result (λ t. Tells (touched_of t)
        (Some (record { point = point; from = position_of (M.map map.now) point })) None) }
{
    let mut points = Vec::new(alloc);
    points.push(point)?;
    let strings = strings_of(alloc, map, point)?;
    let faces = faces_at(alloc, map, point)?;
    let from = position(map, point);
    Ok(Touched {
        points,
        strings,
        faces,
        moved: Some(Moved { point, from }),
        joined: None,
    })
}

// A string that is split: the point and the string's ends, its halves, the faces on both sides, and
// where the point comes from.
fn beside<M: MapView>(
    alloc: Global,
    map: &M,
    string: StringNo,
    point: PointNo,
    first: StringNo,
    second: StringNo,
) -> Result<Touched, Memory>
    requires valid { IsValid (M.map map.now) }
    requires there { IsSome (string_of (M.map map.now) string) }
    ensures points { IfOk result (λ t. (s : StringOf) → string_of (M.map map.now) string ≡ Some s
        → t.points.items ≡ point ∷ s.from ∷ s.to ∷ []) }
    ensures strings { IfOk result (λ t. t.strings.items ≡ first ∷ second ∷ []) }
    ensures faces { IfOk result (λ t. (s : StringOf) (b : BoundaryOf)
        → string_of (M.map map.now) string ≡ Some s → Contains (M.map map.now).boundaries b
        → IsTrue (goes_along s b.ring) → Contains t.faces.items b.face) }
    ensures told { IfOk result (λ t. (s : StringOf) → string_of (M.map map.now) string ≡ Some s
        → Tells (touched_of t)
        (Some (record { point = point; from = position_of (M.map map.now) s.from })) None) }
{
    let row = map.string(string).unwrap();
    let mut points = Vec::new(alloc);
    points.push(point)?;
    points.push(row.from)?;
    points.push(row.to)?;
    let mut strings = Vec::new(alloc);
    strings.push(first)?;
    strings.push(second)?;
    let mut faces = Vec::new(alloc);
    add_faces(&mut faces, map, string)?;
    let from = position(map, row.from);
    Ok(Touched {
        points,
        strings,
        faces,
        moved: Some(Moved { point, from }),
        joined: None,
    })
}

// The points at the other ends of a point's strings.
fn far_ends<M: MapView>(alloc: Global, map: &M, point: PointNo) -> Result<Vec<PointNo>, Memory>
    ensures { IfOk result
        (λ points. IsPermutation (neighbours (M.map map.now) point) points.items) }
{
    let mut points = Vec::new(alloc);
    for place in 0..map.degree(point) {
        let row = string_at(map, point, place);
        points.push(far_end(row, point))?;
    }
    Ok(points)
}

// The point, and where it lies, between two others, if there are two.
fn joined_at<M: MapView>(map: &M, point: PointNo, ends: &[PointNo]) -> Option<Joined>
    ensures { result ≡ joined_between (M.map map.now) point ends.now }
{
    if ends.len() != 2 {
        return None;
    }
    Some(Joined {
        point,
        position: position(map, point),
        first: ends[0],
        second: ends[1],
    })
}

// Two strings that are joined at a point: their far ends, the new string, the faces round the point,
// and the point between the two.
fn across<M: MapView>(
    alloc: Global,
    map: &M,
    point: PointNo,
    string: StringNo,
) -> Result<Touched, Memory>
    requires { IsValid (M.map map.now) }
    ensures points { IfOk result
        (λ t. IsPermutation (neighbours (M.map map.now) point) t.points.items) }
    ensures strings { IfOk result (λ t. t.strings.items ≡ string ∷ []) }
    ensures faces { IfOk result (λ t. (b : BoundaryOf) → Contains (M.map map.now).boundaries b
        → IsTrue (passes point b.ring) → Contains t.faces.items b.face) }
    ensures told { IfOk result (λ t. Tells (touched_of t) None
        (joined_between (M.map map.now) point t.points.items)) }
{
    let points = far_ends(alloc, map, point)?;
    let mut strings = Vec::new(alloc);
    strings.push(string)?;
    let faces = faces_at(alloc, map, point)?;
    let joined = joined_at(map, point, points.as_slice());
    Ok(Touched {
        points,
        strings,
        faces,
        moved: None,
        joined,
    })
}

// Strings along points, between two faces.
fn along(
    alloc: Global,
    points: &[PointNo],
    strings: &[StringNo],
    face: Face,
    parcel: ParcelNo,
) -> Result<Touched, Memory>
    ensures { IfOk result (λ t. touched_of t
        ≡ touching points.now strings.now (face ∷ face_of.Parcel parcel ∷ [])) }
{
    let mut faces = Vec::new(alloc);
    faces.push(face)?;
    faces.push(Face::Parcel(parcel))?;
    Ok(Touched {
        points: Vec::from_slice(alloc, points)?,
        strings: Vec::from_slice(alloc, strings)?,
        faces,
        moved: None,
        joined: None,
    })
}

/// Whether a face has the opposite of a side.
pub(crate) fn is_behind<M: MapView>(map: &M, face: &Face, from: PointNo, to: PointNo) -> bool
    requires { HasWholeRings (M.map map.now) }
    ensures some { HasSide (M.map map.now) face.now (opposite (from, to)) → IsTrue result }
    ensures only { IsTrue result → HasSide (M.map map.now) face.now (opposite (from, to)) }
{
    match map.face_of(to, from) {
        Some(other) => is_face(face, &other),
        None => false,
    }
}

// Adds the ends of a side, where it is wanted.
fn add_both_if(
    points: &mut Vec<PointNo>,
    from: PointNo,
    to: PointNo,
    is_wanted: bool,
) -> Result<(), Memory>
    ensures keeps { OnOk result
        ((p : ℕ) → Contains points.old.items p → Contains points.new.items p) }
    ensures both { OnOk result (IsTrue is_wanted
        → Contains points.new.items from × Contains points.new.items to) }
{
    if is_wanted {
        points.push(from)?;
        points.push(to)?;
    }
    Ok(())
}

// Adds the ends of those sides of one of a face's rings that another face has on their other side.
fn add_ends<M: MapView>(
    points: &mut Vec<PointNo>,
    map: &M,
    face: &Face,
    place: usize,
    other: &Face,
) -> Result<(), Memory>
    requires whole { HasWholeRings (M.map map.now) }
    requires there { place < length (rings_at face.now (M.rings map.now)) }
    ensures keeps { OnOk result
        ((p : ℕ) → Contains points.old.items p → Contains points.new.items p) }
    ensures ends { OnOk result ((s : Side)
        → Contains (sides_of (ring_at (M.rings map.now) face.now place)) s
        → HasSide (M.map map.now) other.now (opposite s)
        → Contains points.new.items s.0 × Contains points.new.items s.1) }
{
    for (from, to) in Walk::of_ring(map, face, place) {
        let is_shared = is_behind(map, other, from, to);
        add_both_if(points, from, to, is_shared)?;
    }
    Ok(())
}

// The ends of the sides that one face has with another on their other side.
fn shared_ends<M: MapView>(
    alloc: Global,
    map: &M,
    face: &Face,
    other: &Face,
) -> Result<Vec<PointNo>, Memory>
    requires { HasWholeRings (M.map map.now) }
    ensures { IfOk result (λ points. (s : Side) → HasSide (M.map map.now) face.now s
        → HasSide (M.map map.now) other.now (opposite s)
        → Contains points.items s.0 × Contains points.items s.1) }
{
    let mut points = Vec::new(alloc);
    for place in 0..map.ring_count(*face) {
        add_ends(&mut points, map, face, place, other)?;
    }
    Ok(points)
}

// Two faces that are merged: the points of what they share, and the face that is kept.
fn between<M: MapView>(alloc: Global, map: &M, kept: &Face, ended: &Face) -> Result<Touched, Memory>
    requires { HasWholeRings (M.map map.now) }
    ensures points { IfOk result (λ t. (s : Side) → HasSide (M.map map.now) ended.now s
        → HasSide (M.map map.now) kept.now (opposite s)
        → Contains t.points.items s.0 × Contains t.points.items s.1) }
    ensures face { IfOk result (λ t. Contains t.faces.items kept.now) }
    ensures told { IfOk result (λ t. Tells (touched_of t) None None) }
{
    let points = shared_ends(alloc, map, ended, kept)?;
    let mut faces = Vec::new(alloc);
    faces.push(*kept)?;
    Ok(Touched {
        points,
        strings: Vec::new(alloc),
        faces,
        moved: None,
        joined: None,
    })
}

/// What an edit touches: the points, strings and faces of which it has to be looked after it
/// whether they keep the rules. It takes time by the strings at the edit's points, and for a merger
/// by the sides of the parcel that ends.
///
/// Condition: the map is valid, and nothing speaks against the edit at once.
pub fn touched_by<M: MapView>(alloc: Global, map: &M, edit: &Edit) -> Result<Touched, Memory>
    requires { IsTried (M.map map.now) edit.now }
    ensures { IfOk result
        (λ t. IsTouched (M.map map.now) (after (M.map map.now) edit.now) (touched_of t)) }
{
    match edit {
        Edit::AddPoint { point, .. } => lone(alloc, *point),
        Edit::Split {
            string,
            point,
            first,
            second,
            ..
        } => beside(alloc, map, *string, *point, *first, *second),
        Edit::Join { point, string } => across(alloc, map, *point, *string),
        Edit::Divide {
            face,
            chain,
            strings,
            parcel,
            ..
        } => along(alloc, chain.as_slice(), strings.as_slice(), *face, *parcel),
        Edit::Merge { kept, ended } => between(alloc, map, kept, ended),
        Edit::Move { point, .. } => around(alloc, map, *point),
        Edit::Enclose {
            face,
            points,
            strings,
            parcel,
            ..
        } => along(alloc, points.as_slice(), strings.as_slice(), *face, *parcel),
        Edit::AddSource { .. }
        | Edit::DropPoint { .. }
        | Edit::Attach { .. }
        | Edit::Detach { .. }
        | Edit::Rename { .. } => Ok(nothing(alloc)),
    }
}
