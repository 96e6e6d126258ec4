//! Areas that are kept of faces, brought up to date with an edit, and with its record back and
//! forward.
ghost use Rattle.std.specs.Prelude.{◌≡◌, ◌<◌, ◌≤◌, ℕ, ℤ, ◌-ℤ◌, Some, None, IfSome, IsPermutation, slice_get, unsigned_abs};
ghost use Rattle.std.specs.List.{AllByRecursion};
ghost use Rattle.cad_rows.specs.declared.names.Face.{Face as FaceOf};
ghost use Rattle.cad_rows.specs.declared.rows.StringRow.{StringRow as StringOf};
ghost use Rattle.cad_map.specs.Asked.{GivesInRange};
ghost use Rattle.cad_map.specs.Effects.{after};
ghost use Rattle.cad_map.specs.Map.{Map, degree, far_end as far_end_of, position_of, strings_at};
ghost use Rattle.cad_map.specs.Rings.{HasWholeRings};
ghost use Rattle.cad_map.specs.Touched.{GoesStraight, IsTouched};
ghost use Rattle.cad_laws.specs.Areas.{HasPointAt, ended_by, if_beside, swept, swept_beside};
ghost use Rattle.cad_laws.specs.Joining.{AreNotJoined};
ghost use Rattle.cad_laws.specs.Tried.{IsTried};
ghost use Rattle.cad_near.specs.KeptAreas.{Gains, HoldsAreas, area_at};
ghost use Rattle.cad_near.specs.Near.{touched_of};
ghost use Rattle.edit_records.specs.Record.{Belongs, edit_of};
ghost use Rattle.edit_records.specs.Recut.{recut};

use crate::grid_edits::at;
use crate::record::SmallRecord;
use cad_map::{MapView, far_end, far_with, position};
use cad_near::{FaceAreas, Touched, area_of_bend};
use cad_rows::{Edit, Face, PointNo, StringRow};
use geo_exact::{DoubledArea, Pt, SideMeasure};

// Adds to the area of the face that has a side, if a face has it.
fn add_at_side<M: MapView>(areas: &mut FaceAreas, map: &M, from: PointNo, to: PointNo, by: i128)
    requires whole { HasWholeRings (M.map map.now) }
    requires small { unsigned_abs by ≤ 1000000000000000000000 }
    ensures { (f : FaceOf)
        → Gains areas.old areas.new f (if_beside (M.map map.now) f (from, to) by) }
{
    if let Some(face) = map.face_of(from, to) {
        areas.add(&face, by);
    }
}

// Adds to the area of the face that has a side, and takes as much from that of the face on its
// other hand.
fn add_beside<M: MapView>(areas: &mut FaceAreas, map: &M, from: PointNo, to: PointNo, by: i128)
    requires whole { HasWholeRings (M.map map.now) }
    requires small { unsigned_abs by ≤ 1000000000000000000000 }
    ensures { (f : FaceOf) → Gains areas.old areas.new f
        (if_beside (M.map map.now) f (from, to) by -ℤ if_beside (M.map map.now) f (to, from) by) }
{
    add_at_side(areas, map, from, to, by);
    add_at_side(areas, map, to, from, -by);
}

// What the side from a point to another has more in twice an area where the point goes.
fn swept_by(from: Pt, to: Pt, far: Pt) -> i128
    ensures value { result ≡ swept from to far }
    ensures small { unsigned_abs result ≤ 1000000000000000000000 }
{
    DoubledArea.of(to, far) - DoubledArea.of(from, far)
}

// Brings the areas beside one string of a point up to date where the point goes.
fn sweep_beside<M: MapView>(
    areas: &mut FaceAreas,
    map: &M,
    point: PointNo,
    place: usize,
    from: Pt,
    to: Pt,
)
    requires whole { HasWholeRings (M.map map.now) }
    requires there { place < degree (M.map map.now) point }
    ensures gains { (f : FaceOf) (s : StringOf)
        → slice_get (M.view_strings map.now point) place ≡ Some s
        → Gains areas.old areas.new f (swept_beside (M.map map.now) f point from to s) }
    ensures each { IsPermutation (strings_at (M.map map.now) point)
        (M.view_strings map.now point) }
{
    let far = far_with(map, point, place).unwrap();
    let gain = swept_by(from, to, position(map, far));
    add_beside(areas, map, point, far, gain);
}

// Brings areas up to date where a point goes from one position to another. The map tells all else:
// it may have the point at either.
fn sweep<M: MapView>(areas: &mut FaceAreas, map: &M, point: PointNo, from: Pt, to: Pt)
    requires { HasWholeRings (M.map map.now) }
    ensures { (x y : Map) → HasPointAt (M.map map.now) x point from
        → HasPointAt (M.map map.now) y point to → HoldsAreas areas.old x → HoldsAreas areas.new y }
{
    for place in 0..map.degree(point) {
        sweep_beside(areas, map, point, place, from, to);
    }
}

// Brings areas of a map up to date where a point comes between the ends of a side.
fn bend<M: MapView>(areas: &mut FaceAreas, map: &M, a: PointNo, p: Pt, b: PointNo)
    requires { HasWholeRings (M.map map.now) }
    ensures { (bent : Map) (n : ℕ) → HasWholeRings bent → GoesStraight bent (M.map map.now) n a b
        → AreNotJoined bent a b → position_of bent n ≡ p
        → HoldsAreas areas.old (M.map map.now) → HoldsAreas areas.new bent }
{
    let by = area_of_bend(position(map, a), p, position(map, b));
    add_beside(areas, map, a, b, by);
}

// Brings areas of a map up to date where a point goes from between two others.
fn straighten<M: MapView>(areas: &mut FaceAreas, map: &M, a: PointNo, p: PointNo, b: PointNo)
    requires { HasWholeRings (M.map map.now) }
    ensures { (straight : Map) → GoesStraight (M.map map.now) straight p a b
        → HoldsAreas areas.old (M.map map.now) → HoldsAreas areas.new straight }
{
    let by = area_of_bend(position(map, a), position(map, p), position(map, b));
    add_beside(areas, map, a, p, -by);
}

// Keeps no area of these faces.
fn forget_all(areas: &mut FaceAreas, faces: &[Face])
    ensures gone { AllByRecursion (λ f. area_at areas.new f ≡ None) faces.now }
    ensures others { (f : FaceOf)
        → IfSome (area_at areas.new f) (λ area. area_at areas.old f ≡ Some area) }
{
    for face in faces {
        areas.forget(face);
    }
}

// Keeps no area of the face that an edit ends.
fn forget_ended(areas: &mut FaceAreas, edit: &Edit)
    ensures gone { AllByRecursion (λ f. area_at areas.new f ≡ None) (ended_by edit.now) }
    ensures others { (f : FaceOf)
        → IfSome (area_at areas.new f) (λ area. area_at areas.old f ≡ Some area) }
{
    if let Edit::Merge { ended, .. } = edit {
        areas.forget(ended);
    }
}

// The far ends of the two strings of a point.
fn far_ends_of(first: &StringRow, second: &StringRow, point: PointNo) -> (PointNo, PointNo)
    ensures { result ≡ (far_end_of first.now point, far_end_of second.now point) }
{
    (far_end(first, point), far_end(second, point))
}

/// Brings the areas that are kept of a map up to date with an edit that is tried: they are those of
/// the map after it. Of faces that the edit cuts, or makes one, none is kept then. It takes time by
/// the strings at a point that is moved, and none of a face's sides is walked.
pub fn turn_areas<M: MapView>(areas: &mut FaceAreas, map: &M, edit: &Edit, touched: &Touched)
    requires tried { IsTried (M.map map.now) edit.now }
    requires touched { IsTouched (M.map map.now) (after (M.map map.now) edit.now)
        (touched_of touched.now) }
    requires held { HoldsAreas areas.old (M.map map.now) }
    ensures { HoldsAreas areas.new (after (M.map map.now) edit.now) }
{
    forget_ended(areas, edit);
    if !areas.keeps_any(touched.faces.as_slice()) {
        return;
    }
    match edit {
        Edit::Move { point, x, y } => {
            sweep(areas, map, *point, position(map, *point), at(*x, *y));
        }
        Edit::Split { string, x, y, .. } => {
            let row = map.string(*string).unwrap();
            bend(areas, map, row.from, at(*x, *y), row.to);
        }
        Edit::Join { .. } => match &touched.joined {
            Some(j) => straighten(areas, map, j.first, j.point, j.second),
            None => forget_all(areas, touched.faces.as_slice()),
        },
        _ => forget_all(areas, touched.faces.as_slice()),
    }
}

/// Takes back what [`turn_areas`] did, where the edit was refused: the areas are those of the map.
pub fn return_areas<M: MapView>(areas: &mut FaceAreas, map: &M, edit: &Edit, touched: &Touched)
    requires tried { IsTried (M.map map.now) edit.now }
    requires touched { IsTouched (M.map map.now) (after (M.map map.now) edit.now)
        (touched_of touched.now) }
    requires held { HoldsAreas areas.old (after (M.map map.now) edit.now) }
    ensures { HoldsAreas areas.new (M.map map.now) }
{
    forget_ended(areas, edit);
    if !areas.keeps_any(touched.faces.as_slice()) {
        return;
    }
    match edit {
        Edit::Move { point, x, y } => {
            sweep(areas, map, *point, at(*x, *y), position(map, *point));
        }
        _ => forget_all(areas, touched.faces.as_slice()),
    }
}

/// The two faces that an edit made of one, or that it made one of.
pub fn recut_by(change: &SmallRecord) -> Option<(Face, Face)>
    ensures { result ≡ recut (edit_of change.now) }
{
    match change {
        SmallRecord::Divide { face, parcel, .. } | SmallRecord::Enclose { face, parcel, .. } => {
            Some((*face, Face::Parcel(*parcel)))
        }
        SmallRecord::MergeAlong { kept, row, .. } | SmallRecord::MergeIsland { kept, row, .. } => {
            Some((*kept, Face::Parcel(row.number)))
        }
        _ => None,
    }
}

// Keeps no area of the two faces that an edit made of one, or that it made one of.
fn forget_recut(areas: &mut FaceAreas, change: &SmallRecord)
    ensures gone { IfSome (recut (edit_of change.now)) (λ faces.
        (area_at areas.new faces.0 ≡ None) × (area_at areas.new faces.1 ≡ None)) }
    ensures others { (f : FaceOf)
        → IfSome (area_at areas.new f) (λ area. area_at areas.old f ≡ Some area) }
{
    if let Some((first, second)) = recut_by(change) {
        areas.forget(&first);
        areas.forget(&second);
    }
}

/// Brings the areas that are kept of the map after an edit up to date where the edit is taken back.
/// Of faces that the edit cut, or made one, none is kept then.
pub fn areas_back<M: MapView>(areas: &mut FaceAreas, map: &M, change: &SmallRecord)
    requires given { GivesInRange (edit_of change.now) }
    requires made { (before : Map) × Belongs change.now before (M.map map.now) }
    requires held { HoldsAreas areas.old (M.map map.now) }
    ensures { (before : Map) → Belongs change.now before (M.map map.now)
        → HoldsAreas areas.new before }
{
    match change {
        SmallRecord::Move { point, from, to } => sweep(areas, map, *point, *to, *from),
        SmallRecord::Split { row, point, .. } => straighten(areas, map, row.from, *point, row.to),
        SmallRecord::Join {
            row,
            first,
            second,
            ..
        } => {
            let (a, b) = far_ends_of(first, second, row.number);
            bend(areas, map, a, row.position, b);
        }
        _ => forget_recut(areas, change),
    }
}

/// Brings the areas that are kept of the map before an edit up to date where the edit is made
/// again. Of faces that the edit cuts, or makes one, none is kept then.
pub fn areas_again<M: MapView>(areas: &mut FaceAreas, map: &M, change: &SmallRecord)
    requires given { GivesInRange (edit_of change.now) }
    requires made { (n : Map) × Belongs change.now (M.map map.now) n }
    requires held { HoldsAreas areas.old (M.map map.now) }
    ensures { (n : Map) → Belongs change.now (M.map map.now) n → HoldsAreas areas.new n }
{
    match change {
        SmallRecord::Move { point, from, to } => sweep(areas, map, *point, *from, *to),
        SmallRecord::Split { row, position, .. } => {
            bend(areas, map, row.from, *position, row.to);
        }
        SmallRecord::Join {
            row,
            first,
            second,
            ..
        } => {
            let (a, b) = far_ends_of(first, second, row.number);
            straighten(areas, map, a, row.number, b);
        }
        _ => forget_recut(areas, change),
    }
}
