//! Where the chain of a division crosses a face of a map on half-edges.
ghost use Rattle.std.specs.Prelude.{◌≡◌, ◌≢◌, ◌≤◌, not, length, filter, map as map_by, IsTrue, IfOk};
ghost use Rattle.std.specs.List.{Contains};
ghost use Rattle.cad_rings.specs.Cycle.{has_side, sides_of};
ghost use Rattle.cad_map.specs.Chain.{leaving};
ghost use Rattle.cad_map.specs.Map.{all_sides};
ghost use Rattle.half_table.specs.Rows.{origin_of, cycle};
ghost use Rattle.half_paths.specs.Path.{AreIn};
ghost use Rattle.cad_laws.specs.Faces.{left_of_chain};
ghost use Rattle.cad_laws.specs.Local.{IsShown, side_by};
ghost use Rattle.cad_laws.specs.Tried.{IsTried, AreChosen};
ghost use Rattle.cad_edit.specs.Admitted.{HasCorners};
ghost use Rattle.map_parts.specs.Labels.{IsAlong};
ghost use Rattle.map_parts.specs.Parts.{map_of};
ghost use Rattle.cad_surgery.specs.Divisions.{AreMovedOver, HasCrossing, divided_by};

use crate::draft::{Draft, side};
use crate::edits::given::NewParcel;
use crate::edits::moved::moved_halves;
use cad_map::{Corner, face_place};
use cad_rings::Ring;
use cad_rows::{Face, Memory, PointNo};
use half_table::{Half, Tally};
use std::alloc::Global;

/// The halves that leave the two corners between which a chain leads, and one half of each ring
/// that passes over to the left of it.
#[derive(Drop)]
pub(crate) struct Crossing {
    pub(crate) start: Half,
    pub(crate) end: Half,
    pub(crate) moved: Vec<Half>,
}

/// The half along a side of the map.
pub(crate) fn half_along<T: Tally>(draft: &Draft<T>, from: PointNo, to: PointNo) -> Half
    requires { Contains (all_sides (map_of draft.now)) (from, to) }
    ensures { IsAlong (map_of draft.now) draft.now.table.rows (from, to) result }
{
    draft.half(from, to).unwrap()
}

// The half that leaves a corner of the map.
fn half_leaving<T: Tally>(draft: &Draft<T>, corner: &Corner) -> Half
    requires { Contains (all_sides (map_of draft.now)) (leaving corner.now) }
    ensures { IsAlong (map_of draft.now) draft.now.table.rows (leaving corner.now) result }
{
    half_along(draft, corner.at, corner.after)
}

// The ring of a half, from the half's origin on.
fn ring_of<T: Tally>(alloc: Global, draft: &Draft<T>, half: &Half) -> Result<Ring, Memory>
    requires { IsShown (map_of draft.now) half.now }
    ensures { IfOk result (λ ring. ring
        ≡ map_by (origin_of draft.now.table.rows) (cycle draft.now.table.rows half.now)) }
{
    let mut points = Vec::new(alloc);
    for each in draft.table.walk(*half) {
        points.push(draft.table.origin(each))?;
    }
    Ring::from_points(alloc, points.as_slice())
}

// The ring left of a chain from one corner of a ring to another.
fn left_of(ring: &Ring, chain: &[PointNo], first: &Corner, last: &Corner) -> Result<Ring, Memory>
    requires long { 2 ≤ length chain.now }
    requires apart { first.now.at ≢ last.now.at }
    requires has_first { IsTrue (has_side (leaving first.now) (sides_of ring.now)) }
    requires has_last { IsTrue (has_side (leaving last.now) (sides_of ring.now)) }
    ensures { IfOk result (λ left. left ≡ left_of_chain chain.now first.now last.now ring.now) }
{
    let start = ring.place_of(first.at, first.after).unwrap();
    let end = ring.place_of(last.at, last.after).unwrap();
    let (left, _) = ring.cut_by_chain(start, end, &chain[1..chain.len() - 1])?;
    Ok(left)
}

// Those of the halves that don't lead along a side of the ring.
fn halves_off<T: Tally>(
    alloc: Global,
    draft: &Draft<T>,
    halves: &[Half],
    ring: &Ring,
) -> Result<Vec<Half>, Memory>
    requires { AreIn draft.now.table.rows halves.now }
    ensures { IfOk result (λ off. off.items
        ≡ filter (λ h. not (has_side (side_by draft.now.table.rows h) (sides_of ring.now)))
        halves.now) }
{
    let mut off = Vec::new(alloc);
    for place in 0..halves.len() {
        let (from, to) = side(&draft.table, &halves[place]);
        if !ring.has_side(from, to) {
            off.push(halves[place])?;
        }
    }
    Ok(off)
}

// One half of each ring of the face that passes over to the left of the chain. A parcel of one
// ring, which is cut, has no other, so that neither the ring nor its left part is laid out there.
fn moved_over<T: Tally>(
    alloc: Global,
    draft: &Draft<T>,
    division: &NewParcel<'_>,
    first: &Corner,
    last: &Corner,
    start: &Half,
) -> Result<Vec<Half>, Memory>
    requires tried { IsTried (map_of draft.now) (divided_by division.now) }
    requires chosen { AreChosen (map_of draft.now) division.now.face division.now.points.now
        first.now last.now }
    requires along { IsAlong (map_of draft.now) draft.now.table.rows (leaving first.now) start.now }
    ensures { IfOk result (λ moved. AreMovedOver (map_of draft.now) draft.now.table.rows
        division.now first.now last.now
        (map_by (origin_of draft.now.table.rows) (cycle draft.now.table.rows start.now))
        moved.items) }
{
    // One half of each ring.
    let kept = draft.kept.at(face_place(division.face));
    if matches!(division.face, Face::Parcel(_)) && kept.len() == 1 {
        return Ok(Vec::new(alloc));
    }
    let cut = ring_of(alloc, draft, start)?;
    let left = left_of(&cut, division.points, first, last)?;
    let holes = moved_halves(alloc, draft, &division.face, &left)?;
    halves_off(alloc, draft, holes.as_slice(), &cut)
}

/// Where the chain of a division crosses the face, between the corners that were found. It takes
/// time by the strings at the chain's ends. Where the face isn't a parcel of one ring, it also
/// takes time by the sides of the face's rings, and for each hole of the face by those of the ring
/// that is cut.
pub(crate) fn crossing_of<T: Tally>(
    draft: &Draft<T>,
    division: &NewParcel<'_>,
    corners: Option<(Corner, Corner)>,
) -> Result<Crossing, Memory>
    requires tried { IsTried (map_of draft.now) (divided_by division.now) }
    requires corners { HasCorners (map_of draft.now) (divided_by division.now) corners }
    ensures { IfOk result (λ c. HasCrossing (map_of draft.now) draft.now.table.rows division.now
        c.start c.end c.moved.items) }
{
    let alloc = draft.rows.points.allocator();
    let (first, last) = corners.unwrap();
    let start = half_leaving(draft, &first);
    let end = half_leaving(draft, &last);
    let moved = moved_over(alloc, draft, division, &first, &last, &start)?;
    Ok(Crossing { start, end, moved })
}
