//! The holes of a face that pass to a new face, by the halves that are kept of them.
ghost use Rattle.std.specs.Prelude.{◌≡◌, ◌<◌, ◌&&◌, length, filter, map as map_of_list, IfOk};
ghost use Rattle.cad_rings.specs.Cycle.{anchor_of as anchor_of_ring, placed, sides_of};
ghost use Rattle.cad_map.specs.Map.{rings_at, position_of, is_negative};
ghost use Rattle.cad_map.specs.Map.{is_in_ring as is_in_ring_of};
ghost use Rattle.cad_map.specs.Rings.{HasWholeRings, ring_at};
ghost use Rattle.map_parts.specs.Handing.{home_of};
ghost use Rattle.map_parts.specs.Parts.{map_of, kept_at};
ghost use Rattle.map_parts.specs.Placed.{AreOfHoles, moves_in};

use crate::draft::Draft;
use cad_edit::is_in_ring;
use cad_map::{MapView, face_place, position};
use cad_rings::Ring;
use cad_rows::{Face, Memory};
use cad_valid::{anchor_of, insides_of, is_hole};
use geo_exact::Pt;
use half_table::{Half, Tally};
use std::alloc::Global;

/// The anchors of so many rings are sorted, so that a side is counted at few of them.
const MANY: usize = 16;

// Where the anchors of a face's rings lie, in the order of the rings.
fn anchors_at<M: MapView>(alloc: Global, map: &M, face: &Face) -> Result<Vec<Pt>, Memory>
    requires { HasWholeRings (M.map map.now) }
    ensures { IfOk result (λ anchors. anchors.items ≡ map_of_list
        (λ r. position_of (M.map map.now) (anchor_of_ring r)) (rings_at face.now (M.rings map.now))) }
{
    let mut anchors = Vec::new(alloc);
    for place in 0..map.ring_count(*face) {
        anchors.push(position(map, anchor_of(map, face, place)))?;
    }
    Ok(anchors)
}

// The sides of a ring as they lie.
fn placed_sides<M: MapView>(alloc: Global, map: &M, ring: &Ring) -> Result<Vec<(Pt, Pt)>, Memory>
    ensures { IfOk result (λ sides. sides.items
        ≡ placed (position_of (M.map map.now)) (sides_of ring.now)) }
{
    let mut sides = Vec::new(alloc);
    for (from, to) in ring.sides() {
        sides.push((position(map, from), position(map, to)))?;
    }
    Ok(sides)
}

// Whether each ring's anchor is inside another ring, by all its sides for each.
fn insides_of_few<M: MapView>(
    alloc: Global,
    map: &M,
    face: &Face,
    ring: &Ring,
) -> Result<Vec<bool>, Memory>
    requires { HasWholeRings (M.map map.now) }
    ensures { IfOk result (λ inside. inside.items ≡ map_of_list
        (λ r. is_in_ring_of (M.map map.now) ring.now (anchor_of_ring r))
        (rings_at face.now (M.rings map.now))) }
{
    let mut inside = Vec::new(alloc);
    for place in 0..map.ring_count(*face) {
        inside.push(is_in_ring(map, ring, anchor_of(map, face, place)))?;
    }
    Ok(inside)
}

// The same, by one sort of the anchors.
fn insides_of_many<M: MapView>(
    alloc: Global,
    map: &M,
    face: &Face,
    ring: &Ring,
) -> Result<Vec<bool>, Memory>
    requires { HasWholeRings (M.map map.now) }
    ensures { IfOk result (λ inside. inside.items ≡ map_of_list
        (λ r. is_in_ring_of (M.map map.now) ring.now (anchor_of_ring r))
        (rings_at face.now (M.rings map.now))) }
{
    let anchors = anchors_at(alloc, map, face)?;
    let sides = placed_sides(alloc, map, ring)?;
    insides_of(alloc, anchors.as_slice(), sides.as_slice())
}

// Whether the anchor of each ring of a face is inside another ring.
fn anchors_inside<M: MapView>(
    alloc: Global,
    map: &M,
    face: &Face,
    ring: &Ring,
) -> Result<Vec<bool>, Memory>
    requires { HasWholeRings (M.map map.now) }
    ensures { IfOk result (λ inside. inside.items ≡ map_of_list
        (λ r. is_in_ring_of (M.map map.now) ring.now (anchor_of_ring r))
        (rings_at face.now (M.rings map.now))) }
{
    if map.ring_count(*face) < MANY {
        insides_of_few(alloc, map, face, ring)
    } else {
        insides_of_many(alloc, map, face, ring)
    }
}

// Whether a ring of a face whose anchor is inside another ring is a hole.
fn is_hole_inside<M: MapView>(map: &M, face: &Face, place: usize, inside: bool) -> bool
    requires whole { HasWholeRings (M.map map.now) }
    requires there { place < length (rings_at face.now (M.rings map.now)) }
    ensures { result ≡ (is_negative (M.map map.now) (ring_at (M.rings map.now) face.now place)
        && inside) }
{
    inside && is_hole(map, face, place)
}

/// The halves that are kept of a face's holes whose anchors are inside a ring. It takes time by the
/// sides of the face's rings; where these are few, for each by the sides of the ring, and where they
/// are many, for a sort of their anchors and for each side of the ring with the anchors whose height it
/// spans.
pub(crate) fn moved_halves<T: Tally>(
    alloc: Global,
    draft: &Draft<T>,
    face: &Face,
    ring: &Ring,
) -> Result<Vec<Half>, Memory>
    requires { HasWholeRings (map_of draft.now) }
    ensures kept { IfOk result (λ halves. halves.items
        ≡ filter (λ h. moves_in (map_of draft.now) face.now ring.now
        (home_of (map_of draft.now) draft.now.table.rows h)) (kept_at draft.now face.now)) }
    ensures holes { IfOk result (λ halves. AreOfHoles (map_of draft.now) draft.now.table.rows
        face.now ring.now halves.items) }
{
    let inside = anchors_inside(alloc, draft, face, ring)?;
    let mut halves = Vec::new(alloc);
    let kept = draft.kept.at(face_place(*face));
    for place in 0..kept.len() {
        if is_hole_inside(draft, face, place, inside[place]) {
            halves.push(kept[place])?;
        }
    }
    Ok(halves)
}
