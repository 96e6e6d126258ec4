//! A face divided along a chain.
ghost use Rattle.std.specs.Prelude.{◌≡◌, ◌≢◌, ◌≤◌, [], ◌∷◌, Some, None, length, IsTrue, ◌&&◌, not, filter, map as map_of, IfOk, IfErr, OnOk};
ghost use Rattle.std.specs.List.{AllByRecursion, list_any};
ghost use Rattle.cad_map.specs.Chain.{start_of, next_of, end_of, last_but_one, chosen_corner as chosen_corner_of, leaving};
ghost use Rattle.cad_map.specs.Map.{has_point, rings_of};
ghost use Rattle.cad_map.specs.Valid.{IsValid};
ghost use Rattle.cad_map.specs.Refusals.{unknown, bad_chain, not_in_parcel, chain_joins_rings, first_of, first_refusal as first_refusal_of};
ghost use Rattle.cad_rows.specs.declared.names.Face.TheVariants.{Parcel};
ghost use Rattle.cad_rings.specs.Cycle.{has_side, sides_of};
ghost use Rattle.cad_map.specs.Boundaries.{canonical_order};
ghost use Rattle.cad_map.specs.Division.{ring_with, hole_placed as hole_placed_of, boundaries_divided};
ghost use Rattle.cad_map.specs.Rings.{HasWholeRings};
ghost use Rattle.cad_edit.specs.Admitted.{HasCorners};
ghost use Rattle.cad_edit.specs.Cut.{left_of, right_of};
ghost use Rattle.cad_map.specs.Asked.{GivesInRange};
ghost use Rattle.cad_rows.specs.declared.edits.Edit.TheVariants.{Divide as DivideOf};
ghost use Rattle.cad_map.specs.Changes.{divide as divide_of};

use crate::chains::rows_along;
use crate::parcels::{NewParcel, put_new_parcel, put_strings};
use crate::placing::hole_placed;
use crate::rings::ring_with;
use cad_map::{Boundary, Corner, MapView, PlainMap, are_in_one_ring, chosen_corner};
use cad_rings::Ring;
use cad_rows::{Edit, Face, Memory, ParcelNo, PointNo, Refusal, StringNo};

/// The corner of a face from which a chain leaves its first point.
fn first_corner<M: MapView>(map: &M, face: &Face, chain: &[PointNo]) -> Option<Corner>
    requires valid { IsValid (M.map map.now) }
    requires long { 2 ≤ length chain.now }
    ensures { result ≡ chosen_corner_of (M.map map.now) face.now (start_of chain.now)
        (next_of chain.now) }
{
    chosen_corner(map, face, chain[0], chain[1])
}

/// The corner of a face in which a chain reaches its last point.
fn last_corner<M: MapView>(map: &M, face: &Face, chain: &[PointNo]) -> Option<Corner>
    requires valid { IsValid (M.map map.now) }
    requires long { 2 ≤ length chain.now }
    ensures { result ≡ chosen_corner_of (M.map map.now) face.now (end_of chain.now)
        (last_but_one chain.now) }
{
    let last = chain.len() - 1;
    chosen_corner(map, face, chain[last], chain[last - 1])
}

/// Of a division the corners of the face that its chain leaves at its two ends, in one ring, or why there are none: the
/// chain doesn't leave its first point, or doesn't reach its last, inside the face, or the two lie in different rings.
pub(crate) fn corners_of<M: MapView>(
    map: &M,
    edit: &Edit,
) -> Result<Option<(Corner, Corner)>, Refusal>
    requires valid { IsValid (M.map map.now) }
    requires chain { bad_chain edit.now ≡ None }
    ensures refused { IfErr result (λ r. first_of
        (not_in_parcel (M.map map.now) edit.now ∷ chain_joins_rings (M.map map.now) edit.now ∷ [])
        ≡ Some r) }
    ensures in_parcel { IfOk result (λ found. not_in_parcel (M.map map.now) edit.now ≡ None) }
    ensures one_ring { IfOk result (λ found. chain_joins_rings (M.map map.now) edit.now ≡ None) }
    ensures found { IfOk result (HasCorners (M.map map.now) edit.now) }
{
    let Edit::Divide { face, chain, .. } = edit else {
        return Ok(None);
    };
    let chain = chain.as_slice();
    let Some(first) = first_corner(map, face, chain) else {
        return Err(Refusal::NotInParcel(chain[0]));
    };
    let Some(last) = last_corner(map, face, chain) else {
        return Err(Refusal::NotInParcel(chain[chain.len() - 1]));
    };
    if are_in_one_ring(map, &first, &last) {
        Ok(Some((first, last)))
    } else {
        Err(Refusal::ChainJoinsRings)
    }
}

/// Divides a face along a chain.
pub(crate) fn divide(
    map: &mut PlainMap,
    face: Face,
    chain: &[PointNo],
    strings: &[StringNo],
    new: &NewParcel<'_>,
    first: &Corner,
    last: &Corner,
) -> Result<(), Memory>
    requires valid { IsValid map.old }
    requires range { GivesInRange
        (DivideOf face chain.now strings.now new.now.number new.now.label.now new.now.source) }
    requires allowed { first_refusal_of map.old
        (DivideOf face chain.now strings.now new.now.number new.now.label.now new.now.source)
        ≡ None }
    requires first { chosen_corner_of map.old face (start_of chain.now) (next_of chain.now)
        ≡ Some first.now }
    requires last { chosen_corner_of map.old face (end_of chain.now) (last_but_one chain.now)
        ≡ Some last.now }
    ensures { OnOk result (map.new
        ≡ divide_of map.old face chain.now strings.now new.now.number new.now.label.now
        new.now.source) }
{
    let boundaries = divided_boundaries(map, face, new.number, chain, first, last)?;
    let rows = rows_along(map.allocator(), chain, strings, new.source)?;
    put_strings(map, rows.as_slice())?;
    put_new_parcel(map, new)?;
    map.set_boundaries(boundaries);
    Ok(())
}

/// All rings after a face is divided along a chain, from one of its corners to another of the same ring: what is left of
/// the chain goes to the new parcel. An error where memory runs out.
fn divided_boundaries(
    map: &PlainMap,
    face: Face,
    new: ParcelNo,
    chain: &[PointNo],
    first: &Corner,
    last: &Corner,
) -> Result<Vec<Boundary>, Memory>
    requires whole { HasWholeRings map.now }
    requires long { 2 ≤ length chain.now }
    requires apart { first.now.at ≢ last.now.at }
    requires one_ring { IsTrue (list_any
        (λ r. has_side (leaving first.now) (sides_of r) && has_side (leaving last.now) (sides_of r))
        (rings_of map.now face)) }
    ensures { IfOk result (λ made. canonical_order made.items
        ≡ canonical_order (boundaries_divided map.now face
        (Parcel new) chain.now first.now last.now)) }
{
    let (left, right) = cut_along(map.boundaries(), chain, first, last)?;
    let parcel = Face::Parcel(new);
    let mut made = others_placed(map, &face, &parcel, &left, first)?;
    made.push(Boundary {
        face: parcel,
        ring: left,
    })?;
    made.push(Boundary { face, ring: right })?;
    Ok(made)
}

/// The two rings that a chain makes of the ring that it divides, the one to its left first. The ring has the sides that
/// leave the corners at the chain's beginning and at its end.
fn cut_along(
    boundaries: &[Boundary],
    chain: &[PointNo],
    first: &Corner,
    last: &Corner,
) -> Result<(Ring, Ring), Memory>
    requires long { 2 ≤ length chain.now }
    requires apart { first.now.at ≢ last.now.at }
    requires first_there { IsTrue
        (has_side (leaving first.now) (sides_of (ring_with (leaving first.now) boundaries.now))) }
    requires last_there { IsTrue
        (has_side (leaving last.now) (sides_of (ring_with (leaving first.now) boundaries.now))) }
    ensures left { IfOk result
        (λ rings. rings.0 ≡ left_of boundaries.now chain.now first.now last.now) }
    ensures right { IfOk result
        (λ rings. rings.1 ≡ right_of boundaries.now chain.now first.now last.now) }
{
    let cut = ring_with(boundaries, first.at, first.after).unwrap();
    let start = cut.place_of(first.at, first.after).unwrap();
    let end = cut.place_of(last.at, last.after).unwrap();
    cut.cut_by_chain(start, end, &chain[1..chain.len() - 1])
}

/// Each ring of the map but the one that has the side that leaves a corner, as it is placed after a ring is put round
/// holes of a face.
fn others_placed(
    map: &PlainMap,
    face: &Face,
    new: &Face,
    ring: &Ring,
    corner: &Corner,
) -> Result<Vec<Boundary>, Memory>
    requires whole { HasWholeRings map.now }
    ensures { IfOk result (λ placed. placed.items
        ≡ map_of (hole_placed_of map.now face.now new.now ring.now)
        (filter (λ b. not (has_side (leaving corner.now) (sides_of b.ring))) map.now.boundaries)) }
{
    let mut placed = Vec::new(map.allocator());
    for boundary in map.boundaries() {
        if !boundary.ring.has_side(corner.at, corner.after) {
            placed.push(hole_placed(map, face, new, ring, boundary)?)?;
        }
    }
    Ok(placed)
}
