//! The land of a parcel: its area, and where its boundary turns.
ghost use Rattle.std.specs.Prelude.{◌≡◌, ◌∷◌, [], ◌++◌, flat_map, if◌then◌else◌, map as map_of, OnOk, IfOk};
ghost use Rattle.std.specs.List.{list_all};
ghost use Rattle.std.specs.List.Sorted.{IsPermutation};
ghost use Rattle.cad_map.specs.Valid.{IsValid};
ghost use Rattle.cad_views.specs.Land.{is_turn as is_turn_of, turns_round, turns_of as turns_of_face, AreInOrder, is_among as is_among_of, are_same_places as are_same_places_of, apart_from as apart_from_of, is_same_land as is_same_land_of};

use crate::areas::face_area;
use cad_map::{PlainMap, position};
use cad_rings::Ring;
use cad_rows::{Face, Memory, ParcelNo};
use geo_exact::{Pt, orient};
use std::alloc::Global;

// Whether a boundary turns left or right at a place, between the place before it and the one after it.
fn is_turn(before: Pt, at: Pt, after: Pt) -> bool
    ensures { result ≡ is_turn_of before at after }
{
    let area = orient(before, at, after);
    area > 0 || area < 0
}

// Puts a place last, where it is wanted.
fn push_wanted(listed: &mut Vec<Pt>, place: Pt, wanted: bool) -> Result<(), Memory>
    ensures { OnOk result (listed.new.items
        ≡ listed.old.items ++ (if wanted then place ∷ [] else [])) }
{
    if !wanted {
        return Ok(());
    }
    listed.push(place)?;
    Ok(())
}

// Puts the places last where a ring turns.
fn push_turns(turns: &mut Vec<Pt>, map: &PlainMap, ring: &Ring) -> Result<(), Memory>
    ensures { OnOk result (turns.new.items ≡ turns.old.items ++ turns_round map.now ring.now) }
{
    let count = ring.len();
    let points = ring.points();
    let mut before = position(map, points[0]);
    let mut at = position(map, points[1]);
    for place in 0..count {
        let after = position(map, ring.turned_at(2, place));
        let wanted = is_turn(before, at, after);
        push_wanted(turns, at, wanted)?;
        before = at;
        at = after;
    }
    Ok(())
}

// The places where the rings of a face turn. It takes a step for each of the face's sides. `Err` where memory runs out.
fn turns_of(alloc: Global, map: &PlainMap, face: Face) -> Result<Vec<Pt>, Memory>
    ensures { IfOk result (λ turns. turns.items ≡ turns_of_face map.now face) }
{
    let mut turns = Vec::new(alloc);
    let rings = map.run_of(face);
    for place in 0..rings.len() {
        push_turns(&mut turns, map, &rings[place].ring)?;
    }
    Ok(turns)
}

// Puts places in order. It takes no memory.
fn put_in_order(places: &mut Vec<Pt>)
    ensures same { IsPermutation places.old.items places.new.items }
    ensures ordered { AreInOrder places.new.items }
{
    places.sort_unstable_by_key(|place| (place.x, place.y));
}

// Whether a place is one of these.
fn is_among(ordered: &[Pt], place: Pt) -> bool
    requires { AreInOrder ordered.now }
    ensures { result ≡ is_among_of ordered.now place }
{
    ordered
        .binary_search_by_key(&(place.x, place.y), |other| (other.x, other.y))
        .is_ok()
}

// Whether each place is one of these.
fn are_among(ordered: &[Pt], places: &[Pt]) -> bool
    requires { AreInOrder ordered.now }
    ensures { result ≡ list_all (is_among_of ordered.now) places.now }
{
    for index in 0..places.len() {
        if !is_among(ordered, places[index]) {
            return false;
        }
    }
    true
}

// Whether two lists have the same places, each at least once. Where they are equal it takes a step for each place.
fn are_same_places(was: Vec<Pt>, is: Vec<Pt>) -> bool
    ensures { result ≡ are_same_places_of was.items is.items }
{
    if was.as_slice() == is.as_slice() {
        return true;
    }
    let mut old = was;
    let mut new = is;
    put_in_order(&mut old);
    put_in_order(&mut new);
    are_among(new.as_slice(), old.as_slice()) && are_among(old.as_slice(), new.as_slice())
}

/// Whether a parcel of two valid maps is as large in both, and turns at the same places. Where its rings are the same it
/// takes a few steps for each of its sides, else a sort of the places. `Err` where memory runs out.
pub(crate) fn is_same_land(
    alloc: Global,
    old: &PlainMap,
    new: &PlainMap,
    parcel: ParcelNo,
) -> Result<bool, Memory>
    requires old_valid { IsValid old.now }
    requires new_valid { IsValid new.now }
    ensures { IfOk result (λ same. same ≡ is_same_land_of old.now new.now (Face.Parcel parcel)) }
{
    if face_area(old, Face::Parcel(parcel)) != face_area(new, Face::Parcel(parcel)) {
        return Ok(false);
    }
    let was = turns_of(alloc, old, Face::Parcel(parcel))?;
    let is = turns_of(alloc, new, Face::Parcel(parcel))?;
    Ok(are_same_places(was, is))
}

// Those of these places that aren't among others.
fn apart_from(alloc: Global, ordered: &[Pt], places: &[Pt]) -> Result<Vec<Pt>, Memory>
    requires { AreInOrder ordered.now }
    ensures { IfOk result (λ listed. listed.items ≡ apart_from_of ordered.now places.now) }
{
    let mut listed = Vec::new(alloc);
    for index in 0..places.len() {
        let place = places[index];
        let wanted = !is_among(ordered, place);
        push_wanted(&mut listed, place, wanted)?;
    }
    Ok(listed)
}

/// The places where a parcel of a map turns, and where it doesn't in another map. `Err` where memory runs out.
pub(crate) fn turns_apart(
    alloc: Global,
    map: &PlainMap,
    other: &PlainMap,
    parcel: ParcelNo,
) -> Result<Vec<Pt>, Memory>
    ensures { IfOk result (λ listed. listed.items
        ≡ apart_from_of (turns_of_face other.now (Face.Parcel parcel))
        (turns_of_face map.now (Face.Parcel parcel))) }
{
    let mut others = turns_of(alloc, other, Face::Parcel(parcel))?;
    let turns = turns_of(alloc, map, Face::Parcel(parcel))?;
    put_in_order(&mut others);
    apart_from(alloc, others.as_slice(), turns.as_slice())
}
