//! A table linked along the rings of a map.
ghost use Rattle.std.specs.Prelude.{◌≡◌, ◌≢◌, ◌≤◌, ◌<◌, ◌+◌, true, false, length, IfOk, OnOk};
ghost use Rattle.std.specs.List.{Contains};
ghost use Rattle.cad_map.specs.declared.boundary.Boundary.{Boundary as BoundaryOf};
ghost use Rattle.cad_map.specs.Map.{all_sides};
ghost use Rattle.cad_map.specs.Rings.{HasWholeRings};
ghost use Rattle.half_table.specs.Rows.{HalfRows, has, has_halves, IsLinked};
ghost use Rattle.half_table.specs.Surgery.{AddsLoose};
ghost use Rattle.half_table.specs.Writes.{Relinks};
ghost use Rattle.key_lists.specs.Held.{IsSame};
ghost use Rattle.cad_laws.specs.Local.{IsLocal};
ghost use Rattle.map_parts.specs.Building.{AreStarsOf, HoldsStrings, HoldsStringsUpTo, IsLinkedAt, IsLinkedAlong, KeepsLinks};
ghost use Rattle.map_parts.specs.Labels.{IsHalfAlong, IsHalfBefore, side_at, IsHalfOnRing, IsLabelled, HoldsRings};
ghost use Rattle.map_parts.specs.Stars.{AddsSpokes};

use crate::kept::keep_half;
use crate::stars::{Spoke, add_spokes, find_half_by_ends};
use cad_map::{Boundary, MapView, PlainMap};
use cad_rings::Ring;
use cad_rows::{Face, Memory, PointNo, StringRow};
use half_table::{Half, HalfTable, OpenTable, Tally};
use key_lists::KeyLists;
use std::alloc::Global;

// The star of each point has room for so many halves: mostly four meet there, and an edit brings one.
const ROOM_OF_STAR: usize = 6;

// Adds the two halves of a string, loose, to a table and to the stars of its ends.
fn add_string<T: Tally>(
    table: &mut HalfTable<T>,
    stars: &mut KeyLists<Spoke>,
    row: &StringRow,
) -> Result<(), Memory>
    requires free { has_halves table.old.rows row.now.number ≡ false }
    ensures adds { OnOk result (AddsLoose row.now.number row.now.from row.now.to table.old.rows table.new.rows) }
    ensures linked { OnOk result (IsLinked table.new.rows) }
    ensures stars { row.now.from ≢ row.now.to → OnOk result (AddsSpokes row.now stars.old stars.new) }
{
    table.add_loose(row.number, row.from, row.to)?;
    add_spokes(stars, row)
}

// Sees that the star of each point has room for a few halves at once, so that it takes memory once.
fn make_star_room(map: &PlainMap, stars: &mut KeyLists<Spoke>) -> Result<(), Memory>
    ensures { OnOk result (IsSame stars.old stars.new) }
{
    for place in 0..map.counts().points {
        let row = map.point_at(place).unwrap();
        stars.reserve(u64::from(row.number.get()), ROOM_OF_STAR)?;
    }
    Ok(())
}

/// Adds the halves of all strings of a map to a table and to stars that have none.
pub fn add_strings<T: Tally>(
    map: &PlainMap,
    table: &mut HalfTable<T>,
    stars: &mut KeyLists<Spoke>,
) -> Result<(), Memory>
    requires whole { HasWholeRings map.now }
    requires none { HoldsStringsUpTo map.now 0 table.old.rows stars.old }
    ensures strings { OnOk result (HoldsStrings map.now table.new.rows stars.new) }
    ensures linked { OnOk result (IsLinked table.new.rows) }
{
    make_star_room(map, stars)?;
    for place in 0..map.counts().strings {
        let row = map.string_at(place).unwrap();
        add_string(table, stars, row)?;
    }
    Ok(())
}

// The half along a side of the map.
fn side_half(map: &PlainMap, stars: &KeyLists<Spoke>, from: PointNo, to: PointNo) -> Half
    requires whole { HasWholeRings map.now }
    requires stars { AreStarsOf map.now stars.now }
    requires side { Contains (all_sides map.now) (from, to) }
    ensures { IsHalfAlong map.now stars.now (from, to) result }
{
    find_half_by_ends(stars, from, to).unwrap()
}

// The half along the side of a ring that begins at a place.
fn half_on(map: &PlainMap, stars: &KeyLists<Spoke>, boundary: &Boundary, place: usize) -> Half
    requires whole { HasWholeRings map.now }
    requires stars { AreStarsOf map.now stars.now }
    requires there { Contains map.now.boundaries boundary.now }
    requires place { place ≤ length boundary.now.ring }
    ensures { IsHalfAlong map.now stars.now (side_at place boundary.now.ring) result }
{
    let from = boundary.ring.turned_at(place, 0);
    let to = boundary.ring.turned_at(place, 1);
    side_half(map, stars, from, to)
}

// Links a half to those before and after it, and gives it a face.
fn link_half<T: Tally>(
    table: &mut OpenTable<T>,
    half: &Half,
    before: &Half,
    after: &Half,
    face: &Face,
)
    requires { has table.old.rows half.now ≡ true }
    ensures { Relinks half.now before.now after.now face.now table.old.rows table.new.rows }
{
    table.link(*half, *before, *after, *face);
}

// Links the half along a ring's side at a place to those along the sides before and after it, gives
// it the ring's face, and answers the one after. Halves that are linked as the rings go stay so.
fn link<T: Tally>(
    map: &PlainMap,
    table: &mut OpenTable<T>,
    stars: &KeyLists<Spoke>,
    boundary: &Boundary,
    place: usize,
    before: &Half,
    here: &Half,
) -> Half
    requires whole { HasWholeRings map.now }
    requires strings { HoldsStrings map.now table.old.rows stars.now }
    requires there { Contains map.now.boundaries boundary.now }
    requires place { place < length boundary.now.ring }
    requires before { IsHalfBefore map.now stars.now (side_at place boundary.now.ring) before.now }
    requires here { IsHalfAlong map.now stars.now (side_at place boundary.now.ring) here.now }
    ensures after { IsHalfAlong map.now stars.now (side_at (place + 1) boundary.now.ring) result }
    ensures strings { HoldsStrings map.now table.new.rows stars.now }
    ensures linked { IsLinkedAt
        map.now table.new.rows boundary.now (side_at place boundary.now.ring) }
    ensures keeps { KeepsLinks map.now table.old.rows table.new.rows }
{
    let _sides = boundary.ring.len();
    let after = half_on(map, stars, boundary, place + 1);
    link_half(table, here, before, &after, &boundary.face);
    after
}

// Links the halves along a ring and gives them its face, and answers the one along its first side.
fn link_ring<T: Tally>(
    map: &PlainMap,
    table: &mut OpenTable<T>,
    stars: &KeyLists<Spoke>,
    boundary: &Boundary,
) -> Half
    requires whole { HasWholeRings map.now }
    requires strings { HoldsStrings map.now table.old.rows stars.now }
    requires there { Contains map.now.boundaries boundary.now }
    ensures first { IsHalfOnRing map.now stars.now boundary.now result }
    ensures strings { HoldsStrings map.now table.new.rows stars.now }
    ensures linked { IsLinkedAlong map.now table.new.rows boundary.now }
    ensures keeps { KeepsLinks map.now table.old.rows table.new.rows }
{
    let sides = boundary.ring.len();
    let first = half_on(map, stars, boundary, 0);
    let mut before = half_on(map, stars, boundary, sides - 1);
    let mut here = first;
    for place in 0..sides {
        let after = link(map, table, stars, boundary, place, &before, &here);
        before = here;
        here = after;
    }
    first
}

/// Links all halves as the rings go and gives them the faces of their rings, each by one look into
/// the table, and keeps one half of each ring, under the place of its face.
pub fn link_rings<T: Tally>(
    alloc: Global,
    map: &PlainMap,
    table: &mut OpenTable<T>,
    stars: &KeyLists<Spoke>,
) -> Result<KeyLists<Half>, Memory>
    requires whole { HasWholeRings map.now }
    requires strings { HoldsStrings map.now table.old.rows stars.now }
    ensures strings { HoldsStrings map.now table.new.rows stars.now }
    ensures linked { OnOk result (IsLinked table.new.rows) }
    ensures local { OnOk result (IsLocal map.now table.new.rows) }
    ensures labelled { OnOk result ((b : BoundaryOf) → Contains map.now.boundaries b
        → IsLabelled map.now table.new.rows b) }
    ensures kept { IfOk result (λ kept. (rows : HalfRows) → HoldsStrings map.now rows stars.now
        → HoldsRings map.now rows kept map.now.boundaries) }
{
    let mut kept = KeyLists::with_room(alloc, map.hash(), map.counts().parcels)?;
    for boundary in map.boundaries() {
        let half = link_ring(map, table, stars, boundary);
        keep_half(&mut kept, boundary.face, half)?;
    }
    Ok(kept)
}
