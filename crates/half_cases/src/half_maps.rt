//! Maps on half-edges that are made of plain ones: what they show, and the halves of an island.
ghost use Rattle.std.specs.Prelude.{◌≡◌, true, IfOk};
ghost use Rattle.cad_map.specs.Valid.{IsValid};
ghost use Rattle.half_table.specs.Rows.{has};
ghost use Rattle.map_parts.specs.Parts.{map_of as map_that_stands};

use crate::plans::{ISLAND, PINCH, Plan, SQUARE, map_of, text_of};
use cad_files::{area_text, outline_text, plan_text};
use cad_map::{MapView, PlainMap};
use cad_rows::{Face, Memory, ParcelNo, StringNo};
use cad_surgery::HalfMap;
use half_table::{Half, HalfTable, Ticks};
use std::alloc::Global;
use std::process::Abort;
use std::test::Fail;

/// Appends the outlines of all parcels.
fn append_outlines<M: MapView>(alloc: Global, text: &mut Vec<u8>, map: &M) -> Result<(), Memory>
    requires { IsValid (M.map map.now) }
{
    for place in 0..map.counts().parcels {
        let parcel = map.parcel_at(place).unwrap().number;
        let rings = outline_text(alloc, map, Face::Parcel(parcel))?;
        text.extend_from_slice(rings.as_slice())?;
    }
    Ok(())
}

/// What a map shows: its plan text, its areas, and the outlines of the outside and of each parcel.
fn shown_by<M: MapView>(alloc: Global, map: &M) -> Result<Vec<u8>, Memory>
    requires { IsValid (M.map map.now) }
{
    let mut text = plan_text(alloc, map)?;
    let areas = area_text(alloc, map)?;
    text.extend_from_slice(areas.as_slice())?;
    let outside = outline_text(alloc, map, Face::Outside)?;
    text.extend_from_slice(outside.as_slice())?;
    append_outlines(alloc, &mut text, map)?;
    Ok(text)
}

/// The map on half-edges of a plain map. Where a growth is refused, it is made again.
fn make_again(alloc: Global, map: &PlainMap) -> Result<HalfMap<Ticks>, Memory>
    requires { IsValid map.now }
    ensures { IfOk result (λ made. map_that_stands made ≡ map.now) }
{
    match HalfMap::of(alloc, map, Ticks::new()) {
        Ok(halves) => Ok(halves),
        Err(_) => HalfMap::of(alloc, map, Ticks::new()),
    }
}

/// What the map on half-edges of a plain map shows.
fn shown_on_halves(alloc: Global, map: &PlainMap) -> Result<Vec<u8>, Memory>
    requires { IsValid map.now }
{
    let halves = make_again(alloc, map)?;
    shown_by(alloc, &halves)
}

/// Fails where the map on half-edges of a plan shows another thing than the plain map.
fn compare<R: Abort + AllocGlobal>(rt: &R, plan: Plan) -> Result<(), Fail> {
    let text = text_of(rt.alloc(), plan)?;
    let map = map_of(rt.alloc(), text.as_str())?;
    let plain = shown_by(rt.alloc(), &map)?;
    let halves = shown_on_halves(rt.alloc(), &map)?;
    assert!(rt; plain.as_slice() == halves.as_slice());
    Ok(())
}

#[test]
fn maps_of_worked_plans_again(rt: HostRuntime) -> Result<(), Fail> {
    for plan in [SQUARE, ISLAND, PINCH] {
        compare(&rt, plan)?;
    }
    Ok(())
}

#[test]
fn what_the_island_shows(rt: HostRuntime) -> Result<(), Fail> {
    let text = text_of(rt.alloc(), ISLAND)?;
    let map = map_of(rt.alloc(), text.as_str())?;
    let shown = shown_on_halves(rt.alloc(), &map)?;
    let rest = shown.as_slice().strip_prefix(text.as_bytes());
    let wanted = "area,1,A,1980000,0.99,,\narea,2,B,20000,0.01,,\nend,,,,,,\n\
        ring,0,hole,1 4 3 2,,,\nend,,,,,,\n\
        ring,1,outer,1 2 3 4,,,\nring,1,hole,6 8 7,,,\nend,,,,,,\n\
        ring,2,outer,6 7 8,,,\nend,,,,,,\n";
    assert!(rt; rest == Some(wanted.as_bytes()));
    Ok(())
}

/// A half that is in the table.
pub(crate) fn half(rt: &impl Abort, table: &HalfTable<Ticks>, number: u32, forward: bool) -> Half
    ensures { has table.now.rows result ≡ true }
{
    let string = StringNo::new(number).expect(rt, "a number");
    assert!(rt; table.has_string(string));
    Half { string, forward }
}

/// The halves of the island's strings: the string, the string whose half follows the same way, the direction, and the
/// parcel.
const LINKS: [(u32, u32, bool, u32); 6] = [
    (31, 33, false, 1),
    (33, 32, false, 1),
    (32, 31, false, 1),
    (31, 32, true, 2),
    (32, 33, true, 2),
    (33, 31, true, 2),
];

/// Fails where another half follows, or the half lies in another parcel.
fn check_links(rt: &impl Abort, table: &HalfTable<Ticks>) {
    for (string, after, forward, parcel) in LINKS {
        let half = half(rt, table, string, forward);
        let next = table.next(half);
        assert!(rt; next.string.get() == after && next.forward == forward);
        let parcel = ParcelNo::new(parcel).expect(rt, "a number");
        assert!(rt; table.face(half) == Face::Parcel(parcel));
    }
}

#[test]
fn halves_of_the_island(rt: HostRuntime) -> Result<(), Fail> {
    let text = text_of(rt.alloc(), ISLAND)?;
    let map = map_of(rt.alloc(), text.as_str())?;
    let halves = HalfMap::of(rt.alloc(), &map, Ticks::new())?;
    check_links(&rt, halves.table());
    Ok(())
}
