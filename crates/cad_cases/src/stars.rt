use cad_map::{MapView, PlainMap, Stars};
use cad_rows::{Memory, Numbers, PointNo, PointRow, StringNo, StringRow};
use geo_exact::Pt;
use number_hash::NumberHash;
use std::alloc::Global;
use std::process::Abort;
use std::test::Fail;

fn point(rt: &impl Abort, number: u32) -> PointNo {
    PointNo::new(number).expect(rt, "a number")
}

fn position(rt: &impl Abort, x: i64, y: i64) -> Pt {
    Pt::new(x, y).expect(rt, "a position")
}

// Puts a string between two points last, unless its number is in use.
fn put_string(
    rt: &impl Abort,
    map: &mut PlainMap,
    (number, from, to): (u32, u32, u32),
) -> Result<(), Memory> {
    let number = StringNo::new(number).expect(rt, "a number");
    if map.string(number).is_some() {
        return Ok(());
    }
    map.put_string(StringRow {
        number,
        from: point(rt, from),
        to: point(rt, to),
        sources: Numbers::new(map.allocator()),
    })
}

// Puts a point last, unless its number is in use.
fn put_point(rt: &impl Abort, map: &mut PlainMap, number: u32, position: Pt) -> Result<(), Memory> {
    let number = point(rt, number);
    if map.point(number).is_some() {
        return Ok(());
    }
    map.put_point(PointRow {
        number,
        position,
        sources: Numbers::new(map.allocator()),
    })
}

// A map of three strings, of whose ends point 2 alone has a row.
fn strings_alone(rt: &impl Abort, alloc: Global) -> Result<PlainMap, Memory> {
    let mut map = PlainMap::empty(alloc);
    put_point(rt, &mut map, 2, position(rt, 30, -4))?;
    for string in [(9, 2, 1), (4, 3, 3), (5, 1, 3)] {
        put_string(rt, &mut map, string)?;
    }
    Ok(map)
}

// Whether two strings end at a point, each with its far end, where that lies, and its place.
fn check_ends(rt: &impl Abort, stars: &Stars, at: u32, wanted: [(u32, i64, i64, usize); 2]) {
    let ends = stars.ends(point(rt, at));
    assert_eq!(rt; ends.len(), wanted.len());
    for (end, (far, x, y, place)) in ends.iter().zip(wanted) {
        assert!(rt; end.far == point(rt, far), "{at} {far}");
        assert!(rt; end.position == position(rt, x, y), "{at} {far}");
        assert_eq!(rt; end.place, place);
    }
}

#[test]
fn strings_stand_at_their_points_in_order(rt: HostRuntime) -> Result<(), Fail> {
    let map = strings_alone(&rt, rt.alloc())?;
    let stars = Stars::of(rt.alloc(), NumberHash::fixed(), &map)?;
    check_ends(&rt, &stars, 1, [(2, 30, -4, 0), (3, 0, 0, 2)]);
    // a string from a point to itself stands there once
    check_ends(&rt, &stars, 3, [(3, 0, 0, 1), (1, 0, 0, 2)]);
    assert!(rt; stars.ends(point(&rt, 4)).is_empty());
    Ok(())
}
