//! The rings of one face, set in the place of others and taken out with their parcel.

use cad_map::{MapView, PlainMap};
use cad_rings::Ring;
use cad_rows::{Face, Label, Memory, Numbers, ParcelNo, ParcelRow, PointNo};
use std::alloc::Global;
use std::process::Abort;
use std::test::Fail;

// A ring of three points.
fn ring(rt: &impl Abort, alloc: Global, points: [u32; 3]) -> Result<Ring, Memory> {
    let [a, b, c] = points;
    let points = [
        PointNo::new(a).expect(rt, "a number"),
        PointNo::new(b).expect(rt, "a number"),
        PointNo::new(c).expect(rt, "a number"),
    ];
    Ring::from_points(alloc, points.as_slice())
}

// Sets the rings of a face.
fn set(rt: &impl Abort, map: &mut PlainMap, face: Face, rings: &[[u32; 3]]) -> Result<(), Memory> {
    let alloc = map.allocator();
    let mut given = Vec::new(alloc);
    for points in rings {
        given.push(ring(rt, alloc, *points)?)?;
    }
    map.set_rings(face, given)
}

// Whether a map has these rings of a face, in this order.
fn has(map: &PlainMap, face: Face, wanted: &[[u32; 3]]) -> bool {
    let run = map.run_of(face);
    if run.len() != wanted.len() {
        return false;
    }
    for place in 0..run.len() {
        let points = run[place].ring.points();
        for (point, number) in points.iter().zip(wanted[place].iter()) {
            if point.get() != *number {
                return false;
            }
        }
    }
    true
}

// Puts a parcel last, unless its number is in use.
fn put_parcel(map: &mut PlainMap, number: ParcelNo, label: Label) -> Result<(), Memory> {
    if map.parcel(number).is_some() {
        return Ok(());
    }
    map.put_parcel(ParcelRow {
        number,
        label,
        sources: Numbers::new(map.allocator()),
    })
}

#[test]
fn rings_set_and_taken_out(rt: HostRuntime) -> Result<(), Fail> {
    let mut map = PlainMap::empty(rt.alloc());
    let number = ParcelNo::new(7).expect(&rt, "a number");
    let label = Label::new(rt.alloc(), "Field")?.expect(&rt, "a label");
    put_parcel(&mut map, number, label)?;
    let parcel = Face::Parcel(number);
    set(&rt, &mut map, parcel, &[[3, 1, 2]])?;
    set(&rt, &mut map, Face::Outside, &[[2, 1, 3]])?;
    assert!(rt; has(&map, parcel, &[[1, 2, 3]]) && has(&map, Face::Outside, &[[1, 3, 2]]));
    set(&rt, &mut map, parcel, &[[9, 8, 7], [3, 1, 2]])?;
    assert!(rt;
        has(&map, parcel, &[[1, 2, 3], [7, 9, 8]]) && has(&map, Face::Outside, &[[1, 3, 2]])
    );
    map.take_parcel(number);
    assert!(rt; has(&map, parcel, &[]) && has(&map, Face::Outside, &[[1, 3, 2]]));
    Ok(())
}
