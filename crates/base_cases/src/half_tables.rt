//! Tables of half-edges.
ghost use Rattle.std.specs.Prelude.{◌≡◌, ◌<◌, true};
ghost use Rattle.half_table.specs.Rows.{has};

use crate::values::{point, string};
use cad_rows::{Face, Memory, ParcelNo, PointNo};
use half_table::{Half, HalfTable, Ticks};
use number_hash::NumberHash;
use std::alloc::{AllocError, Global};
use std::process::Abort;
use std::test::Fail;

/// A half by its string and direction.
type Named = (u32, bool);

fn half(rt: &impl Abort, table: &HalfTable<Ticks>, number: u32, forward: bool) -> Half
    ensures { has table.now.rows result ≡ true }
{
    let string = string(rt, number);
    assert!(rt; table.has_string(string));
    Half { string, forward }
}

fn add(
    rt: &impl Abort,
    table: &mut HalfTable<Ticks>,
    number: u32,
    from: u32,
    to: u32,
) -> Result<(), Memory> {
    let string = string(rt, number);
    assert!(rt; !table.has_string(string));
    table.add_loose(string, point(rt, from), point(rt, to))
}

/// What is seen of halves: what comes before and after each, where it begins, and the face that has it.
type Seen = (Half, Half, PointNo, Face);

/// What is seen of a half.
fn seen_of(rt: &impl Abort, table: &HalfTable<Ticks>, number: u32, forward: bool) -> Seen {
    (
        table.prev(half(rt, table, number, forward)),
        table.next(half(rt, table, number, forward)),
        table.origin(half(rt, table, number, forward)),
        table.face(half(rt, table, number, forward)),
    )
}

/// What is seen of the halves of the first so many strings.
fn all_seen(
    rt: &impl Abort,
    alloc: Global,
    table: &HalfTable<Ticks>,
    strings: u32,
) -> Result<Vec<Seen>, AllocError> {
    let mut seen = Vec::new(alloc);
    for before in 0..strings {
        seen.push(seen_of(rt, table, before + 1, true))?;
        seen.push(seen_of(rt, table, before + 1, false))?;
    }
    Ok(seen)
}

/// Adds the string behind the first so many, from one point to another. Where a growth is refused, the table is as it was,
/// and the string is added again.
fn add_again(
    rt: &impl Abort,
    alloc: Global,
    table: &mut HalfTable<Ticks>,
    strings: u32,
    ends: (u32, u32),
) -> Result<(), Memory>
    requires { strings < 1000 }
{
    let string = string(rt, strings + 1);
    let (from, to) = (point(rt, ends.0), point(rt, ends.1));
    let before = all_seen(rt, alloc, table, strings)?;
    let work = table.work();
    assert!(rt; !table.has_string(string));
    match table.add_loose(string, from, to) {
        Ok(()) => Ok(()),
        Err(_) => {
            let now = all_seen(rt, alloc, table, strings)?;
            assert!(rt; now.as_slice() == before.as_slice());
            assert_eq!(rt; table.work(), work);
            assert!(rt; !table.has_string(string));
            table.add_loose(string, from, to)
        }
    }
}

fn remove(rt: &impl Abort, table: &mut HalfTable<Ticks>, number: u32) {
    let string = string(rt, number);
    let forward = Half {
        string,
        forward: true,
    };
    let backward = Half {
        string,
        forward: false,
    };
    assert!(rt; table.has_string(string));
    let after = table.next(Half {
        string,
        forward: true,
    });
    let before = table.next(Half {
        string,
        forward: false,
    });
    assert!(rt; after == backward);
    assert!(rt; before == forward);
    table.remove_loose(string);
}

/// Splices after two halves.
fn splice(rt: &impl Abort, table: &mut HalfTable<Ticks>, a: Named, b: Named) {
    let a = half(rt, table, a.0, a.1);
    let b = half(rt, table, b.0, b.1);
    table.splice(a, b);
}

/// Adds strings by their numbers and points, and splices after each two halves.
fn fill(
    rt: &impl Abort,
    table: &mut HalfTable<Ticks>,
    strings: &[(u32, u32, u32)],
    spliced: &[(Named, Named)],
) -> Result<(), Memory> {
    for (number, from, to) in strings {
        add(rt, table, *number, *from, *to)?;
    }
    for (a, b) in spliced {
        splice(rt, table, *a, *b);
    }
    Ok(())
}

/// Links a half as it was, and gives it a face.
fn linked_again(table: HalfTable<Ticks>, at: &Half, face: Face) -> HalfTable<Ticks>
    requires { has table.rows at.now ≡ true }
{
    let before = table.prev(*at);
    let after = table.next(*at);
    let mut open = table.open();
    open.link(*at, before, after, face);
    open.close()
}

/// The numbers and directions of the halves from one on.
fn walked(
    rt: &impl Abort,
    alloc: Global,
    table: &HalfTable<Ticks>,
    number: u32,
    forward: bool,
) -> Result<Vec<Named>, AllocError> {
    let mut halves = Vec::new(alloc);
    for half in table.walk(half(rt, table, number, forward)) {
        halves.push((half.string.get(), half.forward))?;
    }
    Ok(halves)
}

/// The halves from one on are these.
fn goes_on(
    rt: &impl Abort,
    alloc: Global,
    table: &HalfTable<Ticks>,
    from: Named,
    wanted: &[Named],
) -> Result<(), AllocError> {
    let halves = walked(rt, alloc, table, from.0, from.1)?;
    assert_eq!(rt; halves.as_slice(), wanted, "from {}", from.0);
    Ok(())
}

fn parcel(rt: &impl Abort, number: u32) -> Face {
    Face::Parcel(ParcelNo::new(number).expect(rt, "number"))
}

/// Whether a half has a face.
fn has_face(rt: &impl Abort, table: &HalfTable<Ticks>, at: Named, face: &Face) -> bool {
    table.face(half(rt, table, at.0, at.1)) == *face
}

/// Gives the halves of a cycle a face.
fn relabel(rt: &impl Abort, table: &mut HalfTable<Ticks>, at: Named, face: &Face) {
    let at = half(rt, table, at.0, at.1);
    table.relabel(at, *face);
}

#[test]
fn splices_two_loose_strings(rt: HostRuntime) -> Result<(), Fail> {
    let alloc = rt.alloc();
    let mut table = HalfTable::new(alloc, NumberHash::fixed(), Ticks::new());
    fill(&rt, &mut table, &[(11, 1, 2), (12, 2, 3)], &[])?;
    assert_eq!(rt; table.work(), 2);
    splice(&rt, &mut table, (11, true), (12, false));
    let around = [(11, true), (12, true), (12, false), (11, false)];
    goes_on(&rt, alloc, &table, (11, true), &around)?;
    splice(&rt, &mut table, (11, true), (12, false));
    goes_on(&rt, alloc, &table, (11, true), &[(11, true), (11, false)])?;
    splice(&rt, &mut table, (11, true), (11, true));
    assert_eq!(rt; table.work(), 5);
    remove(&rt, &mut table, 12);
    assert_eq!(rt; table.work(), 6);
    Ok(())
}

#[test]
fn finds_strings_that_came_out_of_turn(rt: HostRuntime) -> Result<(), Fail> {
    let alloc = rt.alloc();
    let mut table = HalfTable::new(alloc, NumberHash::fixed(), Ticks::new());
    fill(&rt, &mut table, &[(12, 2, 3), (14, 3, 4), (11, 1, 2)], &[])?;
    splice(&rt, &mut table, (11, true), (12, false));
    splice(&rt, &mut table, (12, true), (14, false));
    let around = [
        (14, false),
        (12, false),
        (11, false),
        (11, true),
        (12, true),
        (14, true),
    ];
    goes_on(&rt, alloc, &table, (14, false), &around)?;
    Ok(())
}

const TRIANGLE: [(u32, u32, u32); 3] = [(31, 6, 7), (32, 7, 8), (33, 8, 6)];

const CORNERS: [(Named, Named); 3] = [
    ((31, true), (32, false)),
    ((32, true), (33, false)),
    ((33, true), (31, false)),
];

#[test]
fn builds_a_triangular_island(rt: HostRuntime) -> Result<(), Fail> {
    let alloc = rt.alloc();
    let mut table = HalfTable::new(alloc, NumberHash::fixed(), Ticks::new());
    fill(&rt, &mut table, &TRIANGLE, &CORNERS)?;
    let inside = [(31, true), (32, true), (33, true)];
    goes_on(&rt, alloc, &table, (31, true), &inside)?;
    let outside = [(31, false), (33, false), (32, false)];
    goes_on(&rt, alloc, &table, (31, false), &outside)?;
    assert_eq!(rt; table.work(), 6);

    let inner = parcel(&rt, 2);
    let outer = parcel(&rt, 1);
    relabel(&rt, &mut table, (31, true), &inner);
    relabel(&rt, &mut table, (32, false), &outer);
    assert_eq!(rt; table.work(), 12);
    assert!(rt; has_face(&rt, &table, (33, true), &inner));
    assert!(rt; has_face(&rt, &table, (33, false), &outer));
    Ok(())
}

#[test]
fn a_half_is_linked_in_an_open_table(rt: HostRuntime) -> Result<(), Fail> {
    let alloc = rt.alloc();
    let mut table = HalfTable::with_room(alloc, NumberHash::fixed(), 2, Ticks::new())?;
    let spliced = [((11, true), (12, false))];
    fill(&rt, &mut table, &[(11, 1, 2), (12, 2, 3)], &spliced)?;
    let inner = parcel(&rt, 2);
    let at = half(&rt, &table, 12, true);
    let table = linked_again(table, &at, inner);
    let around = [(12, false), (11, false), (11, true), (12, true)];
    goes_on(&rt, alloc, &table, (12, false), &around)?;
    assert!(rt; has_face(&rt, &table, (12, true), &inner));
    assert!(rt; has_face(&rt, &table, (12, false), &Face::Outside));
    assert_eq!(rt; table.work(), 4);
    Ok(())
}

#[test]
fn reads_a_loose_string(rt: HostRuntime) -> Result<(), Fail> {
    let mut table = HalfTable::new(rt.alloc(), NumberHash::fixed(), Ticks::new());
    add(&rt, &mut table, 33, 8, 6)?;
    let back = table.twin(half(&rt, &table, 33, true));
    assert!(rt; !back.forward);
    assert_eq!(rt; table.origin(half(&rt, &table, 33, true)).get(), 8);
    assert_eq!(rt; table.origin(half(&rt, &table, 33, false)).get(), 6);
    assert!(rt; table.next(half(&rt, &table, 33, true)).string.get() == 33);
    assert!(rt; table.prev(half(&rt, &table, 33, true)).string.get() == 33);
    assert!(rt; has_face(&rt, &table, (33, true), &Face::Outside));
    Ok(())
}

/// How many strings a larger ring has. Its table grows several times.
const RING: u32 = 40;

/// The halves inside the ring, from that of its first string on.
fn inside_ring(alloc: Global) -> Result<Vec<Named>, AllocError> {
    let mut halves = Vec::new(alloc);
    for before in 0..RING {
        halves.push((before + 1, true))?;
    }
    Ok(halves)
}

/// The halves outside, the other way round.
fn outside_ring(alloc: Global) -> Result<Vec<Named>, AllocError> {
    let mut halves = Vec::new(alloc);
    halves.push((1, false))?;
    for passed in 1..RING {
        halves.push((RING + 1 - passed, false))?;
    }
    Ok(halves)
}

/// The table of the ring, whose strings are added one after another and each spliced to the one before it.
fn ring(rt: &impl Abort, alloc: Global) -> Result<HalfTable<Ticks>, Memory> {
    let mut table = HalfTable::new(alloc, NumberHash::fixed(), Ticks::new());
    for before in 0..RING {
        let number = before + 1;
        add_again(rt, alloc, &mut table, before, (number, number % RING + 1))?;
        if before > 0 {
            splice(rt, &mut table, (before, true), (number, false));
        }
    }
    splice(rt, &mut table, (RING, true), (1, false));
    Ok(table)
}

#[test]
fn strings_of_a_ring_added_again(rt: HostRuntime) -> Result<(), Fail> {
    let alloc = rt.alloc();
    let table = ring(&rt, alloc)?;
    assert_eq!(rt; table.work(), 80);
    let inside = inside_ring(alloc)?;
    goes_on(&rt, alloc, &table, (1, true), inside.as_slice())?;
    let outside = outside_ring(alloc)?;
    goes_on(&rt, alloc, &table, (1, false), outside.as_slice())?;
    Ok(())
}
