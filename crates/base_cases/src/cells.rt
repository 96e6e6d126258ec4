//! Grids of cells.
ghost use Rattle.std.specs.Prelude.{◌≡◌, [], false, OnOk, IfOk};
ghost use Rattle.cell_grid.specs.Grid.{HoldsString, HoldsPoint};
ghost use Rattle.cell_grid.specs.Together.{AreDistinct};

use crate::values::{Place, at, point, string};
use cad_rows::{Memory, PointNo, StringNo};
use cell_grid::{CellGrid, Entries};
use geo_exact::Pt;
use number_hash::NumberHash;
use std::alloc::Global;
use std::process::Abort;
use std::test::Fail;

// A square of a metre, with the triangle of an island in it.
const STRINGS: [(u32, Place, Place); 7] = [
    (11, (0, 0), (1000, 0)),
    (12, (1000, 0), (1000, 1000)),
    (13, (1000, 1000), (0, 1000)),
    (14, (0, 1000), (0, 0)),
    (31, (700, 300), (800, 300)),
    (32, (800, 300), (800, 500)),
    (33, (800, 500), (700, 300)),
];

const POINTS: [(u32, Place); 7] = [
    (1, (0, 0)),
    (2, (1000, 0)),
    (3, (1000, 1000)),
    (4, (0, 1000)),
    (6, (700, 300)),
    (7, (800, 300)),
    (8, (800, 500)),
];

// Whether a string is among the candidates of the segment ab. One that isn't can't lie there.
fn is_candidate(grid: &CellGrid, no: StringNo, a: Pt, b: Pt) -> bool
    ensures { result ≡ false → ¬ HoldsString grid.now no a b }
{
    for other in grid.candidates(a, b) {
        if other.string.get() == no.get() {
            return true;
        }
    }
    false
}

// And a point.
fn is_point_candidate(grid: &CellGrid, no: PointNo, a: Pt, b: Pt) -> bool
    ensures { result ≡ false → ¬ HoldsPoint grid.now no a }
{
    for other in grid.point_candidates(a, b) {
        if other.point.get() == no.get() {
            return true;
        }
    }
    false
}

// Which strings of the square and the island are candidates of a segment.
fn strings_near(rt: &impl Abort, grid: &CellGrid, from: Place, to: Place) -> [bool; 7] {
    let a = at(rt, from);
    let b = at(rt, to);
    [11, 12, 13, 14, 31, 32, 33].map(|no| is_candidate(grid, string(rt, no), a, b))
}

// And which points.
fn points_near(rt: &impl Abort, grid: &CellGrid, from: Place, to: Place) -> [bool; 7] {
    let a = at(rt, from);
    let b = at(rt, to);
    [1, 2, 3, 4, 6, 7, 8].map(|no| is_point_candidate(grid, point(rt, no), a, b))
}

const SOUTHWEST: Place = (0, 0);

const NORTHEAST: Place = (1000, 1000);

const WEST: i64 = -10_000_000_000;

const EAST: i64 = 10_000_000_000;

// A string or a point that is held: its number, and the coordinates between which it lies.
type Held = (u32, i64, i64, i64, i64);

// All strings that a grid holds, in order of their numbers.
fn all_strings(rt: &(impl Abort + AllocGlobal), grid: &CellGrid) -> Result<Vec<Held>, Memory> {
    let mut all = Vec::new(rt.alloc());
    for held in grid.candidates(at(rt, (WEST, WEST)), at(rt, (EAST, EAST))) {
        let (from, to) = (held.from, held.to);
        all.push((held.string.get(), from.x, from.y, to.x, to.y))?;
    }
    all.sort_unstable();
    Ok(all)
}

// And all points.
fn all_points(rt: &(impl Abort + AllocGlobal), grid: &CellGrid) -> Result<Vec<Held>, Memory> {
    let mut all = Vec::new(rt.alloc());
    for held in grid.point_candidates(at(rt, (WEST, WEST)), at(rt, (EAST, EAST))) {
        let place = held.position;
        all.push((held.point.get(), place.x, place.y, place.x, place.y))?;
    }
    all.sort_unstable();
    Ok(all)
}

// Fails where a grid holds something else.
fn check_held(
    rt: &(impl Abort + AllocGlobal),
    grid: &CellGrid,
    strings: &[Held],
    points: &[Held],
) -> Result<(), Memory> {
    let held = all_strings(rt, grid)?;
    assert!(rt; held.as_slice() == strings);
    let held = all_points(rt, grid)?;
    assert!(rt; held.as_slice() == points);
    Ok(())
}

// Puts a string in. A refused growth leaves what is held, and the string is put in again.
fn put(
    rt: &(impl Abort + AllocGlobal),
    grid: &mut CellGrid,
    no: StringNo,
    a: Pt,
    b: Pt,
) -> Result<(), Memory>
    ensures { OnOk result (HoldsString grid.new no a b) }
{
    let strings = all_strings(rt, grid)?;
    let points = all_points(rt, grid)?;
    assert!(rt; !is_candidate(grid, no, a, b));
    match grid.put_string(no, a, b) {
        Ok(()) => Ok(()),
        Err(_) => {
            check_held(rt, grid, strings.as_slice(), points.as_slice())?;
            assert!(rt; !is_candidate(grid, no, a, b));
            grid.put_string(no, a, b)
        }
    }
}

// And a point.
fn put_spot(
    rt: &(impl Abort + AllocGlobal),
    grid: &mut CellGrid,
    no: PointNo,
    a: Pt,
) -> Result<(), Memory>
    ensures { OnOk result (HoldsPoint grid.new no a) }
{
    let strings = all_strings(rt, grid)?;
    let points = all_points(rt, grid)?;
    assert!(rt; !is_point_candidate(grid, no, a, a));
    match grid.put_point(no, a) {
        Ok(()) => Ok(()),
        Err(_) => {
            check_held(rt, grid, strings.as_slice(), points.as_slice())?;
            assert!(rt; !is_point_candidate(grid, no, a, a));
            grid.put_point(no, a)
        }
    }
}

// Squares of a metre and of eight, with the strings and points of the square and the island.
fn filled(rt: &(impl Abort + AllocGlobal)) -> Result<CellGrid, Memory> {
    let mut grid = CellGrid::new(rt.alloc(), NumberHash::fixed(), 1000, 8000)?;
    for (number, from, to) in STRINGS {
        put(rt, &mut grid, string(rt, number), at(rt, from), at(rt, to))?;
    }
    for (number, place) in POINTS {
        put_spot(rt, &mut grid, point(rt, number), at(rt, place))?;
    }
    Ok(grid)
}

const ALL: [bool; 7] = [true, true, true, true, true, true, true];

// These strings are candidates of a segment.
fn strings_are(rt: &impl Abort, grid: &CellGrid, from: Place, to: Place, near: [bool; 7]) {
    assert_eq!(rt; strings_near(rt, grid, from, to), near);
}

// And these points.
fn points_are(rt: &impl Abort, grid: &CellGrid, from: Place, to: Place, near: [bool; 7]) {
    assert_eq!(rt; points_near(rt, grid, from, to), near);
}

#[test]
fn strings_and_points_put_again(rt: HostRuntime) -> Result<(), Fail> {
    let grid = filled(&rt)?;
    strings_are(&rt, &grid, SOUTHWEST, NORTHEAST, ALL);
    points_are(&rt, &grid, SOUTHWEST, NORTHEAST, ALL);
    strings_are(
        &rt,
        &grid,
        (0, 900),
        (100, 1000),
        [false, false, true, true, false, false, false],
    );
    points_are(
        &rt,
        &grid,
        (0, 0),
        (1000, 0),
        [true, true, false, false, false, false, false],
    );
    Ok(())
}

#[test]
fn far_away(rt: HostRuntime) -> Result<(), Fail> {
    let mut grid = filled(&rt)?;
    let no = string(&rt, 41);
    let a = at(&rt, (-1_000_000, 0));
    let b = at(&rt, (-1_001_000, 0));
    put(&rt, &mut grid, no, a, b)?;
    assert!(rt; is_candidate(&grid, no, a, b));
    let southwest = at(&rt, SOUTHWEST);
    let northeast = at(&rt, NORTHEAST);
    assert!(rt; !is_candidate(&grid, no, southwest, northeast));
    let least = at(&rt, (-10_000_000_000, -10_000_000_000));
    assert!(rt; is_candidate(&grid, no, least, northeast));
    strings_are(
        &rt,
        &grid,
        (-10_000_000_000, -10_000_000_000),
        NORTHEAST,
        ALL,
    );
    Ok(())
}

#[test]
fn long_string_from_its_middle(rt: HostRuntime) -> Result<(), Fail> {
    let mut grid = CellGrid::new(rt.alloc(), NumberHash::fixed(), 1000, 8000)?;
    let no = string(&rt, 51);
    let a = at(&rt, (0, 0));
    let b = at(&rt, (100_000, 100_000));
    put(&rt, &mut grid, no, a, b)?;
    let middle = at(&rt, (50_000, 50_000));
    assert!(rt; is_candidate(&grid, no, middle, middle));
    let beside = at(&rt, (50_000, 100_001));
    assert!(rt; !is_candidate(&grid, no, beside, beside));
    Ok(())
}

#[test]
fn taken_out(rt: HostRuntime) -> Result<(), Fail> {
    let mut grid = filled(&rt)?;
    let a = at(&rt, (-2500, 500));
    let b = at(&rt, (2500, 600));
    let no = string(&rt, 61);
    put(&rt, &mut grid, no, a, b)?;
    grid.take_string(no, a, b);
    assert!(rt; !is_candidate(&grid, no, a, b));
    let number = point(&rt, 9);
    put_spot(&rt, &mut grid, number, a)?;
    assert!(rt; is_point_candidate(&grid, number, a, b));
    grid.take_point(number, a);
    assert!(rt; !is_point_candidate(&grid, number, a, b));
    strings_are(&rt, &grid, SOUTHWEST, NORTHEAST, ALL);
    points_are(&rt, &grid, SOUTHWEST, NORTHEAST, ALL);
    Ok(())
}

#[test]
fn strings_across_many_cells(rt: HostRuntime) -> Result<(), Fail> {
    let mut grid = CellGrid::new(rt.alloc(), NumberHash::fixed(), 1000, 8000)?;
    let a = at(&rt, (0, 0));
    let below = at(&rt, (30_000, -5));
    let above = at(&rt, (30_000, 5));
    // 61 of the smaller squares, each of which has it, and 71, so that it stands in others.
    for (number, east) in [(61, 60_000), (71, 70_000)] {
        let no = string(&rt, number);
        put(&rt, &mut grid, no, a, at(&rt, (east, 0)))?;
        assert!(rt; is_candidate(&grid, no, below, above));
    }
    Ok(())
}

// Strings along both axes, each over more than 64 squares of a metre and in one lane, or in four;
// and a long one.
const LONG: [(u32, Place, Place); 5] = [
    (71, (0, 0), (70_000, 0)),
    (72, (0, 0), (0, 70_000)),
    (73, (-1_500_000_000, 5), (1_500_000_000, 905)),
    (74, (5, -1_500_000_000), (905, 1_500_000_000)),
    (75, (0, 0), (100_000, -100_000)),
];

// Which of them are candidates of a segment.
fn long_near(rt: &impl Abort, grid: &CellGrid, from: Place, to: Place) -> [bool; 5] {
    let a = at(rt, from);
    let b = at(rt, to);
    [71, 72, 73, 74, 75].map(|no| is_candidate(grid, string(rt, no), a, b))
}

// Puts one of them in, takes it out and puts it in again.
fn put_twice(
    rt: &(impl Abort + AllocGlobal),
    grid: &mut CellGrid,
    no: StringNo,
    a: Pt,
    b: Pt,
) -> Result<(), Memory> {
    put(rt, grid, no, a, b)?;
    assert!(rt; is_candidate(grid, no, a, a));
    assert!(rt; is_candidate(grid, no, b, b));
    grid.take_string(no, a, b);
    assert!(rt; !is_candidate(grid, no, a, a));
    assert!(rt; !is_candidate(grid, no, b, b));
    put(rt, grid, no, a, b)
}

// All of them.
fn fill_long(rt: &(impl Abort + AllocGlobal), grid: &mut CellGrid) -> Result<(), Memory> {
    for (number, from, to) in LONG {
        let no = string(rt, number);
        put_twice(rt, grid, no, at(rt, from), at(rt, to))?;
    }
    Ok(())
}

// One that stands in a smaller square of a metre, one in squares of eight, one in lanes either way,
// and a long one.
const EACH_KIND: [(u32, Place, Place); 5] = [
    (81, (0, 0), (900, 900)),
    (82, (0, 0), (70_000, 900)),
    (83, (-1_500_000_000, 0), (1_500_000_000, 900)),
    (84, (0, -1_500_000_000), (900, 1_500_000_000)),
    (85, (0, 0), (100_000, 100_000)),
];

#[test]
fn each_kind_of_cell_put_again(rt: HostRuntime) -> Result<(), Fail> {
    let mut grid = CellGrid::new(rt.alloc(), NumberHash::fixed(), 1000, 8000)?;
    for (number, from, to) in EACH_KIND {
        let no = string(&rt, number);
        put_twice(&rt, &mut grid, no, at(&rt, from), at(&rt, to))?;
    }
    let middle = at(&rt, (450, 450));
    let beside = at(&rt, (100_001, -1));
    for (number, _, _) in EACH_KIND {
        assert!(rt; is_candidate(&grid, string(&rt, number), middle, middle));
        assert!(rt; !is_candidate(&grid, string(&rt, number), beside, beside));
    }
    Ok(())
}

// What is seen of them from a segment.
const LOOKS: [(Place, Place, [bool; 5]); 8] = [
    ((0, 0), (0, 0), [true, true, false, false, true]),
    ((0, 10), (10, 20), [false, true, true, true, false]),
    (
        (-999_999_999, 0),
        (-999_999_990, 10),
        [false, false, true, false, false],
    ),
    (
        (900, 999_999_990),
        (910, 1_000_000_010),
        [false, false, false, true, false],
    ),
    (
        (100_001, 0),
        (200_000, 0),
        [false, false, false, false, false],
    ),
    ((WEST, WEST), (EAST, EAST), [true, true, true, true, true]),
    (
        (WEST, 1000),
        (EAST, 2000),
        [false, true, false, true, false],
    ),
    ((1000, EAST), (2000, WEST), [true, false, true, false, true]),
];

#[test]
fn lanes_both_ways(rt: HostRuntime) -> Result<(), Fail> {
    let mut grid = CellGrid::new(rt.alloc(), NumberHash::fixed(), 1000, 1000)?;
    fill_long(&rt, &mut grid)?;
    for (from, to, seen) in LOOKS {
        assert_eq!(rt; long_near(&rt, &grid, from, to), seen);
    }
    Ok(())
}

#[test]
fn very_wide_search(rt: HostRuntime) -> Result<(), Fail> {
    let mut grid = filled(&rt)?;
    fill_long(&rt, &mut grid)?;
    points_are(&rt, &grid, (WEST, WEST), (EAST, EAST), ALL);
    strings_are(
        &rt,
        &grid,
        (WEST, 450),
        (EAST, 950),
        [false, true, false, true, false, true, true],
    );
    Ok(())
}

const RAYS: u32 = 200;

// One of many strings from one point: near ones in the smaller squares, and far ones in others, in
// lanes or long.
fn ray(rt: &impl Abort, number: u32) -> (Pt, Pt) {
    let turn = number as i64;
    let end = if number % 2 == 0 {
        (turn, 900)
    } else {
        (90_000, turn * 1000)
    };
    (at(rt, (0, 0)), at(rt, end))
}

// All of them.
fn star(rt: &impl Abort, alloc: Global) -> Result<Entries, Memory>
    ensures once { IfOk result (λ entries. AreDistinct entries.strings) }
    ensures points { IfOk result (λ entries. entries.points ≡ []) }
{
    let mut entries = Entries::new(alloc);
    for number in 1..RAYS {
        let (a, b) = ray(rt, number);
        entries.add_string(string(rt, number), a, b)?;
    }
    Ok(entries)
}

// How many of them are candidates.
fn rays_near(rt: &impl Abort, grid: &CellGrid) -> u32 {
    let mut count = 0;
    for number in 1..RAYS {
        let (a, b) = ray(rt, number);
        if is_candidate(grid, string(rt, number), a, b) {
            count += 1;
        }
    }
    count
}

#[test]
fn many_taken_out_together(rt: HostRuntime) -> Result<(), Fail> {
    let mut grid = CellGrid::new(rt.alloc(), NumberHash::fixed(), 1000, 8000)?;
    let star = star(&rt, rt.alloc())?;
    grid.put_all(&star)?;
    assert_eq!(rt; rays_near(&rt, &grid), 199);
    grid.take_all(&star);
    assert_eq!(rt; rays_near(&rt, &grid), 0);
    grid.put_all(&star)?;
    assert_eq!(rt; rays_near(&rt, &grid), 199);
    Ok(())
}
