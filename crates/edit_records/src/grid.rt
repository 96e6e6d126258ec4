//! The grid of a map's strings and points.
ghost use Rattle.std.specs.Prelude.{◌≤◌, IfOk, OnOk, OnErr};
ghost use Rattle.cad_map.specs.Map.{Map};
ghost use Rattle.cad_map.specs.Valid.{HasSoundRows};
ghost use Rattle.cell_grid.specs.Cells.{IsSide};
ghost use Rattle.cell_grid.specs.Kept.{HoldsNone, HoldsSame};
ghost use Rattle.cell_grid.specs.Together.{Listed};
ghost use Rattle.edit_records.specs.Gridded.{HoldsJust, IsGridOf, string_entries, point_entries};
ghost use Rattle.edit_records.specs.Exchanged.{IsExchange, IsGridOfBoth, CanEnter, CanLeave};

use cad_map::{MapView, PlainMap, position};
use cad_rows::{Memory, StringRow};
use cell_grid::{CellGrid, Entries};
use std::alloc::Global;

/// The side of the squares, which is also the greatest of the smaller ones, in millimetres. Sides of
/// cells are powers of two.
const CELL_SIDE: u64 = 131_072;

/// The least side of the smaller squares, in millimetres.
const LEAST_SIDE: u64 = 1_024;

/// How many times the mean extent of a string the side of the smaller squares is.
const EXTENTS_A_SIDE: u64 = 4;

/// How many strings of a map are measured at most.
const MEASURED: usize = 1_000;

// How far the box of a string goes from west to east or from south to north, whichever is more.
fn extent(map: &PlainMap, row: &StringRow) -> u64
    ensures { result ≤ 20_000_000_000 }
{
    let from = position(map, row.from);
    let to = position(map, row.to);
    from.x.abs_diff(to.x).max(from.y.abs_diff(to.y))
}

// The side of the smaller squares in the grid of a map, by the mean extent of some of its strings,
// which are taken evenly over all.
fn small_side(map: &PlainMap) -> u64
    ensures { IsSide result }
{
    let step = map.counts().strings / MEASURED + 1;
    let mut total = 0;
    let mut measured = 0;
    for turn in 0..MEASURED {
        if let Some(row) = map.string_at(turn * step) {
            total += extent(map, row);
            measured += 1;
        }
    }
    if measured == 0 {
        return CELL_SIDE;
    }
    (EXTENTS_A_SIDE * total / measured).clamp(LEAST_SIDE, CELL_SIDE)
}

// Puts the strings of a map, at the positions of their ends, into a grid that holds none.
fn put_strings(grid: &mut CellGrid, map: &PlainMap) -> Result<(), Memory>
    requires sound { HasSoundRows map.now }
    requires none { HoldsNone grid.old.strings }
    ensures strings { OnOk result (HoldsJust (string_entries map.now) grid.new.strings) }
    ensures points { OnOk result (HoldsSame grid.old.points grid.new.points) }
{
    for place in 0..map.counts().strings {
        let row = map.string_at(place).unwrap();
        grid.put_string(row.number, position(map, row.from), position(map, row.to))?;
    }
    Ok(())
}

// Puts the points of a map, at their positions, into a grid that holds none.
fn put_points(grid: &mut CellGrid, map: &PlainMap) -> Result<(), Memory>
    requires sound { HasSoundRows map.now }
    requires none { HoldsNone grid.old.points }
    ensures points { OnOk result (HoldsJust (point_entries map.now) grid.new.points) }
    ensures strings { OnOk result (HoldsSame grid.old.strings grid.new.strings) }
{
    for place in 0..map.counts().points {
        let row = map.point_at(place).unwrap();
        grid.put_point(row.number, row.position)?;
    }
    Ok(())
}

/// A grid that holds just a map's strings and points, at their positions.
pub fn grid_of(alloc: Global, map: &PlainMap) -> Result<CellGrid, Memory>
    requires { HasSoundRows map.now }
    ensures { IfOk result (λ grid. IsGridOf grid map.now) }
{
    let mut grid = CellGrid::new(alloc, map.hash(), small_side(map), CELL_SIDE)?;
    put_strings(&mut grid, map)?;
    put_points(&mut grid, map)?;
    Ok(grid)
}

/// Puts what comes into the grid of a map: all of it, or none where memory runs out. Then the grid
/// is that of the map before and of the map after.
pub fn enter(grid: &mut CellGrid, come: &Entries) -> Result<(), Memory>
    requires { CanEnter grid.old come.now }
    ensures both { OnOk result ((old new : Map) (gone : Listed) → IsGridOf grid.old old
        → IsExchange old gone come.now new → IsGridOfBoth grid.new old new) }
    ensures err { OnErr result ((old : Map) → IsGridOf grid.old old → IsGridOf grid.new old) }
{
    grid.put_all(come)
}

/// Takes what goes out of the grid of two maps. Then it is that of the second alone. It takes no
/// memory.
pub fn withdraw(grid: &mut CellGrid, gone: &Entries)
    requires { CanLeave grid.old gone.now }
    ensures { (old new : Map) (come : Listed) → IsGridOfBoth grid.old old new
        → IsExchange old gone.now come new → IsGridOf grid.new new }
{
    grid.take_all(gone);
}
