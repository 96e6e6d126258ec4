//! Whether touched points lie where others do.
ghost use Rattle.std.specs.Prelude.{◌↔◌, IsTrue};
ghost use Rattle.std.specs.List.{AllByRecursion};
ghost use Rattle.cad_map.specs.Valid.{HasSoundRows};
ghost use Rattle.cad_near.specs.Near.{HoldsMap, OfPoint, IsApart, IsAlone};

use cad_map::MapView;
use cad_rows::{PointNo, PointRow};
use cad_valid::is_same;
use cell_grid::CellGrid;

/// Whether no other point of the map lies where one of these does.
pub(crate) fn are_alone<M: MapView>(map: &M, grid: &CellGrid, points: &[PointNo]) -> bool
    requires sound { HasSoundRows (M.map map.now) }
    requires held { HoldsMap grid.now (M.map map.now) }
    ensures { IsTrue result
        ↔ AllByRecursion (OfPoint (M.map map.now) (IsAlone (M.map map.now))) points.now }
{
    points
        .iter()
        .all(|point| is_alone_if_there(map, grid, *point))
}

/// Whether no other point of the map lies where the one with this number does.
#[tactic(auto, using(crate::proofs::RowsByNumber::rows_found))]
fn is_alone_if_there<M: MapView>(map: &M, grid: &CellGrid, point: PointNo) -> bool
    requires sound { HasSoundRows (M.map map.now) }
    requires held { HoldsMap grid.now (M.map map.now) }
    ensures { IsTrue result ↔ OfPoint (M.map map.now) (IsAlone (M.map map.now)) point }
{
    match map.point(point) {
        Some(row) => is_alone(map, grid, row),
        None => true,
    }
}

/// Whether no other point of the map lies where this one does.
fn is_alone<M: MapView>(map: &M, grid: &CellGrid, point: &PointRow) -> bool
    requires sound { HasSoundRows (M.map map.now) }
    requires held { HoldsMap grid.now (M.map map.now) }
    ensures { IsTrue result ↔ IsAlone (M.map map.now) point.now }
{
    grid.point_candidates(point.position, point.position)
        .all(|other| is_apart_if_there(map, point, other.point))
}

/// Whether the point with a number is this one, or lies elsewhere.
#[tactic(auto, using(crate::proofs::RowsByNumber::rows_found))]
fn is_apart_if_there<M: MapView>(map: &M, point: &PointRow, other: PointNo) -> bool
    requires { HasSoundRows (M.map map.now) }
    ensures { IsTrue result ↔ OfPoint (M.map map.now) (IsApart point.now) other }
{
    match map.point(other) {
        Some(row) => is_apart(point, row),
        None => true,
    }
}

/// Whether another point is this one, or lies elsewhere.
fn is_apart(point: &PointRow, other: &PointRow) -> bool
    ensures { IsTrue result ↔ IsApart point.now other.now }
{
    other.number == point.number || !is_same(other.position, point.position)
}
