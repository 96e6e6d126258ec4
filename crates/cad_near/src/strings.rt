//! Whether touched strings and points meet others only at ends.
ghost use Rattle.std.specs.Prelude.{◌≡◌, ◌↔◌, IsTrue};
ghost use Rattle.std.specs.List.{AllByRecursion};
ghost use Rattle.cad_map.specs.Valid.{LiesOnlyAsEnd};
ghost use Rattle.cad_map.specs.Crossings.{HasPlacedRows, HasTwoPoints};
ghost use Rattle.cad_valid.specs.Placed.{placed_string as placed_string_of, placed_point as placed_point_of};
ghost use Rattle.cad_near.specs.Near.{HoldsMap, OfPoint, OfString, MeetsIfOther, MeetsAtEnds};
ghost use Rattle.cad_near.specs.Near.{BearsEnds, LiesAtEnds, IsUncrossed};

use cad_map::MapView;
use cad_rows::{PointNo, PointRow, StringNo, StringRow};
use cad_valid::{
    Placed, lies_only_as_end, meet_at_ends, placed_beside, placed_point, placed_string,
};
use cell_grid::CellGrid;

/// Whether each of these strings meets others only at shared ends, and bears no point but its ends.
pub(crate) fn are_uncrossed<M: MapView>(map: &M, grid: &CellGrid, strings: &[StringNo]) -> bool
    requires rows { HasPlacedRows (M.map map.now) }
    requires held { HoldsMap grid.now (M.map map.now) }
    ensures { IsTrue result
        ↔ AllByRecursion (OfString (M.map map.now) (IsUncrossed (M.map map.now))) strings.now }
{
    strings
        .iter()
        .all(|string| is_uncrossed_if_there(map, grid, *string))
}

/// Whether nothing crosses the string with a number.
#[tactic(auto, using(crate::proofs::RowsByNumber::rows_found))]
fn is_uncrossed_if_there<M: MapView>(map: &M, grid: &CellGrid, string: StringNo) -> bool
    requires rows { HasPlacedRows (M.map map.now) }
    requires held { HoldsMap grid.now (M.map map.now) }
    ensures { IsTrue result ↔ OfString (M.map map.now) (IsUncrossed (M.map map.now)) string }
{
    match map.string(string) {
        Some(row) => is_uncrossed(map, grid, row),
        None => true,
    }
}

/// Whether nothing crosses a string.
fn is_uncrossed<M: MapView>(map: &M, grid: &CellGrid, string: &StringRow) -> bool
    requires rows { HasPlacedRows (M.map map.now) }
    requires held { HoldsMap grid.now (M.map map.now) }
    requires placed { HasTwoPoints (M.map map.now) string.now }
    ensures { IsTrue result ↔ IsUncrossed (M.map map.now) string.now }
{
    let here = placed_string(map, string);
    meets_at_ends(map, grid, string, &here) && bears_ends(map, grid, string, &here)
}

/// Whether a string meets all others only at shared ends. `here`: as it lies on the map.
fn meets_at_ends<M: MapView>(map: &M, grid: &CellGrid, string: &StringRow, here: &Placed) -> bool
    requires rows { HasPlacedRows (M.map map.now) }
    requires held { HoldsMap grid.now (M.map map.now) }
    requires placed { HasTwoPoints (M.map map.now) string.now }
    requires here { here.now ≡ placed_string_of (M.map map.now) string.now }
    ensures { IsTrue result ↔ MeetsAtEnds (M.map map.now) string.now }
{
    grid.candidates(here.a, here.b)
        .all(|other| meets_if_there(map, string, here, other.string))
}

/// Whether the string with a number is this one, or meets it only at a shared end.
#[tactic(auto, using(crate::proofs::RowsByNumber::rows_found))]
fn meets_if_there<M: MapView>(map: &M, string: &StringRow, here: &Placed, other: StringNo) -> bool
    requires rows { HasPlacedRows (M.map map.now) }
    requires placed { HasTwoPoints (M.map map.now) string.now }
    requires here { here.now ≡ placed_string_of (M.map map.now) string.now }
    ensures { IsTrue result
        ↔ OfString (M.map map.now) (MeetsIfOther (M.map map.now) string.now) other }
{
    match map.string(other) {
        Some(row) => meets_if_other(map, string, here, row),
        None => true,
    }
}

/// Whether a string is this one, or meets it only at a shared end.
fn meets_if_other<M: MapView>(map: &M, string: &StringRow, here: &Placed, other: &StringRow) -> bool
    requires rows { HasPlacedRows (M.map map.now) }
    requires placed { HasTwoPoints (M.map map.now) string.now }
    requires here { here.now ≡ placed_string_of (M.map map.now) string.now }
    requires other_placed { HasTwoPoints (M.map map.now) other.now }
    ensures { IsTrue result ↔ MeetsIfOther (M.map map.now) string.now other.now }
{
    if other.number.get() == string.number.get() {
        return true;
    }
    meet_at_ends(here, &placed_beside(map, here, other))
}

/// Whether no point lies on a string but as its end. `here`: the string as it lies on the map.
fn bears_ends<M: MapView>(map: &M, grid: &CellGrid, string: &StringRow, here: &Placed) -> bool
    requires rows { HasPlacedRows (M.map map.now) }
    requires held { HoldsMap grid.now (M.map map.now) }
    requires here { here.now ≡ placed_string_of (M.map map.now) string.now }
    ensures { IsTrue result ↔ BearsEnds (M.map map.now) string.now }
{
    grid.point_candidates(here.a, here.b)
        .all(|held| bears_if_there(map, string, here, held.point))
}

/// Whether the point with a number doesn't lie on this string, or is one of its ends.
#[tactic(auto, using(crate::proofs::RowsByNumber::rows_found))]
fn bears_if_there<M: MapView>(map: &M, string: &StringRow, here: &Placed, point: PointNo) -> bool
    requires rows { HasPlacedRows (M.map map.now) }
    requires here { here.now ≡ placed_string_of (M.map map.now) string.now }
    ensures { IsTrue result
        ↔ OfPoint (M.map map.now) (λ p. LiesOnlyAsEnd (M.map map.now) p string.now) point }
{
    match map.point(point) {
        Some(row) => lies_only_as_end(&placed_point(row), here),
        None => true,
    }
}

/// Whether each of these points lies on strings only as their end.
pub(crate) fn lie_at_ends<M: MapView>(map: &M, grid: &CellGrid, points: &[PointNo]) -> bool
    requires rows { HasPlacedRows (M.map map.now) }
    requires held { HoldsMap grid.now (M.map map.now) }
    ensures { IsTrue result
        ↔ AllByRecursion (OfPoint (M.map map.now) (LiesAtEnds (M.map map.now))) points.now }
{
    points
        .iter()
        .all(|point| lies_at_ends_if_there(map, grid, *point))
}

/// Whether the point with a number lies on strings only as their end.
#[tactic(auto, using(crate::proofs::RowsByNumber::rows_found))]
fn lies_at_ends_if_there<M: MapView>(map: &M, grid: &CellGrid, point: PointNo) -> bool
    requires rows { HasPlacedRows (M.map map.now) }
    requires held { HoldsMap grid.now (M.map map.now) }
    ensures { IsTrue result ↔ OfPoint (M.map map.now) (LiesAtEnds (M.map map.now)) point }
{
    match map.point(point) {
        Some(row) => lies_at_ends(map, grid, row),
        None => true,
    }
}

/// Whether a point lies on strings only as their end.
fn lies_at_ends<M: MapView>(map: &M, grid: &CellGrid, point: &PointRow) -> bool
    requires rows { HasPlacedRows (M.map map.now) }
    requires held { HoldsMap grid.now (M.map map.now) }
    ensures { IsTrue result ↔ LiesAtEnds (M.map map.now) point.now }
{
    grid.candidates(point.position, point.position)
        .all(|held| lies_if_there(map, point, held.string))
}

/// Whether a point doesn't lie on the string with a number, or is one of its ends.
#[tactic(auto, using(crate::proofs::RowsByNumber::rows_found))]
fn lies_if_there<M: MapView>(map: &M, point: &PointRow, string: StringNo) -> bool
    requires { HasPlacedRows (M.map map.now) }
    ensures { IsTrue result
        ↔ OfString (M.map map.now) (LiesOnlyAsEnd (M.map map.now) point.now) string }
{
    match map.string(string) {
        Some(row) => lies_only_as_end(&placed_point(point), &placed_string(map, row)),
        None => true,
    }
}
