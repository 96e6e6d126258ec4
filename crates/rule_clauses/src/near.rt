//! The first rule that a map breaks, looked for near an edit.
ghost use Rattle.std.specs.Prelude.{IfSome, IfNone};
ghost use Rattle.cad_map.specs.Valid.{CanBeTested, KeepsAll, FirstBroken};
ghost use Rattle.cad_near.specs.KeptAreas.{HoldsAreas};
ghost use Rattle.cad_near.specs.Near.{HoldsMap, ComesFromValid, touched_of};

use cad_map::MapView;
use cad_near::{FaceAreas, Touched, first_broken_near};
use cad_rows::Rule;
use cell_grid::CellGrid;
use std::alloc::Global;

/// The first rule that a map breaks which an edit made of a valid one, if it breaks one.
pub fn first_broken_near_an_edit<M: MapView>(
    alloc: Global,
    map: &M,
    grid: &CellGrid,
    areas: &FaceAreas,
    touched: &Touched,
) -> Option<Rule>
    requires tested { CanBeTested (M.map map.now) }
    requires held { HoldsMap grid.now (M.map map.now) }
    requires areas { HoldsAreas areas.now (M.map map.now) }
    requires touched { ComesFromValid (touched_of touched.now) (M.map map.now) }
    ensures broken { IfSome result (FirstBroken (M.map map.now)) }
    ensures kept { IfNone result (KeepsAll (M.map map.now)) }
{
    first_broken_near(alloc, map, grid, areas, touched)
}
