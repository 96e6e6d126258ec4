//! A walk along a ring, side by side.
ghost use Rattle.cad_map.specs.Walk.{walking, GivesNext};

use cad_map::{MapView, Walk};
use cad_rows::PointNo;

/// The next side of a walk, until it is back at the first.
pub fn next_side_of_a_walk<M: MapView>(walk: &mut Walk<'_, M>) -> Option<(PointNo, PointNo)>
    ensures { GivesNext (walking M.map M.view_next walk.old) result
        (walking M.map M.view_next walk.new) }
{
    walk.next()
}
