//! What the edit of a record takes out of a grid and puts into it, listed beside the map before the
//! edit or the map after it.
ghost use Rattle.std.specs.Prelude.{IfOk};
ghost use Rattle.cad_map.specs.Map.{Map};
ghost use Rattle.edit_records.specs.GridEdits.{gone_by, come_by};
ghost use Rattle.edit_records.specs.GridLists.{AreEntries, IsBeside};
ghost use Rattle.edit_records.specs.Record.{edit_of, Holds};

use crate::grid_lists::{
    lone_point, lone_string, point_with_strings, strings_between, strings_of_chain, two_strings,
};
use crate::record::SmallRecord;
use cad_map::{MapView, Span, far_end, span_of};
use cad_rows::Memory;
use cell_grid::Entries;
use std::alloc::Global;

/// What the edit takes out of the grid of the map before it, in some order.
pub fn what_goes<M: MapView>(
    alloc: Global,
    map: &M,
    change: &SmallRecord,
) -> Result<Entries, Memory>
    requires { (b : Map) × IsBeside (M.map map.now) b (edit_of change.now) × Holds change.now b }
    ensures { IfOk result (λ l. (b : Map) → IsBeside (M.map map.now) b (edit_of change.now)
        → Holds change.now b → AreEntries (gone_by b (edit_of change.now)) l) }
{
    match change {
        SmallRecord::DropPoint { row, .. } => lone_point(alloc, row.number, row.position),
        SmallRecord::Split {
            row,
            point,
            position,
            ..
        } => lone_string(alloc, map, span_of(row), *point, *position),
        SmallRecord::Join {
            row,
            first,
            second,
            ..
        } => {
            let one = span_of(first);
            let other = span_of(second);
            two_strings(alloc, map, one, other, row.number, row.position)
        }
        SmallRecord::MergeAlong { chain, strings, .. } => {
            let gone = strings.as_slice();
            let points = chain.as_slice();
            strings_between(alloc, map, gone, points)
        }
        SmallRecord::MergeIsland {
            points,
            strings,
            ..
        } => {
            let gone = strings.as_slice();
            let round = points.as_slice();
            strings_between(alloc, map, gone, round)
        }
        SmallRecord::Move { point, from, .. } => point_with_strings(alloc, map, *point, *from),
        _ => Ok(Entries::new(alloc)),
    }
}

/// What the edit puts into the grid of the map before it, in some order.
pub fn what_comes<M: MapView>(
    alloc: Global,
    map: &M,
    change: &SmallRecord,
) -> Result<Entries, Memory>
    requires { (b : Map) × IsBeside (M.map map.now) b (edit_of change.now) }
    ensures { IfOk result (λ l. (b : Map) → IsBeside (M.map map.now) b (edit_of change.now)
        → Holds change.now b → AreEntries (come_by b (edit_of change.now)) l) }
{
    match change {
        SmallRecord::AddPoint { point, position } => lone_point(alloc, *point, *position),
        SmallRecord::Split {
            row,
            point,
            position,
            first,
            second,
            ..
        } => {
            let one = Span {
                string: *first,
                from: row.from,
                to: *point,
            };
            let other = Span {
                string: *second,
                from: *point,
                to: row.to,
            };
            two_strings(alloc, map, one, other, *point, *position)
        }
        SmallRecord::Join {
            row,
            first,
            second,
            string,
            ..
        } => {
            let from = far_end(first, row.number);
            let to = far_end(second, row.number);
            let span = Span {
                string: *string,
                from,
                to,
            };
            lone_string(alloc, map, span, row.number, row.position)
        }
        SmallRecord::Divide { chain, strings, .. } => {
            let numbers = strings.as_slice();
            let points = chain.as_slice();
            strings_of_chain(alloc, map, numbers, points)
        }
        SmallRecord::Move { point, to, .. } => point_with_strings(alloc, map, *point, *to),
        SmallRecord::Enclose {
            points,
            strings,
            ..
        } => {
            let numbers = strings.as_slice();
            let round = points.as_slice();
            strings_of_chain(alloc, map, numbers, round)
        }
        _ => Ok(Entries::new(alloc)),
    }
}
