//! What each edit takes out of the grid of its map and puts into it.
ghost use Rattle.std.specs.Prelude.{◌≡◌, ◌∷◌, [], IfOk};
ghost use Rattle.geo_exact.specs.Position.{OnTheMap};
ghost use Rattle.cad_rows.specs.declared.edits.Edit.TheVariants.{Split};
ghost use Rattle.cad_rows.specs.declared.rows.StringRow.{StringRow as StringOf};
ghost use Rattle.cad_map.specs.Changes.{by_number};
ghost use Rattle.cad_map.specs.Map.{degree, far_end as far_end_of, strings_at};
ghost use Rattle.cad_map.specs.Valid.{IsValid};
ghost use Rattle.cad_laws.specs.Tried.{IsTried};
ghost use Rattle.edit_records.specs.GridEdits.{gone_by, come_by};
ghost use Rattle.edit_records.specs.GridLists.{AreEntries};

use crate::grid_lists::{
    lone_point, lone_string, point_with_strings, strings_of_chain, two_strings,
};
use crate::point_strings::string_at;
use crate::shared_strings::strings_shared;
use cad_map::{MapView, Span, far_end, position, span_of};
use cad_rows::{Edit, Memory, PointNo, StringNo};
use cell_grid::Entries;
use geo_exact::Pt;
use std::alloc::Global;

/// The position with coordinates that are in range.
pub fn at(x: i64, y: i64) -> Pt
    requires { OnTheMap (record { x = x; y = y }) }
    ensures { result ≡ record { x = x; y = y } }
{
    Pt::new(x, y).unwrap()
}

// The far ends of the two strings at a point, that of the lower-numbered one first.
fn far_ends<M: MapView>(map: &M, point: PointNo) -> (PointNo, PointNo)
    requires valid { IsValid (M.map map.now) }
    requires two { degree (M.map map.now) point ≡ 2 }
    ensures { (s t : StringOf) → by_number (strings_at (M.map map.now) point) ≡ s ∷ t ∷ []
        → result ≡ (far_end_of s point, far_end_of t point) }
{
    let first = string_at(map, point, 0);
    let second = string_at(map, point, 1);
    if second.number.get() < first.number.get() {
        (far_end(second, point), far_end(first, point))
    } else {
        (far_end(first, point), far_end(second, point))
    }
}

/// What an edit that is tried takes out of the grid of its map, in some order: the strings and
/// points that go, and a point that moves with its strings. For a merger it takes time by the sides
/// of the parcel that is kept.
pub fn going<M: MapView>(alloc: Global, map: &M, edit: &Edit) -> Result<Entries, Memory>
    requires { IsTried (M.map map.now) edit.now }
    ensures { IfOk result (AreEntries (gone_by (M.map map.now) edit.now)) }
{
    match edit {
        Edit::DropPoint { point } => lone_point(alloc, *point, position(map, *point)),
        Edit::Split {
            string,
            point,
            x,
            y,
            ..
        } => {
            let span = span_of(map.string(*string).unwrap());
            lone_string(alloc, map, span, *point, at(*x, *y))
        }
        Edit::Join { point, .. } => {
            point_with_strings(alloc, map, *point, position(map, *point))
        }
        Edit::Move { point, .. } => {
            point_with_strings(alloc, map, *point, position(map, *point))
        }
        Edit::Merge { kept, ended } => strings_shared(alloc, map, kept, ended),
        Edit::AddSource { .. }
        | Edit::AddPoint { .. }
        | Edit::Divide { .. }
        | Edit::Attach { .. }
        | Edit::Detach { .. }
        | Edit::Rename { .. }
        | Edit::Enclose { .. } => Ok(Entries::new(alloc)),
    }
}

// What a split puts in: the halves of the string, and the point.
fn halves<M: MapView>(
    alloc: Global,
    map: &M,
    string: StringNo,
    point: PointNo,
    at: Pt,
    first: StringNo,
    second: StringNo,
) -> Result<Entries, Memory>
    requires { IsTried (M.map map.now) (Split string point at.x at.y first second) }
    ensures { IfOk result (AreEntries
        (come_by (M.map map.now) (Split string point at.x at.y first second))) }
{
    let row = map.string(string).unwrap();
    let one = Span {
        string: first,
        from: row.from,
        to: point,
    };
    let other = Span {
        string: second,
        from: point,
        to: row.to,
    };
    two_strings(alloc, map, one, other, point, at)
}

/// What an edit that is tried puts into the grid of its map, in some order: the strings and points
/// that come, and a point that moves with its strings.
pub fn coming<M: MapView>(alloc: Global, map: &M, edit: &Edit) -> Result<Entries, Memory>
    requires { IsTried (M.map map.now) edit.now }
    ensures { IfOk result (AreEntries (come_by (M.map map.now) edit.now)) }
{
    match edit {
        Edit::AddPoint { point, x, y } => lone_point(alloc, *point, at(*x, *y)),
        Edit::Split {
            string,
            point,
            x,
            y,
            first,
            second,
        } => halves(alloc, map, *string, *point, at(*x, *y), *first, *second),
        Edit::Join { point, string } => {
            let (from, to) = far_ends(map, *point);
            let span = Span {
                string: *string,
                from,
                to,
            };
            lone_string(alloc, map, span, *point, position(map, *point))
        }
        Edit::Divide { chain, strings, .. } => {
            strings_of_chain(alloc, map, strings.as_slice(), chain.as_slice())
        }
        Edit::Enclose {
            points,
            strings,
            ..
        } => { strings_of_chain(alloc, map, strings.as_slice(), points.as_slice()) }
        Edit::Move { point, x, y } => point_with_strings(alloc, map, *point, at(*x, *y)),
        Edit::AddSource { .. }
        | Edit::DropPoint { .. }
        | Edit::Merge { .. }
        | Edit::Attach { .. }
        | Edit::Detach { .. }
        | Edit::Rename { .. } => Ok(Entries::new(alloc)),
    }
}
