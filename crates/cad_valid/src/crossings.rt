//! Whether strings have common locations only at shared ends, and points lie on strings only as their ends.
ghost use Rattle.std.specs.Prelude.{◌↔◌, drop, IsTrue};
ghost use Rattle.std.specs.Bool.{OnTrue, OnFalse};
ghost use Rattle.std.specs.List.{AllByRecursion};
ghost use Rattle.cad_map.specs.Valid.{HasNoCrossing, EachPair, MeetAtEnds, LiesOnlyAsEnd};
ghost use Rattle.cad_map.specs.Crossings.{HasPlacedRows, HasTwoPoints};

use crate::placed::{lies_only_as_end, meet_at_ends, placed_point, placed_string};
use cad_map::MapView;
use cad_rows::{PointRow, StringRow};

/// Whether no two strings have a common location but a shared end, and no point lies on a string but its ends. Takes no
/// memory. Looks at each pair of strings, and at each point with each string.
pub(crate) fn has_no_crossing<M: MapView>(map: &M) -> bool
    requires { HasPlacedRows (M.map map.now) }
    ensures kept { OnTrue result (HasNoCrossing (M.map map.now)) }
    ensures broken { OnFalse result (¬ HasNoCrossing (M.map map.now)) }
{
    all_strings_meet_at_ends(map) && all_points_lie_at_ends(map)
}

/// Whether no two strings have a common location but a shared end.
fn all_strings_meet_at_ends<M: MapView>(map: &M) -> bool
    requires { HasPlacedRows (M.map map.now) }
    ensures { IsTrue result ↔ EachPair (MeetAtEnds (M.map map.now)) (M.map map.now).strings }
{
    for place in 0..map.counts().strings {
        let string = map.string_at(place).unwrap();
        if !meets_later_at_ends(map, string, place + 1) {
            return false;
        }
    }
    true
}

/// Whether a string has no common location but a shared end with any string from a place on.
fn meets_later_at_ends<M: MapView>(map: &M, string: &StringRow, from: usize) -> bool
    requires rows { HasPlacedRows (M.map map.now) }
    requires placed { HasTwoPoints (M.map map.now) string.now }
    ensures { IsTrue result
        ↔ AllByRecursion (MeetAtEnds (M.map map.now) string.now)
        (drop from (M.map map.now).strings) }
{
    let first = placed_string(map, string);
    for place in from..map.counts().strings {
        let other = map.string_at(place).unwrap();
        if !meet_at_ends(&first, &placed_string(map, other)) {
            return false;
        }
    }
    true
}

/// Whether no point lies on a string but its ends.
fn all_points_lie_at_ends<M: MapView>(map: &M) -> bool
    requires { HasPlacedRows (M.map map.now) }
    ensures { IsTrue result
        ↔ AllByRecursion (λ p. AllByRecursion (LiesOnlyAsEnd (M.map map.now) p)
        (M.map map.now).strings) (M.map map.now).points }
{
    for place in 0..map.counts().points {
        let point = map.point_at(place).unwrap();
        if !lies_at_ends(map, point) {
            return false;
        }
    }
    true
}

/// Whether a point lies on no string but as its end.
fn lies_at_ends<M: MapView>(map: &M, point: &PointRow) -> bool
    requires { HasPlacedRows (M.map map.now) }
    ensures { IsTrue result
        ↔ AllByRecursion (LiesOnlyAsEnd (M.map map.now) point.now) (M.map map.now).strings }
{
    let here = placed_point(point);
    for place in 0..map.counts().strings {
        let string = map.string_at(place).unwrap();
        if !lies_only_as_end(&here, &placed_string(map, string)) {
            return false;
        }
    }
    true
}
