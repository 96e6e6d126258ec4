//! The strings at a point, one by one.
ghost use Rattle.std.specs.Prelude.{◌≡◌, ◌<◌, Some, slice_get, option_map, IsPermutation};
ghost use Rattle.cad_map.specs.Map.{degree, strings_at};
ghost use Rattle.cad_map.specs.Spans.{span_of};

use cad_map::{MapView, Span};
use cad_rows::{PointNo, StringRow};

/// The string at a place among a point's.
pub(crate) fn string_at<M: MapView>(map: &M, point: PointNo, place: usize) -> &StringRow
    requires { place < degree (M.map map.now) point }
    ensures told { slice_get (M.view_strings map.now point) place ≡ Some result.now }
    ensures each { IsPermutation (strings_at (M.map map.now) point) (M.view_strings map.now point) }
{
    map.string_with(point, place).unwrap()
}

/// The number and the ends of the string at a place among a point's.
pub(crate) fn span_at_place<M: MapView>(map: &M, point: PointNo, place: usize) -> Span
    requires { place < degree (M.map map.now) point }
    ensures told { option_map span_of (slice_get (M.view_strings map.now point) place)
        ≡ Some result }
    ensures each { IsPermutation (strings_at (M.map map.now) point) (M.view_strings map.now point) }
{
    map.span_with(point, place).unwrap()
}
