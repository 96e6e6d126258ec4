//! The area of the ring along a cycle of halves.
ghost use Rattle.std.specs.Prelude.{◌≡◌, ◌≤◌, ◌*◌, true, length, map};
ghost use Rattle.geo_exact.specs.Measure.{doubled_area};
ghost use Rattle.cad_rows.specs.Limits.{string_limit};
ghost use Rattle.cad_map.specs.Map.{empty_map, sum_of_ring};
ghost use Rattle.half_table.specs.Rows.{has, origin_of, cycle};
ghost use Rattle.numbered_rows.specs.Rows.{rows_in};

use cad_map::position_in;
use cad_rows::PointRow;
use geo_exact::{DoubledArea, SideMeasure};
use half_table::{Half, HalfTable, Tally};
use numbered_rows::Rows;

/// The doubled area of the ring along the cycle of a half, whose points are where these rows have
/// them. It takes no memory.
pub(crate) fn area_along<T: Tally>(
    points: &Rows<PointRow>,
    table: &HalfTable<T>,
    half: &Half,
) -> i128
    requires there { has table.now.rows half.now ≡ true }
    requires few { length (cycle table.now.rows half.now) ≤ 2 * string_limit }
    ensures { result ≡ sum_of_ring doubled_area (record empty_map { points = rows_in points.now })
        (map (origin_of table.now.rows) (cycle table.now.rows half.now)) }
{
    let first = position_in(points, table.origin(*half));
    let mut last = first;
    let mut area = 0;
    let mut halves = table.walk(*half);
    halves.next();
    for along in halves {
        let here = position_in(points, table.origin(along));
        area += DoubledArea.of(last, here);
        last = here;
    }
    area + DoubledArea.of(last, first)
}
