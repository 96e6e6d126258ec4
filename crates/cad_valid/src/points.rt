//! Whether two points lie at one position.
ghost use Rattle.std.specs.Prelude.{◌≡◌, drop, not};
ghost use Rattle.std.specs.List.{list_all};
ghost use Rattle.geo_exact.specs.Position.{Position};
ghost use Rattle.cad_map.specs.Valid.{is_same_position, has_distinct_positions as has_distinct_positions_of};

use cad_map::MapView;
use geo_exact::Pt;

/// Whether no two points have the same position.
pub(crate) fn has_distinct_positions<M: MapView>(map: &M) -> bool
    ensures { result ≡ has_distinct_positions_of (M.map map.now) }
{
    for place in 0..map.counts().points {
        let point = map.point_at(place).unwrap();
        if !is_apart_from(map, place + 1, point.position) {
            return false;
        }
    }
    true
}

/// Whether the points from a place on all have another position than this one.
fn is_apart_from<M: MapView>(map: &M, from: usize, position: Pt) -> bool
    ensures { result ≡ list_all (λ r. not (is_same_position position r.position))
        (drop from (M.map map.now).points) }
{
    for place in from..map.counts().points {
        let point = map.point_at(place).unwrap();
        if is_same(position, point.position) {
            return false;
        }
    }
    true
}

/// Whether two positions are one.
pub fn is_same(a: Pt, b: Pt) -> bool
    ensures { result ≡ is_same_position a b }
{
    a.x == b.x && a.y == b.y
}
