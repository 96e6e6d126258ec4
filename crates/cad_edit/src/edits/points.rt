//! Points put on the map and moved.
ghost use Rattle.std.specs.Prelude.{◌≡◌, None, IsTrue, [], ◌∷◌, ◌++◌, OnOk};
ghost use Rattle.cad_map.specs.Map.{has_point, point_of, position_of};
ghost use Rattle.cad_map.specs.Changes.{change_point};
ghost use Rattle.cad_map.specs.Valid.{is_same_position};

use cad_map::{MapView, PlainMap};
use cad_rows::{Memory, Numbers, PointNo, PointRow};
use geo_exact::Pt;

/// The point is at this position.
pub(crate) fn is_at<M: MapView>(map: &M, point: PointNo, x: i64, y: i64) -> bool
    requires { IsTrue (has_point (M.map map.now) point) }
    ensures { result ≡ is_same_position (position_of (M.map map.now) point)
        (record { x = x; y = y }) }
{
    let position = cad_map::position(map, point);
    position.x == x && position.y == y
}

/// Puts a point last, with no sources.
pub(crate) fn add_point(map: &mut PlainMap, point: PointNo, position: Pt) -> Result<(), Memory>
    requires { point_of map.old point ≡ None }
    ensures { OnOk result (map.new
        ≡ record map.old {
          points = map.old.points ++ record { number = point; position = position; sources = [] }
              ∷ [];
        }) }
{
    let sources = Numbers::new(map.allocator());
    map.put_point(PointRow {
        number: point,
        position,
        sources,
    })
}

/// Puts a point at another position.
pub(crate) fn move_point(map: &mut PlainMap, no: PointNo, position: Pt) -> Result<(), Memory>
    ensures { OnOk result
        (map.new ≡ change_point no (λ row. record row { position = position }) map.old) }
{
    let Some(row) = map.point(no) else {
        return Ok(());
    };
    let mut row = row.copy()?;
    row.position = position;
    map.set_point(row);
    Ok(())
}
