//! Points that come, go and lie elsewhere, among the rows.
ghost use Rattle.std.specs.Prelude.{◌≡◌, ◌≤◌, ◌++◌, ◌∷◌, [], None, Some, length, insert, slice_get, option_map, IsTrue, OnOk, OnErr};
ghost use Rattle.cad_map.specs.Changes.{change_point};
ghost use Rattle.cad_map.specs.Map.{point_of, has_point};
ghost use Rattle.numbered_rows.specs.Rows.{without_row};
ghost use Rattle.cad_map.specs.MapRows.{map_in};

use cad_map::MapRows;
use cad_rows::{Memory, Numbers, PointNo, PointRow};
use geo_exact::Pt;

/// Puts a point last, with no sources. Where memory runs out the rows stay.
pub fn add_point(rows: &mut MapRows, point: PointNo, position: &Pt) -> Result<(), Memory>
    requires { point_of (map_in rows.old) point ≡ None }
    ensures ok { OnOk result (map_in rows.new ≡ record (map_in rows.old) {
      points = (map_in rows.old).points
          ++ record { number = point; position = position.now; sources = [] } ∷ [];
    }) }
    ensures err { OnErr result (map_in rows.new ≡ map_in rows.old) }
{
    let sources = Numbers::new(rows.points.allocator());
    rows.points.push(PointRow {
        number: point,
        position: *position,
        sources,
    })
}

/// Takes a point out, and gives its place with it. It takes no memory.
pub fn take_point(rows: &mut MapRows, point: PointNo) -> (usize, PointRow)
    requires { IsTrue (has_point (map_in rows.old) point) }
    ensures row { slice_get (map_in rows.old).points result.0 ≡ Some result.1 }
    ensures number { result.1.number ≡ point }
    ensures rows { map_in rows.new ≡ record (map_in rows.old) {
      points = without_row (λ r. r.number) point (map_in rows.old).points;
    } }
{
    rows.points.take_there(point.get())
}

/// Puts a point in at a place. Where memory runs out the rows stay.
pub fn put_point_back(rows: &mut MapRows, row: &PointRow, place: usize) -> Result<(), Memory>
    requires absent { point_of (map_in rows.old) row.now.number ≡ None }
    requires place { place ≤ length (map_in rows.old).points }
    ensures ok { OnOk result (map_in rows.new ≡ record (map_in rows.old) {
      points = insert (map_in rows.old).points place row.now;
    }) }
    ensures err { OnErr result (map_in rows.new ≡ map_in rows.old) }
{
    let row = row.copy()?;
    rows.points.keep_slot(row.number.get())?;
    rows.points.put_at(row, place);
    Ok(())
}

/// Puts a point at another position, and gives the one that it had. It takes no memory.
pub fn move_point(rows: &mut MapRows, point: PointNo, position: &Pt) -> Pt
    requires { IsTrue (has_point (map_in rows.old) point) }
    ensures from { option_map (λ r. r.position) (point_of (map_in rows.old) point) ≡ Some result }
    ensures rows { map_in rows.new
        ≡ change_point point (λ r. record r { position = position.now }) (map_in rows.old) }
{
    let sources = Numbers::new(rows.points.allocator());
    let mut row = rows.points.replace(PointRow {
        number: point,
        position: *position,
        sources,
    });
    let from = row.position;
    row.position = *position;
    let _ = rows.points.replace(row);
    from
}
