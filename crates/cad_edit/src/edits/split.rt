//! A string split at a new point.
ghost use Rattle.std.specs.Prelude.{◌≡◌, ◌≢◌, None, map as map_of, IfOk, OnOk, option_map, unwrap_or};
ghost use Rattle.cad_map.specs.Boundaries.{bounding};
ghost use Rattle.cad_map.specs.Map.{string_of, point_of};
ghost use Rattle.cad_rings.specs.Surgery.{put_on};
ghost use Rattle.cad_map.specs.Changes.{split as split_of};

use cad_map::{Boundary, MapView, PlainMap};
use cad_rings::Ring;
use cad_rows::{Memory, Numbers, PointNo, PointRow, StringNo, StringRow};
use geo_exact::Pt;

/// A new point on a string, and the numbers of the string's two halves.
#[derive(Drop)]
pub(crate) struct Halves {
    pub point: PointNo,
    pub position: Pt,
    pub first: StringNo,
    pub second: StringNo,
}

/// Splits a string at a new point.
pub(crate) fn split(map: &mut PlainMap, string: StringNo, halves: &Halves) -> Result<(), Memory>
    requires point { point_of map.old halves.now.point ≡ None }
    requires first { string_of map.old halves.now.first ≡ None }
    requires second { string_of map.old halves.now.second ≡ None }
    requires two { halves.now.first ≢ halves.now.second }
    ensures { OnOk result (map.new
        ≡ unwrap_or (option_map
        (λ row. split_of map.old row halves.now.point halves.now.position.x halves.now.position.y
        halves.now.first halves.now.second) (string_of map.old string)) map.old) }
{
    let Some(row) = map.string(string) else {
        return Ok(());
    };
    let row = row.copy()?;
    let boundaries = split_boundaries(map, &row, halves.point)?;
    let sources = Numbers::new(map.allocator());
    map.take_string(row.number);
    map.put_point(PointRow {
        number: halves.point,
        position: halves.position,
        sources,
    })?;
    let sources = row.sources.copy()?;
    map.put_string(StringRow {
        number: halves.first,
        from: row.from,
        to: halves.point,
        sources,
    })?;
    map.put_string(StringRow {
        number: halves.second,
        from: halves.point,
        to: row.to,
        sources: row.sources,
    })?;
    map.set_boundaries(boundaries);
    Ok(())
}

/// All rings, with a point on both sides of a string.
fn split_boundaries(
    map: &PlainMap,
    row: &StringRow,
    point: PointNo,
) -> Result<Vec<Boundary>, Memory>
    ensures { IfOk result (λ made. made.items
        ≡ map_of (λ b. bounding b.face
        (put_on (row.now.to, row.now.from) point (put_on (row.now.from, row.now.to) point b.ring)))
        map.now.boundaries) }
{
    let mut made = Vec::new(map.allocator());
    for boundary in map.boundaries() {
        made.push(Boundary {
            face: boundary.face,
            ring: split_ring(&boundary.ring, row.from, row.to, point)?,
        })?;
    }
    Ok(made)
}

/// A ring with a point between two others, whichever way it goes from one to the other.
fn split_ring(ring: &Ring, from: PointNo, to: PointNo, point: PointNo) -> Result<Ring, Memory>
    ensures { IfOk result
        (λ made. made ≡ put_on (to, from) point (put_on (from, to) point ring.now)) }
{
    ring.put_between(from, to, point)?
        .put_between(to, from, point)
}
