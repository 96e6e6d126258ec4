//! The table of half-edges is the map's.
ghost use Rattle.map_parts.specs.Parts.{map_of, kept_at};
ghost use Rattle.cad_surgery.specs.Proper.{IsProper};

use cad_surgery::HalfMap;
use half_table::{HalfTable, Tally};

/// The table of half-edges of a map, also where another is at hand, as an empty one.
pub fn table_of<'a, T: Tally>(map: &'a HalfMap<T>, _aside: &'a HalfTable<T>) -> &'a HalfTable<T>
    ensures { IsProper (map_of map.now) result.now.rows (kept_at map.now) }
{
    map.table()
}
