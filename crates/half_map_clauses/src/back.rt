//! An edit taken back by its record.
ghost use Rattle.std.specs.Prelude.{◌≡◌, OnOk};
ghost use Rattle.cad_map.specs.Map.{Map};
ghost use Rattle.map_parts.specs.Parts.{map_of};
ghost use Rattle.edit_records.specs.Record.{Belongs};

use cad_map::MapStore;
use cad_rows::Memory;
use cad_surgery::{HalfMap, SmallRecord};
use half_table::Tally;

/// Takes an edit back by its record, on whichever store of the map after it, also where another map is at hand.
pub fn take_back<T: Tally>(
    map: &mut HalfMap<T>,
    change: &SmallRecord,
    _aside: HalfMap<T>,
) -> Result<(), Memory>
    requires { (before : Map) × Belongs change.now before (map_of map.old) }
    ensures { OnOk result ((before : Map) → Belongs change.now before (map_of map.old)
        → map_of map.new ≡ before) }
{
    map.back(change)
}
