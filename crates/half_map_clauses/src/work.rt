//! An edit changes the table in place.
ghost use Rattle.std.specs.Prelude.{◌≡◌, IsSome};
ghost use Rattle.cad_map.specs.Costs.{work_bound};
ghost use Rattle.cad_map.specs.Effects.{after};
ghost use Rattle.cad_map.specs.Refusals.{first_refusal as first_refusal_of};
ghost use Rattle.cad_map.specs.Valid.{IsValid};
ghost use Rattle.map_parts.specs.Parts.{map_of};
ghost use Rattle.cad_surgery.specs.Work.{TakesWork};

use cad_map::MapStore;
use cad_rows::{Edit, Refusal};
use cad_surgery::{HalfMap, SmallRecord};
use half_table::Tally;

/// Makes an edit by work on the table that is bounded by what the edit changes, and by none where it is refused at once, also
/// where another map with a table of its own is at hand.
pub fn apply_in_place<T: Tally>(
    map: &mut HalfMap<T>,
    edit: &Edit,
    _aside: HalfMap<T>,
) -> Result<SmallRecord, Refusal>
    requires { IsValid (map_of map.old) }
    ensures work { TakesWork map.old.table map.new.table
        (work_bound (map_of map.old) (after (map_of map.old) edit.now)) }
    ensures at_once { IsSome (first_refusal_of (map_of map.old) edit.now)
        → map.new.table.work ≡ map.old.table.work }
{
    map.apply(edit)
}
