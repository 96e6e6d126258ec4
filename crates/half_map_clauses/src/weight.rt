//! The record of an edit is small.
ghost use Rattle.std.specs.Prelude.{◌≡◌, ◌≤◌, ◌<◌, ◌^◌, IfOk};
ghost use Rattle.cad_map.specs.Costs.{weight_bound};
ghost use Rattle.cad_map.specs.Valid.{IsValid};
ghost use Rattle.map_parts.specs.Parts.{map_of};
ghost use Rattle.edit_records.specs.Record.{weight as weight_of};

use cad_map::MapStore;
use cad_rows::{Edit, Refusal};
use cad_surgery::{HalfMap, SmallRecord};
use edit_records::weight;
use half_table::Tally;

/// Makes an edit, whose record is no larger than what the edit changes, also where a larger one is at hand.
pub fn apply_with_small_record<T: Tally>(
    map: &mut HalfMap<T>,
    edit: &Edit,
    _large: SmallRecord,
) -> Result<SmallRecord, Refusal>
    requires { IsValid (map_of map.old) }
    ensures { IfOk result (λ r. weight_of r ≤ weight_bound (map_of map.old) (map_of map.new)) }
{
    map.apply(edit)
}

/// How much a record holds that holds less than 2^64.
pub fn weight_of_a_record(change: &SmallRecord) -> u64
    ensures { weight_of change.now < 2 ^ 64 → result ≡ weight_of change.now }
{
    weight(change)
}
