//! Loose strings that are in the table alone, and that no look at the map sees.
ghost use Rattle.std.specs.Prelude.{◌≡◌, false, length};
ghost use Rattle.cad_map.specs.Rings.{HasWholeRings};
ghost use Rattle.half_table.specs.declared.half.Half.{Half as HalfOf};
ghost use Rattle.half_table.specs.Rows.{next};
ghost use Rattle.half_table.specs.Count.{ticked};
ghost use Rattle.half_paths.specs.Path.{strings_of, AreIn, AreDifferent};
ghost use Rattle.half_paths.specs.Loose.{is_of, AreLoose, DropsStrings};
ghost use Rattle.cad_laws.specs.Local.{IsShown};
ghost use Rattle.map_parts.specs.Parts.{map_of, FitTogether};
ghost use Rattle.map_parts.specs.Shown.{KeepsShown};

use crate::draft::Draft;
use half_paths::drop_strings;
use half_table::{Half, Tally};

/// Takes strings out of the table that are loose there and not of the map. The map stays.
pub(crate) fn drop_hidden<T: Tally>(draft: &mut Draft<T>, halves: &[Half])
    requires whole { HasWholeRings (map_of draft.old) }
    requires within { AreIn draft.old.table.rows halves.now }
    requires different { AreDifferent halves.now }
    requires loose { AreLoose (next draft.old.table.rows) halves.now }
    requires hidden { (h : HalfOf) → IsShown (map_of draft.old) h → is_of (strings_of halves.now) h ≡ false }
    ensures map { map_of draft.new ≡ map_of draft.old }
    ensures parts { draft.new ≡ record draft.old { table = draft.new.table } }
    ensures fit { FitTogether draft.new }
    ensures shown { KeepsShown (map_of draft.old) draft.old.table.rows draft.new.table.rows }
    ensures drops { DropsStrings halves.now draft.old.table.rows draft.new.table.rows }
    ensures work { draft.new.table.work ≡ ticked (length halves.now) draft.old.table.work }
{
    drop_strings(&mut draft.table, halves);
}
