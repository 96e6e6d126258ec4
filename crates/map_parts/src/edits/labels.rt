//! Labels of parcels that are replaced, among the rows.
ghost use Rattle.std.specs.Prelude.{◌≡◌, Some, option_map, IsTrue};
ghost use Rattle.cad_map.specs.Changes.{change_parcel};
ghost use Rattle.cad_map.specs.Map.{parcel_of, has_parcel};
ghost use Rattle.cad_map.specs.MapRows.{map_in};

use cad_map::MapRows;
use cad_rows::{Label, ParcelNo};
use std::mem;

/// Gives a parcel another label, and gives the one that it had. It takes no memory.
pub fn rename(rows: &mut MapRows, parcel: ParcelNo, label: Label) -> Label
    requires { IsTrue (has_parcel (map_in rows.old) parcel) }
    ensures from { option_map (λ r. r.label) (parcel_of (map_in rows.old) parcel) ≡ Some result }
    ensures rows { map_in rows.new
        ≡ change_parcel parcel (λ r. record r { label = label }) (map_in rows.old) }
{
    let (place, mut row) = rows.parcels.take_there(parcel.get());
    let from = mem::replace(&mut row.label, label);
    rows.parcels.put_at(row, place);
    from
}
