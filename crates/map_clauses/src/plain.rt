//! What is taken out of a map of tables.
ghost use Rattle.std.specs.Prelude.{◌≡◌};
ghost use Rattle.cad_rows.specs.declared.names.Face.TheVariants.{Parcel};
ghost use Rattle.numbered_rows.specs.Rows.{without_row};
ghost use Rattle.cad_map.specs.Boundaries.{without_face};

use cad_map::PlainMap;
use cad_rows::ParcelNo;

/// Takes the parcel with a number away, if there is one, and its rings with it.
pub fn take_a_parcel(map: &mut PlainMap, no: ParcelNo)
    ensures { map.new
        ≡ record map.old {
          parcels = without_row (λ r. r.number) no map.old.parcels;
          boundaries = without_face (Parcel no) map.old.boundaries;
        } }
{
    map.take_parcel(no)
}
