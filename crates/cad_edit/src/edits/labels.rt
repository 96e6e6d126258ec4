//! The labels of parcels.
ghost use Rattle.std.specs.Prelude.{◌≡◌, OnOk};
ghost use Rattle.cad_map.specs.Changes.{change_parcel};
ghost use Rattle.cad_map.specs.Refusals.{has_label};

use cad_map::{MapView, PlainMap};
use cad_rows::{Label, Memory, ParcelNo};

/// The parcel has this label.
pub(crate) fn is_called<M: MapView>(map: &M, parcel: ParcelNo, label: &Label) -> bool
    ensures { result ≡ has_label (M.map map.now) parcel label.now }
{
    match map.parcel(parcel) {
        Some(row) => row.label.as_str() == label.as_str(),
        None => false,
    }
}

/// Gives a parcel another label.
pub(crate) fn rename(map: &mut PlainMap, no: ParcelNo, label: &Label) -> Result<(), Memory>
    ensures { OnOk result
        (map.new ≡ change_parcel no (λ row. record row { label = label.now }) map.old) }
{
    let Some(row) = map.parcel(no) else {
        return Ok(());
    };
    let mut row = row.copy()?;
    row.label = label.copy()?;
    map.set_parcel(row);
    Ok(())
}
