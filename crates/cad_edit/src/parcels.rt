//! A new parcel and its strings, put on a map.
ghost use Rattle.std.specs.Prelude.{◌≡◌, ◌≢◌, None, [], ◌∷◌, map as map_of, ◌++◌, OnOk};
ghost use Rattle.std.specs.List.{AllByRecursion};
ghost use Rattle.cad_map.specs.Map.{string_of, parcel_of};
ghost use Rattle.cad_map.specs.Valid.{EachPair};

use cad_map::PlainMap;
use cad_rows::{Label, Memory, Numbers, ParcelNo, ParcelRow, SourceNo, StringRow};

/// A new parcel: its number, its label, and the source that witnesses it and its strings.
#[derive(Drop)]
pub(crate) struct NewParcel<'a> {
    pub number: ParcelNo,
    pub label: &'a Label,
    pub source: SourceNo,
}

/// Puts strings last.
pub(crate) fn put_strings(map: &mut PlainMap, rows: &[StringRow]) -> Result<(), Memory>
    requires new { AllByRecursion (λ row. string_of map.old row.number ≡ None) rows.now }
    requires distinct { EachPair (λ a b. a ≢ b) (map_of (λ row. row.number) rows.now) }
    ensures { OnOk result (map.new ≡ record map.old { strings = map.old.strings ++ rows.now }) }
{
    for place in 0..rows.len() {
        map.put_string(rows[place].copy()?)?;
    }
    Ok(())
}

/// Puts a new parcel last.
pub(crate) fn put_new_parcel(map: &mut PlainMap, new: &NewParcel<'_>) -> Result<(), Memory>
    requires { parcel_of map.old new.now.number ≡ None }
    ensures { OnOk result (map.new
        ≡ record map.old {
          parcels = map.old.parcels
              ++ record {
                number = new.now.number;
                label = new.now.label.now;
                sources = new.now.source ∷ [];
              } ∷ [];
        }) }
{
    let mut sources = Numbers::new(map.allocator());
    sources.push(new.source)?;
    let label = new.label.copy()?;
    map.put_parcel(ParcelRow {
        number: new.number,
        label,
        sources,
    })
}
