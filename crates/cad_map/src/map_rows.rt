//! The rows of a map by themselves.
ghost use Rattle.std.specs.Prelude.{◌≡◌, ◌≢◌, Some, map as map_of, IsSome, IfOk};
ghost use Rattle.cad_map.specs.Map.{string_of};
ghost use Rattle.cad_map.specs.Valid.{EachPair};
ghost use Rattle.cad_map.specs.MapRows.{map_in};
ghost use Rattle.numbered_rows.specs.Rows.{rows_in};

use crate::retired::Retired;
use cad_rows::{Memory, ParcelNo, ParcelRow, PointRow, SourceRow, StringNo, StringRow};
use number_hash::NumberHash;
use numbered_rows::{Numbered, Rows};
use std::alloc::Global;

/// The number of a parcel that a merger ended, as a row.
#[derive(Clone, Copy)]
pub struct RetiredRow {
    pub number: ParcelNo,
}

impl Numbered for RetiredRow {
    ghost number_of = { λ r. r.number };

    fn number(&self) -> u32 {
        self.number.get()
    }

    fn copied(&self) -> Result<RetiredRow, Memory> {
        Ok(*self)
    }
}

/// Rows of all kinds, which are removed and inserted without memory. Rings are none of them.
pub struct MapRows {
    pub sources: Rows<SourceRow>,
    pub points: Rows<PointRow>,
    pub parcels: Rows<ParcelRow>,
    pub strings: Rows<StringRow>,
    pub retired: Rows<RetiredRow>,
}

// Written out, so that the end of one is a single call in a caller's proof.
impl Drop for MapRows {
    fn drop(self) {
        let MapRows {
            sources: _sources,
            points: _points,
            parcels: _parcels,
            strings: _strings,
            retired: _retired,
        } = self;
    }
}

impl MapRows {
    /// The row of a string that is there.
    pub fn string(&self, no: StringNo) -> &StringRow
        requires { IsSome (string_of (map_in self.now) no) }
        ensures { string_of (map_in self.now) no ≡ Some result.now }
    {
        self.strings.get(no.get()).unwrap()
    }
}

/// Rows of these numbers.
pub(crate) fn retired_rows(
    alloc: Global,
    hash: NumberHash,
    retired: &Retired,
) -> Result<Rows<RetiredRow>, Memory>
    requires { EachPair (λ a b. a ≢ b) retired.now }
    ensures { IfOk result (λ rows. map_of (λ r. r.number) (rows_in rows) ≡ retired.now) }
{
    let mut rows = Rows::with_room(alloc, hash, retired.len())?;
    for place in 0..retired.len() {
        let number = retired.get(place).unwrap();
        rows.push(RetiredRow { number })?;
    }
    Ok(rows)
}
