//! The shape of a parcel.
ghost use Rattle.std.specs.Prelude.{option_map, IfOk};
ghost use Rattle.cad_map.specs.Valid.{IsValid};
ghost use Rattle.cad_views.specs.Shape.{IsShape};

use crate::cut::cut_each;
use crate::well_known::polygon_geometry;
use cad_map::MapView;
use cad_rows::{Face, Memory, ParcelNo};
use number_hash::NumberHash;
use std::alloc::Global;

/// The polygon of a parcel of a valid map, as well-known text in metres: the ring around it, and then those around its
/// holes, cut where they pass a point twice. `None` for an unknown parcel. `Err` where memory runs out. The hash is the
/// one by which points are found while rings are cut: no text depends on it.
pub fn shape_text<M: MapView>(
    alloc: Global,
    hash: NumberHash,
    map: &M,
    parcel: ParcelNo,
) -> Result<Option<Vec<u8>>, Memory>
    requires { IsValid (M.map map.now) }
    ensures { IfOk result
        (λ told. IsShape (M.map map.now) parcel (option_map (λ text. text.items) told)) }
{
    match map.outline(alloc, Face::Parcel(parcel))? {
        Some(rings) => {
            let pieces = cut_each(alloc, hash, rings.as_slice())?;
            let text = polygon_geometry(alloc, map, pieces.as_slice())?;
            Ok(Some(text))
        }
        None => Ok(None),
    }
}
