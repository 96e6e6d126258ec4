//! Lengths, and the shape of a parcel.
ghost use Rattle.std.specs.Prelude.{◌≡◌, option_map, IfOk};
ghost use Rattle.cad_map.specs.Valid.{IsValid};
ghost use Rattle.cad_views.specs.Metres.{metres_field};
ghost use Rattle.cad_views.specs.Shape.{IsShape};

use cad_map::MapView;
use cad_rows::{Memory, ParcelNo};
use cad_views::{metres_text, shape_text};
use number_hash::NumberHash;
use std::alloc::Global;

/// So many millimetres, in metres with three decimals. `Err` where memory runs out.
pub fn metres_of_millimetres(alloc: Global, millimetres: i64) -> Result<Vec<u8>, Memory>
    ensures { IfOk result (λ text. text.items ≡ metres_field millimetres) }
{
    metres_text(alloc, millimetres)
}

/// The polygon of a parcel of a valid map with its holes, and `None` for an unknown parcel. `Err` where memory runs out.
pub fn shape_of_a_parcel<M: MapView>(
    alloc: Global,
    hash: NumberHash,
    map: &M,
    parcel: ParcelNo,
) -> Result<Option<Vec<u8>>, Memory>
    requires { IsValid (M.map map.now) }
    ensures { IfOk result
        (λ told. IsShape (M.map map.now) parcel (option_map (λ text. text.items) told)) }
{
    shape_text(alloc, hash, map, parcel)
}
