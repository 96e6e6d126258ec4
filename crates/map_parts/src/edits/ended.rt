//! What a merger takes from the rows: a parcel, whose number is retired, and strings. They come back.
ghost use Rattle.std.specs.Prelude.{◌≡◌, ◌≢◌, [], ℕ, IfOk, OnOk, OnErr};
ghost use Rattle.cad_map.specs.Boundaries.{face_place as face_place_of};
ghost use Rattle.cad_rows.specs.declared.names.Face.TheVariants.{Parcel};
ghost use Rattle.key_lists.specs.Held.{capacity_at, IsSame};
ghost use Rattle.map_parts.specs.Adding.{HasRoomToExchange, IsSeenAs};
ghost use Rattle.map_parts.specs.Merging.{CanComeBack, CanEnd, HaveGone, HaveRoomBack, without_ended};
ghost use Rattle.cad_map.specs.MapRows.{map_in};
ghost use Rattle.map_parts.specs.Splitting.{AreStarsOf};

use crate::edits::merging_tried::EndedParcel;
use crate::edits::parcel_rooms::make_handing_room;
use crate::edits::placed_strings::{PlacedString, put_placed, take_placed};
use crate::edits::retired::{retire, unretire};
use crate::stars::Spoke;
use cad_map::MapRows;
use cad_rows::{Face, Memory, ParcelNo, ParcelRow, StringNo};
use half_table::Half;
use key_lists::KeyLists;

/// Takes a parcel and strings out of the rows, and the strings' halves out of the stars, with the
/// room that it takes. The parcel's number is retired. Its row is given with its place, and so are
/// the strings', and the way back takes no memory. The halves that are kept for the parcel and for
/// a face can be kept for either then.
///
/// # Errors
///
/// Where memory runs out nothing that is seen has changed.
pub(crate) fn end_with_room(
    rows: &mut MapRows,
    kept: &mut KeyLists<Half>,
    stars: &mut KeyLists<Spoke>,
    face: &Face,
    ended: ParcelNo,
    strings: &[StringNo],
) -> Result<EndedParcel, Memory>
    requires can { CanEnd ended strings.now rows.old stars.old }
    requires differ { face_place_of face.now ≢ face_place_of (Parcel ended) }
    ensures same { IsSame kept.old kept.new }
    ensures exchange { OnOk result (HasRoomToExchange face.now ended kept.new) }
    ensures rows { OnOk result
        (map_in rows.new ≡ without_ended ended strings.now (map_in rows.old)) }
    ensures stars { OnOk result (AreStarsOf (map_in rows.new).strings stars.new) }
    ensures gone { IfOk result (λ r. HaveGone (map_in rows.old) ended strings.now r.row r.place
        r.strings.items) }
    ensures back { IfOk result (λ r. HaveRoomBack r.row r.strings.items rows.new stars.new) }
    ensures capacity { (p : ℕ) → capacity_at stars.new p ≡ capacity_at stars.old p }
    ensures err { OnErr result (IsSeenAs rows.old rows.new kept.old kept.new stars.old stars.new) }
{
    rows.retired.keep_slot(ended.get())?;
    make_handing_room(kept, face, ended)?;
    let mut gone = Vec::with_capacity(rows.parcels.allocator(), strings.len())?;
    let (place, row) = retire(rows, ended);
    take_placed(rows, stars, strings, &mut gone);
    Ok(EndedParcel {
        row,
        place,
        strings: gone,
    })
}

/// Puts a parcel and strings that went back where they stood, and the strings' halves into the stars.
/// It takes no memory.
pub(crate) fn put_ended(
    rows: &mut MapRows,
    stars: &mut KeyLists<Spoke>,
    row: ParcelRow,
    place: usize,
    gone: &mut Vec<PlacedString>,
)
    requires { CanComeBack row place gone.old.items rows.old stars.old }
    ensures rows { (can : CanComeBack row place gone.old.items rows.old stars.old)
        → map_in rows.new ≡ record can.before { boundaries = [] } }
    ensures stars { (can : CanComeBack row place gone.old.items rows.old stars.old)
        → AreStarsOf can.before.strings stars.new }
{
    put_placed(rows, stars, gone);
    unretire(rows, row, place);
}
