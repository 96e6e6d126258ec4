//! The reasons for a refusal that several edits have.
ghost use Rattle.std.specs.Prelude.{◌≡◌, ◌+◌, None, length, ◌||◌, nat_lt, nat_le};
ghost use Rattle.cad_map.specs.Valid.{IsValid};
ghost use Rattle.cad_map.specs.Refusals.{unknown, retired, not_free, bad_chain, range, no_change, full};
ghost use Rattle.cad_edit.specs.Admitted.{HasStrings};
ghost use Rattle.cad_rows.specs.Limits.{row_limit, string_limit};
ghost use Rattle.geo_exact.specs.Position.{in_range};

use crate::chains::{first_on_string_refusal, inner, is_bad};
use crate::edits::labels::is_called;
use crate::edits::points::is_at;
use crate::edits::sources::has_all_sources;
use crate::strings_at::joined_source_count;
use cad_map::MapView;
use cad_rows::{Edit, ROW_LIMIT, Refusal, SOURCE_LIMIT, STRING_LIMIT, StringNo};
use geo_exact::COORDINATE_LIMIT;

fn is_in_range(coordinate: i64) -> bool
    ensures { result ≡ in_range coordinate }
{
    -COORDINATE_LIMIT <= coordinate && coordinate <= COORDINATE_LIMIT
}

/// A coordinate is out of range.
pub(crate) fn range_refusal(edit: &Edit) -> Option<Refusal>
    ensures { result ≡ range edit.now }
{
    match edit {
        Edit::AddPoint { x, y, .. } | Edit::Split { x, y, .. } | Edit::Move { x, y, .. } => {
            if is_in_range(*x) && is_in_range(*y) {
                None
            } else {
                Some(Refusal::Range)
            }
        }
        _ => None,
    }
}

/// The number of a new parcel is retired.
pub(crate) fn retired_refusal<M: MapView>(map: &M, edit: &Edit) -> Option<Refusal>
    ensures { result ≡ retired (M.map map.now) edit.now }
{
    match edit {
        Edit::Divide { parcel, .. } | Edit::Enclose { parcel, .. } => {
            let no = *parcel;
            if map.is_retired(no) {
                Some(Refusal::Retired(no))
            } else {
                None
            }
        }
        _ => None,
    }
}

/// The edit changes nothing.
pub(crate) fn no_change_refusal<M: MapView>(map: &M, edit: &Edit) -> Option<Refusal>
    requires { unknown (M.map map.now) edit.now ≡ None }
    ensures { result ≡ no_change (M.map map.now) edit.now }
{
    let is_same = match edit {
        Edit::Move { point, x, y } => is_at(map, *point, *x, *y),
        Edit::Rename { parcel, label } => is_called(map, *parcel, label),
        _ => false,
    };
    if is_same {
        Some(Refusal::NoChange)
    } else {
        None
    }
}

/// A point that has to be on no string is on one.
pub(crate) fn not_free_refusal<M: MapView>(map: &M, edit: &Edit) -> Option<Refusal>
    ensures { result ≡ not_free (M.map map.now) edit.now }
{
    match edit {
        Edit::DropPoint { point } => first_on_string_refusal(map, &[*point]),
        Edit::Divide { chain, .. } => first_on_string_refusal(map, inner(chain.as_slice())),
        Edit::Enclose { points, .. } => first_on_string_refusal(map, points.as_slice()),
        _ => None,
    }
}

/// A number stands twice, or lists don't fit.
pub(crate) fn bad_chain_refusal(edit: &Edit) -> Option<Refusal>
    ensures { result ≡ bad_chain edit.now }
{
    let is_bad = match edit {
        Edit::Split { first, second, .. } => first.get() == second.get(),
        Edit::Divide { chain, strings, .. } => {
            let wanted = chain.len().saturating_sub(1);
            is_bad(chain, 2, strings, wanted)
        }
        Edit::Enclose {
            points,
            strings,
            ..
        } => is_bad(points, 3, strings, points.len()),
        _ => false,
    };
    if is_bad {
        Some(Refusal::BadChain)
    } else {
        None
    }
}

/// Whether so many strings more, or one parcel more, would pass a limit.
fn has_no_room_for_parcel<M: MapView>(map: &M, strings: usize) -> bool
    requires { IsValid (M.map map.now) }
    ensures { result ≡ (nat_lt string_limit (length (M.map map.now).strings + strings)
        || nat_le row_limit (length (M.map map.now).parcels)) }
{
    let counts = map.counts();
    STRING_LIMIT - counts.strings < strings || ROW_LIMIT <= counts.parcels
}

/// A limit would be passed.
pub(crate) fn full_refusal<M: MapView>(
    map: &M,
    edit: &Edit,
    strings: Option<(StringNo, StringNo)>,
) -> Option<Refusal>
    requires valid { IsValid (M.map map.now) }
    requires strings { HasStrings (M.map map.now) edit.now strings }
    ensures { result ≡ full (M.map map.now) edit.now }
{
    let is_full = match edit {
        Edit::AddSource { .. } => ROW_LIMIT <= map.counts().sources,
        Edit::AddPoint { .. } => ROW_LIMIT <= map.counts().points,
        Edit::Split { .. } => {
            ROW_LIMIT <= map.counts().points || STRING_LIMIT <= map.counts().strings
        }
        Edit::Join { point, .. } => SOURCE_LIMIT < joined_source_count(map, *point, strings),
        Edit::Divide { strings, .. } | Edit::Enclose { strings, .. } => {
            has_no_room_for_parcel(map, strings.len())
        }
        Edit::Merge { .. } => ROW_LIMIT <= map.counts().retired,
        Edit::Attach { item, .. } => has_all_sources(map, *item),
        Edit::DropPoint { .. } | Edit::Move { .. } | Edit::Detach { .. } | Edit::Rename { .. } =>
            false,
    };
    if is_full { Some(Refusal::Full) } else { None }
}
