//! What an edit looks at first, read ahead of it.
//!
//! An edit decides one thing after another by rows that lie far apart in memory, and each decision
//! waits for its own. Read before the first one, they come side by side.
ghost use Rattle.std.specs.Prelude.{◌≡◌, true};
ghost use Rattle.std.specs.List.{Contains};
ghost use Rattle.half_table.specs.Rows.{has};
ghost use Rattle.map_parts.specs.declared.stars.Spoke.{Spoke as SpokeOf};

use crate::draft::Draft;
use cad_map::MapView;
use cad_rows::{Edit, Face, ParcelNo, PointNo};
use half_table::Tally;
use map_parts::{Spoke, star_of};

/// Of the strings at a point no more than so many are read ahead: few points have more.
const MOST_READ: usize = 8;

// A part of a point's row.
#[inline(always)]
fn read_point<T: Tally>(draft: &Draft<T>, point: PointNo) -> u64 {
    match draft.point(point) {
        Some(row) => row.position.x.unsigned_abs(),
        None => 0,
    }
}

// A part of a parcel's row.
#[inline(always)]
fn read_parcel<T: Tally>(draft: &Draft<T>, parcel: ParcelNo) -> u64 {
    match draft.parcel(parcel) {
        Some(row) => u64::from(row.number.get()),
        None => 0,
    }
}

// A part of a face's row, and of the list of its rings.
#[inline(always)]
fn read_face<T: Tally>(draft: &Draft<T>, face: &Face) -> u64 {
    let rings = draft.ring_count(*face) as u64;
    match face {
        Face::Outside => rings,
        Face::Parcel(parcel) => rings ^ read_parcel(draft, *parcel),
    }
}

// The halves that begin at a point.
#[inline(always)]
fn star_at<T: Tally>(draft: &Draft<T>, point: PointNo) -> &[Spoke]
    ensures { (x : SpokeOf) → Contains result.now x → has draft.now.table.rows x.half ≡ true }
{
    star_of(&draft.stars, point)
}

// A part of what is kept of a face: whether it is a parcel's, and if asked for, how many rings it has.
#[inline(always)]
fn read_beside<T: Tally>(draft: &Draft<T>, face: Face, rings: bool) -> u64 {
    if rings {
        draft.ring_count(face) as u64
    } else {
        u64::from(matches!(face, Face::Outside))
    }
}

// A part of the rows of a few halves, of the points where they end, and of the faces to the right
// of them; if asked for, of the lists of the rings of these faces.
#[inline(always)]
fn read_star<T: Tally>(draft: &Draft<T>, star: &[Spoke], rings: bool) -> u64
    requires { (x : SpokeOf) → Contains star.now x → has draft.now.table.rows x.half ≡ true }
{
    let mut read = 0;
    for place in 0..star.len().min(MOST_READ) {
        let spoke = star[place];
        let face = draft.table.face(draft.table.twin(spoke.half));
        read ^= read_point(draft, spoke.far) ^ read_beside(draft, face, rings);
    }
    read
}

// Parts of what a division looks at: the face, both ends of the chain, and what begins there.
fn read_for_division<T: Tally>(draft: &Draft<T>, face: &Face, start: PointNo, end: PointNo) -> u64 {
    let named = read_face(draft, face) ^ read_point(draft, start) ^ read_point(draft, end);
    let at_start = star_at(draft, start);
    let at_end = star_at(draft, end);
    named ^ read_star(draft, at_start, false) ^ read_star(draft, at_end, false)
}

// Parts of what a move looks at: the point, what begins there, and the faces round it.
fn read_for_move<T: Tally>(draft: &Draft<T>, point: PointNo) -> u64 {
    let star = star_at(draft, point);
    read_point(draft, point) ^ read_star(draft, star, true)
}

/// Reads what a division or a move will look at first: the rows of what it names, and of up to
/// eight strings at each point with their other ends. It takes no memory, and reads nothing for
/// another edit.
///
/// What it answers tells nothing. The caller keeps it, so that the reads aren't left out of the
/// program as of no use.
pub(crate) fn read_ahead<T: Tally>(draft: &Draft<T>, edit: &Edit) -> u64 {
    match edit {
        Edit::Divide { face, chain, .. } => match chain.as_slice() {
            [start, .., end] => read_for_division(draft, face, *start, *end),
            _ => 0,
        },
        Edit::Move { point, .. } => read_for_move(draft, *point),
        _ => 0,
    }
}
