//! The point that follows a side of a plan.
ghost use Rattle.std.specs.Prelude.{◌⊎◌, ◌≡◌, ◌∷◌, [], ◌==◌, false, not, length, IfSome, IfNone, Some};
ghost use Rattle.std.specs.List.{AllByRecursion, list_all, Contains};
ghost use Rattle.geo_exact.specs.Sector.{in_sector};
ghost use Rattle.cad_map.specs.Map.{position_of};
ghost use Rattle.cad_map.specs.Stars.{star, spokes_of};
ghost use Rattle.cad_files.specs.Follower.{followers};
ghost use Rattle.cad_files.specs.Arrival.{AreStarsOf, leaves_open as leaves_open_in, may_follow_there as may_follow_among, is_barred as is_barred_in, is_other as is_other_than, IsOnly, HasNone, HasTwo, IsPlacedSpoke};
ghost use Rattle.cad_files.specs.Turns.{AreTurnsOf};

use crate::turns::{MANY_STRINGS, Turns, turn_after};
use cad_map::{PlainMap, Spoke, Stars, position};
use cad_rows::PointNo;
use geo_exact::{Pt, in_sector};

// A side at its end: the point that it comes from, the position of that, and the position of its end.
#[derive(Drop)]
struct Arrival {
    from: PointNo,
    back: Pt,
    at: Pt,
}

// ---- One spoke after another

// Whether an end isn't in the sector from `to` to where the side comes from. A border of the sector isn't in it.
fn is_outside(side: &Arrival, to: &Spoke, end: &Spoke) -> bool
    ensures { result
        ≡ not (in_sector side.now.at to.now.position side.now.back end.now.position) }
{
    end.position == side.back || !in_sector(side.at, to.position, side.back, end.position)
}

// Whether an end leads where `to` does, or isn't in the sector from `to` to where the side comes from.
fn leaves_open(side: &Arrival, to: &Spoke, end: &Spoke) -> bool
    ensures { result ≡ leaves_open_in side.now to.now end.now }
{
    end.far.get() == to.far.get() || is_outside(side, to, end)
}

// Whether none of these spokes is in the sector from `to` to where the side comes from.
fn is_open(ends: &[Spoke], side: &Arrival, to: &Spoke) -> bool
    ensures { result ≡ list_all (leaves_open_in side.now to.now) ends.now }
{
    ends.iter().all(|end| leaves_open(side, to, end))
}

// Whether the spoke leads to a point that may follow, where these are the spokes at the side's end.
fn may_follow(ends: &[Spoke], side: &Arrival, to: &Spoke) -> bool
    ensures { result ≡ may_follow_among side.now ends.now to.now }
{
    to.far.get() != side.from.get() && is_open(ends, side, to)
}

// Whether an end leads where `to` does or where the side comes from, or `to` is in the sector from it to there.
fn is_barred(side: &Arrival, to: &Spoke, end: &Spoke) -> bool
    ensures { result ≡ is_barred_in side.now to.now end.now }
{
    end.far.get() == to.far.get()
        || end.far.get() == side.from.get()
        || in_sector(side.at, end.position, side.back, to.position)
}

// Whether none of these spokes may follow where `to` may, but for those to the same point.
fn are_barred(ends: &[Spoke], side: &Arrival, to: &Spoke) -> bool
    ensures { result ≡ list_all (is_barred_in side.now to.now) ends.now }
{
    ends.iter().all(|end| is_barred(side, to, end))
}

// Of a spoke and the best so far the one that is met later.
fn later(best: Option<Spoke>, end: Spoke, side: &Arrival) -> Option<Spoke>
    ensures { (result ≡ best) ⊎ (result ≡ Some end) }
{
    if end.far.get() == side.from.get() {
        return best;
    }
    match best {
        None => Some(end),
        Some(to) => {
            if in_sector(side.at, to.position, side.back, end.position) {
                Some(end)
            } else {
                Some(to)
            }
        }
    }
}

// The spoke that is met last on the way round, counterclockwise, to where the side comes from, as far as these tell.
fn last_met(ends: &[Spoke], side: &Arrival) -> Option<Spoke>
    ensures { IfSome result (λ w. Contains ends.now w) }
{
    let mut best = None;
    for i in 0..ends.len() {
        best = later(best, ends[i], side);
    }
    best
}

// ---- Followers

// The position of a point. Mostly one of these spokes leads there, and tells it, where they are few.
fn position_beyond(plain: &PlainMap, ends: &[Spoke], point: PointNo) -> Pt
    requires { AllByRecursion (IsPlacedSpoke plain.now) ends.now }
    ensures { result ≡ position_of plain.now point }
{
    if ends.len() >= MANY_STRINGS {
        return position(plain, point);
    }
    for end in ends {
        if end.far == point {
            return end.position;
        }
    }
    position(plain, point)
}

// The spoke to the one follower, where three looks at each spoke tell it.
fn sole_follower(ends: &[Spoke], side: &Arrival) -> Option<Spoke>
    ensures { IfSome result (IsOnly side.now ends.now ends.now) }
{
    let to = last_met(ends, side)?;
    if may_follow(ends, side, &to) && are_barred(ends, side, &to) {
        Some(to)
    } else {
        None
    }
}

// Whether one was found, and the spoke leads elsewhere.
fn is_other(found: Option<Spoke>, spoke: &Spoke) -> bool
    ensures { result ≡ is_other_than found spoke.now }
{
    match found {
        Some(earlier) => earlier.far.get() != spoke.far.get(),
        None => false,
    }
}

// The spoke to the one follower, looked for among all.
fn searched_follower(ends: &[Spoke], side: &Arrival) -> Option<Spoke>
    ensures some { IfSome result (IsOnly side.now ends.now ends.now) }
    ensures none { IfNone result (HasNone side.now ends.now ends.now ⊎ HasTwo side.now ends.now) }
{
    let mut found: Option<Spoke> = None;
    for i in 0..ends.len() {
        let spoke = ends[i];
        if may_follow(ends, side, &spoke) {
            if is_other(found, &spoke) {
                return None;
            }
            found = Some(spoke);
        }
    }
    found
}

/// The spoke from the end of a side to the point that follows it, where just one does: one to which a string leads, with
/// no other string on the way round from there, counterclockwise, to where the side comes from. Where no strings cross
/// that is the next half-edge of a doubly connected edge list, as in de Berg et al., Computational Geometry, chapter 2.
///
/// Where many strings end the order of their directions tells it. Else, or where that doesn't, three looks at each do;
/// and where they don't, as where two strings lead into one direction, each is compared with each.
pub(crate) fn follower(
    plain: &PlainMap,
    stars: &Stars,
    turns: &Turns,
    from: PointNo,
    to: PointNo,
) -> Option<Spoke>
    requires stars { AreStarsOf plain.now stars.now }
    requires turns { AreTurnsOf plain.now turns.now.entries }
    ensures among { IfSome result (λ w. Contains (star to (spokes_of plain.now)) w) }
    ensures some { IfSome result (λ w. followers plain.now (from, to) ≡ w.far ∷ []) }
    ensures none { IfNone result ((length (followers plain.now (from, to)) == 1) ≡ false) }
{
    if let Some(spoke) = turn_after(turns, from, to) {
        return Some(spoke);
    }
    let ends = stars.ends(to);
    let side = Arrival {
        from,
        back: position_beyond(plain, ends, from),
        at: position_beyond(plain, stars.ends(from), to),
    };
    if let Some(spoke) = sole_follower(ends, &side) {
        return Some(spoke);
    }
    searched_follower(ends, &side)
}
