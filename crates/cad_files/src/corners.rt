//! The sides of a plan's strings, each with the one that follows it.
ghost use Rattle.std.specs.Prelude.{◌≡◌, ◌≢◌, [], IfOk, IfErr, OnOk, IfSome, IfNone, map, None, Some, option_map, slice_get};
ghost use Rattle.std.specs.List.{AllByRecursion};
ghost use Rattle.cad_files.specs.Follower.{labelled_sides};
ghost use Rattle.cad_files.specs.Building.{bad_corner};
ghost use Rattle.cad_files.specs.Cycles.{AreLinked};
ghost use Rattle.cad_files.specs.Arrival.{AreStarsOf};
ghost use Rattle.cad_files.specs.Turns.{AreTurnsOf};
ghost use Rattle.cad_files.specs.Corners.{labelled, HasFollower, AreLinkedIn, IsSpokeOf, IsStop};
ghost use Rattle.cad_files.specs.declared.faults.PlanFault.TheVariants as faults;

use crate::faults::PlanFault;
use crate::followers::follower;
use crate::repeats::{are_met_once, first_met, lead_alone};
use crate::rows::PlanString;
use crate::sides::PlanSide;
use crate::turns::{Turns, turns_of};
use cad_map::{PlainMap, Spoke, Stars};
use cad_rows::{Face, Memory, PointNo, StringNo};
use std::alloc::Global;

// The place of the side along a spoke away from its point.
fn place_along(strings: &[PlanString], spoke: &Spoke) -> usize
    requires { IsSpokeOf strings.now spoke.now }
    ensures { slice_get (map (λ l. l.side) (labelled_sides strings.now)) result
        ≡ Some (spoke.now.at, spoke.now.far) }
{
    if strings[spoke.place].row.from.get() == spoke.at.get() {
        2 * spoke.place
    } else {
        2 * spoke.place + 1
    }
}

// The side of a string with these ends and this face, which goes on to a point along the side at a place.
fn plan_side(
    string: StringNo,
    ends: (PointNo, PointNo),
    face: Face,
    after: PointNo,
    next: usize,
) -> PlanSide
    ensures { result ≡ record {
      string = string;
      from = ends.0;
      to = ends.1;
      face = face;
      after = after;
      next = next;
    } }
{
    PlanSide {
        string,
        from: ends.0,
        to: ends.1,
        face,
        after,
        next,
    }
}

// Puts both sides of these strings last, up to one that hasn't just one follower, and gives the end of that.
fn follow_each(
    plain: &PlainMap,
    stars: &Stars,
    turns: &Turns,
    strings: &[PlanString],
    passed: &mut Vec<PlanSide>,
) -> Result<Option<PointNo>, Memory>
    requires stars { AreStarsOf plain.now stars.now }
    requires turns { AreTurnsOf plain.now turns.now.entries }
    requires rows { plain.now.strings ≡ map (λ s. s.row) strings.now }
    requires none { passed.old.items ≡ [] }
    ensures each { OnOk result (AllByRecursion (HasFollower plain.now) passed.new.items) }
    ensures linked { OnOk result (AreLinkedIn strings.now passed.new.items) }
    ensures all { IfOk result (λ stop. IfNone stop (map labelled passed.new.items
        ≡ labelled_sides strings.now)) }
    ensures stop { IfOk result
        (λ stop. IfSome stop (IsStop plain.now strings.now passed.new.items)) }
{
    for i in 0..strings.len() {
        let string = &strings[i];
        let row = &string.row;
        let Some(left) = follower(plain, stars, turns, row.from, row.to) else {
            return Ok(Some(row.to));
        };
        let next = place_along(strings, &left);
        let ends = (row.from, row.to);
        passed.push(plan_side(row.number, ends, string.left, left.far, next))?;
        let Some(right) = follower(plain, stars, turns, row.to, row.from) else {
            return Ok(Some(row.from));
        };
        let next = place_along(strings, &right);
        let ends = (row.to, row.from);
        passed.push(plan_side(row.number, ends, string.right, right.far, next))?;
    }
    Ok(None)
}

// No sides yet, and room for both of each of these strings.
fn room_for_sides(alloc: Global, strings: &[PlanString]) -> Result<Vec<PlanSide>, Memory>
    ensures { IfOk result (λ sides. sides.items ≡ []) }
{
    Ok(Vec::with_capacity(alloc, strings.len().saturating_mul(2))?)
}

/// Both sides of each of these strings, each with the one that follows it, up to one that stands among earlier ones,
/// hasn't just one follower, or has that of an earlier side to the same point.
///
/// Takes n log n steps for n strings; but where two of the d strings of a point lead into one direction, d squared there.
pub(crate) fn follow_sides(
    alloc: Global,
    plain: &PlainMap,
    stars: &Stars,
    strings: &[PlanString],
) -> Result<Vec<PlanSide>, PlanFault>
    requires stars { AreStarsOf plain.now stars.now }
    requires rows { plain.now.strings ≡ map (λ s. s.row) strings.now }
    ensures each { IfOk result (λ sides. AllByRecursion (HasFollower plain.now) sides.items) }
    ensures sides { IfOk result (λ sides. map labelled sides.items ≡ labelled_sides strings.now) }
    ensures linked { IfOk result (λ sides. AreLinked sides.items) }
    ensures free { OnOk result (bad_corner plain.now strings.now ≡ None) }
    ensures err { IfErr result (λ fault. fault ≢ faults.Memory
        → option_map (λ n. faults.Corner n) (bad_corner plain.now strings.now) ≡ Some fault) }
{
    let turns = turns_of(alloc, plain, stars)?;
    let mut passed = room_for_sides(alloc, strings)?;
    let stop = follow_each(plain, stars, &turns, strings, &mut passed)?;
    drop(turns);
    if stop.is_none() && are_met_once(alloc, passed.as_slice(), lead_alone(stars, strings))? {
        return Ok(passed);
    }
    if let Some(place) = first_met(alloc, passed.as_slice())? {
        return Err(PlanFault::Corner(passed[place].to));
    }
    match stop {
        Some(end) => Err(PlanFault::Corner(end)),
        None => Ok(passed),
    }
}
