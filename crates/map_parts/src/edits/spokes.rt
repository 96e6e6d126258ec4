//! Halves that come to the stars of their points and go from them, without memory.
ghost use Rattle.std.specs.Prelude.{◌≡◌, ◌≢◌, ◌++◌, ◌∷◌, [], ℕ, List, Some, slice_get, IsPermutation};
ghost use Rattle.std.specs.List.{Contains};
ghost use Rattle.cad_rows.specs.declared.rows.StringRow.{StringRow as StringRowOf};
ghost use Rattle.half_table.specs.Half.{half_of, forward_of, backward_of};
ghost use Rattle.key_lists.specs.Held.{items_at, capacity_at, HasRoomAt, KeepsOthers};
ghost use Rattle.map_parts.specs.Splitting.{AreStarsOf, CanPart, CanMeet};
ghost use Rattle.map_parts.specs.Stars.{spoke, spokes_of, is_spoke, AddsSpokes};

use crate::stars::{Spoke, star_of};
use cad_rows::{PointNo, StringNo, StringRow};
use half_table::Half;
use key_lists::KeyLists;

// A half of a string.
fn half_along(string: &StringNo, forward: bool) -> Half
    ensures { result ≡ half_of string.now forward }
{
    Half {
        string: *string,
        forward,
    }
}

// Whether this is the half that ends at the point.
fn is_it(at: &Spoke, half: &Half, far: &PointNo) -> bool
    ensures { result ≡ is_spoke at.now (spoke half.now far.now) }
{
    at.half.string == half.string && at.half.forward == half.forward && at.far == *far
}

// The place of a half among those that begin at a point.
fn place_of(spokes: &[Spoke], half: &Half, far: &PointNo) -> usize
    requires { Contains spokes.now (spoke half.now far.now) }
    ensures { slice_get spokes.now result ≡ Some (spoke half.now far.now) }
{
    for place in 0..spokes.len() {
        if is_it(&spokes[place], half, far) {
            return place;
        }
    }
    unreachable!()
}

// Takes a half out of the star of the point where it begins.
fn take_spoke(stars: &mut KeyLists<Spoke>, at: &PointNo, half: &Half, far: &PointNo)
    requires { Contains (items_at stars.old at.now) (spoke half.now far.now) }
    ensures here { IsPermutation (items_at stars.old at.now)
        (spoke half.now far.now ∷ items_at stars.new at.now) }
    ensures others { KeepsOthers at.now stars.old stars.new }
    ensures room { HasRoomAt stars.new at.now 1 }
    ensures capacity { capacity_at stars.new at.now ≡ capacity_at stars.old at.now }
{
    let place = place_of(star_of(stars, *at), half, far);
    stars.take(u64::from(at.get()), place);
}

/// Takes the halves of a string out of the stars of its ends. At both there is room for one more
/// then. It takes no memory, and time by the halves at the two points.
pub(crate) fn take_spokes(stars: &mut KeyLists<Spoke>, row: &StringRow)
    requires two { row.now.from ≢ row.now.to }
    requires from { Contains (items_at stars.old row.now.from)
        (spoke (forward_of row.now.number) row.now.to) }
    requires to { Contains (items_at stars.old row.now.to)
        (spoke (backward_of row.now.number) row.now.from) }
    ensures takes { (p : ℕ) → IsPermutation (items_at stars.old p)
        (spokes_of p row.now ++ items_at stars.new p) }
    ensures room_from { HasRoomAt stars.new row.now.from 1 }
    ensures room_to { HasRoomAt stars.new row.now.to 1 }
    ensures capacity { (p : ℕ) → capacity_at stars.new p ≡ capacity_at stars.old p }
{
    let string = row.number;
    take_spoke(stars, &row.from, &half_along(&string, true), &row.to);
    take_spoke(stars, &row.to, &half_along(&string, false), &row.from);
}

// Puts a half into the star of the point where it begins.
fn put_spoke(stars: &mut KeyLists<Spoke>, at: &PointNo, half: &Half, far: &PointNo)
    requires { HasRoomAt stars.old at.now 1 }
    ensures here { items_at stars.new at.now ≡ items_at stars.old at.now ++ spoke half.now far.now ∷ [] }
    ensures others { KeepsOthers at.now stars.old stars.new }
    ensures capacity { capacity_at stars.new at.now ≡ capacity_at stars.old at.now }
{
    let spoke = Spoke {
        half: *half,
        far: *far,
    };
    stars.put(u64::from(at.get()), spoke);
}

/// Puts the halves of a string into the stars of its ends. It takes no memory.
pub(crate) fn put_spokes(stars: &mut KeyLists<Spoke>, row: &StringRow)
    requires two { row.now.from ≢ row.now.to }
    requires from { HasRoomAt stars.old row.now.from 1 }
    requires to { HasRoomAt stars.old row.now.to 1 }
    ensures adds { AddsSpokes row.now stars.old stars.new }
    ensures capacity { (p : ℕ) → capacity_at stars.new p ≡ capacity_at stars.old p }
{
    let string = row.number;
    put_spoke(stars, &row.from, &half_along(&string, true), &row.to);
    put_spoke(stars, &row.to, &half_along(&string, false), &row.from);
}

/// Takes the halves of a string out of the stars of its ends, and puts those of two in that meet at
/// a third point. It takes no memory, and time by the halves at the string's ends.
pub(crate) fn part_spokes(
    stars: &mut KeyLists<Spoke>,
    whole: &StringRow,
    first: &StringRow,
    second: &StringRow,
)
    requires { CanPart whole.now first.now second.now stars.old }
    ensures { (strings left : List StringRowOf) → AreStarsOf strings stars.old
        → IsPermutation strings (whole.now ∷ left)
        → AreStarsOf (second.now ∷ first.now ∷ left) stars.new }
{
    take_spokes(stars, whole);
    put_spokes(stars, first);
    put_spokes(stars, second);
}

/// Takes the halves of two strings that meet at a point out of the stars, and puts those of one in
/// between their other ends. There is room for both again. It takes no memory, and time by the halves
/// at the three points.
pub(crate) fn join_spokes(
    stars: &mut KeyLists<Spoke>,
    whole: &StringRow,
    first: &StringRow,
    second: &StringRow,
)
    requires { CanMeet whole.now first.now second.now stars.old }
    ensures stars { (strings left : List StringRowOf) → AreStarsOf strings stars.old
        → IsPermutation strings (first.now ∷ second.now ∷ left)
        → AreStarsOf (whole.now ∷ left) stars.new }
    ensures room { (can : CanMeet whole.now first.now second.now stars.old)
        → HasRoomAt stars.new can.point 2 }
{
    take_spokes(stars, first);
    take_spokes(stars, second);
    put_spokes(stars, whole);
}
