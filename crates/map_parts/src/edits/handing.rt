//! Kept halves of rings that pass from one face to another.
ghost use Rattle.std.specs.Prelude.{◌≡◌, ◌≢◌, ◌++◌, ◌∷◌, [], ◌<◌, ◌+◌, ℕ, length, swap_remove, slice_get, Some};
ghost use Rattle.cad_map.specs.Boundaries.{face_place as face_place_of};
ghost use Rattle.half_paths.specs.Path.{AreIn};
ghost use Rattle.key_lists.specs.Held.{items_at, capacity_at, HasRoomAt, KeepsOthers};
ghost use Rattle.map_parts.specs.Handing.{HandsOver, KeepsBoth, KeepsOne};

use cad_map::face_place;
use cad_rows::Face;
use half_table::{Half, HalfTable, Tally};
use key_lists::KeyLists;

// Takes the half at a place of one list, and puts it last in another.
fn hand_at(kept: &mut KeyLists<Half>, from: u64, to: u64, place: usize) -> Half
    requires differ { from ≢ to }
    requires place { place < length (items_at kept.old from) }
    requires room { HasRoomAt kept.old to 1 }
    ensures item { slice_get (items_at kept.old from) place ≡ Some result }
    ensures left { items_at kept.new from ≡ swap_remove (items_at kept.old from) place result }
    ensures got { items_at kept.new to ≡ items_at kept.old to ++ result ∷ [] }
    ensures others { (n : ℕ) → ¬ (from ≡ n) → ¬ (to ≡ n) → items_at kept.new n ≡ items_at kept.old n }
    ensures capacity { (n : ℕ) → capacity_at kept.new n ≡ capacity_at kept.old n }
{
    let half = kept.take(from, place);
    let given = &half;
    kept.put(to, *given);
    *given
}

/// Gives the halves that are kept for a face, and that have another, to that one. It takes no
/// memory, and time by the rings of the face.
///
/// Condition: the other face's list has room for them.
pub(crate) fn hand_over<T: Tally>(
    table: &HalfTable<T>,
    kept: &mut KeyLists<Half>,
    from: &Face,
    to: &Face,
)
    requires differ { face_place_of from.now ≢ face_place_of to.now }
    requires within { AreIn table.now.rows (items_at kept.old (face_place_of from.now)) }
    requires room { HasRoomAt kept.old (face_place_of to.now) (length (items_at kept.old (face_place_of from.now))) }
    ensures hands { HandsOver table.now.rows (face_place_of from.now) (face_place_of to.now) kept.old kept.new }
    ensures capacity { (n : ℕ) → capacity_at kept.new n ≡ capacity_at kept.old n }
{
    let from_key = face_place(*from);
    let to_key = face_place(*to);
    let mut place = 0;
    for _step in 0..kept.at(from_key).len() {
        let half = &kept.at(from_key)[place];
        if face_place(table.face(*half)) == to_key {
            hand_at(kept, from_key, to_key, place);
        } else {
            place += 1;
        }
    }
}

/// Takes all halves out of one list. It takes no memory.
pub(crate) fn clear(kept: &mut KeyLists<Half>, key: u64)
    ensures none { items_at kept.new key ≡ [] }
    ensures others { KeepsOthers key kept.old kept.new }
    ensures capacity { capacity_at kept.new key ≡ capacity_at kept.old key }
{
    let count = kept.at(key).len();
    for gone in 0..count {
        kept.take(key, count - 1 - gone);
    }
}

/// Keeps one half more, of the one of two rings that has none: the first half for the inner face, if
/// none is kept for it, and else the second for the outer face. It takes no memory.
pub(crate) fn keep_both(
    kept: &mut KeyLists<Half>,
    own: &Half,
    other: &Half,
    inner: &Face,
    outer: &Face,
)
    requires differ { face_place_of outer.now ≢ face_place_of inner.now }
    requires inner_room { HasRoomAt kept.old (face_place_of inner.now) 1 }
    requires outer_room { HasRoomAt kept.old (face_place_of outer.now) 1 }
    ensures both { KeepsBoth (face_place_of inner.now) (face_place_of outer.now) own.now other.now
        kept.old kept.new }
    ensures more { length (items_at kept.new (face_place_of inner.now))
        + length (items_at kept.new (face_place_of outer.now))
        ≡ length (items_at kept.old (face_place_of inner.now))
        + length (items_at kept.old (face_place_of outer.now)) + 1 }
    ensures capacity { (n : ℕ) → capacity_at kept.new n ≡ capacity_at kept.old n }
{
    let key = face_place(*inner);
    if kept.at(key).is_empty() {
        kept.put(key, *own);
    } else {
        kept.put(face_place(*outer), *other);
    }
}

/// Takes out all halves that are kept for the inner face, and if there were any, keeps this one for
/// the outer face. It takes no memory.
pub(crate) fn keep_one(kept: &mut KeyLists<Half>, half: &Half, inner: &Face, outer: &Face)
    requires differ { face_place_of outer.now ≢ face_place_of inner.now }
    requires room { HasRoomAt kept.old (face_place_of outer.now) 1 }
    ensures one { KeepsOne (face_place_of inner.now) (face_place_of outer.now) half.now kept.old
        kept.new }
    ensures capacity { (n : ℕ) → capacity_at kept.new n ≡ capacity_at kept.old n }
{
    let key = face_place(*inner);
    if !kept.at(key).is_empty() {
        clear(kept, key);
        kept.put(face_place(*outer), *half);
    }
}
