//! Halves that are kept of rings, put in the place of one another without memory.
ghost use Rattle.std.specs.Prelude.{◌≡◌, ℕ, map};
ghost use Rattle.key_lists.specs.Held.{items_at};
ghost use Rattle.cad_map.specs.Boundaries.{face_place as face_place_of};
ghost use Rattle.map_parts.specs.Passing.{in_place_of, in_place_at};

use cad_map::face_place;
use cad_rows::Face;
use half_table::Half;
use key_lists::KeyLists;

// The one half in the place of the other.
fn replaced(half: &Half, from: &Half, to: &Half) -> Half
    ensures { result ≡ in_place_of from.now to.now half.now }
{
    if half.string == from.string && half.forward == from.forward {
        *to
    } else {
        *half
    }
}

/// Keeps a half in the place of another, where that one is kept for the face. It takes no memory,
/// and time by the rings of the face.
pub(crate) fn replace_kept(kept: &mut KeyLists<Half>, face: &Face, from: &Half, to: &Half)
    ensures { (n : ℕ) → items_at kept.new n
        ≡ map (in_place_at (face_place_of face.now) from.now to.now n) (items_at kept.old n) }
{
    let key = face_place(*face);
    let count = kept.at(key).len();
    for place in 0..count {
        let half = replaced(&kept.at(key)[place], from, to);
        kept.set(key, place, half);
    }
}
