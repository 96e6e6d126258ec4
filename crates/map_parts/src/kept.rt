//! One half of each ring, under the place of the ring's face.
ghost use Rattle.std.specs.Prelude.{◌≡◌, ◌++◌, ◌∷◌, [], ℕ, slice_get, OnOk};
ghost use Rattle.cad_map.specs.Boundaries.{face_place as face_place_of};
ghost use Rattle.key_lists.specs.Held.{items_at};

use cad_map::face_place;
use cad_rows::{Face, Memory};
use half_table::Half;
use key_lists::KeyLists;

/// The half that is kept of one ring of a face, and `None` past the last of its rings.
pub fn kept_half(kept: &KeyLists<Half>, face: Face, place: usize) -> Option<Half>
    ensures { result ≡ slice_get (items_at kept.now (face_place_of face)) place }
{
    kept.at(face_place(face)).get(place).copied()
}

/// Keeps a half of one ring more of a face.
pub(crate) fn keep_half(kept: &mut KeyLists<Half>, face: Face, half: Half) -> Result<(), Memory>
    ensures here { OnOk result (items_at kept.new (face_place_of face)
        ≡ items_at kept.old (face_place_of face) ++ half ∷ []) }
    ensures others { OnOk result ((n : ℕ) → (face_place_of face ≡ n → ⊥)
        → items_at kept.new n ≡ items_at kept.old n) }
{
    kept.push(face_place(face), half)?;
    Ok(())
}
