//! What a join is made of, found on a map.
ghost use Rattle.std.specs.Prelude.{◌≡◌, ◌∷◌, [], ℕ, true, false, IfOk};
ghost use Rattle.cad_map.specs.Changes.{by_number};
ghost use Rattle.cad_map.specs.Map.{degree, strings_at};
ghost use Rattle.cad_map.specs.Valid.{IsValid};
ghost use Rattle.cad_laws.specs.Joining.{FarEndsAreApart};
ghost use Rattle.cad_rows.specs.declared.edits.Edit.TheVariants.{Join};
ghost use Rattle.cad_rows.specs.declared.rows.StringRow.{StringRow as StringOf};
ghost use Rattle.cad_surgery.specs.Joinings.{joining_of};

use cad_edit::{both_sources, two_at};
use cad_map::{MapView, far_end};
use cad_rows::{Memory, PointNo, StringNo, StringRow};

/// What a join is made of: the numbers of the two strings at the point, the lower first, and the row
/// of the string that comes.
#[derive(Drop)]
pub(crate) struct Joining {
    pub(crate) first: StringNo,
    pub(crate) second: StringNo,
    pub(crate) row: StringRow,
}

/// What a join at a point of two strings is made of.
pub(crate) fn joining_at<M: MapView>(
    map: &M,
    point: PointNo,
    string: StringNo,
) -> Result<Joining, Memory>
    requires valid { IsValid (M.map map.now) }
    requires two { degree (M.map map.now) point ≡ 2 }
    ensures { IfOk result (λ joining. (s t : StringOf)
        → by_number (strings_at (M.map map.now) point) ≡ s ∷ t ∷ []
        → joining ≡ joining_of point string s t) }
{
    let (first, second) = two_at(map, point);
    Ok(Joining {
        first: first.number,
        second: second.number,
        row: StringRow {
            number: string,
            from: far_end(first, point),
            to: far_end(second, point),
            sources: both_sources(&first.sources, &second.sources)?,
        },
    })
}

/// Whether a side leads from the far end of the one string at a point to that of the other. It takes
/// no memory.
pub(crate) fn are_far_ends_joined<M: MapView>(map: &M, point: PointNo) -> bool
    requires valid { IsValid (M.map map.now) }
    requires two { degree (M.map map.now) point ≡ 2 }
    ensures apart { result ≡ false → (string : ℕ) → FarEndsAreApart (M.map map.now) (Join point string) }
    ensures joined { result ≡ true
        → (string : ℕ) → ¬ FarEndsAreApart (M.map map.now) (Join point string) }
{
    let (first, second) = two_at(map, point);
    map.face_of(far_end(first, point), far_end(second, point))
        .is_some()
}
