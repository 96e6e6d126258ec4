//! The strings that meet in a point.
ghost use Rattle.std.specs.Prelude.{◌≡◌, ◌≤◌, length, [], ◌∷◌, not, filter, ◌==◌};
ghost use Rattle.cad_map.specs.Valid.{IsValid};
ghost use Rattle.std.specs.List.{list_any};
ghost use Rattle.cad_map.specs.Map.{degree, strings_at};
ghost use Rattle.cad_map.specs.Changes.{by_number, joined_sources};
ghost use Rattle.cad_edit.specs.Admitted.{AreStrings};

use cad_map::MapView;
use cad_rows::{Numbers, PointNo, SourceNo, StringNo, StringRow};

/// Two strings, the lower-numbered one first.
fn in_order<'a>(first: &'a StringRow, second: &'a StringRow) -> (&'a StringRow, &'a StringRow)
    ensures { by_number (first.now ∷ second.now ∷ []) ≡ result.0.now ∷ result.1.now ∷ [] }
{
    if second.number.get() < first.number.get() {
        (second, first)
    } else {
        (first, second)
    }
}

/// The two strings that end at a point, the lower-numbered one first.
pub fn two_at<M: MapView>(map: &M, point: PointNo) -> (&StringRow, &StringRow)
    requires valid { IsValid (M.map map.now) }
    requires two { degree (M.map map.now) point ≡ 2 }
    ensures { by_number (strings_at (M.map map.now) point) ≡ result.0.now ∷ result.1.now ∷ [] }
{
    let first = map.string_with(point, 0).unwrap();
    let second = map.string_with(point, 1).unwrap();
    in_order(first, second)
}

/// The two strings with these numbers, which are those at a point.
pub(crate) fn two_found<'a, M: MapView>(
    map: &'a M,
    point: PointNo,
    strings: Option<(StringNo, StringNo)>,
) -> (&'a StringRow, &'a StringRow)
    requires valid { IsValid (M.map map.now) }
    requires strings { AreStrings (M.map map.now) point strings }
    ensures { by_number (strings_at (M.map map.now) point) ≡ result.0.now ∷ result.1.now ∷ [] }
{
    let (first, second) = strings.unwrap();
    let one = map.string(first).unwrap();
    let other = map.string(second).unwrap();
    (one, other)
}

/// Whether a source is one of these.
pub(crate) fn is_among(sources: &Numbers<SourceNo>, source: SourceNo) -> bool
    ensures { result ≡ list_any (λ s. s == source) sources.now }
{
    sources.as_slice().iter().any(|no| no.get() == source.get())
}

/// How many of some sources aren't among others.
fn count_others(sources: &Numbers<SourceNo>, among: &Numbers<SourceNo>) -> usize
    ensures value { result
        ≡ length (filter (λ y. not (list_any (λ x. x == y) among.now)) sources.now) }
    ensures few { result ≤ length sources.now }
{
    sources
        .as_slice()
        .iter()
        .filter(|source| !is_among(among, **source))
        .count()
}

/// How many sources the two strings at a point have together, each counted once.
pub(crate) fn joined_source_count<M: MapView>(
    map: &M,
    point: PointNo,
    strings: Option<(StringNo, StringNo)>,
) -> usize
    requires valid { IsValid (M.map map.now) }
    requires strings { AreStrings (M.map map.now) point strings }
    ensures { result ≡ length (joined_sources (by_number (strings_at (M.map map.now) point))) }
{
    let (first, second) = two_found(map, point, strings);
    first.sources.len() + count_others(&second.sources, &first.sources)
}
