//! Chains of points: what is wrong with one, and the strings along it.
ghost use Rattle.std.specs.Prelude.{◌≡◌, ◌+◌, length, [], ◌∷◌, IfOk};
ghost use Rattle.cad_map.specs.Chain.{inner_of, are_distinct as are_distinct_numbers, strings_along};
ghost use Rattle.cad_map.specs.Refusals.{first_not_free, is_bad_chain};

use cad_map::MapView;
use cad_rows::{Memory, Number, Numbers, PointNo, Refusal, SourceNo, StringNo, StringRow};
use std::alloc::Global;

/// The points of a chain between its first and its last.
pub(crate) fn inner(chain: &[PointNo]) -> &[PointNo]
    ensures { result.now ≡ inner_of chain.now }
{
    if chain.len() < 2 {
        &chain[..0]
    } else {
        &chain[1..chain.len() - 1]
    }
}

/// The first of these points that is on a string.
pub(crate) fn first_on_string_refusal<M: MapView>(map: &M, points: &[PointNo]) -> Option<Refusal>
    ensures { result ≡ first_not_free (M.map map.now) points.now }
{
    for point in points {
        let no = *point;
        if map.degree(no) != 0 {
            return Some(Refusal::NotFree(no));
        }
    }
    None
}

// Whether no number stands twice: each is compared with those behind it.
fn differ_two_by_two<Kind>(numbers: &[Number<Kind>]) -> bool
    ensures { result ≡ are_distinct_numbers numbers.now }
{
    for place in 0..numbers.len() {
        if numbers[place + 1..].contains(&numbers[place]) {
            return false;
        }
    }
    true
}

/// Whether no number stands twice: as the list was told, or else two by two.
fn are_distinct<Kind>(numbers: &Numbers<Number<Kind>>) -> bool
    ensures { result ≡ are_distinct_numbers numbers.now }
{
    match numbers.distinct_as_told() {
        Some(told) => told,
        None => differ_two_by_two(numbers.as_slice()),
    }
}

/// Whether the points are too few, the strings aren't as many as wanted, or a number stands twice.
pub(crate) fn is_bad(
    points: &Numbers<PointNo>,
    least: usize,
    strings: &Numbers<StringNo>,
    wanted: usize,
) -> bool
    ensures { result ≡ is_bad_chain points.now least strings.now wanted }
{
    points.len() < least
        || strings.len() != wanted
        || !are_distinct(points)
        || !are_distinct(strings)
}

/// A string for each two neighbours of a chain, from the former to the latter, with one source. An error where memory
/// runs out.
pub fn rows_along(
    alloc: Global,
    chain: &[PointNo],
    strings: &[StringNo],
    source: SourceNo,
) -> Result<Vec<StringRow>, Memory>
    requires { length strings.now + 1 ≡ length chain.now }
    ensures { IfOk result (λ rows. rows.items ≡ strings_along (source ∷ []) strings.now chain.now) }
{
    let mut rows = Vec::new(alloc);
    for place in 0..strings.len() {
        let mut sources = Numbers::new(alloc);
        sources.push(source)?;
        rows.push(StringRow {
            number: strings[place],
            from: chain[place],
            to: chain[place + 1],
            sources,
        })?;
    }
    Ok(rows)
}
