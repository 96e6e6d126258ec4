//! Two parcels merged along what they share.
ghost use Rattle.std.specs.Prelude.{◌≡◌, Some, None, [], ◌∷◌, not, filter, map as map_of, IfOk, IfErr, ◌++◌, OnOk, if◌then◌else◌, fold};
ghost use Rattle.cad_map.specs.Valid.{IsValid};
ghost use Rattle.cad_map.specs.Refusals.{first_of, outside, same_parcel, not_neighbours, not_one_chain};
ghost use Rattle.cad_map.specs.Changes.{merge_at, merge as merge_of};
ghost use Rattle.cad_map.specs.Merger.{shared_chains, is_taken_out as is_taken_out_of, handed_over as handed_over_of, is_shared as is_shared_of};
ghost use Rattle.cad_map.specs.SharedChains.{IsSharedChain};
ghost use Rattle.std.specs.Str.{bytes_eq as is_same_list};
ghost use Rattle.cad_edit.specs.Admitted.{HasChain};
ghost use Rattle.cad_edit.specs.Merging.{kept_side as kept_side_of, ended_side as ended_side_of, CanBeJoined, rings_joined};
ghost use Rattle.numbered_rows.specs.Rows.{without_row};

use crate::rings::ring_with;
use cad_map::{
    Boundary, MapView, PlainMap, SharedChain, find_chain_of_sides, is_face, is_shared, shared_count,
};
use cad_rings::Ring;
use cad_rows::{Edit, Face, Memory, PointNo, Refusal, StringNo};
use std::alloc::Global;

/// A merger names the outside.
pub(crate) fn outside_refusal(edit: &Edit) -> Option<Refusal>
    ensures { result ≡ outside edit.now }
{
    match edit {
        Edit::Merge { kept, ended } => {
            if is_face(&Face::Outside, kept) || is_face(&Face::Outside, ended) {
                Some(Refusal::Outside)
            } else {
                None
            }
        }
        _ => None,
    }
}

/// Of a merger what the two parcels share, or why they can't be merged: they are one, no string has the two on its sides,
/// or what they have in common is neither one chain nor one whole ring.
pub(crate) fn chain_of<M: MapView>(map: &M, edit: &Edit) -> Result<Option<SharedChain>, Refusal>
    requires { IsValid (M.map map.now) }
    ensures refused { IfErr result (λ r. first_of
        (same_parcel edit.now ∷ not_neighbours (M.map map.now) edit.now
        ∷ not_one_chain (M.map map.now) edit.now ∷ []) ≡ Some r) }
    ensures two { IfOk result (λ found. same_parcel edit.now ≡ None) }
    ensures neighbours { IfOk result (λ found. not_neighbours (M.map map.now) edit.now ≡ None) }
    ensures one_chain { IfOk result (λ found. not_one_chain (M.map map.now) edit.now ≡ None) }
    ensures found { IfOk result (HasChain (M.map map.now) edit.now) }
{
    let Edit::Merge { kept, ended } = edit else {
        return Ok(None);
    };
    if is_face(kept, ended) {
        return Err(Refusal::SameParcel);
    }
    let sides = shared_count(map, kept, ended);
    if sides == 0 {
        return Err(Refusal::NotNeighbours);
    }
    let found = find_chain_of_sides(map, kept, ended, sides);
    if found.is_none() {
        return Err(Refusal::NotOneChain);
    }
    Ok(found)
}

/// Merges one parcel into another.
pub(crate) fn merge(
    map: &mut PlainMap,
    kept: Face,
    ended: Face,
    chain: &SharedChain,
) -> Result<(), Memory>
    requires valid { IsValid map.old }
    requires shared { IsSharedChain map.old kept ended chain.now }
    ensures { OnOk result (map.new ≡ merge_of map.old kept ended) }
{
    let Face::Parcel(number) = ended else {
        return Ok(());
    };
    let boundaries = merged_boundaries(map, &kept, &ended, chain)?;
    let shared = shared_strings(map, &kept, &ended)?;
    take_strings(map, shared.as_slice());
    map.take_parcel(number);
    map.put_retired(number)?;
    map.set_boundaries(boundaries);
    Ok(())
}

/// The numbers of the strings that two faces share.
fn shared_strings(map: &PlainMap, kept: &Face, ended: &Face) -> Result<Vec<StringNo>, Memory>
    requires { IsValid map.now }
    ensures { IfOk result (λ shared. shared.items
        ≡ map_of (λ row. row.number)
        (filter (is_shared_of map.now kept.now ended.now) map.now.strings)) }
{
    let mut shared = Vec::new(map.allocator());
    for place in 0..map.counts().strings {
        let row = map.string_at(place).unwrap();
        push_number_if(&mut shared, row.number, is_shared(map, kept, ended, row))?;
    }
    Ok(shared)
}

/// Puts a number last, where it is wanted.
fn push_number_if(
    numbers: &mut Vec<StringNo>,
    number: StringNo,
    is_wanted: bool,
) -> Result<(), Memory>
    ensures { OnOk result
        (numbers.new.items ≡ numbers.old.items ++ (if is_wanted then number ∷ [] else [])) }
{
    if is_wanted {
        numbers.push(number)?;
    }
    Ok(())
}

/// Takes strings out.
fn take_strings(map: &mut PlainMap, numbers: &[StringNo])
    ensures { map.new
        ≡ record map.old {
          strings = fold (λ rows no. without_row (λ r. r.number) no rows) map.old.strings
              numbers.now;
        } }
{
    for no in numbers {
        map.take_string(*no);
    }
}

/// The rings of all faces after one of two parcels that share a chain is merged into the other along it.
fn merged_boundaries(
    map: &PlainMap,
    kept: &Face,
    ended: &Face,
    chain: &SharedChain,
) -> Result<Vec<Boundary>, Memory>
    requires valid { IsValid map.now }
    requires shared { IsSharedChain map.now kept.now ended.now chain.now }
    ensures { IfOk result (λ made. made.items
        ≡ merge_at map.now kept.now ended.now (shared_chains map.now kept.now ended.now)) }
{
    let (from, to) = kept_side(chain);
    let first = ring_with(map.boundaries(), from, to).unwrap();
    let (from, to) = ended_side(chain);
    let second = ring_with(map.boundaries(), from, to).unwrap();
    let mut made = joined_rings(map.allocator(), kept, first, second, chain)?;
    append_others(&mut made, map.boundaries(), kept, ended, first, second)?;
    Ok(made)
}

/// The side of the kept ring that tells it: the first of the chain.
fn kept_side(chain: &SharedChain) -> (PointNo, PointNo)
    ensures { result ≡ kept_side_of chain.now }
{
    match chain {
        SharedChain::Along { first, .. } => *first,
        SharedChain::Around { side } => *side,
    }
}

/// The side of the ended ring that tells it: the first of the chain back.
fn ended_side(chain: &SharedChain) -> (PointNo, PointNo)
    ensures { result ≡ ended_side_of chain.now }
{
    match chain {
        SharedChain::Along { last, .. } => (last.1, last.0),
        SharedChain::Around { side } => (side.1, side.0),
    }
}

/// The ring round two rings with a chain in common, and none where each is the reverse of the other.
fn joined_rings(
    alloc: Global,
    face: &Face,
    kept: &Ring,
    ended: &Ring,
    chain: &SharedChain,
) -> Result<Vec<Boundary>, Memory>
    requires { CanBeJoined chain.now kept.now ended.now }
    ensures { IfOk result
        (λ made. made.items ≡ rings_joined face.now kept.now ended.now chain.now) }
{
    let mut made = Vec::new(alloc);
    if let SharedChain::Along { first, last, sides } = chain {
        let start = kept.place_of(first.0, first.1).unwrap();
        let end = ended.place_of(last.1, last.0).unwrap();
        let ring = kept.join_along(ended, start, end, *sides)?;
        made.push(Boundary { face: *face, ring })?;
    }
    Ok(made)
}

/// Whether two rings have the same points, from the first on.
fn is_same(a: &Ring, b: &Ring) -> bool
    ensures { result ≡ is_same_list a.now b.now }
{
    if a.len() != b.len() {
        return false;
    }
    for place in 0..a.len() {
        if a.points()[place].get() != b.points()[place].get() {
            return false;
        }
    }
    true
}

/// Appends all other rings, those of the ended face as rings of the kept one.
fn append_others(
    made: &mut Vec<Boundary>,
    boundaries: &[Boundary],
    kept: &Face,
    ended: &Face,
    first: &Ring,
    second: &Ring,
) -> Result<(), Memory>
    ensures { OnOk result (made.new.items ≡ made.old.items
        ++ map_of (handed_over_of kept.now ended.now) (filter
        (λ b. not (is_taken_out_of kept.now ended.now first.now second.now b)) boundaries.now)) }
{
    for boundary in boundaries {
        if !is_taken_out(kept, ended, first, second, boundary) {
            made.push(handed_over(kept, ended, boundary)?)?;
        }
    }
    Ok(())
}

/// Whether a ring is one of the two that a merger takes out.
fn is_taken_out(kept: &Face, ended: &Face, first: &Ring, second: &Ring, boundary: &Boundary) -> bool
    ensures { result ≡ is_taken_out_of kept.now ended.now first.now second.now boundary.now }
{
    (is_face(kept, &boundary.face) && is_same(first, &boundary.ring))
        || (is_face(ended, &boundary.face) && is_same(second, &boundary.ring))
}

/// A ring, which goes to the kept face where it is the ended one's.
fn handed_over(kept: &Face, ended: &Face, boundary: &Boundary) -> Result<Boundary, Memory>
    ensures { IfOk result (λ made. made ≡ handed_over_of kept.now ended.now boundary.now) }
{
    let face = if is_face(ended, &boundary.face) {
        *kept
    } else {
        boundary.face
    };
    let ring = boundary.ring.copy()?;
    Ok(Boundary { face, ring })
}
