//! The chain or the ring that two faces have in common, and how many sides.
ghost use Rattle.std.specs.Prelude.{◌≡◌, ◌<◌, [], not, ◌==◌, length, filter, Some, None, IfSome, IfNone, false, if◌then◌else◌};
ghost use Rattle.std.specs.List.{Contains};
ghost use Rattle.cad_rings.specs.Cycle.{has_side, sides_of};
ghost use Rattle.cad_map.specs.Map.{rings_at, all_sides};
ghost use Rattle.cad_map.specs.Merger.{shared_sides, is_shared as is_shared_of, shared_chains};
ghost use Rattle.cad_map.specs.Rings.{ring_at};
ghost use Rattle.cad_map.specs.SharedChains.{IsSharedChain};
ghost use Rattle.cad_map.specs.Steps.{next_side as next_side_of, steps, turns_back as turns_back_of, runs_back, has_twin_in as has_twin_in_of, chain_along, is_before_chain, runs_round as runs_round_of, has_chain_along, IsFoundAlong};
ghost use Rattle.cad_map.specs.Valid.{IsValid};

use crate::look::{is_face, one_if};
use crate::store::MapView;
use crate::walk::Walk;
use cad_rows::{Face, PointNo, StringRow};

/// What two faces have in common where that is one chain or one ring, as the rings of the first of them lead along it.
#[derive(Clone, Copy)]
pub enum SharedChain {
    /// A chain of so many sides, from the first to the last, each of them from one point to the next.
    Along {
        first: (PointNo, PointNo),
        last: (PointNo, PointNo),
        sides: usize,
    },
    /// All sides of the ring that has this one.
    Around {
        side: (PointNo, PointNo),
    },
}

/// How many sides of one face have another on their other side. Takes no memory.
pub fn shared_count<M: MapView>(map: &M, kept: &Face, ended: &Face) -> usize
    requires { IsValid (M.map map.now) }
    ensures { result ≡ length (shared_sides (M.map map.now) kept.now ended.now) }
{
    let mut count = 0;
    for place in 0..map.ring_count(*kept) {
        count += shared_in_ring(map, kept, place, ended);
    }
    count
}

/// Whether what two faces have in common is one chain, with more sides on both rings, or just one ring. Takes no
/// memory.
pub fn has_shared_chain<M: MapView>(map: &M, kept: &Face, ended: &Face) -> bool
    requires { IsValid (M.map map.now) }
    ensures { result ≡ not (length (shared_chains (M.map map.now) kept.now ended.now) == 0) }
{
    find_shared_chain(map, kept, ended).is_some()
}

/// The one chain, with more sides on both rings, or the one ring that two faces have in common, and `None` where it is
/// neither. Takes no memory, and a step for each side of the first face.
///
/// A chain begins only where the other face has the twin of a side and not that of the side before it, so it is followed
/// once. Where the other face comes back along it, no string leaves it between its ends; so its points differ if the
/// last is another than the first.
pub fn find_shared_chain<M: MapView>(map: &M, kept: &Face, ended: &Face) -> Option<SharedChain>
    requires { IsValid (M.map map.now) }
    ensures some { IfSome result (IsSharedChain (M.map map.now) kept.now ended.now) }
    ensures none { IfNone result (shared_chains (M.map map.now) kept.now ended.now ≡ []) }
{
    find_chain_of_sides(map, kept, ended, shared_count(map, kept, ended))
}

/// What [`find_shared_chain`] finds of two faces that have so many sides in common.
pub fn find_chain_of_sides<M: MapView>(
    map: &M,
    kept: &Face,
    ended: &Face,
    sides: usize,
) -> Option<SharedChain>
    requires valid { IsValid (M.map map.now) }
    requires counted { sides ≡ length (shared_sides (M.map map.now) kept.now ended.now) }
    ensures some { IfSome result (IsSharedChain (M.map map.now) kept.now ended.now) }
    ensures none { IfNone result (shared_chains (M.map map.now) kept.now ended.now ≡ []) }
{
    for place in 0..map.ring_count(*kept) {
        if let Some(chain) = chain_in_ring(map, kept, place, ended, sides) {
            return Some(chain);
        }
    }
    None
}

/// Whether a string lies between two faces. Takes no memory.
pub fn is_shared<M: MapView>(map: &M, kept: &Face, ended: &Face, string: &StringRow) -> bool
    requires { IsValid (M.map map.now) }
    ensures { result ≡ is_shared_of (M.map map.now) kept.now ended.now string.now }
{
    is_shared_side(map, kept, ended, string.from, string.to)
        || is_shared_side(map, kept, ended, string.to, string.from)
}

/// Whether the one face has a side, and the other its opposite.
fn is_shared_side<M: MapView>(
    map: &M,
    kept: &Face,
    ended: &Face,
    from: PointNo,
    to: PointNo,
) -> bool
    requires { IsValid (M.map map.now) }
    ensures { result ≡ has_side (from, to) (shared_sides (M.map map.now) kept.now ended.now) }
{
    has_twin_in(map, kept, to, from) && has_twin_in(map, ended, from, to)
}

/// How many sides of a face's ring at a place have another face on their other side.
#[tactic(auto, using(crate::proofs::Boundaries::RingsOfMap::whole_valid))]
fn shared_in_ring<M: MapView>(map: &M, face: &Face, place: usize, other: &Face) -> usize
    requires valid { IsValid (M.map map.now) }
    requires there { place < length (rings_at face.now (M.rings map.now)) }
    ensures { result ≡ length (filter (has_twin_in_of (M.map map.now) other.now)
        (sides_of (ring_at (M.rings map.now) face.now place))) }
{
    let mut count = 0;
    for (a, b) in Walk::of_ring(map, face, place) {
        count += one_if(has_twin_in(map, other, a, b));
    }
    count
}

/// How many sides a face's ring at a place has.
#[tactic(auto, using(crate::proofs::Boundaries::RingsOfMap::whole_valid))]
fn side_count<M: MapView>(map: &M, face: &Face, place: usize) -> usize
    requires valid { IsValid (M.map map.now) }
    requires there { place < length (rings_at face.now (M.rings map.now)) }
    ensures { result ≡ length (ring_at (M.rings map.now) face.now place) }
{
    let mut count = 0;
    for _ in Walk::of_ring(map, face, place) {
        count += 1;
    }
    count
}

/// What another face comes back along of a ring, where it is so many sides: all of the ring, or a chain.
#[tactic(auto, using(crate::proofs::Boundaries::RingsOfMap::whole_valid))]
fn chain_in_ring<M: MapView>(
    map: &M,
    face: &Face,
    place: usize,
    other: &Face,
    count: usize,
) -> Option<SharedChain>
    requires valid { IsValid (M.map map.now) }
    requires there { place < length (rings_at face.now (M.rings map.now)) }
    ensures some { IfSome result
        (IsFoundAlong (M.map map.now) other.now count (ring_at (M.rings map.now) face.now place)) }
    ensures none { IfNone result (has_chain_along (M.map map.now) other.now count
        (ring_at (M.rings map.now) face.now place) ≡ false) }
{
    let walk = Walk::of_ring(map, face, place);
    if runs_round(map, face, place, other, count) {
        return Some(SharedChain::Around {
            side: walk.first_side(),
        });
    }
    for (a, b) in walk {
        if let Some(chain) = chain_after(map, other, a, b, count) {
            return Some(chain);
        }
    }
    None
}

/// Whether a ring has so many sides, and another face comes back along all of them.
#[tactic(auto, using(crate::proofs::Boundaries::RingsOfMap::whole_valid))]
fn runs_round<M: MapView>(map: &M, face: &Face, place: usize, other: &Face, count: usize) -> bool
    requires valid { IsValid (M.map map.now) }
    requires there { place < length (rings_at face.now (M.rings map.now)) }
    ensures { result ≡ runs_round_of (M.map map.now) other.now count
        (ring_at (M.rings map.now) face.now place) }
{
    let (from, to) = Walk::of_ring(map, face, place).first_side();
    if side_count(map, face, place) != count {
        return false;
    }
    has_twin_in(map, other, from, to) && run_back(map, (from, to), count).is_some()
}

/// Whether a side has a face on its other side.
fn has_twin_in<M: MapView>(map: &M, face: &Face, from: PointNo, to: PointNo) -> bool
    requires { IsValid (M.map map.now) }
    ensures { result ≡ has_twin_in_of (M.map map.now) face.now (from, to) }
{
    match map.face_of(to, from) {
        Some(other) => is_face(face, &other),
        None => false,
    }
}

/// The chain of so many sides after this one, if another face comes back along it and doesn't have the twin of this one.
fn chain_after<M: MapView>(
    map: &M,
    face: &Face,
    from: PointNo,
    to: PointNo,
    count: usize,
) -> Option<SharedChain>
    requires valid { IsValid (M.map map.now) }
    requires there { Contains (all_sides (M.map map.now)) (from, to) }
    ensures { result ≡ (if is_before_chain (M.map map.now) face.now count (from, to)
        then Some (chain_along (next_side_of (M.map map.now))
        (next_side_of (M.map map.now) (from, to)) count) else None) }
{
    if has_twin_in(map, face, from, to) {
        return None;
    }
    let first = next_side(map, from, to);
    if count == 0 || !has_twin_in(map, face, first.0, first.1) {
        return None;
    }
    let last = run_back(map, first, count - 1)?;
    if first.0.get() == last.1.get() {
        None
    } else {
        Some(SharedChain::Along {
            first,
            last,
            sides: count,
        })
    }
}

/// The side after so many from this one on, if their opposites and its own follow one another backwards.
fn run_back<M: MapView>(
    map: &M,
    first: (PointNo, PointNo),
    count: usize,
) -> Option<(PointNo, PointNo)>
    requires valid { IsValid (M.map map.now) }
    requires there { Contains (all_sides (M.map map.now)) first }
    ensures { result ≡ (if runs_back (next_side_of (M.map map.now)) first count
        then Some (steps (next_side_of (M.map map.now)) count first) else None) }
{
    let mut side = first;
    for _ in 0..count {
        if !turns_back(map, side.0, side.1) {
            return None;
        }
        side = next_side(map, side.0, side.1);
    }
    Some(side)
}

/// Whether the opposite of the next side is followed by the opposite of this one.
fn turns_back<M: MapView>(map: &M, from: PointNo, to: PointNo) -> bool
    requires valid { IsValid (M.map map.now) }
    requires there { Contains (all_sides (M.map map.now)) (from, to) }
    ensures { result ≡ turns_back_of (next_side_of (M.map map.now)) (from, to) }
{
    let (_, far) = next_side(map, from, to);
    let (_, back) = next_side(map, far, to);
    back.get() == from.get()
}

/// The side that comes after a side in its ring.
fn next_side<M: MapView>(map: &M, from: PointNo, to: PointNo) -> (PointNo, PointNo)
    requires valid { IsValid (M.map map.now) }
    requires there { Contains (all_sides (M.map map.now)) (from, to) }
    ensures next { result ≡ next_side_of (M.map map.now) (from, to) }
    ensures there { Contains (all_sides (M.map map.now)) result }
{
    (to, map.after(from, to).unwrap())
}
