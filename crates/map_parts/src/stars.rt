//! The halves that begin at each point.
ghost use Rattle.std.proofs.Common.{rules};
ghost use Rattle.std.specs.Prelude.{◌≡◌, ◌++◌, ◌∷◌, [], ◌≢◌, ◌&&◌, OnOk, IfSome, ℕ, find, length, nat_lt, option_map, slice_get};
ghost use Rattle.std.specs.List.{Contains};
ghost use Rattle.half_table.specs.Half.{half_of, is_half, twin};
ghost use Rattle.key_lists.specs.Held.{items_at};
ghost use Rattle.map_parts.specs.declared.stars.Spoke.{Spoke as SpokeOf};
ghost use Rattle.map_parts.specs.Stars.{spoke, far_among_few, half_to, half_along, half_by_ends, AddsSpokes};

use cad_rows::{Memory, PointNo, StringNo, StringRow};
use half_table::Half;
use key_lists::{KeyLists, Short};

// Among so few halves a side is sought without a look at its other end.
const FEW: usize = 8;

/// A half-edge that begins at a point, and the point where it ends. The default fills places that
/// hold nothing.
#[derive(Clone, Copy, Default)]
pub struct Spoke {
    pub half: Half,
    pub far: PointNo,
}

impl Short for Spoke {
    ghost fits = { Prim.search rules };
}

/// The halves that begin at a point.
#[inline(always)]
pub fn star_of(stars: &KeyLists<Spoke>, point: PointNo) -> &[Spoke]
    ensures { result.now ≡ items_at stars.now point }
{
    stars.at(u64::from(point.get()))
}

/// The half at a place in the star of a point, and `None` past the last.
pub fn half_at(stars: &KeyLists<Spoke>, point: PointNo, place: usize) -> Option<Half>
    ensures { result ≡ option_map (λ (x : SpokeOf). x.half) (slice_get (items_at stars.now point) place) }
{
    let spoke = star_of(stars, point).get(place)?;
    Some(spoke.half)
}

// The first of these halves that ends at a point.
#[inline(always)]
fn first_to(spokes: &[Spoke], far: PointNo) -> Option<Half>
    ensures { result ≡ half_to far spokes.now }
{
    let spoke = spokes.iter().find(|spoke| spoke.far == far)?;
    Some(spoke.half)
}

// The half along the side from one point to another, sought at the first. It takes time by the halves
// that begin there.
#[inline(always)]
fn find_half(stars: &KeyLists<Spoke>, from: PointNo, to: PointNo) -> Option<Half>
    ensures { result ≡ half_along stars.now (from, to) }
{
    first_to(star_of(stars, from), to)
}

// The twin of a half that leads back, of which is known whether it is there.
#[inline(always)]
fn twin_if_there(back: Option<Half>) -> Option<Half>
    ensures { result ≡ option_map twin back }
{
    let back = back?;
    Some(Half {
        string: back.string,
        forward: !back.forward,
    })
}

// Whether these are more than a few halves, and fewer begin at a point.
#[inline(always)]
fn are_fewer_at(stars: &KeyLists<Spoke>, here: &[Spoke], there: PointNo) -> bool
    ensures { result ≡ (nat_lt 8 (length here.now)
        && nat_lt (length (items_at stars.now there)) (length here.now)) }
{
    here.len() > FEW && star_of(stars, there).len() < here.len()
}

/// The half along the side from one point to another, sought at the second, or at the first where
/// many halves begin at the second and fewer there: so a side between a point of very many strings
/// and one of few is found among few.
#[inline(always)]
pub fn find_half_by_ends(stars: &KeyLists<Spoke>, from: PointNo, to: PointNo) -> Option<Half>
    ensures { result ≡ half_by_ends stars.now (from, to) }
{
    find_half_in_star(stars, star_of(stars, to), from, to)
}

/// As [`find_half_by_ends`], with the star of the second point at hand.
#[inline(always)]
pub fn find_half_in_star(
    stars: &KeyLists<Spoke>,
    here: &[Spoke],
    from: PointNo,
    to: PointNo,
) -> Option<Half>
    requires { here.now ≡ items_at stars.now to }
    ensures { result ≡ half_by_ends stars.now (from, to) }
{
    if are_fewer_at(stars, here, from) {
        return find_half(stars, from, to);
    }
    twin_if_there(first_to(here, from))
}

// Whether a spoke is along a half.
#[inline(always)]
fn is_along(spoke: &Spoke, half: &Half) -> bool
    ensures { result ≡ is_half spoke.now.half half.now }
{
    spoke.half.string == half.string && spoke.half.forward == half.forward
}

// The far end of the first of these spokes that is along a half.
#[inline(always)]
fn far_among(spokes: &[Spoke], half: &Half) -> Option<PointNo>
    ensures { result ≡ option_map (λ (x : SpokeOf). x.far) (find (λ (x : SpokeOf). is_half x.half half.now) spokes.now) }
{
    let spoke = spokes.iter().find(|spoke| is_along(spoke, half))?;
    Some(spoke.far)
}

/// Where a half ends that begins at a point, as the point's star tells it if few halves begin there.
#[inline(always)]
pub fn far_in_star(spokes: &[Spoke], half: Half) -> Option<PointNo>
    ensures told { result ≡ far_among_few half spokes.now }
    ensures there { IfSome result (λ far. Contains spokes.now (spoke half far)) }
{
    if spokes.len() > FEW {
        return None;
    }
    far_among(spokes, &half)
}

// Adds a half to the star of the point where it begins.
fn add_spoke(
    stars: &mut KeyLists<Spoke>,
    at: PointNo,
    half: Half,
    far: PointNo,
) -> Result<(), Memory>
    ensures here { OnOk result (items_at stars.new at ≡ items_at stars.old at ++ spoke half far ∷ []) }
    ensures others { OnOk result ((p : ℕ) → (at ≡ p → ⊥) → items_at stars.new p ≡ items_at stars.old p) }
{
    stars.push(u64::from(at.get()), Spoke { half, far })?;
    Ok(())
}

// A half of a string.
fn half(string: &StringNo, forward: bool) -> Half
    ensures { result ≡ half_of string.now forward }
{
    Half {
        string: *string,
        forward,
    }
}

/// Adds the halves of a string to the stars of its ends.
pub(crate) fn add_spokes(stars: &mut KeyLists<Spoke>, row: &StringRow) -> Result<(), Memory>
    ensures { row.now.from ≢ row.now.to → OnOk result (AddsSpokes row.now stars.old stars.new) }
{
    let string = row.number;
    add_spoke(stars, row.from, half(&string, true), row.to)?;
    add_spoke(stars, row.to, half(&string, false), row.from)
}
