//! Why an edit of a valid map is refused before anything is tried, each reason asked in the one order, and what is found
//! of one that isn't.
ghost use Rattle.std.specs.Prelude.{◌≡◌, Some, None, [], ◌∷◌, IfOk, IfErr};
ghost use Rattle.cad_map.specs.Valid.{IsValid};
ghost use Rattle.cad_map.specs.Refusals.{first_of, range, unknown, taken, retired, outside, no_change, not_free, not_degree_two, bad_chain, not_in_parcel, chain_joins_rings, same_parcel, not_neighbours, not_one_chain, already_attached, not_attached, full, first_refusal as first_refusal_of};
ghost use Rattle.cad_edit.specs.Admitted.{HasCorners, HasChain, HasStrings};

use crate::admitted::Admitted;
use crate::edits::divide::corners_of;
use crate::edits::join::{not_degree_two_refusal, strings_of};
use crate::edits::merge::{chain_of, outside_refusal};
use crate::edits::sources::{already_attached_refusal, not_attached_refusal};
use crate::naming::{taken_refusal, unknown_refusal};
use crate::reasons::{
    bad_chain_refusal, full_refusal, no_change_refusal, not_free_refusal, range_refusal,
    retired_refusal,
};
use cad_map::MapView;
use cad_rows::{Edit, Refusal, StringNo};

/// The first reason to refuse an edit of a valid map before anything is tried, if there is one. Takes no memory.
pub fn first_refusal<M: MapView>(map: &M, edit: &Edit) -> Option<Refusal>
    requires { IsValid (M.map map.now) }
    ensures { result ≡ first_refusal_of (M.map map.now) edit.now }
{
    match admit(map, edit) {
        Ok(_) => None,
        Err(refusal) => Some(refusal),
    }
}

/// What is found of an edit of a valid map that nothing speaks against at once, for the edit to be made by; and where
/// something does, the first reason to refuse it. Takes no memory.
pub fn admit<M: MapView>(map: &M, edit: &Edit) -> Result<Admitted, Refusal>
    requires { IsValid (M.map map.now) }
    ensures refused { IfErr result (λ r. first_refusal_of (M.map map.now) edit.now ≡ Some r) }
    ensures allowed { IfOk result (λ found. first_refusal_of (M.map map.now) edit.now ≡ None) }
    ensures corners { IfOk result (λ found. HasCorners (M.map map.now) edit.now found.corners) }
    ensures chain { IfOk result (λ found. HasChain (M.map map.now) edit.now found.chain) }
    ensures strings { IfOk result (λ found. HasStrings (M.map map.now) edit.now found.strings) }
{
    if let Some(refusal) = early_refusal(map, edit) {
        return Err(refusal);
    }
    admit_later(map, edit)
}

/// The first reason of those that look at numbers, at lists and at rows.
fn early_refusal<M: MapView>(map: &M, edit: &Edit) -> Option<Refusal>
    ensures { result ≡ first_of (range edit.now ∷ unknown (M.map map.now) edit.now
        ∷ taken (M.map map.now) edit.now ∷ retired (M.map map.now) edit.now
        ∷ outside edit.now ∷ no_change (M.map map.now) edit.now ∷ not_free (M.map map.now) edit.now
        ∷ not_degree_two (M.map map.now) edit.now ∷ bad_chain edit.now ∷ []) }
{
    if let Some(refusal) = range_refusal(edit) {
        return Some(refusal);
    }
    if let Some(refusal) = unknown_refusal(map, edit) {
        return Some(refusal);
    }
    if let Some(refusal) = taken_refusal(map, edit) {
        return Some(refusal);
    }
    if let Some(refusal) = retired_refusal(map, edit) {
        return Some(refusal);
    }
    if let Some(refusal) = outside_refusal(edit) {
        return Some(refusal);
    }
    if let Some(refusal) = no_change_refusal(map, edit) {
        return Some(refusal);
    }
    if let Some(refusal) = not_free_refusal(map, edit) {
        return Some(refusal);
    }
    if let Some(refusal) = not_degree_two_refusal(map, edit) {
        return Some(refusal);
    }
    bad_chain_refusal(edit)
}

/// What is found of an edit where none of the early reasons applies, and the first of the later ones, which look at
/// rings, at sources and at limits, where one does.
fn admit_later<M: MapView>(map: &M, edit: &Edit) -> Result<Admitted, Refusal>
    requires valid { IsValid (M.map map.now) }
    requires two { not_degree_two (M.map map.now) edit.now ≡ None }
    requires chain { bad_chain edit.now ≡ None }
    ensures refused { IfErr result (λ r. first_of (not_in_parcel (M.map map.now) edit.now
        ∷ chain_joins_rings (M.map map.now) edit.now ∷ same_parcel edit.now
        ∷ not_neighbours (M.map map.now) edit.now ∷ not_one_chain (M.map map.now) edit.now
        ∷ already_attached (M.map map.now) edit.now
        ∷ not_attached (M.map map.now) edit.now ∷ full (M.map map.now) edit.now ∷ []) ≡ Some r) }
    ensures allowed { IfOk result (λ found. first_of (not_in_parcel (M.map map.now) edit.now
        ∷ chain_joins_rings (M.map map.now) edit.now ∷ same_parcel edit.now
        ∷ not_neighbours (M.map map.now) edit.now ∷ not_one_chain (M.map map.now) edit.now
        ∷ already_attached (M.map map.now) edit.now
        ∷ not_attached (M.map map.now) edit.now ∷ full (M.map map.now) edit.now ∷ []) ≡ None) }
    ensures corners { IfOk result (λ found. HasCorners (M.map map.now) edit.now found.corners) }
    ensures chain { IfOk result (λ found. HasChain (M.map map.now) edit.now found.chain) }
    ensures strings { IfOk result (λ found. HasStrings (M.map map.now) edit.now found.strings) }
{
    let corners = corners_of(map, edit)?;
    let chain = chain_of(map, edit)?;
    let strings = strings_of(map, edit);
    match last_refusal(map, edit, &strings) {
        Some(refusal) => Err(refusal),
        None => Ok(Admitted {
            corners,
            strings,
            chain,
        }),
    }
}

/// The first reason of those that look at sources and at limits.
fn last_refusal<M: MapView>(
    map: &M,
    edit: &Edit,
    strings: &Option<(StringNo, StringNo)>,
) -> Option<Refusal>
    requires valid { IsValid (M.map map.now) }
    requires strings { HasStrings (M.map map.now) edit.now strings.now }
    ensures { result ≡ first_of (already_attached (M.map map.now) edit.now
        ∷ not_attached (M.map map.now) edit.now ∷ full (M.map map.now) edit.now ∷ []) }
{
    if let Some(refusal) = already_attached_refusal(map, edit) {
        return Some(refusal);
    }
    if let Some(refusal) = not_attached_refusal(map, edit) {
        return Some(refusal);
    }
    full_refusal(map, edit, *strings)
}
