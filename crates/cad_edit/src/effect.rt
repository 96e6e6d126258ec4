//! The map that an edit makes of a map.
ghost use Rattle.std.specs.Prelude.{◌≡◌, ◌⊎◌, Some, None, IfOk, IfErr, OnOk};
ghost use Rattle.std.specs.List.{AllByRecursion};
ghost use Rattle.cad_map.specs.Valid.{IsValid, CanBeTested};
ghost use Rattle.geo_exact.specs.Position.{OnTheMap};
ghost use Rattle.cad_rows.specs.Limits.{IsNumber};
ghost use Rattle.cad_rows.specs.declared.refusals.Refusal.TheVariants.{Memory as OutOfMemory};
ghost use Rattle.cad_map.specs.Refusals.{first_refusal as first_refusal_of};
ghost use Rattle.cad_map.specs.Effects.{after};
ghost use Rattle.cad_map.specs.Asked.{GivesInRange};
ghost use Rattle.cad_edit.specs.Admitted.{HasCorners, HasChain, HasStrings};

use crate::admitted::Admitted;
use crate::edits::divide::divide;
use crate::edits::enclose::enclose;
use crate::edits::join::join;
use crate::edits::labels::rename;
use crate::edits::merge::merge;
use crate::edits::points::{add_point, move_point};
use crate::edits::sources::{SourceChange, add_source, change_sources};
use crate::edits::split::{Halves, split};
use crate::parcels::NewParcel;
use crate::refusal::admit;
use cad_map::PlainMap;
use cad_rows::{Edit, Memory, Refusal, StringNo};
use geo_exact::Pt;

/// The map that an edit makes of a valid one, where nothing speaks against the edit at once. No rule
/// has been asked of it yet, so it may break one.
///
/// # Errors
/// The first reason to refuse the edit before anything is tried; `Memory` where there is none and
/// memory ran out.
pub fn try_edit(map: &PlainMap, edit: &Edit) -> Result<PlainMap, Refusal>
    requires { IsValid map.now }
    ensures given { GivesInRange edit.now }
    ensures allowed { IfOk result (λ made. first_refusal_of map.now edit.now ≡ None) }
    ensures made { IfOk result (λ made. made ≡ after map.now edit.now) }
    ensures tested { IfOk result (λ made. CanBeTested made) }
    ensures refused { IfErr result (λ r. (first_refusal_of map.now edit.now ≡ Some r)
        ⊎ ((first_refusal_of map.now edit.now ≡ None) × (r ≡ OutOfMemory))) }
{
    are_in_range(edit);
    let found = match admit(map, edit) {
        Ok(found) => found,
        Err(refusal) => return Err(refusal),
    };
    match effect_of(map, edit, &found) {
        Ok(made) => Ok(made),
        Err(_) => Err(Refusal::Memory),
    }
}

/// The numbers and texts in an edit are in range, by their types.
pub fn are_in_range(edit: &Edit)
    ensures { GivesInRange edit.now }
{
    match edit {
        Edit::AddSource { source, text } => {
            let _ = source.get();
            let _ = text.as_str();
        }
        Edit::AddPoint { point, .. } => {
            let _ = point.get();
        }
        Edit::Split {
            point,
            first,
            second,
            ..
        } => {
            let _ = point.get();
            let _ = first.get();
            let _ = second.get();
        }
        Edit::Join { string, .. } => {
            let _ = string.get();
        }
        Edit::Rename { label, .. } => {
            let _ = label.as_str();
        }
        Edit::Divide {
            strings,
            parcel,
            label,
            ..
        }
        | Edit::Enclose {
            strings,
            parcel,
            label,
            ..
        } => {
            are_strings_in_range(strings.as_slice());
            let _ = parcel.get();
            let _ = label.as_str();
        }
        Edit::DropPoint { .. }
        | Edit::Merge { .. }
        | Edit::Move { .. }
        | Edit::Attach { .. }
        | Edit::Detach { .. } => {}
    }
}

/// The numbers of strings are in range, by their type.
fn are_strings_in_range(strings: &[StringNo])
    ensures { AllByRecursion IsNumber strings.now }
{
    for string in strings {
        let _ = string.get();
    }
}

/// The map that an edit makes of a map.
fn effect_of(map: &PlainMap, edit: &Edit, found: &Admitted) -> Result<PlainMap, Memory>
    requires valid { IsValid map.now }
    requires range { GivesInRange edit.now }
    requires allowed { first_refusal_of map.now edit.now ≡ None }
    requires corners { HasCorners map.now edit.now found.now.corners }
    requires chain { HasChain map.now edit.now found.now.chain }
    requires strings { HasStrings map.now edit.now found.now.strings }
    ensures { IfOk result (λ made. made ≡ after map.now edit.now) }
{
    let mut made = map.copy()?;
    make(&mut made, edit, found)?;
    Ok(made)
}

/// Makes an edit of a map. Where memory runs out the map may be anything.
#[tactic(auto, unfolding(cad_map::specs::Effects::after))]
fn make(map: &mut PlainMap, edit: &Edit, found: &Admitted) -> Result<(), Memory>
    requires valid { IsValid map.old }
    requires range { GivesInRange edit.now }
    requires allowed { first_refusal_of map.old edit.now ≡ None }
    requires corners { HasCorners map.old edit.now found.now.corners }
    requires chain { HasChain map.old edit.now found.now.chain }
    requires strings { HasStrings map.old edit.now found.now.strings }
    ensures { OnOk result (map.new ≡ after map.old edit.now) }
{
    match edit {
        Edit::AddSource { source, text } => add_source(map, *source, text),
        Edit::AddPoint { point, x, y } => add_point(map, *point, at(*x, *y)),
        Edit::DropPoint { point } => {
            map.take_point(*point);
            Ok(())
        }
        Edit::Split {
            string,
            point,
            x,
            y,
            first,
            second,
        } => {
            let halves = Halves {
                point: *point,
                position: at(*x, *y),
                first: *first,
                second: *second,
            };
            split(map, *string, &halves)
        }
        Edit::Join { point, string } => join(map, *point, *string, found.strings),
        Edit::Divide {
            face,
            chain,
            strings,
            parcel,
            label,
            source,
        } => {
            let new = NewParcel {
                number: *parcel,
                label,
                source: *source,
            };
            let (first, last) = found.corners.unwrap();
            divide(
                map,
                *face,
                chain.as_slice(),
                strings.as_slice(),
                &new,
                &first,
                &last,
            )
        }
        Edit::Merge { kept, ended } => {
            let chain = found.chain.unwrap();
            merge(map, *kept, *ended, &chain)
        }
        Edit::Move { point, x, y } => move_point(map, *point, at(*x, *y)),
        Edit::Attach { item, source } => change_sources(map, *item, &SourceChange::Put(*source)),
        Edit::Detach { item, source } => change_sources(map, *item, &SourceChange::Leave(*source)),
        Edit::Rename { parcel, label } => rename(map, *parcel, label),
        Edit::Enclose {
            face,
            points,
            strings,
            parcel,
            label,
            source,
        } => {
            let new = NewParcel {
                number: *parcel,
                label,
                source: *source,
            };
            enclose(map, *face, points.as_slice(), strings.as_slice(), &new)
        }
    }
}

/// The position with coordinates that are in range.
fn at(x: i64, y: i64) -> Pt
    requires { OnTheMap (record { x = x; y = y }) }
    ensures { result ≡ record { x = x; y = y } }
{
    Pt::new(x, y).unwrap()
}
