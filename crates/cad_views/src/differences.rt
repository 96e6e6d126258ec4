//! What differs between two maps.
ghost use Rattle.std.specs.Prelude.{◌≡◌, ◌++◌, map as map_of, filter, option_map, ◌∷◌, [], if◌then◌else◌, OnOk, IfOk};
ghost use Rattle.cad_files.specs.Texts.{HasAppended, record_text, text_of};
ghost use Rattle.cad_map.specs.Map.{Map};
ghost use Rattle.cad_map.specs.Valid.{IsValid};
ghost use Rattle.cad_views.specs.Differences.{HasOneEach, are_words_alike as are_words_alike_of, is_land_alike as is_land_alike_of, is_alike as is_alike_of, is_listed as is_listed_of, differing as differing_of, difference_record, differences as differences_of};

use crate::land::is_same_land;
use crate::names::{kind_name, name_number, names_of};
use crate::telling::{is_told, told, words};
use cad_files::{finished, write_record, writer};
use cad_map::{MapView, PlainMap};
use cad_rows::{Memory, Name, ParcelNo};
use csv::Writer;
use itoa::Buffer;
use std::alloc::Global;

// Whether two texts are equal, or there is none twice.
fn are_words_alike(was: &Option<Vec<u8>>, is: &Option<Vec<u8>>) -> bool
    ensures { result ≡ are_words_alike_of (option_map (λ t. t.items) was.now)
        (option_map (λ t. t.items) is.now) }
{
    match (was, is) {
        (None, None) => true,
        (Some(was), Some(is)) => was.as_slice() == is.as_slice(),
        _ => false,
    }
}

// Whether a parcel, where both maps have it, has the same land in both.
fn is_parcel_land_alike(
    alloc: Global,
    old: &PlainMap,
    new: &PlainMap,
    parcel: ParcelNo,
) -> Result<bool, Memory>
    requires old_valid { IsValid old.now }
    requires new_valid { IsValid new.now }
    ensures { IfOk result (λ alike. alike
        ≡ is_land_alike_of old.now new.now (Name.Parcel parcel)) }
{
    if old.parcel(parcel).is_none() || new.parcel(parcel).is_none() {
        return Ok(true);
    }
    is_same_land(alloc, old, new, parcel)
}

// The same of a name, where it is that of a parcel.
fn is_land_alike(alloc: Global, old: &PlainMap, new: &PlainMap, name: &Name) -> Result<bool, Memory>
    requires old_valid { IsValid old.now }
    requires new_valid { IsValid new.now }
    ensures { IfOk result (λ alike. alike ≡ is_land_alike_of old.now new.now name.now) }
{
    match name {
        Name::Parcel(no) => is_parcel_land_alike(alloc, old, new, *no),
        Name::Source(_) | Name::Point(_) | Name::String(_) => Ok(true),
    }
}

/// Whether two valid maps have the same of a name, or neither has it: the same text of a source, the same position of a
/// point, the same points of a string, the same land and label of a parcel, or that it is retired; and of each but a source
/// the same sources. `Err` where memory runs out.
pub(crate) fn is_alike(
    alloc: Global,
    old: &PlainMap,
    new: &PlainMap,
    name: &Name,
) -> Result<bool, Memory>
    requires old_valid { IsValid old.now }
    requires new_valid { IsValid new.now }
    ensures { IfOk result (λ alike. alike ≡ is_alike_of old.now new.now name.now) }
{
    let was = words(alloc, old, name)?;
    let is = words(alloc, new, name)?;
    if !are_words_alike(&was, &is) {
        return Ok(false);
    }
    is_land_alike(alloc, old, new, name)
}

// Whether two valid maps don't have the same of a name, or, where it is asked what came, the old one doesn't have it.
fn is_listed(
    alloc: Global,
    old: &PlainMap,
    new: &PlainMap,
    came: bool,
    name: &Name,
) -> Result<bool, Memory>
    requires old_valid { IsValid old.now }
    requires new_valid { IsValid new.now }
    ensures { IfOk result (λ listed. listed ≡ is_listed_of old.now new.now came name.now) }
{
    if came {
        return Ok(!is_told(old, name));
    }
    let alike = is_alike(alloc, old, new, name)?;
    Ok(!alike)
}

// Puts a name last, where it is wanted.
fn push_wanted(listed: &mut Vec<Name>, name: Name, wanted: bool) -> Result<(), Memory>
    ensures { OnOk result (listed.new.items
        ≡ listed.old.items ++ (if wanted then name ∷ [] else [])) }
{
    if !wanted {
        return Ok(());
    }
    listed.push(name)?;
    Ok(())
}

// Puts those of these names last that are listed.
fn push_listed(
    listed: &mut Vec<Name>,
    old: &PlainMap,
    new: &PlainMap,
    came: bool,
    names: &[Name],
) -> Result<(), Memory>
    requires old_valid { IsValid old.now }
    requires new_valid { IsValid new.now }
    ensures { OnOk result (listed.new.items
        ≡ listed.old.items ++ filter (is_listed_of old.now new.now came) names.now) }
{
    let alloc = *listed.allocator();
    for place in 0..names.len() {
        let name = names[place];
        let wanted = is_listed(alloc, old, new, came, &name)?;
        push_wanted(listed, name, wanted)?;
    }
    Ok(())
}

/// The names of which two valid maps don't have the same: those of the old map in its order, and then those that the new
/// map alone has. `Err` where memory runs out.
pub fn differing(alloc: Global, old: &PlainMap, new: &PlainMap) -> Result<Vec<Name>, Memory>
    requires old_valid { IsValid old.now }
    requires new_valid { IsValid new.now }
    ensures { IfOk result (λ names. names.items ≡ differing_of old.now new.now) }
{
    let mut listed = Vec::new(alloc);
    let names = names_of(alloc, old)?;
    push_listed(&mut listed, old, new, false, names.as_slice())?;
    let names = names_of(alloc, new)?;
    push_listed(&mut listed, old, new, true, names.as_slice())?;
    Ok(listed)
}

/// Each name of which two valid maps don't have the same stands once among those that differ, and no other does.
pub fn one_each()
    ensures { (old new : Map) → IsValid old → IsValid new
        → HasOneEach old new (differing_of old new) }
{}

// Writes the record of a name: what was told of it, and what is.
fn write_difference(
    alloc: Global,
    out: &mut Writer<Vec<u8>>,
    old: &PlainMap,
    new: &PlainMap,
    name: &Name,
) -> Result<(), Memory>
    requires old_valid { IsValid old.now }
    requires new_valid { IsValid new.now }
    ensures { OnOk result
        (HasAppended (record_text (difference_record old.now new.now name.now)) out.old out.new) }
{
    let mut number = Buffer::new();
    let was = told(alloc, old, new, name)?;
    let is = told(alloc, new, old, name)?;
    let kind = kind_name(name).as_bytes();
    let number = number.format(name_number(name)).as_bytes();
    let was = was.as_slice();
    let is = is.as_slice();
    write_record(out, &[kind, number, was, is])
}

// Writes the record of each of these names.
fn write_differences(
    alloc: Global,
    out: &mut Writer<Vec<u8>>,
    old: &PlainMap,
    new: &PlainMap,
    names: &[Name],
) -> Result<(), Memory>
    requires old_valid { IsValid old.now }
    requires new_valid { IsValid new.now }
    ensures { OnOk result (HasAppended (text_of
        (map_of (difference_record old.now new.now) names.now)) out.old out.new) }
{
    for place in 0..names.len() {
        let name = names[place];
        write_difference(alloc, out, old, new, &name)?;
    }
    Ok(())
}

/// What differs between two valid maps: a record for each name of which they don't have the same, with its kind, its
/// number, what was told of it and what is; nothing where a map hadn't the name. `Err` where memory runs out.
pub fn difference_text(alloc: Global, old: &PlainMap, new: &PlainMap) -> Result<Vec<u8>, Memory>
    requires old_valid { IsValid old.now }
    requires new_valid { IsValid new.now }
    ensures { IfOk result (λ text. text.items ≡ text_of (differences_of old.now new.now)) }
{
    let names = differing(alloc, old, new)?;
    let mut out = writer(alloc);
    write_record(&mut out, &[b"kind", b"number", b"was", b"is"])?;
    write_differences(alloc, &mut out, old, new, names.as_slice())?;
    let text = finished(out)?;
    Ok(text)
}
