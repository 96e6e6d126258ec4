//! The list of what was added, changed or removed, beside a map.
ghost use Rattle.cad_map.specs.Valid.{IsValid};

use crate::key::{COLUMN, worded};
use crate::marks::{Mark, mark_of};
use crate::names::{kind_name, name_number, names_of};
use crate::page::{Spot, whole};
use crate::pen::push_text;
use crate::telling::is_told;
use cad_map::{MapView, PlainMap};
use cad_rows::{Memory, Name};
use std::alloc::Global;

/// How many changes are listed.
const LISTED: usize = 48;

// Puts those of these names of the old map last that were changed or removed.
fn push_others(
    alloc: Global,
    listed: &mut Vec<Name>,
    old: &PlainMap,
    map: &PlainMap,
    names: &[Name],
) -> Result<(), Memory>
    requires old_valid { IsValid old.now }
    requires valid { IsValid map.now }
{
    for name in names {
        if mark_of(alloc, Some(old), map, name)? != Mark::Same {
            listed.push(*name)?;
        }
    }
    Ok(())
}

// Puts those of these names last that the old map doesn't have.
fn push_added(listed: &mut Vec<Name>, old: &PlainMap, names: &[Name]) -> Result<(), Memory> {
    for name in names {
        if !is_told(old, name) {
            listed.push(*name)?;
        }
    }
    Ok(())
}

// The names of which something became: those of the old map in its order, and then those that were added.
fn changed_names(alloc: Global, old: &PlainMap, map: &PlainMap) -> Result<Vec<Name>, Memory>
    requires old_valid { IsValid old.now }
    requires valid { IsValid map.now }
{
    let mut listed = Vec::new(alloc);
    let names = names_of(alloc, old)?;
    push_others(alloc, &mut listed, old, map, names.as_slice())?;
    let names = names_of(alloc, map)?;
    push_added(&mut listed, old, names.as_slice())?;
    Ok(listed)
}

// What became of a name, and the word for it: a parcel that a merger ended was removed, and is called retired.
fn change_of(
    alloc: Global,
    old: &PlainMap,
    map: &PlainMap,
    name: &Name,
) -> Result<(Mark, &'static str), Memory>
    requires old_valid { IsValid old.now }
    requires valid { IsValid map.now }
{
    let mark = mark_of(alloc, Some(old), map, name)?;
    match name {
        Name::Parcel(no) if map.is_retired(*no) => Ok((Mark::Removed, "retired")),
        _ => Ok((mark, mark.word())),
    }
}

// The class of a line of the list.
fn class_of(mark: Mark) -> &'static str {
    match mark {
        Mark::Same => "l",
        Mark::Added => "l added",
        Mark::Changed => "l changed",
        Mark::Removed => "l removed",
    }
}

// Writes a line of the list.
fn push_change(
    alloc: Global,
    text: &mut Vec<u8>,
    y: i64,
    old: &PlainMap,
    map: &PlainMap,
    name: &Name,
) -> Result<(), Memory>
    requires old_valid { IsValid old.now }
    requires valid { IsValid map.now }
{
    let (mark, word) = change_of(alloc, old, map, name)?;
    let mut words = String::from_str(alloc, kind_name(name))?;
    words.push(' ')?;
    let mut words = worded(alloc, words.as_str(), i64::from(name_number(name)), " ")?;
    words.push_str(word)?;
    push_text(
        text,
        class_of(mark),
        &Spot::at(COLUMN, y),
        240,
        words.as_str(),
    )
}

/// Lists what was added, changed or removed, as far as there is room, and how much more there is. `Err` where memory runs out.
pub(crate) fn push_changes(
    alloc: Global,
    text: &mut Vec<u8>,
    old: &PlainMap,
    map: &PlainMap,
) -> Result<(), Memory>
    requires old_valid { IsValid old.now }
    requires valid { IsValid map.now }
{
    let names = changed_names(alloc, old, map)?;
    let mut y = 9_600;
    for name in names.as_slice().iter().take(LISTED) {
        push_change(alloc, text, y, old, map, name)?;
        y = y.saturating_add(380).min(28_500);
    }
    let more = names.len().saturating_sub(LISTED);
    if more == 0 {
        return Ok(());
    }
    let words = worded(alloc, "and ", whole(more), " more: cadview diff")?;
    push_text(text, "k", &Spot::at(COLUMN, y), 240, words.as_str())
}
