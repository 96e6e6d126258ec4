//! What a map tells of a name, in a line.
ghost use Rattle.std.specs.Prelude.{◌≡◌, ◌++◌, [], codes, map as map_of, option_map, unwrap_or, is_some, if◌then◌else◌, OnOk, IfOk};
ghost use Rattle.std.specs.List.{join_with_byte};
ghost use Rattle.cad_map.specs.Map.{has_parcel};
ghost use Rattle.cad_map.specs.Valid.{IsValid};
ghost use Rattle.cad_views.specs.Differences.{by_sources, point_words as point_words_of, string_words as string_words_of, parcel_words as parcel_words_of, words_of, at_places, turns_elsewhere as turns_elsewhere_of, land_words as land_words_of, told_of};
ghost use Rattle.cad_views.specs.WellKnown.{coordinates};

use crate::areas::face_area;
use crate::land::turns_apart;
use crate::well_known::{push_coordinates, push_separator};
use cad_files::{area_text_of, hundredths, list_text};
use cad_map::{MapView, PlainMap};
use cad_rows::{Face, Memory, Name, ParcelNo, ParcelRow, PointRow, SourceNo, SourceRow, StringRow};
use geo_exact::Pt;
use itoa::Buffer;
use std::alloc::Global;

// Appends sources, where there are any, after what they witness.
fn push_sources(alloc: Global, text: &mut Vec<u8>, sources: &[SourceNo]) -> Result<(), Memory>
    ensures { OnOk result (text.new.items ≡ text.old.items ++ by_sources sources.now) }
{
    if sources.is_empty() {
        return Ok(());
    }
    text.extend_from_slice(b" by ")?;
    let list = list_text(alloc, sources)?;
    text.extend_from_slice(list.as_slice())?;
    Ok(())
}

// The words of a source.
fn source_words(alloc: Global, row: &SourceRow) -> Result<Vec<u8>, Memory>
    ensures { IfOk result (λ text. text.items ≡ row.now.text) }
{
    let text = Vec::from_slice(alloc, row.text.as_str().as_bytes())?;
    Ok(text)
}

// The words of a point.
#[tactic(auto, unfolding(crate::specs::Differences::point_words))]
fn point_words(alloc: Global, row: &PointRow) -> Result<Vec<u8>, Memory>
    ensures { IfOk result (λ text. text.items ≡ point_words_of row.now) }
{
    let mut text = Vec::new(alloc);
    push_coordinates(alloc, &mut text, row.position)?;
    push_sources(alloc, &mut text, row.sources.as_slice())?;
    Ok(text)
}

// The words of a string.
#[tactic(auto, unfolding(crate::specs::Differences::string_words))]
fn string_words(alloc: Global, row: &StringRow) -> Result<Vec<u8>, Memory>
    ensures { IfOk result (λ text. text.items ≡ string_words_of row.now) }
{
    let mut digits = Buffer::new();
    let mut text = Vec::new(alloc);
    text.extend_from_slice(digits.format(row.from.get()).as_bytes())?;
    text.push(b' ')?;
    text.extend_from_slice(digits.format(row.to.get()).as_bytes())?;
    push_sources(alloc, &mut text, row.sources.as_slice())?;
    Ok(text)
}

// The words of a parcel, but for its land.
#[tactic(auto, unfolding(crate::specs::Differences::parcel_words))]
fn parcel_words(alloc: Global, row: &ParcelRow) -> Result<Vec<u8>, Memory>
    ensures { IfOk result (λ text. text.items ≡ parcel_words_of row.now) }
{
    let mut text = Vec::new(alloc);
    push_sources(alloc, &mut text, row.sources.as_slice())?;
    text.extend_from_slice(b": ")?;
    text.extend_from_slice(row.label.as_str().as_bytes())?;
    Ok(text)
}

// The words of the number of a parcel: those of its row, or that a merger ended it.
fn parcel_number_words(
    alloc: Global,
    map: &PlainMap,
    parcel: ParcelNo,
) -> Result<Option<Vec<u8>>, Memory>
    ensures { IfOk result (λ words. option_map (λ t. t.items) words
        ≡ words_of map.now (Name.Parcel parcel)) }
{
    match map.parcel(parcel) {
        Some(row) => Ok(Some(parcel_words(alloc, row)?)),
        None => {
            if !map.is_retired(parcel) {
                return Ok(None);
            }
            Ok(Some(Vec::from_slice(alloc, b"retired")?))
        }
    }
}

/// What a map tells of a name, but for the land of a parcel, and nothing where it hasn't the name: of a source its text,
/// of a point its position in metres, of a string its points, of a parcel its label, or that it is retired; and of each but
/// a source its sources. `Err` where memory runs out.
pub(crate) fn words(alloc: Global, map: &PlainMap, name: &Name) -> Result<Option<Vec<u8>>, Memory>
    ensures { IfOk result (λ words. option_map (λ t. t.items) words ≡ words_of map.now name.now) }
{
    match name {
        Name::Source(no) => match map.source(*no) {
            Some(row) => Ok(Some(source_words(alloc, row)?)),
            None => Ok(None),
        },
        Name::Point(no) => match map.point(*no) {
            Some(row) => Ok(Some(point_words(alloc, row)?)),
            None => Ok(None),
        },
        Name::String(no) => match map.string(*no) {
            Some(row) => Ok(Some(string_words(alloc, row)?)),
            None => Ok(None),
        },
        Name::Parcel(no) => parcel_number_words(alloc, map, *no),
    }
}

/// Whether a map tells anything of a name. It takes no memory.
pub(crate) fn is_told(map: &PlainMap, name: &Name) -> bool
    ensures { result ≡ is_some (words_of map.now name.now) }
{
    match name {
        Name::Source(no) => map.source(*no).is_some(),
        Name::Point(no) => map.point(*no).is_some(),
        Name::String(no) => map.string(*no).is_some(),
        Name::Parcel(no) => map.parcel(*no).is_some() || map.is_retired(*no),
    }
}

// Appends the coordinates of places, with commas between them.
fn push_places(alloc: Global, text: &mut Vec<u8>, places: &[Pt]) -> Result<(), Memory>
    ensures { OnOk result (text.new.items ≡ text.old.items
        ++ join_with_byte 44 (map_of (λ a. codes " " ++ coordinates a) places.now)) }
{
    for index in 0..places.len() {
        push_separator(text, index)?;
        text.push(b' ')?;
        push_coordinates(alloc, text, places[index])?;
    }
    Ok(())
}

// Appends places, after the word that leads to them, if there are any.
fn push_at_places(alloc: Global, text: &mut Vec<u8>, places: &[Pt]) -> Result<(), Memory>
    ensures { OnOk result (text.new.items ≡ text.old.items ++ at_places places.now) }
{
    if places.is_empty() {
        return Ok(());
    }
    text.extend_from_slice(b" at")?;
    push_places(alloc, text, places)
}

// Where a parcel turns, and doesn't in the other map, if that has it too.
fn turns_elsewhere(
    alloc: Global,
    map: &PlainMap,
    other: &PlainMap,
    parcel: ParcelNo,
) -> Result<Vec<Pt>, Memory>
    ensures { IfOk result (λ places. places.items
        ≡ turns_elsewhere_of map.now other.now parcel) }
{
    if other.parcel(parcel).is_none() {
        return Ok(Vec::new(alloc));
    }
    turns_apart(alloc, map, other, parcel)
}

// The words of the land of a parcel of a valid map.
#[tactic(auto, unfolding(crate::specs::Differences::land_words))]
fn land_words(
    alloc: Global,
    map: &PlainMap,
    other: &PlainMap,
    parcel: ParcelNo,
) -> Result<Vec<u8>, Memory>
    requires { IsValid map.now }
    ensures { IfOk result (λ text. text.items ≡ land_words_of map.now other.now parcel) }
{
    let doubled = face_area(map, Face::Parcel(parcel));
    let mut text = area_text_of(alloc, hundredths(doubled))?;
    let places = turns_elsewhere(alloc, map, other, parcel)?;
    text.extend_from_slice(b" m2")?;
    push_at_places(alloc, &mut text, places.as_slice())?;
    Ok(text)
}

// The words of the land of a name, where it is that of a parcel that a valid map has.
fn land_of(alloc: Global, map: &PlainMap, other: &PlainMap, name: &Name) -> Result<Vec<u8>, Memory>
    requires { IsValid map.now }
    ensures { IfOk result (λ text. text.items
        ++ unwrap_or (words_of map.now name.now) [] ≡ told_of map.now other.now name.now) }
{
    match name {
        Name::Parcel(no) => {
            if map.parcel(*no).is_none() {
                return Ok(Vec::new(alloc));
            }
            land_words(alloc, map, other, *no)
        }
        Name::Source(_) | Name::Point(_) | Name::String(_) => Ok(Vec::new(alloc)),
    }
}

/// What a valid map tells of a name beside another map, and nothing where it hasn't the name: of a parcel that it has its
/// area in square metres, the places where it turns and doesn't in the other map, if that has it too, and its words; of
/// any other name its words. `Err` where memory runs out.
pub fn told(alloc: Global, map: &PlainMap, other: &PlainMap, name: &Name) -> Result<Vec<u8>, Memory>
    requires { IsValid map.now }
    ensures { IfOk result (λ text. text.items ≡ told_of map.now other.now name.now) }
{
    let mut text = land_of(alloc, map, other, name)?;
    if let Some(words) = words(alloc, map, name)? {
        text.extend_from_slice(words.as_slice())?;
    }
    Ok(text)
}
