//! The words in parcels: number, label and area, as many as there is room for, in letters of one size.
ghost use Rattle.cad_map.specs.Valid.{IsValid};

use crate::areas::face_area;
use crate::edges::{Area, Edge, area_round, near, sides_of_parcel};
use crate::page::{Page, Spot, whole};
use crate::pen::push_centred;
use crate::room::{Around, Room, first_room};
use cad_files::{area_text_of, hundredths};
use cad_map::{MapView, PlainMap};
use cad_rows::{Face, Memory, ParcelRow};
use std::alloc::Global;
use unicode_width::UnicodeWidthStr;

/// The sizes that letters may have on a sheet, the greatest first.
const SIZES: [i64; 7] = [380, 300, 240, 190, 150, 120, LEAST];

/// The least size of letters.
const LEAST: i64 = 100;

/// Of how many parcels the size of a sheet's letters is found, at most.
const SAMPLE: usize = 1_000;

/// Where the words of parcels are written, and what they stay clear of.
#[derive(Clone, Copy)]
pub(crate) struct Lettering<'a> {
    pub(crate) page: &'a Page,
    pub(crate) map: &'a PlainMap,
    /// Lines beside the parcels' sides.
    pub(crate) others: &'a [Edge],
    /// How far words stay away from lines.
    pub(crate) gap: i64,
}

// A parcel with its words: number, label and area.
#[derive(Drop)]
struct Place {
    sides: Vec<Edge>,
    others: Vec<Edge>,
    area: Area,
    words: Vec<String>,
}

/// How wide so many columns of letters of a size are, with half a column to spare.
pub(crate) fn width_of(columns: i64, size: i64) -> i64 {
    columns
        .saturating_mul(2)
        .saturating_add(1)
        .saturating_mul(size)
        .saturating_mul(61)
        / 200
}

// How high so many lines of letters of a size are.
fn height_of(lines: i64, size: i64) -> i64 {
    lines.saturating_mul(size).saturating_mul(13) / 10
}

// The most columns of these words.
fn columns_of(words: &[String]) -> i64 {
    let mut most = 0;
    for word in words {
        most = most.max(whole(word.as_str().width()));
    }
    most
}

/// So many hundredths of a unit, with its name. `Err` where memory runs out.
pub(crate) fn measured(alloc: Global, hundredths: i128, unit: &str) -> Result<String, Memory> {
    let mut words = String::new(alloc);
    for byte in area_text_of(alloc, hundredths)? {
        words.push(char::from(byte))?;
    }
    words.push_str(unit)?;
    Ok(words)
}

// A character as a drawing can have it: a control character as a space, and one that XML hasn't as its substitute.
fn drawable(c: char) -> char {
    match c {
        '\u{0}'..='\u{1F}' | '\u{7F}'..='\u{9F}' => ' ',
        '\u{FFFE}' | '\u{FFFF}' => '\u{FFFD}',
        _ => c,
    }
}

/// A text as a drawing can have it. `Err` where memory runs out.
pub(crate) fn drawable_text(alloc: Global, text: &str) -> Result<String, Memory> {
    let mut words = String::new(alloc);
    for c in text.chars() {
        words.push(drawable(c))?;
    }
    Ok(words)
}

// The number, the label and the area of a parcel.
fn words_of(alloc: Global, map: &PlainMap, row: &ParcelRow) -> Result<Vec<String>, Memory>
    requires { IsValid map.now }
{
    let area = face_area(map, Face::Parcel(row.number));
    let mut words = Vec::new(alloc);
    words.push(row.number.get().to_string(alloc)?)?;
    words.push(drawable_text(alloc, row.label.as_str())?)?;
    words.push(measured(alloc, hundredths(area), " m²")?)?;
    Ok(words)
}

impl Lettering<'_> {
    // The parcel of a row, with its words.
    fn place_of(&self, alloc: Global, row: &ParcelRow) -> Result<Place, Memory>
        requires { IsValid self.now.map.now }
    {
        let sides = sides_of_parcel(alloc, self.page, self.map, row.number)?;
        let area = area_round(sides.as_slice());
        Ok(Place {
            others: near(alloc, self.others, &area)?,
            words: words_of(alloc, self.map, row)?,
            sides,
            area,
        })
    }

    // The room in a parcel for the first so many of its words, in letters of this size.
    fn room_for(
        &self,
        alloc: Global,
        place: &Place,
        count: usize,
        size: i64,
    ) -> Result<Option<Room>, Memory> {
        let words = &place.words.as_slice()[..count.min(place.words.len())];
        let width = width_of(columns_of(words), size);
        let height = height_of(whole(words.len()), size);
        if !place.area.has_room(width, height) {
            return Ok(None);
        }
        let around = Around {
            sides: place.sides.as_slice(),
            others: place.others.as_slice(),
            gap: self.gap,
        };
        first_room(alloc, &around, &place.area, height, width)
    }

    // Some of the parcels that have room for their number in the least letters, spread over all of them.
    fn sample(&self, alloc: Global) -> Result<Vec<Place>, Memory>
        requires { IsValid self.now.map.now }
    {
        let count = self.map.counts().parcels;
        let step = (count / SAMPLE).saturating_add(1);
        let mut places = Vec::new(alloc);
        for place in 0..count {
            if place % step == 0 {
                if let Some(row) = self.map.parcel_at(place) {
                    let place = self.place_of(alloc, row)?;
                    if self.room_for(alloc, &place, 1, LEAST)?.is_some() {
                        places.push(place)?;
                    }
                }
            }
        }
        Ok(places)
    }

    // Whether so many tenths of these parcels have room for the first so many of their words, in letters of this size.
    fn suits(
        &self,
        alloc: Global,
        places: &[Place],
        tenths: usize,
        count: usize,
        size: i64,
    ) -> Result<bool, Memory> {
        let mut suited: usize = 0;
        for place in places {
            if self.room_for(alloc, place, count, size)?.is_some() {
                suited = suited.saturating_add(1);
            }
        }
        Ok(suited.saturating_mul(10) >= places.len().saturating_mul(tenths))
    }

    // The greatest size up to a limit that suits so many tenths of these parcels.
    fn greatest(
        &self,
        alloc: Global,
        places: &[Place],
        tenths: usize,
        count: usize,
        limit: i64,
    ) -> Result<i64, Memory> {
        for size in SIZES {
            if size <= limit && self.suits(alloc, places, tenths, count, size)? {
                return Ok(size);
            }
        }
        Ok(0)
    }

    // The size of the sheet's letters: the greatest at which nine tenths of the parcels have room for their numbers, and half
    // of them for all their words, or else for number and label, or else for the number alone.
    fn size(&self, alloc: Global) -> Result<i64, Memory>
        requires { IsValid self.now.map.now }
    {
        let places = self.sample(alloc)?;
        let limit = self.greatest(alloc, places.as_slice(), 9, 1, SIZES[0])?;
        for (count, least) in [(3, 150), (2, 120)] {
            let size = self.greatest(alloc, places.as_slice(), 5, count, limit)?;
            if size >= least {
                return Ok(size);
            }
        }
        Ok(limit.max(LEAST))
    }

    // Writes as many words of a parcel as there is room for in letters of this size; where there is none for its number, the
    // number alone in the least letters, if there is room for these.
    fn push_place(
        &self,
        alloc: Global,
        text: &mut Vec<u8>,
        place: &Place,
        size: i64,
    ) -> Result<(), Memory> {
        for (count, size) in [(3, size), (2, size), (1, size), (1, LEAST)] {
            if let Some(room) = self.room_for(alloc, place, count, size)? {
                let words = &place.words.as_slice()[..count.min(place.words.len())];
                return push_words(text, words, size, &room);
            }
        }
        Ok(())
    }

    /// Writes the words of each parcel inside it, so far as they are as far from its sides and from the other lines as `gap`
    /// says: number, label and area, or fewer where there is less room, or none. `Err` where memory runs out.
    pub(crate) fn push(&self, alloc: Global, text: &mut Vec<u8>) -> Result<(), Memory>
        requires { IsValid self.now.map.now }
    {
        let size = self.size(alloc)?;
        for place in 0..self.map.counts().parcels {
            if let Some(row) = self.map.parcel_at(place) {
                let place = self.place_of(alloc, row)?;
                self.push_place(alloc, text, &place, size)?;
            }
        }
        Ok(())
    }
}

// Writes words into their room, one below the other.
fn push_words(text: &mut Vec<u8>, words: &[String], size: i64, room: &Room) -> Result<(), Memory> {
    let mut base = room.top.saturating_add(size);
    for word in words {
        push_centred(text, &Spot::at(room.middle, base), size, word.as_str())?;
        base = base.saturating_add(height_of(1, size));
    }
    Ok(())
}

/// Those letters of a text that stand in so many columns, with three dots behind where it has more. `Err` where memory runs
/// out.
pub(crate) fn cut_to(alloc: Global, text: &str, columns: usize) -> Result<String, Memory> {
    let words = drawable_text(alloc, text)?;
    if words.as_str().width() <= columns {
        return Ok(words);
    }
    let mut cut = String::new(alloc);
    for c in words.as_str().chars() {
        cut.push(c)?;
        if cut.as_str().width().saturating_add(1) >= columns {
            break;
        }
    }
    cut.push('…')?;
    Ok(cut)
}
