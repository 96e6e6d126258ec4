//! The column beside a map: north, scale and key.

use crate::edges::{Edge, push_lines};
use crate::page::{Page, Spot, times_over, whole};
use crate::pen::{push, push_box, push_centred, push_circle, push_spot, push_text};
use cad_map::{MapView, PlainMap};
use cad_rows::Memory;
use itoa::Buffer;
use std::alloc::Global;

/// Where the column begins.
pub(crate) const COLUMN: i64 = 34_200;

/// The size of its letters.
const SIZE: i64 = 280;

/// How far its lines are apart.
const STEP: i64 = 420;

// The arrow to the north.
fn push_north(text: &mut Vec<u8>) -> Result<(), Memory> {
    let mut letter = "<path class=\"bar\" d=\"M";
    for spot in [
        Spot::at(40_300, 2_900),
        Spot::at(40_600, 4_100),
        Spot::at(40_300, 3_800),
        Spot::at(40_000, 4_100),
    ] {
        push(text, letter)?;
        push_spot(text, &spot)?;
        letter = "L";
    }
    push(text, "Z\"/>\n")?;
    push_centred(text, &Spot::at(40_300, 4_600), SIZE, "N")
}

/// A text of some words and a number. `Err` where memory runs out.
pub(crate) fn worded(
    alloc: Global,
    before: &str,
    number: i64,
    after: &str,
) -> Result<String, Memory> {
    let mut words = String::from_str(alloc, before)?;
    let mut digits = Buffer::new();
    words.push_str(digits.format(number))?;
    words.push_str(after)?;
    Ok(words)
}

// How long so many hundredths of a millimetre on the page are on the ground, in metres, or in millimetres below a metre.
fn length_words(alloc: Global, scale: i64) -> Result<String, Memory> {
    let metres = times_over(scale, 50, 1_000);
    if metres >= 1 {
        worded(alloc, "", metres, " m")
    } else {
        worded(alloc, "", scale.saturating_mul(50), " mm")
    }
}

// A bar of five parts, each of a centimetre on the page.
fn push_scale(alloc: Global, text: &mut Vec<u8>, scale: i64) -> Result<(), Memory> {
    let words = worded(alloc, "Scale 1:", scale, " on A3")?;
    push_text(text, "k", &Spot::at(COLUMN, 3_500), SIZE, words.as_str())?;
    let mut x = COLUMN;
    for class in ["bar", "frame", "bar", "frame", "bar"] {
        push_box(text, class, &Spot::at(x, 3_800), 1_000, 160)?;
        x = x.saturating_add(1_000);
    }
    push_centred(text, &Spot::at(COLUMN, 4_300), 240, "0")?;
    let words = length_words(alloc, scale)?;
    push_centred(text, &Spot::at(COLUMN + 5_000, 4_300), 240, words.as_str())
}

// How far down the middle of a line of the key is.
fn height(line: i64) -> i64 {
    line.saturating_mul(STEP)
        .saturating_add(5_000)
        .clamp(0, 28_000)
}

// The middle of the sign of a line of the key.
fn sign(line: i64) -> Spot {
    Spot::at(COLUMN + 550, height(line))
}

// A line as a sign of the key.
fn push_line_sign(text: &mut Vec<u8>, line: i64, class: &str) -> Result<(), Memory> {
    let y = height(line);
    let edge = Edge {
        from: Spot::at(COLUMN, y),
        to: Spot::at(COLUMN + 1_100, y),
    };
    push_lines(text, class, &[edge])
}

// The words of a line of the key, beside its sign.
fn push_entry(text: &mut Vec<u8>, line: i64, words: &str) -> Result<(), Memory> {
    let spot = Spot::at(COLUMN + 1_500, height(line).saturating_add(90));
    push_text(text, "k", &spot, SIZE, words)
}

// The words of a line of the key with a count.
fn push_counted(
    alloc: Global,
    text: &mut Vec<u8>,
    line: i64,
    words: &str,
    count: usize,
) -> Result<(), Memory> {
    let words = worded(alloc, words, whole(count), ")")?;
    push_entry(text, line, words.as_str())
}

// The signs of a map's rows.
fn push_row_key(
    alloc: Global,
    text: &mut Vec<u8>,
    map: &PlainMap,
    free: usize,
) -> Result<(), Memory> {
    let counts = map.counts();
    let corner = Spot::at(COLUMN, height(0).saturating_sub(130));
    push_box(text, "p", &corner, 1_100, 260)?;
    push_counted(alloc, text, 0, "parcel (", counts.parcels)?;
    push_line_sign(text, 1, "s")?;
    push_counted(alloc, text, 1, "boundary (", counts.strings)?;
    push_circle(text, "o", &sign(2), 55)?;
    push_counted(alloc, text, 2, "point (", counts.points)?;
    push_circle(text, "f", &sign(3), 110)?;
    push_counted(alloc, text, 3, "free point (", free)?;
    let below = Spot::at(COLUMN, height(4).saturating_add(90));
    push_text(text, "k", &below, 240, "number, label, area in m²")
}

// The signs of what was added, changed or removed: a parcel, a string and a point.
fn push_mark_key(text: &mut Vec<u8>) -> Result<(), Memory> {
    for (line, parcel, string, point, words) in [
        (6, "p added", "s added", "o added", "added"),
        (7, "p changed", "s changed", "o changed", "changed"),
        (8, "", "s removed", "o removed", "removed, or where it was"),
    ] {
        if !parcel.is_empty() {
            let corner = Spot::at(COLUMN, height(line).saturating_sub(170));
            push_box(text, parcel, &corner, 1_100, 340)?;
        }
        push_line_sign(text, line, string)?;
        push_circle(text, point, &sign(line), 100)?;
        push_entry(text, line, words)?;
    }
    Ok(())
}

/// Draws the column of a map with so many free points: north, scale, key and counts. `Err` where memory runs out.
pub(crate) fn push_key(
    alloc: Global,
    text: &mut Vec<u8>,
    page: &Page,
    map: &PlainMap,
    free: usize,
    has_marks: bool,
) -> Result<(), Memory> {
    push_north(text)?;
    push_scale(alloc, text, page.scale)?;
    push_row_key(alloc, text, map, free)?;
    if has_marks {
        push_mark_key(text)?;
    }
    Ok(())
}
