//! Pieces of SVG text.
ghost use Rattle.std.specs.Prelude.{◌≡◌, ◌++◌, OnOk};
ghost use Rattle.std.specs.List.{flat_map};
ghost use Rattle.std.specs.Fmt.{signed_decimal};
ghost use Rattle.cad_views.specs.Drawings.{escaped};

use crate::page::Spot;
use cad_rows::Memory;
use itoa::Buffer;

/// Appends a text as it is.
pub(crate) fn push(text: &mut Vec<u8>, more: &str) -> Result<(), Memory>
    ensures { OnOk result (text.new.items ≡ text.old.items ++ more.now) }
{
    text.extend_from_slice(more.as_bytes())?;
    Ok(())
}

/// Appends a number.
pub(crate) fn push_number(text: &mut Vec<u8>, number: i64) -> Result<(), Memory>
    ensures { OnOk result (text.new.items ≡ text.old.items ++ signed_decimal number) }
{
    let mut buffer = Buffer::new();
    text.extend_from_slice(buffer.format(number).as_bytes())?;
    Ok(())
}

// Appends a byte of a text as XML has it.
fn push_byte(text: &mut Vec<u8>, byte: u8) -> Result<(), Memory>
    ensures { OnOk result (text.new.items ≡ text.old.items ++ escaped byte) }
{
    match byte {
        b'&' => text.extend_from_slice(b"&amp;")?,
        b'<' => text.extend_from_slice(b"&lt;")?,
        b'>' => text.extend_from_slice(b"&gt;")?,
        0..=31 => text.push(b' ')?,
        _ => text.push(byte)?,
    }
    Ok(())
}

/// Appends a text as XML has it.
pub(crate) fn push_escaped(text: &mut Vec<u8>, more: &str) -> Result<(), Memory>
    ensures { OnOk result (text.new.items ≡ text.old.items ++ flat_map escaped more.now) }
{
    let bytes = more.as_bytes();
    for place in 0..bytes.len() {
        push_byte(text, bytes[place])?;
    }
    Ok(())
}

/// Appends two coordinates.
pub(crate) fn push_spot(text: &mut Vec<u8>, spot: &Spot) -> Result<(), Memory> {
    push_number(text, spot.x)?;
    text.push(b',')?;
    push_number(text, spot.y)
}

// Appends an attribute whose value is a number.
fn push_value(text: &mut Vec<u8>, name: &str, value: i64) -> Result<(), Memory> {
    push(text, " ")?;
    push(text, name)?;
    push(text, "=\"")?;
    push_number(text, value)?;
    push(text, "\"")
}

// Appends the beginning of an element in this class.
fn push_begun(text: &mut Vec<u8>, element: &str, class: &str) -> Result<(), Memory> {
    push(text, "<")?;
    push(text, element)?;
    push(text, " class=\"")?;
    push(text, class)?;
    push(text, "\"")
}

// Appends the rest of a text: its place on the page, its size, and its words.
fn push_placed(text: &mut Vec<u8>, spot: &Spot, size: i64, words: &str) -> Result<(), Memory> {
    push_value(text, "x", spot.x)?;
    push_value(text, "y", spot.y)?;
    push_value(text, "font-size", size)?;
    push(text, ">")?;
    push_escaped(text, words)?;
    push(text, "</text>\n")
}

/// Appends a text whose middle is at a place on the page. `Err` where memory runs out.
pub(crate) fn push_centred(
    text: &mut Vec<u8>,
    spot: &Spot,
    size: i64,
    words: &str,
) -> Result<(), Memory> {
    push(text, "<text")?;
    push_placed(text, spot, size, words)
}

/// Appends a text that begins at a place on the page, in this class. `Err` where memory runs out.
pub(crate) fn push_text(
    text: &mut Vec<u8>,
    class: &str,
    spot: &Spot,
    size: i64,
    words: &str,
) -> Result<(), Memory> {
    push_begun(text, "text", class)?;
    push_placed(text, spot, size, words)
}

/// Appends a circle.
pub(crate) fn push_circle(
    text: &mut Vec<u8>,
    class: &str,
    centre: &Spot,
    radius: i64,
) -> Result<(), Memory> {
    push_begun(text, "circle", class)?;
    push_value(text, "cx", centre.x)?;
    push_value(text, "cy", centre.y)?;
    push_value(text, "r", radius)?;
    push(text, "/>\n")
}

/// Appends a rectangle.
pub(crate) fn push_box(
    text: &mut Vec<u8>,
    class: &str,
    corner: &Spot,
    width: i64,
    height: i64,
) -> Result<(), Memory> {
    push_begun(text, "rect", class)?;
    push_value(text, "x", corner.x)?;
    push_value(text, "y", corner.y)?;
    push_value(text, "width", width)?;
    push_value(text, "height", height)?;
    push(text, "/>\n")
}
