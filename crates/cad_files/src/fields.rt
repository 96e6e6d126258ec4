//! The fields of a record.
ghost use Rattle.std.specs.Prelude.{◌≡◌, ◌<◌, ◌≤◌, ◌^◌, length, map, IfSome, IfOk, ℕ, Some, decimal};
ghost use Rattle.csv.specs.Records.{field_at, fields_of};
ghost use Rattle.cad_rows.specs.Limits.{IsNumber};
ghost use Rattle.cad_files.specs.Record.{seven_of};
ghost use Rattle.cad_files.specs.Fields.{digits_from, starts_well as starts_well_of, magnitude_of, number_of, face_of, coordinate_of, text_of, item_of, number_and_text_of, are_blank as are_blank_of, is_record as is_record_of};

use cad_rows::{Face, Item, Label, Memory, Number};
use csv::ByteRecord;
use std::alloc::Global;
use std::marker::Model;
use std::str;

/// The seven fields of a record: its kind, and six more.
#[derive(Drop)]
pub(crate) struct Fields<'a> {
    pub kind: &'a [u8],
    pub a: &'a [u8],
    pub b: &'a [u8],
    pub c: &'a [u8],
    pub d: &'a [u8],
    pub e: &'a [u8],
    pub f: &'a [u8],
}

impl<'a> Model for Fields<'a> {
    ghost use Rattle.cad_files.specs.Record.{Seven};

    ghost Value = { Seven };

    ghost view = { λ r.
        record {
          kind = r.kind.now;
          a = r.a.now;
          b = r.b.now;
          c = r.c.now;
          d = r.d.now;
          e = r.e.now;
          f = r.f.now;
        } };
}

// The field at a place of a record.
fn field(row: &ByteRecord, place: usize) -> &[u8]
    requires { place < length (fields_of row.now) }
    ensures { field_at (fields_of row.now) place ≡ Some result.now }
{
    row.get(place).unwrap()
}

/// The fields of a record of seven.
pub(crate) fn seven(row: &ByteRecord) -> Option<Fields<'_>>
    ensures { result ≡ seven_of (fields_of row.now) }
{
    if row.len() != 7 {
        return None;
    }
    Some(Fields {
        kind: field(row, 0),
        a: field(row, 1),
        b: field(row, 2),
        c: field(row, 3),
        d: field(row, 4),
        e: field(row, 5),
        f: field(row, 6),
    })
}

// Whether these fields are unused.
fn are_blank(fields: &[&[u8]]) -> bool
    ensures { result ≡ are_blank_of (map (λ f. f.now) fields.now) }
{
    for field in fields {
        if !field.is_empty() {
            return false;
        }
    }
    true
}

impl Fields<'_> {
    /// Whether the record is of this kind, and its fields past the first so many are unused.
    pub(crate) fn is_record(&self, kind: &[u8], used: usize) -> bool
        requires { used ≤ 6 }
        ensures { result ≡ is_record_of self.now kind.now used }
    {
        let fields = [self.a, self.b, self.c, self.d, self.e, self.f];
        self.kind == kind && are_blank(&fields[used..])
    }
}

// The number that digits stand for.
fn digits(text: &[u8]) -> Option<u64>
    requires { length text.now ≤ 18 }
    ensures value { result ≡ digits_from 0 text.now }
    ensures bound { IfSome result (λ n. n < 10 ^ length text.now) }
{
    let mut value = 0u64;
    for digit in text {
        let digit = *digit;
        if digit < b'0' || digit > b'9' {
            return None;
        }
        value = value * 10 + u64::from(digit - b'0');
    }
    Some(value)
}

// Whether the first digit is no zero.
fn starts_well(text: &[u8]) -> bool
    ensures { result ≡ starts_well_of text.now }
{
    !text.is_empty() && text[0] >= b'1' && text[0] <= b'9'
}

// A number of at most this many digits, with no zero before it.
#[tactic(auto, unfolding(crate::specs::Fields::magnitude_of))]
fn magnitude(text: &[u8], most: usize) -> Option<u64>
    requires { most ≤ 18 }
    ensures value { result ≡ magnitude_of most text.now }
    ensures some { IfSome result (λ n. 1 ≤ n) }
    ensures bound { IfSome result (λ n. n < 10 ^ most) }
{
    if starts_well(text) && text.len() <= most {
        digits(text)
    } else {
        None
    }
}

// The number of a row: 1 to 999,999,999, with no zero before it.
fn number(text: &[u8]) -> Option<u32>
    ensures value { result ≡ number_of text.now }
    ensures within { IfSome result IsNumber }
{
    match magnitude(text, 9) {
        Some(value) => Some(value as u32),
        None => None,
    }
}

/// The number of a row.
pub(crate) fn row_number<Kind>(text: &[u8]) -> Option<Number<Kind>>
    ensures { result ≡ number_of text.now }
{
    match number(text) {
        Some(no) => Number::new(no),
        None => None,
    }
}

/// A face: the outside by `0`, or a parcel by its number.
#[tactic(auto, unfolding(crate::specs::Fields::face_of))]
pub(crate) fn face(text: &[u8]) -> Option<Face>
    ensures { result ≡ face_of text.now }
{
    if text == b"0".as_slice() {
        return Some(Face::Outside);
    }
    match row_number(text) {
        Some(parcel) => Some(Face::Parcel(parcel)),
        None => None,
    }
}

/// A coordinate: `0`, or an optional minus and a number of at most eighteen digits.
#[tactic(auto, unfolding(crate::specs::Fields::coordinate_of))]
pub(crate) fn coordinate(text: &[u8]) -> Option<i64>
    ensures { result ≡ coordinate_of text.now }
{
    if !text.is_empty() && text[0] == b'-' {
        match magnitude(&text[1..], 18) {
            Some(value) => Some(-(value as i64)),
            None => None,
        }
    } else if text == b"0".as_slice() {
        Some(0)
    } else {
        match magnitude(text, 18) {
            Some(value) => Some(value as i64),
            None => None,
        }
    }
}

/// A text of 1 to 80 bytes of UTF-8.
#[tactic(auto, unfolding(crate::specs::Fields::text_of))]
pub(crate) fn text(alloc: Global, bytes: &[u8]) -> Result<Option<Label>, Memory>
    ensures { IfOk result (λ label. label ≡ text_of bytes.now) }
{
    match str::from_utf8(bytes) {
        Ok(text) => Label::new(alloc, text),
        Err(_) => Ok(None),
    }
}

/// A record's number, and its text.
#[tactic(auto, unfolding(crate::specs::Fields::number_and_text_of))]
pub(crate) fn number_and_text<Kind>(
    alloc: Global,
    r: &Fields<'_>,
) -> Result<Option<(Number<Kind>, Label)>, Memory>
    ensures { IfOk result (λ found. found ≡ number_and_text_of r.now) }
{
    let Some(number) = row_number(r.a) else {
        return Ok(None);
    };
    let Some(text) = text(alloc, r.b)? else {
        return Ok(None);
    };
    Ok(Some((number, text)))
}

/// An item by the name of its kind, and its number.
#[tactic(auto, unfolding(crate::specs::Fields::item_of))]
pub(crate) fn item(kind: &[u8], number: &[u8]) -> Option<Item>
    ensures { result ≡ item_of kind.now number.now }
{
    if kind == b"point".as_slice() {
        match row_number(number) {
            Some(point) => Some(Item::Point(point)),
            None => None,
        }
    } else if kind == b"string".as_slice() {
        match row_number(number) {
            Some(string) => Some(Item::String(string)),
            None => None,
        }
    } else if kind == b"parcel".as_slice() {
        match row_number(number) {
            Some(parcel) => Some(Item::Parcel(parcel)),
            None => None,
        }
    } else {
        None
    }
}

/// A number in decimal digits reads as that number.
pub fn numbers_again()
    ensures { (n : ℕ) → 0 < n → n < 10 ^ 9 → number_of (decimal n) ≡ Some n }
{}
