//! The record of an edit: what it added, replaced or took away, and no more.
ghost use Rattle.std.specs.Prelude.{◌≡◌, ◌≤◌, ◌-◌, ◌<◌, ◌^◌, length};
ghost use Rattle.std.specs.List.{AllByRecursion};
ghost use Rattle.cad_rows.specs.Limits.{IsNumber};
ghost use Rattle.cad_map.specs.Asked.{GivesInRange};
ghost use Rattle.edit_records.specs.Record.{edit_of, chain_weight, weight as weight_of};

use cad_rows::{
    Face, Item, Label, Numbers, ParcelNo, ParcelRow, PointNo, PointRow, SourceNo, SourceRow,
    StringNo, StringRow,
};
use geo_exact::Pt;
use half_table::Half;

/// A string that went with a chain: its half that leads along the chain, its place among the
/// strings when those before it in the chain are out, and its sources. Its ends are those of the
/// chain's side.
#[derive(Drop)]
pub struct ChainString {
    pub half: Half,
    pub place: usize,
    pub sources: Numbers<SourceNo>,
}

/// What an edit added, replaced or took away, by which it is taken back and made again on any store
/// that stands for the map. A place is that of a row, or of a source, in the list that it left.
pub enum SmallRecord {
    /// A source that came.
    AddSource {
        row: SourceRow,
    },
    /// A point that came.
    AddPoint {
        point: PointNo,
        position: Pt,
    },
    /// A point that went, and its place.
    DropPoint {
        row: PointRow,
        place: usize,
    },
    /// The string that went and its place, the point that came, and the numbers of the two strings
    /// that came.
    Split {
        row: StringRow,
        place: usize,
        point: PointNo,
        position: Pt,
        first: StringNo,
        second: StringNo,
    },
    /// The point that went and its place, the two strings that went, the lower-numbered one first,
    /// and the number of the string that came. The second string's place is the one that it has when
    /// the first is out.
    Join {
        row: PointRow,
        place: usize,
        first: StringRow,
        first_place: usize,
        second: StringRow,
        second_place: usize,
        string: StringNo,
    },
    /// The chain that came across a face, with its strings and the parcel to its left. The two
    /// halves follow the chain's two ends: the first of them the chain back, the second the chain.
    /// Each ring that passed to the parcel is named by one half.
    Divide {
        face: Face,
        chain: Numbers<PointNo>,
        strings: Numbers<StringNo>,
        parcel: ParcelNo,
        label: Label,
        source: SourceNo,
        start: Half,
        end: Half,
        moved: Vec<Half>,
    },
    /// The parcel that ended and its place, and the chain that went, as the ended parcel's ring led
    /// along it, with its strings. The two halves followed the chain's two ends: the first of them
    /// the chain back, the second the chain. Each ring that passed to the kept face is named by one
    /// half.
    MergeAlong {
        kept: Face,
        row: ParcelRow,
        place: usize,
        chain: Numbers<PointNo>,
        strings: Vec<ChainString>,
        start: Half,
        end: Half,
        moved: Vec<Half>,
    },
    /// The parcel that ended and its place, and its whole outline that went, as its ring led round
    /// these points, with its strings. Each ring that passed to the kept face is named by one half.
    MergeIsland {
        kept: Face,
        row: ParcelRow,
        place: usize,
        points: Numbers<PointNo>,
        strings: Vec<ChainString>,
        moved: Vec<Half>,
    },
    /// A point that lies elsewhere: where it lay, and where it lies.
    Move {
        point: PointNo,
        from: Pt,
        to: Pt,
    },
    /// A source that was attached.
    Attach {
        item: Item,
        source: SourceNo,
    },
    /// A source that was detached, and its place.
    Detach {
        item: Item,
        source: SourceNo,
        place: usize,
    },
    /// A parcel with another label: the one that it had, and the one that it has.
    Rename {
        parcel: ParcelNo,
        from: Label,
        to: Label,
    },
    /// The island that came into a face, with its strings and the parcel inside it. Each ring that
    /// passed to the parcel is named by one half.
    Enclose {
        face: Face,
        points: Numbers<PointNo>,
        strings: Numbers<StringNo>,
        parcel: ParcelNo,
        label: Label,
        source: SourceNo,
        moved: Vec<Half>,
    },
}

// Written out, so that the end of one is a single call in a caller's proof.
impl Drop for SmallRecord {
    fn drop(self) {
        match self {
            SmallRecord::AddSource { row: _row } => {}
            SmallRecord::AddPoint {
                point: _point,
                position: _position,
            } => {}
            SmallRecord::DropPoint {
                row: _row,
                place: _place,
            } => {}
            SmallRecord::Split {
                row: _row,
                place: _place,
                point: _point,
                position: _position,
                first: _first,
                second: _second,
            } => {}
            SmallRecord::Join {
                row: _row,
                place: _place,
                first: _first,
                first_place: _first_place,
                second: _second,
                second_place: _second_place,
                string: _string,
            } => {}
            SmallRecord::Divide {
                face: _face,
                chain: _chain,
                strings: _strings,
                parcel: _parcel,
                label: _label,
                source: _source,
                start: _start,
                end: _end,
                moved: _moved,
            } => {}
            SmallRecord::MergeAlong {
                kept: _kept,
                row: _row,
                place: _place,
                chain: _chain,
                strings: _strings,
                start: _start,
                end: _end,
                moved: _moved,
            } => {}
            SmallRecord::MergeIsland {
                kept: _kept,
                row: _row,
                place: _place,
                points: _points,
                strings: _strings,
                moved: _moved,
            } => {}
            SmallRecord::Move {
                point: _point,
                from: _from,
                to: _to,
            } => {}
            SmallRecord::Attach {
                item: _item,
                source: _source,
            } => {}
            SmallRecord::Detach {
                item: _item,
                source: _source,
                place: _place,
            } => {}
            SmallRecord::Rename {
                parcel: _parcel,
                from: _from,
                to: _to,
            } => {}
            SmallRecord::Enclose {
                face: _face,
                points: _points,
                strings: _strings,
                parcel: _parcel,
                label: _label,
                source: _source,
                moved: _moved,
            } => {}
        }
    }
}

// How many sources are attached to a row.
fn count(sources: &Numbers<SourceNo>) -> u128
    ensures count { result ≡ length sources.now }
    ensures few { result < 2 ^ 62 }
{
    sources.as_slice().len() as u128
}

// How much the strings of a chain hold: each of them itself, its place and its sources.
fn held_by(strings: &[ChainString]) -> u128
    ensures held { result ≡ chain_weight strings.now }
    ensures few { result < 2 ^ 127 }
{
    let mut total: u128 = 0;
    for string in strings {
        total += 2 + count(&string.sources);
    }
    total
}

// How much a record holds, in full.
fn holdings(change: &SmallRecord) -> u128
    ensures { result ≡ weight_of change.now }
{
    match change {
        SmallRecord::AddSource { .. }
        | SmallRecord::AddPoint { .. }
        | SmallRecord::Move { .. }
        | SmallRecord::Rename { .. } => 2,
        SmallRecord::Attach { .. } => 3,
        SmallRecord::Detach { .. } => 4,
        SmallRecord::DropPoint { row, .. } => 3 + count(&row.sources),
        SmallRecord::Split { row, .. } => 8 + count(&row.sources),
        SmallRecord::Join {
            row,
            first,
            second,
            ..
        } => 12 + count(&row.sources) + count(&first.sources) + count(&second.sources),
        SmallRecord::Divide {
            chain,
            strings,
            moved,
            ..
        } => 6 + chain.len() as u128 + strings.len() as u128 + moved.len() as u128,
        SmallRecord::MergeAlong {
            row,
            chain,
            strings,
            moved,
            ..
        } => {
            6 + count(&row.sources)
                + chain.len() as u128
                + held_by(strings.as_slice())
                + moved.len() as u128
        }
        SmallRecord::MergeIsland {
            row,
            points,
            strings,
            moved,
            ..
        } => {
            4 + count(&row.sources)
                + points.len() as u128
                + held_by(strings.as_slice())
                + moved.len() as u128
        }
        SmallRecord::Enclose {
            points,
            strings,
            moved,
            ..
        } => 4 + points.len() as u128 + strings.len() as u128 + moved.len() as u128,
    }
}

/// How much a record holds: 1, and each point, string, parcel, source, ring and place in its fields.
/// A position counts with its point, and a text with its row. What is more than a `u64` can hold is
/// told as the greatest `u64`; no record of a map's edit comes near it.
pub fn weight(change: &SmallRecord) -> u64
    ensures exact { weight_of change.now < 2 ^ 64 → result ≡ weight_of change.now }
    ensures most { 2 ^ 64 ≤ weight_of change.now → result ≡ 2 ^ 64 - 1 }
{
    u64::try_from(holdings(change)).unwrap_or(u64::MAX)
}

// The numbers of strings are in range, by their type.
fn are_strings_in_range(strings: &[StringNo])
    ensures { AllByRecursion IsNumber strings.now }
{
    for string in strings {
        let _ = string.get();
    }
}

/// The numbers and texts that the edit of a record gives are in range, by their types.
pub fn are_in_range(change: &SmallRecord)
    ensures { GivesInRange (edit_of change.now) }
{
    match change {
        SmallRecord::AddSource { row } => {
            let _ = row.number.get();
            let _ = row.text.as_str();
        }
        SmallRecord::AddPoint { point, .. } => {
            let _ = point.get();
        }
        SmallRecord::Split {
            point,
            first,
            second,
            ..
        } => {
            let _ = point.get();
            let _ = first.get();
            let _ = second.get();
        }
        SmallRecord::Join { string, .. } => {
            let _ = string.get();
        }
        SmallRecord::Rename { to, .. } => {
            let _ = to.as_str();
        }
        SmallRecord::Divide {
            strings,
            parcel,
            label,
            ..
        }
        | SmallRecord::Enclose {
            strings,
            parcel,
            label,
            ..
        } => {
            are_strings_in_range(strings.as_slice());
            let _ = parcel.get();
            let _ = label.as_str();
        }
        SmallRecord::DropPoint { .. }
        | SmallRecord::MergeAlong { .. }
        | SmallRecord::MergeIsland { .. }
        | SmallRecord::Move { .. }
        | SmallRecord::Attach { .. }
        | SmallRecord::Detach { .. } => {}
    }
}
