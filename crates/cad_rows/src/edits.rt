//! The edits of a map.
use crate::label::Label;
use crate::list::Numbers;
use crate::names::{Face, Item};
use crate::numbers::{ParcelNo, PointNo, SourceNo, StringNo};

/// One edit of a map. Coordinates are in millimetres, and may be out of range.
pub enum Edit {
    /// A new source.
    AddSource {
        source: SourceNo,
        text: Label,
    },
    /// A new point, on no string.
    AddPoint {
        point: PointNo,
        x: i64,
        y: i64,
    },
    /// The end of a point that is on no string.
    DropPoint {
        point: PointNo,
    },
    /// A string in two, at a new point.
    Split {
        string: StringNo,
        point: PointNo,
        x: i64,
        y: i64,
        first: StringNo,
        second: StringNo,
    },
    /// The two strings at a point in one, and the end of the point.
    Join {
        point: PointNo,
        string: StringNo,
    },
    /// A face divided along a chain of points: what is left of the chain is a new parcel.
    Divide {
        face: Face,
        chain: Numbers<PointNo>,
        strings: Numbers<StringNo>,
        parcel: ParcelNo,
        label: Label,
        source: SourceNo,
    },
    /// Two parcels in one, and the end of the second.
    Merge {
        kept: Face,
        ended: Face,
    },
    /// A point at another position.
    Move {
        point: PointNo,
        x: i64,
        y: i64,
    },
    /// A source that witnesses an item.
    Attach {
        item: Item,
        source: SourceNo,
    },
    /// A source that witnesses an item no longer.
    Detach {
        item: Item,
        source: SourceNo,
    },
    /// Another label of a parcel.
    Rename {
        parcel: ParcelNo,
        label: Label,
    },
    /// A closed chain of free points made an island in a face, as a new parcel.
    Enclose {
        face: Face,
        points: Numbers<PointNo>,
        strings: Numbers<StringNo>,
        parcel: ParcelNo,
        label: Label,
        source: SourceNo,
    },
}

// Written out, so that the end of one is a single call in a caller's proof.
impl Drop for Edit {
    fn drop(self) {
        match self {
            Edit::AddSource {
                source: _source,
                text: _text,
            } => {}
            Edit::AddPoint {
                point: _point,
                x: _x,
                y: _y,
            } => {}
            Edit::DropPoint { point: _point } => {}
            Edit::Split {
                string: _string,
                point: _point,
                x: _x,
                y: _y,
                first: _first,
                second: _second,
            } => {}
            Edit::Join {
                point: _point,
                string: _string,
            } => {}
            Edit::Divide {
                face: _face,
                chain: _chain,
                strings: _strings,
                parcel: _parcel,
                label: _label,
                source: _source,
            } => {}
            Edit::Merge {
                kept: _kept,
                ended: _ended,
            } => {}
            Edit::Move {
                point: _point,
                x: _x,
                y: _y,
            } => {}
            Edit::Attach {
                item: _item,
                source: _source,
            } => {}
            Edit::Detach {
                item: _item,
                source: _source,
            } => {}
            Edit::Rename {
                parcel: _parcel,
                label: _label,
            } => {}
            Edit::Enclose {
                face: _face,
                points: _points,
                strings: _strings,
                parcel: _parcel,
                label: _label,
                source: _source,
            } => {}
        }
    }
}
