//! Entries as the lists of cells hold them.
ghost use Rattle.std.specs.Prelude.{◌≡◌};
ghost use Rattle.geo_exact.specs.Position.{InRange};
ghost use Rattle.cell_grid.specs.Packed.{joined as joined_of};
ghost use Rattle.cell_grid.specs.Entries.{is_same_entry};

use crate::entry::{self, Entry};
use geo_exact::Pt;
use std::marker::Model;

/// An entry in 24 bytes, which by itself takes 40: of each coordinate the low 32 bits, and what is
/// above them, as a number of its own. A search reads many entries, and goes as fast as these come
/// from memory.
#[derive(Drop)]
pub(crate) struct PackedEntry {
    number: u32,
    from_x: u32,
    from_y: u32,
    to_x: u32,
    to_y: u32,
    from_x_high: i8,
    from_y_high: i8,
    to_x_high: i8,
    to_y_high: i8,
}

impl Model for PackedEntry {
    ghost use Rattle.cell_grid.specs.declared.entry.Entry.{Entry as Segment};

    ghost Value = { Segment };

    ghost use Rattle.cell_grid.specs.Packed.{unpacked, IsPacked};

    ghost view = { unpacked };

    ghost invariant = { IsPacked };
}

/// How much one more in the high part of a coordinate stands for, in millimetres.
const HIGH_STEP: i64 = 4_294_967_296;

/// So many such steps are more than any coordinate: with them added none is negative.
const STEPS_ADDED: i8 = 4;

/// A coordinate as its low 32 bits, and what is above them.
#[derive(Clone, Copy)]
struct Parts {
    high: i8,
    low: u32,
}

/// The two parts of a coordinate.
fn parts_of(coordinate: i64) -> Parts
    requires { InRange coordinate }
    ensures { joined_of result.high result.low ≡ coordinate }
{
    let raised = (coordinate + i64::from(STEPS_ADDED) * HIGH_STEP).unsigned_abs();
    Parts {
        high: (raised / HIGH_STEP as u64) as i8 - STEPS_ADDED,
        low: (raised % HIGH_STEP as u64) as u32,
    }
}

/// A coordinate of its two parts.
fn joined(high: i8, low: u32) -> i64
    ensures { result ≡ joined_of high low }
{
    i64::from(high) * HIGH_STEP + i64::from(low)
}

impl PackedEntry {
    /// The entry, packed.
    pub(crate) fn of(entry: &Entry) -> PackedEntry
        ensures { result ≡ entry.now }
    {
        let from = entry.from;
        let to = entry.to;
        let from_x = parts_of(from.x);
        let from_y = parts_of(from.y);
        let to_x = parts_of(to.x);
        let to_y = parts_of(to.y);
        PackedEntry {
            number: entry.number,
            from_x: from_x.low,
            from_y: from_y.low,
            to_x: to_x.low,
            to_y: to_y.low,
            from_x_high: from_x.high,
            from_y_high: from_y.high,
            to_x_high: to_x.high,
            to_y_high: to_y.high,
        }
    }

    /// The entry.
    pub(crate) fn entry(&self) -> Entry
        ensures { result ≡ self.now }
    {
        Entry {
            number: self.number,
            from: Pt {
                x: self.from_x(),
                y: self.from_y(),
            },
            to: Pt {
                x: self.to_x(),
                y: self.to_y(),
            },
        }
    }

    /// The x of its first end.
    pub(crate) fn from_x(&self) -> i64
        ensures { result ≡ self.now.from.x }
    {
        joined(self.from_x_high, self.from_x)
    }

    /// The y of its first end.
    pub(crate) fn from_y(&self) -> i64
        ensures { result ≡ self.now.from.y }
    {
        joined(self.from_y_high, self.from_y)
    }

    /// The x of its other end.
    pub(crate) fn to_x(&self) -> i64
        ensures { result ≡ self.now.to.x }
    {
        joined(self.to_x_high, self.to_x)
    }

    /// The y of its other end.
    pub(crate) fn to_y(&self) -> i64
        ensures { result ≡ self.now.to.y }
    {
        joined(self.to_y_high, self.to_y)
    }
}

/// Whether two entries have the same number and the same positions. Few have the same number, so
/// positions are seldom unpacked.
pub(crate) fn is_same(a: &PackedEntry, b: &Entry) -> bool
    ensures { result ≡ is_same_entry a.now b.now }
{
    a.number == b.number && entry::is_same(&a.entry(), b)
}
