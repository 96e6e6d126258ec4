//! The rows of a plan.
ghost use Rattle.std.specs.Prelude.{◌≡◌, ◌↔◌, length, false, IfOk, OnErr, IsTrue};
ghost use Rattle.cad_files.specs.Rows.{no_rows, has_room as has_room_for, with_row, sources_of, IsSourceList, IsPut};

use crate::lists::is_source_list;
use cad_rows::{
    Face, Memory, ParcelNo, ParcelRow, PointRow, ROW_LIMIT, STRING_LIMIT, SourceRow, StringRow,
};
use std::alloc::Global;
use std::marker::Model;

/// A string of a plan, with the faces on its two sides, seen from its first to its second point.
#[derive(Drop)]
pub struct PlanString {
    pub row: StringRow,
    pub left: Face,
    pub right: Face,
}

/// A row of a plan.
#[derive(Drop)]
pub enum PlanRow {
    Source(SourceRow),
    Point(PointRow),
    Parcel(ParcelRow),
    String(PlanString),
    Retired(ParcelNo),
}

impl PlanRow {
    // How many sources it names.
    pub(crate) fn source_count(&self) -> usize
        ensures { result ≡ length (sources_of self.now) }
    {
        match self {
            PlanRow::Point(row) => row.sources.len(),
            PlanRow::Parcel(row) => row.sources.len(),
            PlanRow::String(string) => string.row.sources.len(),
            PlanRow::Source(_) | PlanRow::Retired(_) => 0,
        }
    }

    // Whether the sources that it names are not too many, and none of them stands twice. An error where memory runs out.
    fn has_source_list(&self, alloc: Global) -> Result<bool, Memory>
        ensures { IfOk result (λ sound. IsTrue sound ↔ IsSourceList (sources_of self.now)) }
    {
        match self {
            PlanRow::Point(row) => is_source_list(alloc, &row.sources),
            PlanRow::Parcel(row) => is_source_list(alloc, &row.sources),
            PlanRow::String(string) => is_source_list(alloc, &string.row.sources),
            PlanRow::Source(_) | PlanRow::Retired(_) => Ok(true),
        }
    }
}

/// The rows of a plan, in the order of its records: each in range, none of its lists of sources too
/// long or with a number twice, and not too many rows of a kind.
pub struct PlanRows {
    pub sources: Vec<SourceRow>,
    pub points: Vec<PointRow>,
    pub parcels: Vec<ParcelRow>,
    pub strings: Vec<PlanString>,
    pub retired: Vec<ParcelNo>,
}

// Written out, so that the end of one is a single call in a caller's proof.
impl Drop for PlanRows {
    fn drop(self) {
        let PlanRows {
            sources: _sources,
            points: _points,
            parcels: _parcels,
            strings: _strings,
            retired: _retired,
        } = self;
    }
}

impl Model for PlanRows {
    ghost use Rattle.cad_files.specs.Rows.{Rows, AreInRange};

    ghost Value = { Rows };

    ghost view = { λ a. record {
      sources = a.sources.items;
      points = a.points.items;
      parcels = a.parcels.items;
      strings = a.strings.items;
      retired = a.retired.items;
    } };

    ghost invariant = { λ a. AreInRange (record {
      sources = a.sources.items;
      points = a.points.items;
      parcels = a.parcels.items;
      strings = a.strings.items;
      retired = a.retired.items;
    }) };
}

impl PlanRows {
    /// No rows.
    pub fn new(alloc: Global) -> PlanRows
        ensures { result ≡ no_rows }
    {
        PlanRows {
            sources: Vec::new(alloc),
            points: Vec::new(alloc),
            parcels: Vec::new(alloc),
            strings: Vec::new(alloc),
            retired: Vec::new(alloc),
        }
    }

    // Whether the rows of its kind are fewer than there may be.
    pub(crate) fn has_room(&self, row: &PlanRow) -> bool
        ensures { result ≡ has_room_for self.now row.now }
    {
        match row {
            PlanRow::Source(_) => self.sources.len() < ROW_LIMIT,
            PlanRow::Point(_) => self.points.len() < ROW_LIMIT,
            PlanRow::Parcel(_) => self.parcels.len() < ROW_LIMIT,
            PlanRow::String(_) => self.strings.len() < STRING_LIMIT,
            PlanRow::Retired(_) => self.retired.len() < ROW_LIMIT,
        }
    }

    /// Puts a row last among those of its kind, and says whether it may stand there: whether there is room for it, and its
    /// sources are not too many and none of them stands twice. If not, or where memory runs out, the rows stay as they were.
    pub fn add(&mut self, alloc: Global, row: PlanRow) -> Result<bool, Memory>
        ensures decides { IfOk result (λ added. IsTrue added
            ↔ (IsTrue (has_room_for self.old row) × IsSourceList (sources_of row))) }
        ensures added { IfOk result (λ added. IsTrue added → self.new ≡ with_row self.old row) }
        ensures left { IfOk result (λ added. added ≡ false → self.new ≡ self.old) }
        ensures err { OnErr result (self.new ≡ self.old) }
    {
        if !self.has_room(&row) || !row.has_source_list(alloc)? {
            return Ok(false);
        }
        self.put(row)?;
        Ok(true)
    }

    // Puts a row last among those of its kind.
    pub(crate) fn put(&mut self, row: PlanRow) -> Result<(), Memory>
        requires room { IsTrue (has_room_for self.old row) }
        requires sources { IsSourceList (sources_of row) }
        ensures { IsPut result self.old self.new (with_row self.old row) }
    {
        match row {
            PlanRow::Source(row) => self.sources.push(row)?,
            PlanRow::Point(row) => self.points.push(row)?,
            PlanRow::Parcel(row) => self.parcels.push(row)?,
            PlanRow::String(row) => self.strings.push(row)?,
            PlanRow::Retired(row) => self.retired.push(row)?,
        }
        Ok(())
    }
}
