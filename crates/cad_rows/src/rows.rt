//! The rows of a map.
ghost use Rattle.std.specs.Prelude.{◌≡◌, IfOk};

use crate::label::Label;
use crate::list::Numbers;
use crate::memory::Memory;
use crate::numbers::{ParcelNo, PointNo, SourceNo, StringNo};
use geo_exact::Pt;

/// A point: its number, its position in millimetres, and the sources that witness it.
#[derive(Drop)]
pub struct PointRow {
    pub number: PointNo,
    pub position: Pt,
    pub sources: Numbers<SourceNo>,
}

impl PointRow {
    /// An equal row.
    pub fn copy(&self) -> Result<PointRow, Memory>
        ensures { IfOk result (λ copied. copied ≡ self.now) }
    {
        Ok(PointRow {
            number: self.number,
            position: self.position,
            sources: self.sources.copy()?,
        })
    }
}

/// A string: one straight line between two points, with its sources.
#[derive(Drop)]
pub struct StringRow {
    pub number: StringNo,
    pub from: PointNo,
    pub to: PointNo,
    pub sources: Numbers<SourceNo>,
}

impl StringRow {
    /// An equal row.
    pub fn copy(&self) -> Result<StringRow, Memory>
        ensures { IfOk result (λ copied. copied ≡ self.now) }
    {
        Ok(StringRow {
            number: self.number,
            from: self.from,
            to: self.to,
            sources: self.sources.copy()?,
        })
    }
}

/// A parcel: its number, its label, and its sources.
#[derive(Drop)]
pub struct ParcelRow {
    pub number: ParcelNo,
    pub label: Label,
    pub sources: Numbers<SourceNo>,
}

impl ParcelRow {
    /// An equal row.
    pub fn copy(&self) -> Result<ParcelRow, Memory>
        ensures { IfOk result (λ copied. copied ≡ self.now) }
    {
        let label = self.label.copy()?;
        let sources = self.sources.copy()?;
        Ok(ParcelRow {
            number: self.number,
            label,
            sources,
        })
    }
}

/// A source: its number, and its text.
#[derive(Drop)]
pub struct SourceRow {
    pub number: SourceNo,
    pub text: Label,
}

impl SourceRow {
    /// An equal row.
    pub fn copy(&self) -> Result<SourceRow, Memory>
        ensures { IfOk result (λ copied. copied ≡ self.now) }
    {
        Ok(SourceRow {
            number: self.number,
            text: self.text.copy()?,
        })
    }
}
