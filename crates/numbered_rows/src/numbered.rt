//! What has a number of its own.
ghost use Rattle.std.specs.Prelude.{◌≡◌, ℕ, IfOk};

use cad_rows::{Memory, ParcelRow, PointRow, SourceRow, StringRow};

/// A row with a number of its own.
pub trait Numbered: Drop {
    ghost number_of: { Self → ℕ };

    /// Its number.
    fn number(&self) -> u32
        ensures { result ≡ number_of self.now };

    /// An equal row.
    fn copied(&self) -> Result<Self, Memory>
        ensures { IfOk result (λ row. row ≡ self.now) };
}

impl Numbered for SourceRow {
    ghost number_of = { λ r. r.number };

    fn number(&self) -> u32 {
        self.number.get()
    }

    fn copied(&self) -> Result<SourceRow, Memory> {
        self.copy()
    }
}

impl Numbered for PointRow {
    ghost number_of = { λ r. r.number };

    fn number(&self) -> u32 {
        self.number.get()
    }

    fn copied(&self) -> Result<PointRow, Memory> {
        self.copy()
    }
}

impl Numbered for ParcelRow {
    ghost number_of = { λ r. r.number };

    fn number(&self) -> u32 {
        self.number.get()
    }

    fn copied(&self) -> Result<ParcelRow, Memory> {
        self.copy()
    }
}

impl Numbered for StringRow {
    ghost number_of = { λ r. r.number };

    fn number(&self) -> u32 {
        self.number.get()
    }

    fn copied(&self) -> Result<StringRow, Memory> {
        self.copy()
    }
}
