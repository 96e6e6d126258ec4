//! A line as the row of a table.
ghost use Rattle.std.specs.Prelude.{◌≡◌, ◌++◌, OnOk};
ghost use Rattle.map_journal.specs.Journal.{line_fields};

use sqlite_value::row::Row;
use sqlite_value::value::{Bytes, ValueRef};
use std::alloc::{AllocError, Global};
use stored_rows::Layout;

/// The journal's rows: a line each.
pub(crate) struct Lines;

impl Layout<Bytes> for Lines {
    ghost fields = { λ _ line. line_fields line };

    fn write(&self, line: &Bytes, row: &mut Row) -> Result<(), AllocError> {
        row.push(ValueRef::Text(line.as_slice()))
    }

    fn read(&self, alloc: Global, row: &Row) -> Result<Option<Bytes>, AllocError> {
        match row.get(2) {
            ValueRef::Text(text) => Ok(Some(Bytes::from_slice(alloc, text)?)),
            _ => Ok(None),
        }
    }
}
