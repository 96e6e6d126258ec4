//! A table whose halves are being linked.
ghost use Rattle.std.specs.Prelude.{◌≡◌, ◌≤◌, true};
ghost use Rattle.half_table.specs.Count.{one_more};
ghost use Rattle.half_table.specs.Rows.{has, IsLinked};
ghost use Rattle.half_table.specs.Writes.{Relinks};

use crate::half::Half;
use crate::rows::{Rows, set_links};
use crate::table::HalfTable;
use crate::tally::Tally;
use cad_rows::Face;
use std::marker::Model;

/// A table whose halves are linked one after another, each by one look. Until all are, what a half
/// follows and what follows it need not fit; once they do, it is closed and a `HalfTable` again.
pub struct OpenTable<T: Tally> {
    pub(crate) rows: Rows,
    pub(crate) tally: T,
}

// Written out, so that the end of one is a single call in a caller's proof.
impl<T: Tally> Drop for OpenTable<T> {
    fn drop(self) {
        let OpenTable {
            rows: _rows,
            tally: _tally,
        } = self;
    }
}

impl<T: Tally> Model for OpenTable<T> {
    ghost use Rattle.half_table.specs.Rows.{Table};

    ghost Value = { Table };

    ghost view = { λ t. record { rows = t.rows; work = T.counted t.tally } };
}

impl<T: Tally> OpenTable<T> {
    /// Writes what a half follows, what follows it and the face to its left. Its origin stays.
    pub fn link(&mut self, h: Half, prev: Half, next: Half, face: Face)
        requires { has self.old.rows h ≡ true }
        ensures links { Relinks h prev next face self.old.rows self.new.rows }
        ensures work { self.new.work ≡ one_more self.old.work }
    {
        set_links(&mut self.rows, &h, &prev, &next, &face);
        self.tally.tick();
    }

    /// The table, whose halves fit one another.
    pub fn close(self) -> HalfTable<T>
        requires { IsLinked self.rows }
        ensures { result ≡ self }
    {
        let OpenTable { rows, tally } = self;
        HalfTable { rows, tally }
    }
}
