//! What is put into a grid, or taken out of it, together.
ghost use Rattle.std.specs.Prelude.{◌≡◌, ◌++◌, ◌∷◌, [], OnOk, OnErr};
ghost use Rattle.cell_grid.specs.Grid.{entry_of};

use crate::entry::Entry;
use cad_rows::{Memory, PointNo, StringNo};
use geo_exact::Pt;
use std::alloc::Global;
use std::marker::Model;

/// Strings at the positions of their ends, and points at theirs, as
/// [`CellGrid::put_all`](crate::CellGrid::put_all) puts them into a grid and
/// [`CellGrid::take_all`](crate::CellGrid::take_all) takes them out. It takes memory for each.
#[derive(Drop)]
pub struct Entries {
    pub(crate) strings: Vec<Entry>,
    pub(crate) points: Vec<Entry>,
}

impl Model for Entries {
    ghost use Rattle.cell_grid.specs.Together.{Listed};

    ghost Value = { Listed };

    ghost use Rattle.cell_grid.specs.Listed.{listed, AreListed};

    ghost view = { listed };

    ghost invariant = { AreListed };
}

impl Entries {
    /// No strings and no points.
    pub fn new(alloc: Global) -> Entries
        ensures { result ≡ record { strings = []; points = [] } }
    {
        Entries {
            strings: Vec::new(alloc),
            points: Vec::new(alloc),
        }
    }

    /// Adds a string. Where memory runs out nothing changes.
    pub fn add_string(&mut self, no: StringNo, a: Pt, b: Pt) -> Result<(), Memory>
        ensures added { OnOk result
            (self.new.strings ≡ self.old.strings ++ entry_of no a b ∷ []) }
        ensures points { self.new.points ≡ self.old.points }
        ensures err { OnErr result (self.new ≡ self.old) }
    {
        self.strings.push(Entry::of_string(no, a, b))?;
        Ok(())
    }

    /// Adds a point. Where memory runs out nothing changes.
    pub fn add_point(&mut self, no: PointNo, a: Pt) -> Result<(), Memory>
        ensures added { OnOk result
            (self.new.points ≡ self.old.points ++ entry_of no a a ∷ []) }
        ensures strings { self.new.strings ≡ self.old.strings }
        ensures err { OnErr result (self.new ≡ self.old) }
    {
        self.points.push(Entry::of_point(no, a))?;
        Ok(())
    }
}
