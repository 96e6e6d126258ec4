//! The grid beside a map on half-edges, entered and left by an edit.
ghost use Rattle.std.specs.Prelude.{◌≡◌, OnOk, OnErr};
ghost use Rattle.cad_map.specs.Map.{Map};
ghost use Rattle.cell_grid.specs.Together.{Listed};
ghost use Rattle.edit_records.specs.Gridded.{IsGridOf};
ghost use Rattle.edit_records.specs.Exchanged.{IsExchange, IsGridOfBoth, CanEnter, CanLeave};

use crate::draft::Draft;
use cad_rows::Memory;
use cell_grid::Entries;
use edit_records::{enter, withdraw};
use half_table::Tally;

impl<T: Tally> Draft<T> {
    /// Puts what comes into the grid: all of it, or none where memory runs out. All else stays.
    pub(crate) fn enter(&mut self, come: &Entries) -> Result<(), Memory>
        requires { CanEnter self.old.grid come.now }
        ensures beside { self.new ≡ record self.old { grid = self.new.grid } }
        ensures both { OnOk result ((old new : Map) (gone : Listed) → IsGridOf self.old.grid old
            → IsExchange old gone come.now new → IsGridOfBoth self.new.grid old new) }
        ensures err { OnErr result ((old : Map) → IsGridOf self.old.grid old
            → IsGridOf self.new.grid old) }
    {
        enter(&mut self.grid, come)
    }

    /// Takes what goes out of the grid. All else stays. It takes no memory.
    pub(crate) fn withdraw(&mut self, gone: &Entries)
        requires { CanLeave self.old.grid gone.now }
        ensures beside { self.new ≡ record self.old { grid = self.new.grid } }
        ensures left { (old new : Map) (come : Listed) → IsGridOfBoth self.old.grid old new
            → IsExchange old gone.now come new → IsGridOf self.new.grid new }
    {
        withdraw(&mut self.grid, gone);
    }
}
