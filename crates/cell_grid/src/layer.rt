//! Entries by the cells of one size.
ghost use Rattle.std.specs.Prelude.{◌≡◌, ℕ, ◌<◌, ◌≤◌, OnOk, OnErr};
ghost use Rattle.std.specs.List.{Contains};
ghost use Rattle.cell_grid.specs.Cells.{IsBlock, IsCellSize, cell_count, cell_at};
ghost use Rattle.cell_grid.specs.Held.{entries_at, HasEachAsOften};
ghost use Rattle.cell_grid.specs.Spread.{IsSoundEntry, IsPutIn, IsTakenOut, IsSpread, Stands, StandsNone, StandsOneMore, StandsOneLess, StandsSame, fits as fits_of, most_cells as most_cells_of};

use crate::block::{Block, CellSize, block_of};
use crate::entry::Entry;
use crate::lists::CellLists;
use cad_rows::Memory;
use number_hash::NumberHash;
use std::alloc::Global;

/// An entry whose box touches more squares than this stands elsewhere: a list that more searches go
/// through costs less than entries in so many cells.
const MOST_SQUARES_OF_ENTRY: u64 = 64;

/// And so does one whose box touches more lanes than this: each lane is long, and many entries stand
/// in it.
const MOST_LANES_OF_ENTRY: u64 = 8;

/// Entries by the cells of one size, each in the list of every cell that its box touches.
#[derive(Drop)]
pub(crate) struct Layer {
    pub size: CellSize,
    pub lists: CellLists,
}

/// In how many cells of a size an entry may stand.
fn most_cells(size: &CellSize) -> u64
    ensures { result ≡ most_cells_of size.now }
{
    if size.width_bits == size.height_bits {
        MOST_SQUARES_OF_ENTRY
    } else {
        MOST_LANES_OF_ENTRY
    }
}

/// Takes an entry out of the first so many cells of a block, which all have it.
fn take_each(lists: &mut CellLists, block: &Block, cells: u64, entry: &Entry)
    requires block { IsBlock block.now }
    requires within { cells ≤ cell_count block.now }
    requires there { (k : ℕ) → k < cells
        → Contains (entries_at lists.old (cell_at block.now k)) entry.now }
    ensures { IsTakenOut lists.old block.now entry.now cells lists.new }
{
    for turn in 0..cells {
        lists.take(block.cell_at(turn), entry);
    }
}

/// Puts an entry into each cell of a block. Where memory runs out, the cells that have it by then
/// lose it again, so each cell has what it had, maybe in another order.
fn put_each(lists: &mut CellLists, block: &Block, entry: &Entry) -> Result<(), Memory>
    requires { IsBlock block.now }
    ensures put { OnOk result
        (IsPutIn lists.old block.now entry.now (cell_count block.now) lists.new) }
    ensures err { OnErr result (HasEachAsOften lists.old lists.new) }
{
    for place in 0..block.cell_count() {
        if let Err(memory) = lists.push(block.cell_at(place), *entry) {
            take_each(lists, block, place, entry);
            return Err(memory);
        }
    }
    Ok(())
}

impl Layer {
    /// No entries, in cells of a size.
    pub(crate) fn new(alloc: Global, hash: NumberHash, size: CellSize) -> Layer
        requires { IsCellSize size }
        ensures size { result.size ≡ size }
        ensures spread { IsSpread result.size result.lists }
        ensures empty { StandsNone result.lists }
    {
        Layer {
            size,
            lists: CellLists::new(alloc, hash),
        }
    }

    /// Whether the box of an entry touches few enough cells, so that the entry may stand here.
    pub(crate) fn fits(&self, entry: &Entry) -> bool
        requires { IsCellSize self.now.size }
        ensures { result ≡ fits_of self.now.size entry.now }
    {
        block_of(self.size, entry.from, entry.to).cell_count() <= most_cells(&self.size)
    }

    /// Puts an entry in that doesn't stand here. Where memory runs out the same entries stand here
    /// as before.
    pub(crate) fn put(&mut self, entry: Entry) -> Result<(), Memory>
        requires spread { IsSpread self.old.size self.old.lists }
        requires sound { IsSoundEntry entry }
        requires other { ¬ Stands self.old.lists entry }
        ensures size { self.new.size ≡ self.old.size }
        ensures spread { IsSpread self.new.size self.new.lists }
        ensures put { OnOk result (StandsOneMore self.old.lists entry self.new.lists) }
        ensures err { OnErr result (StandsSame self.old.lists self.new.lists) }
    {
        let block = block_of(self.size, entry.from, entry.to);
        put_each(&mut self.lists, &block, &entry)
    }

    /// Takes an entry out that stands here. It takes no memory.
    pub(crate) fn take(&mut self, entry: &Entry)
        requires spread { IsSpread self.old.size self.old.lists }
        requires there { Stands self.old.lists entry.now }
        ensures size { self.new.size ≡ self.old.size }
        ensures spread { IsSpread self.new.size self.new.lists }
        ensures taken { StandsOneLess self.old.lists entry.now self.new.lists }
    {
        let block = block_of(self.size, entry.from, entry.to);
        take_each(&mut self.lists, &block, block.cell_count(), entry);
    }
}
