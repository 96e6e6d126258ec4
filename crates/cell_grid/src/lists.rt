//! Lists of entries under cells.
ghost use Rattle.std.specs.Prelude.{◌≡◌, ℕ, ◌<◌, ◌^◌, ◌++◌, ◌∷◌, [], length, IsPermutation, OnOk, OnErr};
ghost use Rattle.std.specs.List.{Contains};
ghost use Rattle.cell_grid.specs.Held.{entries_at, KeepsOtherCells, HasSameEntries, cell_in_turn, list_in_turn};

use crate::entry::Entry;
use crate::held_list::HeldList;
use crate::packed::PackedEntry;
use cad_rows::Memory;
use indexmap::IndexMap;
use number_hash::NumberHash;
use std::alloc::Global;
use std::marker::Model;

/// Under each cell a list of entries; a cell that no entry was ever put into has the empty one.
///
/// Only `push` takes memory. A cell keeps its list with its room, also where no entry is left.
#[derive(Drop)]
pub(crate) struct CellLists {
    lists: IndexMap<u64, HeldList, NumberHash>,
}

impl Model for CellLists {
    ghost use Rattle.cell_grid.specs.Held.{HeldEntries};

    ghost Value = { HeldEntries };

    ghost view = { λ a. a.lists.entries };
}

impl CellLists {
    /// No entries, and no cell with a list.
    pub(crate) fn new(alloc: Global, hash: NumberHash) -> CellLists
        ensures { result ≡ [] }
    {
        CellLists {
            lists: IndexMap::with_hasher(alloc, hash),
        }
    }

    /// The entries in a cell.
    pub(crate) fn at(&self, cell: u64) -> &[PackedEntry]
        ensures { result.now ≡ entries_at self.now cell }
    {
        match self.lists.get(&cell) {
            Some(list) => list.entries.as_slice(),
            None => &[],
        }
    }

    /// How many cells have a list.
    pub(crate) fn cell_count(&self) -> usize
        ensures count { result ≡ length self.now }
        ensures small { result < 2 ^ 63 }
    {
        self.lists.len()
    }

    /// The cell at a place, in the order in which cells came to have lists, and the entries in it.
    pub(crate) fn in_turn(&self, place: usize) -> (u64, &[PackedEntry])
        requires { place < length self.now }
        ensures cell { result.0 ≡ cell_in_turn self.now place }
        ensures list { result.1.now ≡ list_in_turn self.now place }
    {
        let (cell, list) = self.lists.get_index(place).unwrap();
        (*cell, list.entries.as_slice())
    }

    /// Puts an entry last into a cell, in one look for it where it has a list. Where memory runs
    /// out, each cell has the same entries as before.
    pub(crate) fn push(&mut self, cell: u64, entry: Entry) -> Result<(), Memory>
        ensures items { OnOk result
            (entries_at self.new cell ≡ entries_at self.old cell ++ entry ∷ []) }
        ensures others { KeepsOtherCells cell self.old self.new }
        ensures err { OnErr result (HasSameEntries self.old self.new) }
    {
        if let Some(list) = self.lists.get_mut(&cell) {
            list.put(entry)?;
            return Ok(());
        }
        let mut list = HeldList::with_room(*self.lists.allocator())?;
        list.put(entry)?;
        self.lists.insert(cell, list)?;
        Ok(())
    }

    /// Takes an entry out of a cell that has it. It takes no memory.
    pub(crate) fn take(&mut self, cell: u64, entry: &Entry)
        requires { Contains (entries_at self.old cell) entry.now }
        ensures items { IsPermutation (entries_at self.old cell)
            (entry.now ∷ entries_at self.new cell) }
        ensures others { KeepsOtherCells cell self.old self.new }
    {
        if let Some(list) = self.lists.get_mut(&cell) {
            list.take(entry);
        }
    }
}
