//! Segments by the cells that their boxes touch.
ghost use Rattle.std.specs.Prelude.{◌≡◌, OnOk, OnErr};
ghost use Rattle.cell_grid.specs.Cells.{AreSideBits, squares_of, lanes_east_of, lanes_north_of};
ghost use Rattle.cell_grid.specs.Spread.{IsSoundEntry};
ghost use Rattle.cell_grid.specs.Kept.{kept, level_of as level_of_entry, AreSpread, IsHeld, HoldsNone, HoldsSame, HoldsOneMore, HoldsOneLess};
ghost use Rattle.cell_grid.specs.Together.{HoldsMore, HoldsLess, AreSound, AreNew, AreHeld};

use crate::block::CellSize;
use crate::entry::Entry;
use crate::held_list::HeldList;
use crate::layer::Layer;
use cad_rows::Memory;
use number_hash::NumberHash;
use std::alloc::Global;

/// Two to the power of this is how long a lane is, in millimetres: more than a thousand kilometres.
const LANE_BITS: u32 = 30;

/// Where an entry stands: in the smaller squares, in the squares, in lanes from west to east, in
/// lanes from south to north, or among the long ones.
#[derive(Clone, Copy)]
pub(crate) enum Level {
    SmallSquares,
    Squares,
    LanesEast,
    LanesNorth,
    Long,
}

/// Segments with numbers, each in cells of the first kind of which its box touches few enough, or
/// among the long ones, which are those of no kind.
#[derive(Drop)]
pub(crate) struct Segments {
    pub small_squares: Layer,
    pub squares: Layer,
    pub lanes_east: Layer,
    pub lanes_north: Layer,
    pub long: HeldList,
}

impl Segments {
    /// No segments, in smaller squares, and squares with a side and lanes of that width. Sides are
    /// two to the power of these, in millimetres.
    pub(crate) fn new(alloc: Global, hash: NumberHash, small_bits: u32, bits: u32) -> Segments
        requires small { AreSideBits small_bits }
        requires side { AreSideBits bits }
        ensures small_squares { result.small_squares.size ≡ squares_of small_bits }
        ensures squares { result.squares.size ≡ squares_of bits }
        ensures lanes_east { result.lanes_east.size ≡ lanes_east_of bits }
        ensures lanes_north { result.lanes_north.size ≡ lanes_north_of bits }
        ensures spread { AreSpread result }
        ensures empty { HoldsNone (kept result) }
    {
        Segments {
            small_squares: Layer::new(alloc, hash, CellSize::of(small_bits, small_bits)),
            squares: Layer::new(alloc, hash, CellSize::of(bits, bits)),
            lanes_east: Layer::new(alloc, hash, CellSize::of(LANE_BITS, bits)),
            lanes_north: Layer::new(alloc, hash, CellSize::of(bits, LANE_BITS)),
            long: HeldList::new(alloc),
        }
    }

    /// Where an entry stands or is to stand.
    fn level_of(&self, entry: &Entry) -> Level
        requires { AreSpread self.now }
        ensures { result ≡ level_of_entry self.now entry.now }
    {
        if self.small_squares.fits(entry) {
            Level::SmallSquares
        } else if self.squares.fits(entry) {
            Level::Squares
        } else if self.lanes_east.fits(entry) {
            Level::LanesEast
        } else if self.lanes_north.fits(entry) {
            Level::LanesNorth
        } else {
            Level::Long
        }
    }

    /// Puts an entry in that isn't held. Where memory runs out the same entries are held as before.
    pub(crate) fn put(&mut self, entry: Entry) -> Result<(), Memory>
        requires spread { AreSpread self.old }
        requires sound { IsSoundEntry entry }
        requires other { ¬ IsHeld (kept self.old) entry }
        ensures spread { AreSpread self.new }
        ensures put { OnOk result (HoldsOneMore (kept self.old) entry (kept self.new)) }
        ensures err { OnErr result (HoldsSame (kept self.old) (kept self.new)) }
    {
        match self.level_of(&entry) {
            Level::SmallSquares => self.small_squares.put(entry),
            Level::Squares => self.squares.put(entry),
            Level::LanesEast => self.lanes_east.put(entry),
            Level::LanesNorth => self.lanes_north.put(entry),
            Level::Long => self.long.put(entry),
        }
    }

    /// Takes an entry out that is held. It takes no memory.
    pub(crate) fn take(&mut self, entry: Entry)
        requires spread { AreSpread self.old }
        requires there { IsHeld (kept self.old) entry }
        ensures spread { AreSpread self.new }
        ensures taken { HoldsOneLess (kept self.old) entry (kept self.new) }
    {
        match self.level_of(&entry) {
            Level::SmallSquares => self.small_squares.take(&entry),
            Level::Squares => self.squares.take(&entry),
            Level::LanesEast => self.lanes_east.take(&entry),
            Level::LanesNorth => self.lanes_north.take(&entry),
            Level::Long => self.long.take(&entry),
        }
    }

    /// Puts entries in, none of which is held: all of them, or none where memory runs out.
    pub(crate) fn put_all(&mut self, entries: &[Entry]) -> Result<(), Memory>
        requires spread { AreSpread self.old }
        requires sound { AreSound entries.now }
        requires fresh { AreNew (kept self.old) entries.now }
        ensures spread { AreSpread self.new }
        ensures put { OnOk result (HoldsMore (kept self.old) entries.now (kept self.new)) }
        ensures err { OnErr result (HoldsSame (kept self.old) (kept self.new)) }
    {
        for place in 0..entries.len() {
            if let Err(memory) = self.put(entries[place]) {
                self.take_all(&entries[..place]);
                return Err(memory);
            }
        }
        Ok(())
    }

    /// Takes entries out that are held. It takes no memory.
    pub(crate) fn take_all(&mut self, entries: &[Entry])
        requires spread { AreSpread self.old }
        requires held { AreHeld (kept self.old) entries.now }
        ensures spread { AreSpread self.new }
        ensures taken { HoldsLess (kept self.old) entries.now (kept self.new) }
    {
        for place in 0..entries.len() {
            self.take(entries[place]);
        }
    }
}
