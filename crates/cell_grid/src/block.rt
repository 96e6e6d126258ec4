//! Blocks of cells, and the cells that the box of a segment touches.
ghost use Rattle.std.specs.Prelude.{◌≡◌, ◌<◌, ◌≤◌, ◌+◌, ◌-◌, ◌*◌};
ghost use Rattle.geo_exact.specs.Position.{InRange};
ghost use Rattle.cell_grid.specs.Cells.{place_along as place_along_of, IsSide, AreSideBits, IsCellSize, IsBlock, cells_in_row, block_of as block_of_box, width as width_of, cell_count as cell_count_of, cell_at as cell_at_of, is_cell_of};

use geo_exact::Pt;

/// How many numbers a row of cells takes: more than the cells that a row can have.
pub(crate) const ROW_WIDTH: u64 = 67_108_864;

/// Columns and rows are counted from so far west, or south, of zero, in millimetres: past every
/// coordinate, and a multiple of every side.
const SHIFT: i64 = 17_179_869_184;

/// How wide a cell is from west to east, and how high from south to north: two to the power of
/// these, in millimetres.
#[derive(Clone, Copy)]
pub(crate) struct CellSize {
    pub width_bits: u32,
    pub height_bits: u32,
}

impl CellSize {
    /// Cells so wide and so high.
    pub(crate) fn of(width_bits: u32, height_bits: u32) -> CellSize
        ensures { result ≡ record { width_bits = width_bits; height_bits = height_bits } }
    {
        CellSize {
            width_bits,
            height_bits,
        }
    }
}

/// The power of two that a side in millimetres is rounded down to.
pub(crate) fn bits_of(side: u64) -> u32
    requires { IsSide side }
    ensures { AreSideBits result }
{
    side.ilog2()
}

/// Columns and rows of cells, from the first to the last of each. A cell is the number of its row
/// times the width of a row, and its column.
#[derive(Clone, Copy)]
pub(crate) struct Block {
    pub left: u64,
    pub right: u64,
    pub bottom: u64,
    pub top: u64,
}

/// The column of an x, where a cell is two to the power of the bits wide, or the row of a y, where
/// it is so high: the coordinate divided by that, rounded down. Columns are counted from one west of
/// every coordinate, so none is negative.
fn place_along(bits: u32, coordinate: i64) -> u64
    requires bits { AreSideBits bits }
    requires coordinate { InRange coordinate }
    ensures value { result ≡ place_along_of bits coordinate }
    ensures within { result < cells_in_row }
{
    (coordinate + SHIFT).unsigned_abs() >> bits
}

/// The cells of a size that the box of a segment touches.
pub(crate) fn block_of(size: CellSize, a: Pt, b: Pt) -> Block
    requires { IsCellSize size }
    ensures value { result ≡ block_of_box size a b }
    ensures block { IsBlock result }
{
    let a_column = place_along(size.width_bits, a.x);
    let b_column = place_along(size.width_bits, b.x);
    let a_row = place_along(size.height_bits, a.y);
    let b_row = place_along(size.height_bits, b.y);
    Block {
        left: a_column.min(b_column),
        right: a_column.max(b_column),
        bottom: a_row.min(b_row),
        top: a_row.max(b_row),
    }
}

impl Block {
    /// How many columns it has.
    fn width(&self) -> u64
        requires { IsBlock self.now }
        ensures value { result ≡ width_of self.now }
        ensures some { 0 < result }
        ensures within { result ≤ cells_in_row }
    {
        self.right - self.left + 1
    }

    /// How many cells it has.
    pub(crate) fn cell_count(&self) -> u64
        requires { IsBlock self.now }
        ensures { result ≡ cell_count_of self.now }
    {
        self.width() * (self.top - self.bottom + 1)
    }

    /// The cell at a place. Places are counted row by row.
    pub(crate) fn cell_at(&self, place: u64) -> u64
        requires block { IsBlock self.now }
        requires there { place < cell_count_of self.now }
        ensures { result ≡ cell_at_of self.now place }
    {
        let width = self.width();
        if place < width {
            return self.bottom * ROW_WIDTH + self.left + place;
        }
        (self.bottom + place / width) * ROW_WIDTH + self.left + place % width
    }

    /// Whether a cell is one of it.
    pub(crate) fn has(&self, cell: u64) -> bool
        ensures { result ≡ is_cell_of self.now cell }
    {
        let column = cell % ROW_WIDTH;
        let row = cell / ROW_WIDTH;
        self.left <= column && column <= self.right && self.bottom <= row && row <= self.top
    }
}
