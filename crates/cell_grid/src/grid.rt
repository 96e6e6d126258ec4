//! The grid, and what it gives near a segment.
ghost use Rattle.std.specs.Prelude.{ℕ, IsTrue, OnOk, OnErr, IfOk};
ghost use Rattle.std.specs.List.{Contains};
ghost use Rattle.std.specs.Iterator.{YieldsFirst, item_count};
ghost use Rattle.geo_exact.specs.Position.{Position};
ghost use Rattle.geo_exact.specs.SignTest.{boxes_overlap};
ghost use Rattle.cell_grid.specs.Cells.{IsSide};
ghost use Rattle.cell_grid.specs.Kept.{HoldsNone, HoldsSame, HoldsOneMore, HoldsOneLess};
ghost use Rattle.cell_grid.specs.Together.{HoldsMore, HoldsLess, AreNew, AreHeld};
ghost use Rattle.cell_grid.specs.declared.entry.HeldString.{HeldString as HeldStringOf};
ghost use Rattle.cell_grid.specs.declared.entry.HeldPoint.{HeldPoint as HeldPointOf};
ghost use Rattle.cell_grid.specs.Grid.{HoldsString, HoldsPoint, entry_of};

use crate::block::bits_of;
use crate::entries::Entries;
use crate::entry::{Entry, HeldPoint, HeldString};
use crate::near::NearEntries;
use crate::segments::Segments;
use cad_rows::{Memory, PointNo, StringNo};
use geo_exact::Pt;
use number_hash::NumberHash;
use std::alloc::Global;
use std::marker::Model;

/// Strings, with the positions of their two ends, and points, by the cells that they touch.
///
/// There are four kinds of cells: smaller squares with a side of their own, squares with the side,
/// lanes from west to east, 2^30 mm long and as wide as the side, and such lanes from south to north. The cell of a location is its two coordinates divided by the width and the
/// height of the kind, rounded down. A string stands in every smaller square that its box touches,
/// where these are 64 at most; else in every square, where these are 64 at most; else in every lane
/// from west to east, or from south to north, where these are eight at most; and else in a list of
/// long ones, which are those that go slantwise over more than seven sides both ways. A number may
/// stand at several positions at once.
///
/// Only `new` and the puts take memory: some 24 bytes for each cell that an entry stands in. A cell
/// keeps the room that it was given. A call takes time by the cells of the box and the entries that
/// stand there; a long list remembers where an entry was taken out of it, so that those that were put
/// in one after another are taken out without a search each.
pub struct CellGrid {
    strings: Segments,
    points: Segments,
}

// Written out, so that the end of one is a single call in a caller's proof.
impl Drop for CellGrid {
    fn drop(self) {
        let CellGrid {
            strings: _strings,
            points: _points,
        } = self;
    }
}

impl Model for CellGrid {
    ghost use Rattle.cell_grid.specs.Grid.{Grid};

    ghost Value = { Grid };

    ghost use Rattle.cell_grid.specs.Inside.{grid_of, IsKept};

    ghost view = { grid_of };

    ghost invariant = { IsKept };
}

impl CellGrid {
    /// A grid that holds nothing and will find cells by this hash. The side of the smaller squares
    /// and that of the others are in millimetres, from 1,000 to 1,000,000,000, and are rounded down to
    /// powers of two, by which a coordinate is divided without a division. What is found is the same
    /// with any sides; the first is meant to be the lesser one, or the same.
    pub fn new(
        alloc: Global,
        hash: NumberHash,
        small_side: u64,
        side: u64,
    ) -> Result<CellGrid, Memory>
        requires small { IsSide small_side }
        requires side { IsSide side }
        ensures strings { IfOk result (λ grid. HoldsNone grid.strings) }
        ensures points { IfOk result (λ grid. HoldsNone grid.points) }
    {
        let small_bits = bits_of(small_side);
        let bits = bits_of(side);
        Ok(CellGrid {
            strings: Segments::new(alloc, hash, small_bits, bits),
            points: Segments::new(alloc, hash, small_bits, bits),
        })
    }

    /// Puts a string in at the positions of its ends; it may be held at others as well. Where
    /// memory runs out the grid holds what it held.
    pub fn put_string(&mut self, no: StringNo, a: Pt, b: Pt) -> Result<(), Memory>
        requires { ¬ HoldsString self.old no a b }
        ensures put { OnOk result
            (HoldsOneMore self.old.strings (entry_of no a b) self.new.strings) }
        ensures points { HoldsSame self.old.points self.new.points }
        ensures err { OnErr result (HoldsSame self.old.strings self.new.strings) }
    {
        self.strings.put(Entry::of_string(no, a, b))
    }

    /// Takes a string out from these positions of its ends. It takes no memory.
    pub fn take_string(&mut self, no: StringNo, a: Pt, b: Pt)
        requires { HoldsString self.old no a b }
        ensures taken { HoldsOneLess self.old.strings (entry_of no a b) self.new.strings }
        ensures points { HoldsSame self.old.points self.new.points }
    {
        self.strings.take(Entry::of_string(no, a, b));
    }

    /// Puts a point in at a position; it may be held at others as well. Where memory runs out the
    /// grid holds what it held.
    pub fn put_point(&mut self, no: PointNo, a: Pt) -> Result<(), Memory>
        requires { ¬ HoldsPoint self.old no a }
        ensures put { OnOk result (HoldsOneMore self.old.points (entry_of no a a) self.new.points) }
        ensures strings { HoldsSame self.old.strings self.new.strings }
        ensures err { OnErr result (HoldsSame self.old.points self.new.points) }
    {
        self.points.put(Entry::of_point(no, a))
    }

    /// Takes a point out from a position. It takes no memory.
    pub fn take_point(&mut self, no: PointNo, a: Pt)
        requires { HoldsPoint self.old no a }
        ensures taken { HoldsOneLess self.old.points (entry_of no a a) self.new.points }
        ensures strings { HoldsSame self.old.strings self.new.strings }
    {
        self.points.take(Entry::of_point(no, a));
    }

    /// Puts strings and points in, none of which is held: all of them, or none where memory runs
    /// out.
    pub fn put_all(&mut self, entries: &Entries) -> Result<(), Memory>
        requires strings { AreNew self.old.strings entries.now.strings }
        requires points { AreNew self.old.points entries.now.points }
        ensures put_strings { OnOk result
            (HoldsMore self.old.strings entries.now.strings self.new.strings) }
        ensures put_points { OnOk result
            (HoldsMore self.old.points entries.now.points self.new.points) }
        ensures err_strings { OnErr result (HoldsSame self.old.strings self.new.strings) }
        ensures err_points { OnErr result (HoldsSame self.old.points self.new.points) }
    {
        self.strings.put_all(entries.strings.as_slice())?;
        if let Err(memory) = self.points.put_all(entries.points.as_slice()) {
            self.strings.take_all(entries.strings.as_slice());
            return Err(memory);
        }
        Ok(())
    }

    /// Takes strings and points out that are held. It takes no memory.
    pub fn take_all(&mut self, entries: &Entries)
        requires strings { AreHeld self.old.strings entries.now.strings }
        requires points { AreHeld self.old.points entries.now.points }
        ensures strings { HoldsLess self.old.strings entries.now.strings self.new.strings }
        ensures points { HoldsLess self.old.points entries.now.points self.new.points }
    {
        self.strings.take_all(entries.strings.as_slice());
        self.points.take_all(entries.points.as_slice());
    }

    /// The strings held near the segment ab, each between the positions where it is held: those
    /// whose boxes overlap its own, so all that have a common location with it. A string may come
    /// several times. It takes no memory, and time by the cells of the box of ab, or by all cells
    /// that were given room where these are fewer, by what stands in the cells of the box, and by
    /// the long ones.
    #[inline(always)]
    pub fn candidates(&self, a: Pt, b: Pt) -> Candidates<'_>
        ensures held { (s : HeldStringOf) → Contains result s
            → HoldsString self.now s.string s.from s.to
            × IsTrue (boxes_overlap a b s.from s.to) }
        ensures all { (n : ℕ) (c d : Position) → HoldsString self.now n c d
            → IsTrue (boxes_overlap a b c d)
            → Contains result (record { string = n; from = c; to = d }) }
    {
        Candidates {
            near: NearEntries::of(&self.strings, a, b),
        }
    }

    /// The points held in the box of the segment ab, each at the position where it is held: so all
    /// that lie on it. A point may come several times. Memory and time are as for `candidates`.
    #[inline(always)]
    pub fn point_candidates(&self, a: Pt, b: Pt) -> PointCandidates<'_>
        ensures held { (p : HeldPointOf) → Contains result p
            → HoldsPoint self.now p.point p.position
            × IsTrue (boxes_overlap a b p.position p.position) }
        ensures all { (n : ℕ) (c : Position) → HoldsPoint self.now n c
            → IsTrue (boxes_overlap a b c c)
            → Contains result (record { point = n; position = c }) }
    {
        PointCandidates {
            near: NearEntries::of(&self.points, a, b),
        }
    }
}

/// The strings near a segment, which [`CellGrid::candidates`] gives. A step goes over cells and
/// entries until one is near; the search ends, and takes no memory.
#[derive(Drop)]
pub struct Candidates<'a> {
    near: NearEntries<'a>,
}

impl<'a> Model for Candidates<'a> {
    ghost use Rattle.std.specs.Prelude.{List, map};
    ghost use Rattle.std.specs.List.{AllByRecursion};
    ghost use Rattle.cell_grid.specs.declared.entry.HeldString.{HeldString as HeldStringOf};
    ghost use Rattle.cell_grid.specs.Grid.{held_string, IsNumbered};

    ghost Value = { List HeldStringOf };

    ghost view = { λ c. map held_string c.near };

    ghost invariant = { λ c. AllByRecursion IsNumbered c.near };
}

impl Iterator for Candidates<'_> {
    type Item = HeldString;

    ghost next_gives = { YieldsFirst (λ c. c) };

    ghost remaining = { item_count (λ c. c) };

    #[inline(always)]
    fn next(&mut self) -> Option<HeldString> {
        let entry = self.near.next()?.entry();
        let string = StringNo::new(entry.number)?;
        Some(HeldString {
            string,
            from: entry.from,
            to: entry.to,
        })
    }
}

/// The points near a segment, which [`CellGrid::point_candidates`] gives, as [`Candidates`] does
/// strings.
#[derive(Drop)]
pub struct PointCandidates<'a> {
    near: NearEntries<'a>,
}

impl<'a> Model for PointCandidates<'a> {
    ghost use Rattle.std.specs.Prelude.{List, map};
    ghost use Rattle.std.specs.List.{AllByRecursion};
    ghost use Rattle.cell_grid.specs.declared.entry.HeldPoint.{HeldPoint as HeldPointOf};
    ghost use Rattle.cell_grid.specs.Grid.{held_point, IsNumbered};

    ghost Value = { List HeldPointOf };

    ghost view = { λ c. map held_point c.near };

    ghost invariant = { λ c. AllByRecursion IsNumbered c.near };
}

impl Iterator for PointCandidates<'_> {
    type Item = HeldPoint;

    ghost next_gives = { YieldsFirst (λ c. c) };

    ghost remaining = { item_count (λ c. c) };

    #[inline(always)]
    fn next(&mut self) -> Option<HeldPoint> {
        let entry = self.near.next()?.entry();
        let point = PointNo::new(entry.number)?;
        Some(HeldPoint {
            point,
            position: entry.from,
        })
    }
}
