//! The table of half-edges.
ghost use Rattle.std.specs.Prelude.{◌≡◌, ◌≤◌, ◌++◌, Bool, [], ◌∷◌, true, false, List, Some, length, IfOk, OnOk, OnErr};
ghost use Rattle.half_table.specs.Count.{one_more, ticked};
ghost use Rattle.half_table.specs.Half.{half_of, twin};
ghost use Rattle.half_table.specs.declared.links.Ends.{Ends as StringEnds};
ghost use Rattle.half_table.specs.Rows.{HalfRows, has_halves, links_of, has, next, prev, origin_of, face, IsLinked, cycle, HasCycle};
ghost use Rattle.half_table.specs.Surgery.{IsUnchanged, IsSpliced, SplicesBack, SplicesCycles, Relabels, AddsLoose, AddsCycle, IsLoose, loose_ends, RemovesLoose, RemovesCycle};

use crate::changes::{exchange, put_loose, relabel_cycle, take_loose};
use crate::half::Half;
use crate::open::OpenTable;
use crate::packed::PackedLinks;
use crate::rows::{Rows, find_links, number_of};
use crate::tally::Tally;
use crate::walk::{Walk, walk_rows};
use cad_rows::{Face, Memory, PointNo, StringNo};
use number_hash::NumberHash;
use number_table::NumberTable;
use std::alloc::Global;
use std::marker::Model;

/// A doubly connected edge list: for each string the records of its two half-edges, with origin,
/// next, prev and incident face. The twin of a half-edge is the other one of its string. A tally
/// counts the work on the table.
pub struct HalfTable<T: Tally> {
    pub(crate) rows: Rows,
    pub(crate) tally: T,
}

// Written out, so that the end of one is a single call in a caller's proof.
impl<T: Tally> Drop for HalfTable<T> {
    fn drop(self) {
        let HalfTable {
            rows: _rows,
            tally: _tally,
        } = self;
    }
}

impl<T: Tally> Model for HalfTable<T> {
    ghost use Rattle.half_table.specs.Rows.{Table, IsLinked};

    ghost Value = { Table };

    ghost view = { λ t. record { rows = t.rows; work = T.counted t.tally } };

    ghost invariant = { λ t. IsLinked t.rows };
}

impl<T: Tally> HalfTable<T> {
    /// A table without strings, which it will find by this hash.
    pub fn new(alloc: Global, hash: NumberHash, tally: T) -> HalfTable<T>
        ensures rows { result.rows ≡ [] }
        ensures linked { IsLinked result.rows }
        ensures work { result.work ≡ T.counted tally }
    {
        HalfTable {
            rows: NumberTable::new(alloc, hash),
            tally,
        }
    }

    /// A table without strings, and with room for so many, so that it need not grow for them.
    pub fn with_room(
        alloc: Global,
        hash: NumberHash,
        strings: usize,
        tally: T,
    ) -> Result<HalfTable<T>, Memory>
        ensures rows { IfOk result (λ table. table.rows ≡ []) }
        ensures work { IfOk result (λ table. table.work ≡ T.counted tally) }
    {
        Ok(HalfTable {
            rows: NumberTable::with_room(alloc, hash, strings)?,
            tally,
        })
    }

    /// The same table, whose halves can then be linked one after another.
    pub fn open(self) -> OpenTable<T>
        ensures same { result ≡ self }
        ensures linked { IsLinked result.rows }
    {
        let HalfTable { rows, tally } = self;
        OpenTable { rows, tally }
    }

    /// Whether the table holds the halves of a string.
    pub fn has_string(&self, string: StringNo) -> bool
        ensures is { result ≡ has_halves self.now.rows string }
        ensures halves { (forward : Bool) → has self.now.rows (half_of string forward) ≡ result }
    {
        self.rows.get(number_of(&string)).is_some()
    }

    /// The other half of the same string.
    #[inline(always)]
    pub fn twin(&self, h: Half) -> Half
        ensures is { result ≡ twin h }
        ensures inside { has self.now.rows result ≡ has self.now.rows h }
    {
        Half {
            string: h.string,
            forward: !h.forward,
        }
    }

    #[inline(always)]
    fn links(&self, h: &Half) -> &PackedLinks
        requires { has self.now.rows h.now ≡ true }
        ensures is { links_of self.now.rows h.now ≡ Some result.now }
        ensures linked { IsLinked self.now.rows }
    {
        find_links(&self.rows, h).unwrap()
    }

    /// The point where a half begins.
    #[inline(always)]
    pub fn origin(&self, h: Half) -> PointNo
        requires { has self.now.rows h ≡ true }
        ensures { result ≡ origin_of self.now.rows h }
    {
        self.links(&h).origin()
    }

    /// The half that follows `h` along the boundary of its face.
    #[inline(always)]
    pub fn next(&self, h: Half) -> Half
        requires { has self.now.rows h ≡ true }
        ensures is { result ≡ next self.now.rows h }
        ensures inside { has self.now.rows result ≡ true }
        ensures linked { IsLinked self.now.rows }
    {
        self.links(&h).next()
    }

    /// The half that `h` follows.
    #[inline(always)]
    pub fn prev(&self, h: Half) -> Half
        requires { has self.now.rows h ≡ true }
        ensures is { result ≡ prev self.now.rows h }
        ensures inside { has self.now.rows result ≡ true }
        ensures linked { IsLinked self.now.rows }
    {
        self.links(&h).prev()
    }

    /// The face to the left of a half.
    #[inline(always)]
    pub fn face(&self, h: Half) -> Face
        requires { has self.now.rows h ≡ true }
        ensures { result ≡ face self.now.rows h }
    {
        self.links(&h).face()
    }

    /// Counts one step of work.
    fn tick(&mut self)
        ensures rows { self.new.rows ≡ self.old.rows }
        ensures linked { IsLinked self.new.rows }
        ensures work { self.new.work ≡ one_more self.old.work }
        ensures grows { self.old.work ≤ self.new.work }
    {
        self.tally.tick();
    }

    /// A new string from one point to another: each of its halves is the other's next and prev,
    /// and its face is the outside. Where memory runs out the table and its tally stay as they were.
    pub fn add_loose(&mut self, string: StringNo, from: PointNo, to: PointNo) -> Result<(), Memory>
        requires { has_halves self.old.rows string ≡ false }
        ensures adds { OnOk result (AddsLoose string from to self.old.rows self.new.rows) }
        ensures cycle { OnOk result (AddsCycle string self.old.rows self.new.rows) }
        ensures entry { OnOk result (self.new.rows
            ≡ self.old.rows ++ (string, loose_ends string from to) ∷ []) }
        ensures linked { IsLinked self.new.rows }
        ensures work { OnOk result (self.new.work ≡ one_more self.old.work) }
        ensures grows { self.old.work ≤ self.new.work }
        ensures err { OnErr result (self.new ≡ self.old) }
    {
        put_loose(&mut self.rows, &string, &from, &to)?;
        self.tick();
        Ok(())
    }

    /// Takes out a string whose halves are each other's next.
    pub fn remove_loose(&mut self, string: StringNo)
        requires { IsLoose string self.old.rows }
        ensures removes { RemovesLoose string self.old.rows self.new.rows }
        ensures cycle { RemovesCycle string self.old.rows self.new.rows }

        // The string that was added last leaves the rows that there were before.
        ensures last { (before : HalfRows) (ends : StringEnds)
            → self.old.rows ≡ before ++ (string, ends) ∷ []
            → self.new.rows ≡ before }

        ensures linked { IsLinked self.new.rows }
        ensures work { self.new.work ≡ one_more self.old.work }
        ensures grows { self.old.work ≤ self.new.work }
    {
        take_loose(&mut self.rows, &string);
        self.tick();
    }

    /// The nexts of a and b change places, and the prevs of what followed them: one cycle through
    /// both is parted, and two are joined.
    pub fn splice(&mut self, a: Half, b: Half)
        requires a_in { has self.old.rows a ≡ true }
        requires b_in { has self.old.rows b ≡ true }
        ensures spliced { IsSpliced a b self.old.rows self.new.rows }
        ensures cycles { SplicesCycles a b self.old.rows self.new.rows }
        ensures linked { IsLinked self.new.rows }

        // The same splice again restores the table, and a splice of a half with itself changes nothing.
        ensures back { SplicesBack a b self.old.rows self.new.rows }
        ensures unchanged { a ≡ b → IsUnchanged self.old.rows self.new.rows }

        ensures work { self.new.work ≡ one_more self.old.work }
        ensures grows { self.old.work ≤ self.new.work }
    {
        exchange(&mut self.rows, &a, &b);
        self.tick();
    }

    /// Every half of the cycle of `h` gets the face.
    pub fn relabel(&mut self, h: Half, face: Face)
        requires { has self.old.rows h ≡ true }
        ensures relabels { Relabels (cycle self.old.rows h) face self.old.rows self.new.rows }
        ensures linked { IsLinked self.new.rows }
        ensures work { self.new.work ≡ ticked (length (cycle self.old.rows h)) self.old.work }
        ensures grows { self.old.work ≤ self.new.work }
    {
        relabel_cycle(&mut self.rows, &mut self.tally, &h, &face);
    }

    /// The cycle of `h`, from `h` on.
    pub fn walk(&self, h: Half) -> Walk<'_>
        requires { has self.now.rows h ≡ true }
        ensures halves { result ≡ cycle self.now.rows h }
        ensures cycle { HasCycle self.now.rows (cycle self.now.rows h) }
        ensures only { (halves : List Half) → HasCycle self.now.rows (h ∷ halves)
            → cycle self.now.rows h ≡ h ∷ halves }
        ensures linked { IsLinked self.now.rows }
    {
        walk_rows(&self.rows, &h)
    }

    /// How much has been done.
    pub fn work(&self) -> u64
        ensures { result ≡ self.now.work }
    {
        self.tally.count()
    }
}
