//! Paths put in and cut out at their two ends, and rings closed and opened.
ghost use Rattle.std.specs.Prelude.{◌≡◌, true};
ghost use Rattle.half_table.specs.declared.half.Half.{Half as HalfEdge};
ghost use Rattle.half_table.specs.Half.{twin};
ghost use Rattle.half_table.specs.Rows.{has, next, prev, IsLinked};
ghost use Rattle.half_table.specs.Surgery.{KeepsHalves};
ghost use Rattle.half_table.specs.Count.{ticked};
ghost use Rattle.half_paths.specs.Redirect.{redirect};
ghost use Rattle.half_paths.specs.Ends.{put, CanPut, cut, CanCut, IsPut, closed, opened};

use crate::path::splice_between;
use half_table::{Half, HalfTable, Tally};

/// Puts a path in at two halves. After `before` comes the path, and after its last half what
/// followed `beyond`; after `beyond` comes the way back, and after that what followed `before`. Two
/// ticks. A path strung up that goes across a face parts its ring in two; one that joins two rings
/// makes them one.
///
/// Condition: both ends of the path are free, and the two halves differ from each other and from
/// the path's ends.
pub fn put_path<T: Tally>(
    table: &mut HalfTable<T>,
    before: Half,
    beyond: Half,
    first: Half,
    last: Half,
)
    requires before_in { has table.old.rows before ≡ true }
    requires beyond_in { has table.old.rows beyond ≡ true }
    requires first_in { has table.old.rows first ≡ true }
    requires last_in { has table.old.rows last ≡ true }
    requires free { CanPut before beyond first last (next table.old.rows) }
    ensures next { (g : HalfEdge) → next table.new.rows g
        ≡ redirect (put before beyond first last (next table.old.rows)) (next table.old.rows) g }

    // A path that was cut out there is in again as it was before.
    ensures back { (old : HalfEdge → HalfEdge) → IsPut before beyond first last old
        → CanCut first last old
        → ((g : HalfEdge) → next table.old.rows g ≡ redirect (cut before beyond first last old) old g)
        → (g : HalfEdge) → next table.new.rows g ≡ old g }

    ensures halves { KeepsHalves table.old.rows table.new.rows }
    ensures linked { IsLinked table.new.rows }
    ensures work { table.new.work ≡ ticked 2 table.old.work }
{
    splice_between(table, before, first);
    table.splice(last, beyond);
}

/// Cuts a path out at its two ends, wherever it is in. What comes before the path goes on to what
/// comes after it on the way back, and likewise at the other end; the path's ends are free then. Two
/// ticks. Nothing but the path's own ends need be known.
pub fn cut_path<T: Tally>(table: &mut HalfTable<T>, first: Half, last: Half)
    requires first_in { has table.old.rows first ≡ true }
    requires last_in { has table.old.rows last ≡ true }
    ensures next { let before = prev table.old.rows first in
        let beyond = prev table.old.rows (twin last) in
        CanCut first last (next table.old.rows) → (g : HalfEdge) → next table.new.rows g
        ≡ redirect (cut before beyond first last (next table.old.rows)) (next table.old.rows) g }

    // A path that was put in leaves what there was before.
    ensures back { (before beyond : HalfEdge) (old : HalfEdge → HalfEdge) → CanPut before beyond first last old
        → ((g : HalfEdge) → next table.old.rows g ≡ redirect (put before beyond first last old) old g)
        → (g : HalfEdge) → next table.new.rows g ≡ old g }

    ensures halves { KeepsHalves table.old.rows table.new.rows }
    ensures linked { IsLinked table.new.rows }
    ensures work { table.new.work ≡ ticked 2 table.old.work }
{
    let start = &first;
    let end = &last;
    let turn = table.twin(*end);
    let before = table.prev(*start);
    let beyond = table.prev(turn);
    table.splice(*end, beyond);
    splice_between(table, before, *start);
}

/// Closes a path to a ring: its last half is followed by its first, and on the way back the first by
/// the last. One tick.
///
/// Condition: both ends of the path are free.
pub fn close_ring<T: Tally>(table: &mut HalfTable<T>, first: Half, last: Half)
    requires first_in { has table.old.rows first ≡ true }
    requires last_in { has table.old.rows last ≡ true }
    requires first_free { next table.old.rows (twin first) ≡ first }
    requires last_free { next table.old.rows last ≡ twin last }
    ensures next { (g : HalfEdge) → next table.new.rows g
        ≡ redirect (closed first last) (next table.old.rows) g }

    // A ring that was opened there is what it was before.
    ensures back { (old : HalfEdge → HalfEdge) → old last ≡ first → old (twin first) ≡ twin last
        → ((g : HalfEdge) → next table.old.rows g ≡ redirect (opened first last) old g)
        → (g : HalfEdge) → next table.new.rows g ≡ old g }

    ensures halves { KeepsHalves table.old.rows table.new.rows }
    ensures linked { IsLinked table.new.rows }
    ensures work { table.new.work ≡ ticked 1 table.old.work }
{
    splice_between(table, last, first);
}

/// Opens a ring between its last and its first half: it is a path with two free ends. One tick.
///
/// Condition: the last half is followed by the first, and on the way back the first by the last.
pub fn open_ring<T: Tally>(table: &mut HalfTable<T>, first: Half, last: Half)
    requires first_in { has table.old.rows first ≡ true }
    requires last_in { has table.old.rows last ≡ true }
    requires enters { next table.old.rows last ≡ first }
    requires returns { next table.old.rows (twin first) ≡ twin last }
    ensures next { (g : HalfEdge) → next table.new.rows g
        ≡ redirect (opened first last) (next table.old.rows) g }

    // A path that was closed is what it was before.
    ensures back { (old : HalfEdge → HalfEdge) → old (twin first) ≡ first → old last ≡ twin last
        → ((g : HalfEdge) → next table.old.rows g ≡ redirect (closed first last) old g)
        → (g : HalfEdge) → next table.new.rows g ≡ old g }

    ensures halves { KeepsHalves table.old.rows table.new.rows }
    ensures linked { IsLinked table.new.rows }
    ensures work { table.new.work ≡ ticked 1 table.old.work }
{
    splice_between(table, last, first);
}
