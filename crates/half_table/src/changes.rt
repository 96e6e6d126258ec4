//! Surgery on the rows of a table.
ghost use Rattle.std.specs.Prelude.{◌≡◌, ◌≤◌, ◌++◌, ◌∷◌, [], true, false, length, OnOk, OnErr};
ghost use Rattle.half_table.specs.Count.{ticked};
ghost use Rattle.half_table.specs.Half.{half_of};
ghost use Rattle.half_table.specs.Rows.{HalfRows, has_halves, has, cycle, IsLinked};
ghost use Rattle.half_table.specs.declared.links.Ends.{Ends as StringEnds};
ghost use Rattle.half_table.specs.Surgery.{IsUnchanged, IsSpliced, SplicesBack, SplicesCycles, Relabels, AddsLoose, AddsCycle, IsLoose, links_to, loose_ends, RemovesLoose, RemovesCycle};

use crate::half::{Half, is_same};
use crate::links::{Ends, Links};
use crate::packed::PackedLinks;
use crate::rows::{Rows, next_half, number_of, set_face, set_next, set_prev};
use crate::tally::Tally;
use cad_rows::{Face, Memory, PointNo, StringNo};

/// The nexts of a and b change places, and the prevs of what followed them.
pub(crate) fn exchange(rows: &mut Rows, a: &Half, b: &Half)
    requires a_in { has rows.old a.now ≡ true }
    requires b_in { has rows.old b.now ≡ true }
    requires linked { IsLinked rows.old }
    ensures spliced { IsSpliced a.now b.now rows.old rows.new }
    ensures cycles { SplicesCycles a.now b.now rows.old rows.new }
    ensures linked { IsLinked rows.new }
    ensures back { SplicesBack a.now b.now rows.old rows.new }
    ensures unchanged { a.now ≡ b.now → IsUnchanged rows.old rows.new }
{
    let after_a = next_half(rows, a);
    let after_b = set_next(rows, b, &after_a);
    set_next(rows, a, &after_b);
    set_prev(rows, &after_b, a);
    set_prev(rows, &after_a, b);
}

/// Every half of the cycle of `h` gets the face.
pub(crate) fn relabel_cycle<T: Tally>(rows: &mut Rows, tally: &mut T, h: &Half, face: &Face)
    requires h_in { has rows.old h.now ≡ true }
    requires linked { IsLinked rows.old }
    ensures relabels { Relabels
        (cycle rows.old h.now) face.now rows.old rows.new }
    ensures linked { IsLinked rows.new }
    ensures work { T.counted tally.new
        ≡ ticked (length (cycle rows.old h.now)) (T.counted tally.old) }
    ensures grows { T.counted tally.old ≤ T.counted tally.new }
{
    let mut at = set_face(rows, h, face);
    tally.tick();
    while !is_same(&at, h) {
        at = set_face(rows, &at, face);
        tally.tick();
    }
}

/// A new string, whose halves are each other's next and prev.
pub(crate) fn put_loose(
    rows: &mut Rows,
    string: &StringNo,
    from: &PointNo,
    to: &PointNo,
) -> Result<(), Memory>
    requires fresh { has_halves rows.old string.now ≡ false }
    requires linked { IsLinked rows.old }
    ensures adds { OnOk result
        (AddsLoose string.now from.now to.now rows.old rows.new) }
    ensures cycle { OnOk result (AddsCycle string.now rows.old rows.new) }
    ensures entry { OnOk result (rows.new
        ≡ rows.old ++ (string.now, loose_ends string.now from.now to.now) ∷ []) }
    ensures linked { IsLinked rows.new }
    ensures err { OnErr result (rows.new ≡ rows.old) }
{
    let outside = Face::Outside;
    let forward = lone_links(string, from, &outside, false);
    let backward = lone_links(string, to, &outside, true);
    rows.push(number_of(string), Ends { forward, backward })?;
    Ok(())
}

/// The links of a half that both follows and is followed by this half of its string.
fn lone_links(string: &StringNo, origin: &PointNo, face: &Face, forward: bool) -> PackedLinks
    ensures { result ≡ links_to (half_of string.now forward) origin.now face.now }
{
    let links = Links {
        origin: *origin,
        next: Half {
            string: *string,
            forward,
        },
        prev: Half {
            string: *string,
            forward,
        },
        face: *face,
    };
    PackedLinks::of(&links)
}

/// Takes out a string whose halves are each other's next.
pub(crate) fn take_loose(rows: &mut Rows, string: &StringNo)
    requires loose { IsLoose string.now rows.old }
    requires linked { IsLinked rows.old }
    ensures removes { RemovesLoose string.now rows.old rows.new }
    ensures cycle { RemovesCycle string.now rows.old rows.new }
    ensures last { (before : HalfRows) (ends : StringEnds)
        → rows.old ≡ before ++ (string.now, ends) ∷ []
        → rows.new ≡ before }
    ensures linked { IsLinked rows.new }
{
    let place = rows.place_of(number_of(string)).unwrap();
    rows.swap_remove(place);
}
