//! The rows of a table: under the number of each string the links of its two halves.
ghost use Rattle.std.specs.Prelude.{◌≡◌, true, Some, IfSome, nat_eq, option_copied, option_map, slice_get};
ghost use Rattle.std.specs.Map.{lookup};
ghost use Rattle.half_table.specs.declared.links.Links.{Links as HalfLinks};
ghost use Rattle.half_table.specs.Rows.{links_of, has, next, prev};
ghost use Rattle.half_table.specs.Writes.{ChangesLinks, ChangesNext, ChangesPrev, ChangesFace, Relinks};

use crate::half::Half;
use crate::links::{Ends, Links};
use crate::packed::PackedLinks;
use cad_rows::{Face, StringNo};
use number_table::NumberTable;

pub(crate) type Rows = NumberTable<Ends>;

// A row takes 48 bytes: edits mostly wait for memory.
const _: () = prove!(size_of::<(u64, Ends)>() == 48);

// The number under which the halves of a string stand.
pub(crate) fn number_of(string: &StringNo) -> u64
    ensures { result ≡ string.now }
{
    u64::from(string.get())
}

/// The links of a half.
#[inline(always)]
pub(crate) fn find_links<'a>(rows: &'a Rows, h: &Half) -> Option<&'a PackedLinks>
    ensures { option_copied result ≡ links_of rows.now h.now }
{
    let ends = rows.get(number_of(&h.string))?;
    Some(ends.at(h.forward))
}

/// The half that follows, and of a half that isn't there itself.
#[inline(always)]
pub(crate) fn next_half(rows: &Rows, h: &Half) -> Half
    ensures { result ≡ next rows.now h.now }
{
    match find_links(rows, h) {
        Some(links) => links.next(),
        None => *h,
    }
}

// Changes the links of a half, and gives those that it had.
#[inline(always)]
fn change_links<F: FnOnce(Links) -> Links>(rows: &mut Rows, h: &Half, change: F) -> Links
    requires h_in { has rows.old h.now ≡ true }
    requires callable { F.IsAlwaysCallable change }
    ensures was { links_of rows.old h.now ≡ Some result }
    ensures changes { (to : HalfLinks) × F.post change result to
        × ChangesLinks h.now to rows.old rows.new }
{
    let place = rows.place_of(number_of(&h.string)).unwrap();
    let ends = rows.value_at(place);
    let links = ends.at(h.forward).links();
    let was = links;
    let to = change(links);
    ends.set(h.forward, to);
    was
}

/// Links a half to another next, and gives the one that it had.
#[inline(always)]
pub(crate) fn set_next(rows: &mut Rows, h: &Half, to: &Half) -> Half
    requires { has rows.old h.now ≡ true }
    ensures changes { ChangesNext h.now to.now rows.old rows.new }
    ensures was { result ≡ next rows.old h.now }
{
    change_links(rows, h, |links| Links { next: *to, ..links }).next
}

/// Links a half to another prev, and gives the one that it had.
#[inline(always)]
pub(crate) fn set_prev(rows: &mut Rows, h: &Half, to: &Half) -> Half
    requires { has rows.old h.now ≡ true }
    ensures changes { ChangesPrev h.now to.now rows.old rows.new }
    ensures was { result ≡ prev rows.old h.now }
{
    change_links(rows, h, |links| Links { prev: *to, ..links }).prev
}

/// Puts another face to the left of a half, and gives the half that follows.
pub(crate) fn set_face(rows: &mut Rows, h: &Half, to: &Face) -> Half
    requires { has rows.old h.now ≡ true }
    ensures changes { ChangesFace h.now to.now rows.old rows.new }
    ensures next { result ≡ next rows.new h.now }
{
    change_links(rows, h, |links| Links { face: *to, ..links }).next
}

/// Writes what a half follows, what follows it and the face to its left. Its origin stays.
pub(crate) fn set_links(rows: &mut Rows, h: &Half, prev: &Half, next: &Half, face: &Face)
    requires { has rows.old h.now ≡ true }
    ensures { Relinks h.now prev.now next.now face.now rows.old rows.new }
{
    change_links(
        rows,
        h,
        |links| Links {
            next: *next,
            prev: *prev,
            face: *face,
            ..links
        },
    );
}
