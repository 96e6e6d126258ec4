//! Room for words inside a parcel.

use crate::edges::{Area, Edge, at_height, middle_of};
use crate::page::times_over;
use cad_rows::Memory;
use std::alloc::Global;

/// What words in a parcel stay clear of, and how far.
#[derive(Clone, Copy)]
pub(crate) struct Around<'a> {
    /// The parcel's sides.
    pub(crate) sides: &'a [Edge],
    /// Other lines near it.
    pub(crate) others: &'a [Edge],
    /// How far words stay away from lines.
    pub(crate) gap: i64,
}

/// A free box: the middle of its top, and its width.
#[derive(Clone, Copy)]
pub(crate) struct Room {
    pub(crate) middle: i64,
    pub(crate) top: i64,
    pub(crate) width: i64,
}

// A part of a row, from left to right.
#[derive(Clone, Copy)]
struct Span {
    left: i64,
    right: i64,
}

// Appends where these lines lie between two heights, each from its leftmost place there to its rightmost.
fn push_parts(
    parts: &mut Vec<(i64, i64)>,
    edges: &[Edge],
    top: i64,
    bottom: i64,
) -> Result<(), Memory> {
    for edge in edges {
        if edge.top() <= bottom && edge.bottom() >= top {
            let a = at_height(&edge.from, &edge.to, edge.from.y.max(top).min(bottom));
            let b = at_height(&edge.to, &edge.from, edge.to.y.max(top).min(bottom));
            parts.push((a.min(b), a.max(b)))?;
        }
    }
    Ok(())
}

// Where a row crosses the sides of a parcel, from left to right.
fn crossings(alloc: Global, sides: &[Edge], y: i64) -> Result<Vec<i64>, Memory> {
    let mut places = Vec::new(alloc);
    for side in sides {
        if (side.from.y <= y) != (side.to.y <= y) {
            places.push(at_height(&side.from, &side.to, y))?;
        }
    }
    places.sort_unstable();
    Ok(places)
}

// Whether a place in a row that crosses a parcel's sides there is inside: behind an odd number of them.
fn is_inside(crossings: &[i64], place: i64) -> bool {
    match crossings.binary_search(&place) {
        Ok(before) | Err(before) => before % 2 == 1,
    }
}

// The widest part of a row that is inside and free of these parts, which come in order of their left ends.
fn widest_free(parts: &[(i64, i64)], crossings: &[i64]) -> Span {
    let mut widest = Span { left: 0, right: 0 };
    let mut reach = 0;
    for (left, right) in parts {
        let is_wider = left.saturating_sub(reach) > widest.right.saturating_sub(widest.left);
        if is_wider && is_inside(crossings, middle_of(reach, *left)) {
            widest = Span {
                left: reach,
                right: *left,
            };
        }
        reach = reach.max(*right);
    }
    widest
}

// The widest room between two heights of a parcel.
fn room_between(alloc: Global, around: &Around<'_>, top: i64, bottom: i64) -> Result<Room, Memory> {
    let crossings = crossings(alloc, around.sides, middle_of(top, bottom))?;
    let mut parts = Vec::new(alloc);
    push_parts(&mut parts, around.sides, top, bottom)?;
    push_parts(&mut parts, around.others, top, bottom)?;
    parts.sort_unstable();
    let free = widest_free(parts.as_slice(), crossings.as_slice());
    let width = free.right.saturating_sub(free.left);
    Ok(Room {
        middle: middle_of(free.left, free.right),
        top,
        width: width.saturating_sub(around.gap).saturating_sub(around.gap),
    })
}

// The heights that are tried, in tenths of the way down: those near the middle first.
const HEIGHTS: [i64; 9] = [5, 4, 6, 3, 7, 2, 8, 1, 9];

/// The first of several heights of a parcel, which takes this part of the page, that has room so high and wide. `Err` where
/// memory runs out.
pub(crate) fn first_room(
    alloc: Global,
    around: &Around<'_>,
    area: &Area,
    height: i64,
    width: i64,
) -> Result<Option<Room>, Memory> {
    let span = area.bottom.saturating_sub(area.top).saturating_sub(height);
    for tenths in HEIGHTS {
        let top = area.top.saturating_add(times_over(span, tenths, 10));
        let room = room_between(alloc, around, top, top.saturating_add(height))?;
        if room.width >= width {
            return Ok(Some(room));
        }
    }
    Ok(None)
}
