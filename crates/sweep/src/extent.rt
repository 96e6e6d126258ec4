//! Boxes in the plane, and whether each two that overlap pass a test.
ghost use Rattle.std.specs.Prelude.{◌≡◌, ◌<◌, ◌≤◌, ◌*◌, ℕ, length, sum_by, IfOk, OnOk};
ghost use Rattle.std.specs.Bool.{OnTrue, OnFalse};
ghost use Rattle.std.specs.List.{Contains};
ghost use Rattle.sweep.specs.Spans.{HavePlacesBelow};
ghost use Rattle.sweep.specs.Extents.{IsExtent, HasExtents, IsRowOf, span_in, HasAllSpans};
ghost use Rattle.sweep.specs.Extents.{AllThatOverlapPass, SomePairFails, height_of, height_of_rows, row_width};

use crate::scan::{PairTest, all_that_meet_pass};
use crate::span::Span;
use std::alloc::{AllocError, Global};

/// A box, its borders included. Coordinates are counted in millimetres from the least that there
/// can be, and are below 2^35.
#[derive(Clone, Copy, PartialEq, Eq)]
pub struct Extent {
    /// The least coordinate across.
    pub left: u64,
    /// The greatest coordinate across.
    pub right: u64,
    /// The least coordinate upwards.
    pub bottom: u64,
    /// The greatest coordinate upwards.
    pub top: u64,
}

/// The least height of a row in millimetres.
pub const LEAST_ROW_HEIGHT: u64 = 64;

/// What a row of the plane takes up on the line.
const ROW: u64 = 34_359_738_368;

/// A height of rows in millimetres: the mean height of these boxes, or [`LEAST_ROW_HEIGHT`] where
/// that is more. In rows of this height the boxes reach at most three rows each on the whole.
pub fn row_height(extents: &[Extent]) -> u64
    requires { HasExtents extents.now }
    ensures least { LEAST_ROW_HEIGHT ≤ result }
    ensures mean { result ≡ height_of_rows extents.now }
{
    if extents.is_empty() {
        return LEAST_ROW_HEIGHT;
    }
    let mean = sum_of_heights(extents) / extents.len() as u128;
    LEAST_ROW_HEIGHT.max(mean as u64)
}

// The heights of these boxes, added up.
fn sum_of_heights(extents: &[Extent]) -> u128
    requires { HasExtents extents.now }
    ensures sum { result ≡ sum_by height_of extents.now }
    ensures within { result ≤ length extents.now * row_width }
{
    let mut sum: u128 = 0;
    for extent in extents {
        sum += u128::from(extent.top - extent.bottom);
    }
    sum
}

/// Whether each two of these boxes that overlap pass the test, in one of the two orders: a box isn't
/// tested with itself. Where it answers `false`, two different places fail. These needn't overlap:
/// the test is to pass what lies apart.
///
/// The plane is cut into rows of so many millimetres, and these are laid out on one line, each past
/// the one before: a box gives a span for each row that it reaches. Two boxes that overlap have a
/// row in common and overlap there, so the spans are sorted by their beginnings, and each is
/// compared with those that begin before it ends.
///
/// Memory is a span of 24 bytes for each row that a box reaches: at the height that [`row_height`]
/// gives, at most three for each box on the whole. Time is that of sorting them and of a test for
/// each two that overlap across in a row that both reach.
///
/// # Errors
/// Memory ran out.
pub fn all_that_overlap_pass<T: PairTest>(
    alloc: Global,
    test: &T,
    extents: &[Extent],
    height: u64,
) -> Result<bool, AllocError>
    requires extents { HasExtents extents.now }
    requires height { LEAST_ROW_HEIGHT ≤ height }
    ensures passed { IfOk result (λ b. OnTrue b
        (AllThatOverlapPass (T.passes test.now) extents.now)) }
    ensures failed { IfOk result (λ b. OnFalse b
        (SomePairFails (T.passes test.now) (length extents.now))) }
{
    let mut spans = spans_of(alloc, extents, height)?;
    Ok(all_that_meet_pass(test, spans.as_mut_slice()))
}

// The spans that stand for these boxes, in rows of so many millimetres.
fn spans_of(alloc: Global, extents: &[Extent], height: u64) -> Result<Vec<Span>, AllocError>
    requires extents { HasExtents extents.now }
    requires height { LEAST_ROW_HEIGHT ≤ height }
    ensures each { IfOk result (λ spans. HasAllSpans spans.items extents.now height) }
    ensures places { IfOk result (λ spans. HavePlacesBelow spans.items (length extents.now)) }
{
    // In rows of the mean height two spans a box come of it, and mostly a few more.
    let room = extents.len().saturating_mul(9) / 4;
    let mut spans = Vec::with_capacity(alloc, room)?;
    for place in 0..extents.len() {
        put_spans(&mut spans, extents[place], height, place)?;
    }
    Ok(spans)
}

// Puts a span for each row of so many millimetres that a box reaches.
fn put_spans(
    spans: &mut Vec<Span>,
    extent: Extent,
    height: u64,
    place: usize,
) -> Result<(), AllocError>
    requires extent { IsExtent extent }
    requires height { LEAST_ROW_HEIGHT ≤ height }
    ensures kept { OnOk result
        ((s : Span) → Contains spans.old.items s → Contains spans.new.items s) }
    ensures put { OnOk result ((row : ℕ) → IsRowOf extent height row
        → Contains spans.new.items (span_in extent place row)) }
    ensures places { OnOk result ((n : ℕ) → place < n → HavePlacesBelow spans.old.items n
        → HavePlacesBelow spans.new.items n) }
{
    let last = extent.top / height;
    let mut row = extent.bottom / height;
    while row <= last {
        spans.push(Span {
            low: row * ROW + extent.left,
            high: row * ROW + extent.right,
            place,
        })?;
        row += 1;
    }
    Ok(())
}
