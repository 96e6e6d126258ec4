//! A string by its number and its ends, without its sources.
ghost use Rattle.std.specs.Prelude.{◌≡◌, option_map, slice_get};
ghost use Rattle.std.specs.List.Sorted.{IsPermutation};
ghost use Rattle.cad_map.specs.Map.{far_end, strings_at};
ghost use Rattle.cad_map.specs.Spans.{far_of as far_of_span, span_of as span_of_row};

use crate::store::MapView;
use cad_rows::{PointNo, StringNo, StringRow};

/// A string, and the points that it leads from and to.
#[derive(Clone, Copy)]
pub struct Span {
    pub string: StringNo,
    pub from: PointNo,
    pub to: PointNo,
}

/// A string's number and its ends.
pub fn span_of(row: &StringRow) -> Span
    ensures { result ≡ span_of_row row.now }
{
    Span {
        string: row.number,
        from: row.from,
        to: row.to,
    }
}

// The end of a string that isn't the point, and of one that leads elsewhere the one that it leads from.
fn far_of(span: &Span, point: PointNo) -> PointNo
    ensures { result ≡ far_of_span span.now point }
{
    if span.from.get() == point.get() {
        span.to
    } else {
        span.from
    }
}

/// The other end of the string at a place among those that have a point, as [`MapView::span_with`]
/// tells them, and `None` past the last of them.
pub fn far_with<M: MapView>(map: &M, point: PointNo, place: usize) -> Option<PointNo>
    ensures far { result ≡ option_map (λ s. far_end s point)
        (slice_get (M.view_strings map.now point) place) }
    // The strings are the point's, each once.
    ensures each { IsPermutation (strings_at (M.map map.now) point)
        (M.view_strings map.now point) }
{
    let span = map.span_with(point, place)?;
    Some(far_of(&span, point))
}
