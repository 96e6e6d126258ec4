//! The points of a drawing.

use crate::edges::Edge;
use crate::marks::{Mark, point_mark};
use crate::page::{Page, Spot};
use crate::pen::{push, push_circle, push_number, push_spot};
use cad_map::{MapView, PlainMap};
use cad_rows::{Memory, PointNo};
use std::alloc::Global;

/// A point on the page.
#[derive(Clone, Copy)]
pub(crate) struct Dot {
    pub(crate) number: PointNo,
    pub(crate) spot: Spot,
    pub(crate) mark: Mark,
    /// No string ends there.
    free: bool,
}

impl Dot {
    // A plain one is drawn small, with all others.
    fn is_plain(&self) -> bool {
        self.mark == Mark::Same && !self.free
    }

    // Whether no line leads there.
    fn is_alone(&self) -> bool {
        self.mark == Mark::Removed || self.free
    }

    // Its class.
    fn class(&self) -> &'static str {
        match self.mark {
            Mark::Same => "f",
            Mark::Added => "o added",
            Mark::Changed => "o changed",
            Mark::Removed => "o removed",
        }
    }
}

/// How large the points of a map are drawn: smaller where there are many.
pub(crate) fn dot_size(map: &PlainMap) -> i64 {
    match map.counts().points {
        0..=200 => 50,
        201..=3_000 => 20,
        _ => 14,
    }
}

// The ends of all strings, in order of their numbers.
fn ends_of(alloc: Global, map: &PlainMap) -> Result<Vec<PointNo>, Memory> {
    let mut ends = Vec::new(alloc);
    for place in 0..map.counts().strings {
        if let Some(row) = map.string_at(place) {
            ends.push(row.from)?;
            ends.push(row.to)?;
        }
    }
    ends.sort_unstable();
    Ok(ends)
}

/// The points of a map, and behind them those that an older map has, if there is one, and this one hasn't. `Err` where memory
/// runs out.
pub(crate) fn dots_of(
    alloc: Global,
    page: &Page,
    map: &PlainMap,
    since: Option<&PlainMap>,
) -> Result<Vec<Dot>, Memory> {
    let ends = ends_of(alloc, map)?;
    let mut dots = Vec::new(alloc);
    for place in 0..map.counts().points {
        if let Some(row) = map.point_at(place) {
            dots.push(Dot {
                number: row.number,
                spot: page.spot(row.position),
                mark: point_mark(since, map, row.number),
                free: ends.as_slice().binary_search(&row.number).is_err(),
            })?;
        }
    }
    if let Some(old) = since {
        push_gone_dots(&mut dots, page, old, map)?;
    }
    Ok(dots)
}

// Puts the points last that an older map has and this one hasn't.
fn push_gone_dots(
    dots: &mut Vec<Dot>,
    page: &Page,
    old: &PlainMap,
    map: &PlainMap,
) -> Result<(), Memory> {
    for place in 0..old.counts().points {
        if let Some(row) = old.point_at(place) {
            if map.point(row.number).is_none() {
                dots.push(Dot {
                    number: row.number,
                    spot: page.spot(row.position),
                    mark: Mark::Removed,
                    free: false,
                })?;
            }
        }
    }
    Ok(())
}

/// How many of these points are free.
pub(crate) fn free_count(dots: &[Dot]) -> usize {
    let mut count: usize = 0;
    for dot in dots {
        if dot.free {
            count = count.saturating_add(1);
        }
    }
    count
}

// Draws the plain points, as one path of a stroke so wide.
fn push_plain_dots(text: &mut Vec<u8>, dots: &[Dot], width: i64) -> Result<(), Memory> {
    push(text, "<path class=\"d\" stroke-width=\"")?;
    push_number(text, width)?;
    push(text, "\" d=\"")?;
    for dot in dots {
        if dot.is_plain() {
            push(text, "M")?;
            push_spot(text, &dot.spot)?;
            push(text, "h0")?;
        }
    }
    push(text, "\"/>\n")
}

/// Draws points: plain ones with this radius, free and marked ones twice as large. `Err` where memory runs out.
pub(crate) fn push_dots(text: &mut Vec<u8>, dots: &[Dot], radius: i64) -> Result<(), Memory> {
    let twice = radius.saturating_mul(2);
    push_plain_dots(text, dots, twice)?;
    for dot in dots {
        if !dot.is_plain() {
            push_circle(text, dot.class(), &dot.spot, twice)?;
        }
    }
    Ok(())
}

// An upright line through a point of this radius, so far to the right of its middle.
fn upright(dot: &Dot, radius: i64, right: i64) -> Edge {
    let x = dot.spot.x.saturating_add(right);
    Edge {
        from: Spot::at(x, dot.spot.y.saturating_sub(radius)),
        to: Spot::at(x, dot.spot.y.saturating_add(radius)),
    }
}

/// Puts lines last that stand for the points to which no line leads, so that words stay clear of them. `Err` where memory
/// runs out.
pub(crate) fn push_bars(edges: &mut Vec<Edge>, dots: &[Dot], radius: i64) -> Result<(), Memory> {
    let twice = radius.saturating_mul(2);
    for dot in dots {
        if dot.is_alone() {
            edges.push(upright(dot, twice, twice.saturating_neg()))?;
            edges.push(upright(dot, twice, 0))?;
            edges.push(upright(dot, twice, twice))?;
        }
    }
    Ok(())
}
