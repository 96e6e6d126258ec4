//! Lines on the page.

use crate::page::{Page, Spot, times_over};
use crate::pen::{push, push_spot};
use cad_map::{Boundary, PlainMap, position};
use cad_rows::{Face, Memory, ParcelNo, PointNo};
use std::alloc::Global;

/// A line from one place on the page to another.
#[derive(Clone, Copy)]
pub(crate) struct Edge {
    pub(crate) from: Spot,
    pub(crate) to: Spot,
}

/// A part of the page.
#[derive(Clone, Copy)]
pub(crate) struct Area {
    pub(crate) left: i64,
    pub(crate) top: i64,
    pub(crate) right: i64,
    pub(crate) bottom: i64,
}

/// The middle between two places.
pub(crate) fn middle_of(left: i64, right: i64) -> i64 {
    (left / 2).saturating_add(right / 2)
}

impl Edge {
    /// The line between two points of a map.
    pub(crate) fn between(page: &Page, map: &PlainMap, from: PointNo, to: PointNo) -> Edge {
        Edge {
            from: page.spot(position(map, from)),
            to: page.spot(position(map, to)),
        }
    }

    /// Its middle.
    pub(crate) fn middle(&self) -> Spot {
        Spot::at(
            middle_of(self.from.x, self.to.x),
            middle_of(self.from.y, self.to.y),
        )
    }

    /// How long it is.
    pub(crate) fn length(&self) -> i64 {
        let across = self.from.x.abs_diff(self.to.x);
        let down = self.from.y.abs_diff(self.to.y);
        let squared = across
            .saturating_mul(across)
            .saturating_add(down.saturating_mul(down));
        i64::try_from(squared.isqrt()).unwrap_or(i64::MAX)
    }

    /// How high it reaches.
    pub(crate) fn top(&self) -> i64 {
        self.from.y.min(self.to.y)
    }

    /// How far down it reaches.
    pub(crate) fn bottom(&self) -> i64 {
        self.from.y.max(self.to.y)
    }
}

impl Area {
    /// Whether something of this width and height fits into it.
    pub(crate) fn has_room(&self, width: i64, height: i64) -> bool {
        self.right.saturating_sub(self.left) >= width
            && self.bottom.saturating_sub(self.top) >= height
    }

    // Whether a line comes near it.
    fn is_near(&self, edge: &Edge) -> bool {
        edge.top() <= self.bottom
            && edge.bottom() >= self.top
            && edge.from.x.min(edge.to.x) <= self.right
            && edge.from.x.max(edge.to.x) >= self.left
    }
}

/// Where the line through two places is at a height: at the first, where it is at that height.
pub(crate) fn at_height(from: &Spot, to: &Spot, y: i64) -> i64 {
    if y == from.y {
        return from.x;
    }
    let wide = to.x.saturating_sub(from.x);
    let high = to.y.saturating_sub(from.y);
    from.x
        .saturating_add(times_over(y.saturating_sub(from.y), wide, high))
}

// Appends the sides of a ring.
fn push_sides(
    edges: &mut Vec<Edge>,
    page: &Page,
    map: &PlainMap,
    boundary: &Boundary,
) -> Result<(), Memory> {
    for (from, to) in boundary.ring.sides() {
        edges.push(Edge::between(page, map, from, to))?;
    }
    Ok(())
}

/// The sides of a parcel. `Err` where memory runs out.
pub(crate) fn sides_of_parcel(
    alloc: Global,
    page: &Page,
    map: &PlainMap,
    parcel: ParcelNo,
) -> Result<Vec<Edge>, Memory> {
    let mut edges = Vec::new(alloc);
    for boundary in map.run_of(Face::Parcel(parcel)) {
        push_sides(&mut edges, page, map, boundary)?;
    }
    Ok(edges)
}

/// The part of the page that closed lines take.
pub(crate) fn area_round(sides: &[Edge]) -> Area {
    let mut area = Area {
        left: i64::MAX,
        top: i64::MAX,
        right: 0,
        bottom: 0,
    };
    for side in sides {
        area.left = area.left.min(side.from.x);
        area.top = area.top.min(side.from.y);
        area.right = area.right.max(side.from.x);
        area.bottom = area.bottom.max(side.from.y);
    }
    area
}

/// Those of these lines that come near a part of the page. `Err` where memory runs out.
pub(crate) fn near(alloc: Global, edges: &[Edge], area: &Area) -> Result<Vec<Edge>, Memory> {
    let mut found = Vec::new(alloc);
    for edge in edges {
        if area.is_near(edge) {
            found.push(*edge)?;
        }
    }
    Ok(found)
}

/// Draws lines as one path, if there are any. `Err` where memory runs out.
pub(crate) fn push_lines(text: &mut Vec<u8>, class: &str, edges: &[Edge]) -> Result<(), Memory> {
    if edges.is_empty() {
        return Ok(());
    }
    push(text, "<path class=\"")?;
    push(text, class)?;
    push(text, "\" d=\"")?;
    for edge in edges {
        push(text, "M")?;
        push_spot(text, &edge.from)?;
        push(text, "L")?;
        push_spot(text, &edge.to)?;
    }
    push(text, "\"/>\n")
}
