//! The page of a drawing: an A3 sheet across, in hundredths of a millimetre.
ghost use Rattle.std.specs.Prelude.{◌≤ℤ◌, pos};

use cad_map::{MapView, PlainMap};
use geo_exact::Pt;

/// The frame that a map is drawn in.
pub(crate) const LEFT: i64 = 1_000;

pub(crate) const TOP: i64 = 1_000;

pub(crate) const WIDTH: i64 = 32_500;

pub(crate) const HEIGHT: i64 = 27_700;

/// How much of the frame stays free round the map.
const MARGIN: i64 = 600;

/// A place on the page, from its upper left corner.
#[derive(Clone, Copy)]
pub(crate) struct Spot {
    pub(crate) x: i64,
    pub(crate) y: i64,
}

/// What part of the plane is drawn, in millimetres.
#[derive(Clone, Copy)]
pub(crate) struct Extent {
    west: i64,
    south: i64,
    east: i64,
    north: i64,
}

/// How a map lies on the page: one millimetre there is `scale` on the ground.
#[derive(Clone, Copy)]
pub(crate) struct Page {
    extent: Extent,
    pub(crate) scale: i64,
}

impl Spot {
    /// The place with these coordinates, to the right and down.
    pub(crate) fn at(x: i64, y: i64) -> Spot {
        Spot { x, y }
    }
}

/// A count as a number of the page.
pub(crate) fn whole(count: usize) -> i64 {
    i64::try_from(count).unwrap_or(i64::MAX)
}

/// The product of two numbers, divided by a third: the first where that is 0.
pub(crate) fn times_over(a: i64, b: i64, c: i64) -> i64 {
    a.saturating_mul(b).checked_div(c).unwrap_or(a)
}

impl Extent {
    /// Nothing yet.
    pub(crate) fn new() -> Extent {
        Extent {
            west: i64::MAX,
            south: i64::MAX,
            east: i64::MIN,
            north: i64::MIN,
        }
    }

    /// Takes a position in.
    fn take_in(&mut self, position: Pt) {
        self.west = self.west.min(position.x);
        self.south = self.south.min(position.y);
        self.east = self.east.max(position.x);
        self.north = self.north.max(position.y);
    }

    /// Takes a map's points in.
    pub(crate) fn take_in_points(&mut self, map: &PlainMap) {
        for place in 0..map.counts().points {
            if let Some(point) = map.point_at(place) {
                self.take_in(point.position);
            }
        }
    }

    fn width(&self) -> i64 {
        self.east.saturating_sub(self.west).max(1)
    }

    fn height(&self) -> i64 {
        self.north.saturating_sub(self.south).max(1)
    }
}

// The least of the usual scales between a power of ten and the next that isn't below this one.
fn scale_among(tens: i64, least: i64) -> Option<i64> {
    for step in [10, 20, 25, 50] {
        let scale = times_over(step, tens, 10);
        if scale >= least {
            return Some(scale);
        }
    }
    None
}

// The least of the usual scales that isn't below this one.
fn usual_scale(least: i64) -> i64 {
    let mut tens: i64 = 10;
    for _ in 0..12 {
        if let Some(scale) = scale_among(tens, least) {
            return scale;
        }
        tens = tens.saturating_mul(10);
    }
    tens
}

impl Page {
    /// The page on which such a part of the plane is as large as the frame allows.
    pub(crate) fn of(extent: Extent) -> Page {
        let across = times_over(extent.width(), 100, WIDTH - 2 * MARGIN).saturating_add(1);
        let down = times_over(extent.height(), 100, HEIGHT - 2 * MARGIN).saturating_add(1);
        Page {
            extent,
            scale: usual_scale(across.max(down)),
        }
    }

    /// A length on the page, of so many millimetres on the ground.
    fn length(&self, millimetres: i64) -> i64 {
        times_over(millimetres, 100, self.scale)
    }

    /// Where a position lies on the page: within the frame.
    pub(crate) fn spot(&self, position: Pt) -> Spot
        ensures left { pos 1000 ≤ℤ result.x }
        ensures right { result.x ≤ℤ pos 33500 }
        ensures top { pos 1000 ≤ℤ result.y }
        ensures bottom { result.y ≤ℤ pos 28700 }
    {
        let free_x = WIDTH.saturating_sub(self.length(self.extent.width())) / 2;
        let free_y = HEIGHT.saturating_sub(self.length(self.extent.height())) / 2;
        let east = self.length(position.x.saturating_sub(self.extent.west));
        let south = self.length(self.extent.north.saturating_sub(position.y));
        Spot {
            x: LEFT
                .saturating_add(free_x)
                .saturating_add(east)
                .clamp(LEFT, LEFT + WIDTH),
            y: TOP
                .saturating_add(free_y)
                .saturating_add(south)
                .clamp(TOP, TOP + HEIGHT),
        }
    }
}
