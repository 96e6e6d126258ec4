//! Well-known text of points, lines and polygons.
ghost use Rattle.std.specs.Prelude.{◌≡◌, ◌++◌, ◌∷◌, [], map as map_of, ◌≤◌, ◌*◌, length, filter, if◌then◌else◌, OnOk, IfOk};
ghost use Rattle.cad_map.specs.Outline.{is_outer};
ghost use Rattle.std.specs.List.{AllByRecursion, join_with_byte};
ghost use Rattle.cad_rows.specs.Limits.{string_limit};
ghost use Rattle.cad_views.specs.WellKnown.{coordinates, separator, coordinates_along, ring_text, outlines_first, point_geometry as point_geometry_of, line_geometry as line_geometry_of, polygon_geometry as polygon_geometry_of};

use crate::metres::metres_text;
use cad_map::{MapView, PlainMap, position, sum_round};
use cad_rings::Ring;
use cad_rows::{Memory, PointNo};
use geo_exact::{DoubledArea, Pt};
use std::alloc::Global;

/// Appends the coordinates of a position, in metres. `Err` where memory runs out.
#[tactic(auto, unfolding(crate::specs::WellKnown::coordinates))]
pub(crate) fn push_coordinates(
    alloc: Global,
    text: &mut Vec<u8>,
    position: Pt,
) -> Result<(), Memory>
    ensures { OnOk result (text.new.items ≡ text.old.items ++ coordinates position) }
{
    let x = metres_text(alloc, position.x)?;
    let y = metres_text(alloc, position.y)?;
    text.extend_from_slice(x.as_slice())?;
    text.push(b' ')?;
    text.extend_from_slice(y.as_slice())?;
    Ok(())
}

/// Appends what stands before the part at a place of several: nothing before the first, else a comma. `Err` where memory
/// runs out.
pub(crate) fn push_separator(text: &mut Vec<u8>, place: usize) -> Result<(), Memory>
    ensures { OnOk result (text.new.items ≡ text.old.items ++ separator place) }
{
    if place == 0 {
        return Ok(());
    }
    text.push(b',')?;
    Ok(())
}

// Appends the coordinates of points, with commas between them.
fn push_along<M: MapView>(
    alloc: Global,
    text: &mut Vec<u8>,
    map: &M,
    points: &[PointNo],
) -> Result<(), Memory>
    ensures { OnOk result (text.new.items
        ≡ text.old.items ++ coordinates_along (M.map map.now) points.now) }
{
    for place in 0..points.len() {
        push_separator(text, place)?;
        push_coordinates(alloc, text, position(map, points[place]))?;
    }
    Ok(())
}

// Appends a ring, closed by its first point.
#[tactic(auto, unfolding(crate::specs::WellKnown::ring_text))]
fn push_ring<M: MapView>(
    alloc: Global,
    text: &mut Vec<u8>,
    map: &M,
    ring: &Ring,
) -> Result<(), Memory>
    ensures { OnOk result (text.new.items
        ≡ text.old.items ++ ring_text (M.map map.now) ring.now) }
{
    let points = ring.points();
    let mut closed = Vec::with_capacity(alloc, ring.len().saturating_add(1))?;
    closed.extend_from_slice(points)?;
    closed.push(points[0])?;
    text.push(b'(')?;
    push_along(alloc, text, map, closed.as_slice())?;
    text.push(b')')?;
    Ok(())
}

// Whether a ring has positive doubled area, or hasn't, as asked.
fn is_wanted<M: MapView>(map: &M, ring: &Ring, outer: bool) -> bool
    requires { length ring.now ≤ 2 * string_limit }
    ensures { result ≡ is_outer (M.map map.now) outer ring.now }
{
    let positive = sum_round(map, ring, &DoubledArea) > 0;
    if outer { positive } else { !positive }
}

// Puts a copy of a ring last, where it is wanted.
fn push_wanted(listed: &mut Vec<Ring>, ring: &Ring, wanted: bool) -> Result<(), Memory>
    ensures { OnOk result (listed.new.items
        ≡ listed.old.items ++ (if wanted then ring.now ∷ [] else [])) }
{
    if !wanted {
        return Ok(());
    }
    listed.push(ring.copy()?)?;
    Ok(())
}

// Puts those of these rings last that have positive doubled area, or all others.
fn push_outlines<M: MapView>(
    listed: &mut Vec<Ring>,
    map: &M,
    rings: &[Ring],
    outer: bool,
) -> Result<(), Memory>
    requires { AllByRecursion (λ r. length r ≤ 2 * string_limit) rings.now }
    ensures { OnOk result (listed.new.items
        ≡ listed.old.items ++ filter (is_outer (M.map map.now) outer) rings.now) }
{
    for place in 0..rings.len() {
        let wanted = is_wanted(map, &rings[place], outer);
        push_wanted(listed, &rings[place], wanted)?;
    }
    Ok(())
}

// The rings of positive doubled area, and then the others.
fn with_outlines_first<M: MapView>(
    alloc: Global,
    map: &M,
    rings: &[Ring],
) -> Result<Vec<Ring>, Memory>
    requires { AllByRecursion (λ r. length r ≤ 2 * string_limit) rings.now }
    ensures { IfOk result (λ ordered. ordered.items ≡ outlines_first (M.map map.now) rings.now) }
{
    let mut ordered = Vec::new(alloc);
    push_outlines(&mut ordered, map, rings, true)?;
    push_outlines(&mut ordered, map, rings, false)?;
    Ok(ordered)
}

// Appends rings, with commas between them.
fn push_rings<M: MapView>(
    alloc: Global,
    text: &mut Vec<u8>,
    map: &M,
    rings: &[Ring],
) -> Result<(), Memory>
    ensures { OnOk result (text.new.items
        ≡ text.old.items ++ join_with_byte 44 (map_of (ring_text (M.map map.now)) rings.now)) }
{
    for place in 0..rings.len() {
        push_separator(text, place)?;
        push_ring(alloc, text, map, &rings[place])?;
    }
    Ok(())
}

/// A point as well-known text. `Err` where memory runs out.
#[tactic(auto, unfolding(crate::specs::WellKnown::point_geometry))]
pub fn point_geometry(alloc: Global, position: Pt) -> Result<Vec<u8>, Memory>
    ensures { IfOk result (λ text. text.items ≡ point_geometry_of position) }
{
    let mut text = Vec::new(alloc);
    text.extend_from_slice(b"POINT(")?;
    push_coordinates(alloc, &mut text, position)?;
    text.push(b')')?;
    Ok(text)
}

/// A line between two points as well-known text. `Err` where memory runs out.
#[tactic(auto, unfolding(crate::specs::WellKnown::line_geometry))]
pub fn line_geometry(
    alloc: Global,
    map: &PlainMap,
    from: PointNo,
    to: PointNo,
) -> Result<Vec<u8>, Memory>
    ensures { IfOk result (λ text. text.items ≡ line_geometry_of map.now from to) }
{
    let mut text = Vec::new(alloc);
    text.extend_from_slice(b"LINESTRING(")?;
    push_along(alloc, &mut text, map, [from, to].as_slice())?;
    text.push(b')')?;
    Ok(text)
}

/// Rings that pass no point twice, as one polygon of well-known text: the outline, and then the holes. `Err` where memory
/// runs out.
#[tactic(auto, unfolding(crate::specs::WellKnown::polygon_geometry))]
pub fn polygon_geometry<M: MapView>(
    alloc: Global,
    map: &M,
    rings: &[Ring],
) -> Result<Vec<u8>, Memory>
    requires { AllByRecursion (λ r. length r ≤ 2 * string_limit) rings.now }
    ensures { IfOk result (λ text. text.items ≡ polygon_geometry_of (M.map map.now) rings.now) }
{
    let ordered = with_outlines_first(alloc, map, rings)?;
    let mut text = Vec::new(alloc);
    text.extend_from_slice(b"POLYGON(")?;
    push_rings(alloc, &mut text, map, ordered.as_slice())?;
    text.push(b')')?;
    Ok(text)
}
