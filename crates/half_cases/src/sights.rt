//! What is seen of a store: its plan, its rings by their halves, and what its grid holds.
ghost use Rattle.cad_map.specs.Valid.{IsValid};

use crate::half_maps::half;
use cad_edit::PlainStore;
use cad_files::plan_text;
use cad_map::{MapStore, MapView};
use cad_rows::{Face, Memory};
use cad_surgery::HalfMap;
use cell_grid::CellGrid;
use geo_exact::{COORDINATE_LIMIT, Pt};
use half_table::{Half, HalfTable, Ticks};
use std::process::Abort;

/// A string or a point that a grid holds: its number, and the coordinates between which it lies, in millimetres.
type Held = (u32, i64, i64, i64, i64);

/// What is seen of a store: its plan text; of one on half-edges also what follows each half and the face that has it, and
/// the strings and the points that its grid holds, in order of their numbers.
#[derive(Drop)]
pub(crate) struct Sight {
    text: Vec<u8>,
    next: Vec<Half>,
    faces: Vec<Face>,
    strings: Vec<Held>,
    points: Vec<Held>,
}

/// A store that can be seen.
pub(crate) trait Seen: MapStore {
    /// What is seen of it.
    fn sight<R: Abort + AllocGlobal>(&self, rt: &R) -> Result<Sight, Memory>
        requires { IsValid (Self.map self.now) };
}

impl Seen for PlainStore {
    fn sight<R: Abort + AllocGlobal>(&self, rt: &R) -> Result<Sight, Memory> {
        let text = plan_text(rt.alloc(), self)?;
        Ok(Sight {
            text,
            next: Vec::new(rt.alloc()),
            faces: Vec::new(rt.alloc()),
            strings: Vec::new(rt.alloc()),
            points: Vec::new(rt.alloc()),
        })
    }
}

impl Seen for HalfMap<Ticks> {
    fn sight<R: Abort + AllocGlobal>(&self, rt: &R) -> Result<Sight, Memory> {
        let text = plan_text(rt.alloc(), self)?;
        let next = all_next(rt, self)?;
        let faces = all_faces(rt, self)?;
        let strings = held_strings(rt, self.grid())?;
        let points = held_points(rt, self.grid())?;
        Ok(Sight {
            text,
            next,
            faces,
            strings,
            points,
        })
    }
}

/// What follows a half.
fn next_of(rt: &impl Abort, table: &HalfTable<Ticks>, string: u32, forward: bool) -> Half {
    let half = half(rt, table, string, forward);
    table.next(half)
}

/// The face of a half.
fn face_of(rt: &impl Abort, table: &HalfTable<Ticks>, string: u32, forward: bool) -> Face {
    let half = half(rt, table, string, forward);
    table.face(half)
}

/// What follows each half.
fn all_next<R: Abort + AllocGlobal>(rt: &R, store: &HalfMap<Ticks>) -> Result<Vec<Half>, Memory> {
    let mut halves = Vec::new(rt.alloc());
    for place in 0..store.counts().strings {
        let string = store.string_at(place).unwrap().number.get();
        halves.push(next_of(rt, store.table(), string, true))?;
        halves.push(next_of(rt, store.table(), string, false))?;
    }
    Ok(halves)
}

/// The face of each half.
fn all_faces<R: Abort + AllocGlobal>(rt: &R, store: &HalfMap<Ticks>) -> Result<Vec<Face>, Memory> {
    let mut faces = Vec::new(rt.alloc());
    for place in 0..store.counts().strings {
        let string = store.string_at(place).unwrap().number.get();
        faces.push(face_of(rt, store.table(), string, true))?;
        faces.push(face_of(rt, store.table(), string, false))?;
    }
    Ok(faces)
}

/// The corner of the world in the southwest, or the one in the northeast.
fn corner(rt: &impl Abort, northeast: bool) -> Pt {
    let coordinate = if northeast {
        COORDINATE_LIMIT
    } else {
        -COORDINATE_LIMIT
    };
    Pt::new(coordinate, coordinate).expect(rt, "a position")
}

/// All strings that a grid holds, in order of their numbers.
fn held_strings<R: Abort + AllocGlobal>(rt: &R, grid: &CellGrid) -> Result<Vec<Held>, Memory> {
    let mut all = Vec::new(rt.alloc());
    for held in grid.candidates(corner(rt, false), corner(rt, true)) {
        let (from, to) = (held.from, held.to);
        all.push((held.string.get(), from.x, from.y, to.x, to.y))?;
    }
    all.sort_unstable();
    Ok(all)
}

/// All points that a grid holds, in order of their numbers.
fn held_points<R: Abort + AllocGlobal>(rt: &R, grid: &CellGrid) -> Result<Vec<Held>, Memory> {
    let mut all = Vec::new(rt.alloc());
    for held in grid.point_candidates(corner(rt, false), corner(rt, true)) {
        let at = held.position;
        all.push((held.point.get(), at.x, at.y, at.x, at.y))?;
    }
    all.sort_unstable();
    Ok(all)
}

/// Fails where something else is seen of a store than before.
pub(crate) fn check_same(rt: &impl Abort, now: &Sight, before: &Sight) {
    assert!(rt; now.text.as_slice() == before.text.as_slice());
    assert!(rt; now.next.as_slice() == before.next.as_slice());
    assert!(rt; now.faces.as_slice() == before.faces.as_slice());
    assert!(rt; now.strings.as_slice() == before.strings.as_slice());
    assert!(rt; now.points.as_slice() == before.points.as_slice());
}

/// Fails where a map has another plan text.
pub(crate) fn check_text<R: Abort + AllocGlobal, M: MapView>(
    rt: &R,
    map: &M,
    wanted: &str,
) -> Result<(), Memory>
    requires { IsValid (M.map map.now) }
{
    let text = plan_text(rt.alloc(), map)?;
    assert!(rt; text.as_slice() == wanted.as_bytes());
    Ok(())
}
