//! The strings at each point of a map.
ghost use Rattle.std.proofs.Common.{rules};
ghost use Rattle.std.specs.Prelude.{◌≡◌, ◌++◌, ◌∷◌, [], ℕ, IfOk, OnOk, if◌then◌else◌};
ghost use Rattle.cad_map.specs.Map.{origin};
ghost use Rattle.cad_map.specs.Stars.{spoke_of, spokes_at, spokes_of, star};
ghost use Rattle.cad_map.specs.Stars.{is_marked as is_marked_of, marked_star};
ghost use Rattle.key_lists.specs.Held.{items_at};

use crate::look::far_end;
use crate::rings::position;
use crate::store::MapView;
use cad_rows::{Memory, PointNo, StringRow};
use geo_exact::Pt;
use key_lists::{KeyLists, Short};
use number_hash::NumberHash;
use std::alloc::Global;
use std::marker::Model;

/// A string as one of its points sees it: the point that it leads to, and its place among the
/// strings.
#[derive(Clone, Copy)]
pub struct Spoke {
    /// The point that sees it.
    pub at: PointNo,
    /// The point that it leads to.
    pub far: PointNo,
    /// The position of that point, and the origin where the map has no such point.
    pub position: Pt,
    /// The place of the string in order of entry.
    pub place: usize,
}

/// One that nobody sees: it fills places that hold nothing.
impl Default for Spoke {
    ghost is_default = { λ s. s ≡ record { at = 1; far = 1; position = origin; place = 0 } };

    fn default() -> Self {
        Spoke {
            at: PointNo::default(),
            far: PointNo::default(),
            position: Pt { x: 0, y: 0 },
            place: 0,
        }
    }
}

impl Short for Spoke {
    ghost fits = { Prim.search rules };
}

/// The strings of each point of a map, found by the point. A string from a point to itself stands
/// there once.
pub struct Stars {
    spokes: KeyLists<Spoke>,
}

// Written out, so that the end of one is a single call in a caller's proof.
impl Drop for Stars {
    fn drop(self) {
        let Stars { spokes: _spokes } = self;
    }
}

impl Model for Stars {
    ghost use Rattle.cad_map.specs.declared.stars.Spoke.{Spoke as SpokeOf};
    ghost use Rattle.key_lists.specs.Held.{Held};

    ghost Value = { Held SpokeOf };

    ghost view = { λ a. a.spokes };
}

// The string at a place, as a point at one of its ends sees it.
fn spoke_from<M: MapView>(map: &M, place: usize, string: &StringRow, at: PointNo) -> Spoke
    ensures { result ≡ spoke_of (M.map map.now) place string.now at }
{
    let far = far_end(string, at);
    Spoke {
        at,
        far,
        position: position(map, far),
        place,
    }
}

// Whether a point is marked: its number leaves the place of a mark by the count of marks. Where there are no marks
// every point is.
fn is_marked(marks: &[bool], point: PointNo) -> bool
    ensures { result ≡ is_marked_of marks.now point }
{
    marks.is_empty() || marks[point.get() as usize % marks.len()]
}

// Puts a spoke last among those of its point, if that is marked.
fn put_spoke(spokes: &mut KeyLists<Spoke>, marks: &[bool], spoke: Spoke) -> Result<(), Memory>
    ensures { OnOk result ((p : ℕ) → items_at spokes.new p
        ≡ items_at spokes.old p ++ marked_star marks.now p (spoke ∷ [])) }
{
    if is_marked(marks, spoke.at) {
        spokes.push(u64::from(spoke.at.get()), spoke)?;
    }
    Ok(())
}

// Puts the spokes of the string at a place last among those of its points that are marked.
fn put_spokes<M: MapView>(
    spokes: &mut KeyLists<Spoke>,
    map: &M,
    marks: &[bool],
    place: usize,
    string: &StringRow,
) -> Result<(), Memory>
    ensures { OnOk result ((p : ℕ) → items_at spokes.new p ≡ items_at spokes.old p
        ++ marked_star marks.now p (spokes_at (M.map map.now) place string.now)) }
{
    put_spoke(spokes, marks, spoke_from(map, place, string, string.from))?;
    if string.from != string.to {
        put_spoke(spokes, marks, spoke_from(map, place, string, string.to))?;
    }
    Ok(())
}

impl Stars {
    /// The strings of each point of this map, which are found by the given hash. It takes a few steps a
    /// string.
    pub fn of<M: MapView>(alloc: Global, hash: NumberHash, map: &M) -> Result<Stars, Memory>
        ensures { IfOk result
            (λ stars. (p : ℕ) → items_at stars p ≡ star p (spokes_of (M.map map.now))) }
    {
        let room = map.counts().points;
        Stars::with_room(alloc, hash, map, &[], room)
    }

    /// The strings of those points alone whose numbers leave the place of a mark, by the count of marks.
    pub fn of_marked<M: MapView>(
        alloc: Global,
        hash: NumberHash,
        map: &M,
        marks: &[bool],
    ) -> Result<Stars, Memory>
        ensures { IfOk result
            (λ stars. (p : ℕ) → items_at stars p ≡ marked_star marks.now p (spokes_of (M.map map.now))) }
    {
        Stars::with_room(alloc, hash, map, marks, 0)
    }

    // The strings of those points that are marked, in a table with room for so many points.
    fn with_room<M: MapView>(
        alloc: Global,
        hash: NumberHash,
        map: &M,
        marks: &[bool],
        room: usize,
    ) -> Result<Stars, Memory>
        ensures { IfOk result
            (λ stars. (p : ℕ) → items_at stars p ≡ marked_star marks.now p (spokes_of (M.map map.now))) }
    {
        let mut spokes = KeyLists::with_room(alloc, hash, room)?;
        for place in 0..map.counts().strings {
            let string = map.string_at(place).unwrap();
            put_spokes(&mut spokes, map, marks, place, string)?;
        }
        Ok(Stars { spokes })
    }

    /// The spokes of a point, in the order of the strings. By one look; takes no memory.
    pub fn ends(&self, point: PointNo) -> &[Spoke]
        ensures { result.now ≡ items_at self.now point }
    {
        self.spokes.at(u64::from(point.get()))
    }
}
