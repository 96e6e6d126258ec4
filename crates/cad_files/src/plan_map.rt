//! Building the map of a plan.
ghost use Rattle.std.specs.Prelude.{◌≢◌, IfOk, IfErr};
ghost use Rattle.cad_files.specs.Rows.{AreInRange, Rows};
ghost use Rattle.cad_files.specs.Begun.{IsBegun};
ghost use Rattle.cad_files.specs.Building.{IsBuilt, IsBuildFault};
ghost use Rattle.cad_files.specs.declared.faults.PlanFault.TheVariants as faults;

use crate::building::{find_sides, put_rows};
use crate::cycles::rings_of;
use crate::faults::PlanFault;
use crate::rows::PlanRows;
use crate::sides::PlanSide;
use cad_map::{Counts, PlainMap, Stars};
use cad_valid::first_broken_swept;
use number_hash::NumberHash;
use std::alloc::Global;

/// A map with a plan's rows and no rings yet, and the sides of its strings, each with the one that follows it.
#[derive(Drop)]
pub(crate) struct Begun {
    pub(crate) plain: PlainMap,
    pub(crate) sides: Vec<PlanSide>,
    /// The strings at each point, by which the sides were found. They are kept until the plan's rows have ended: those
    /// are larger pieces of memory, and what an allocator gets back after a larger piece it mostly keeps at hand.
    pub(crate) stars: Stars,
}

/// Builds the map of a plan's rows: the rows in their order, and the rings that its strings make, found by followers as
/// in de Berg et al., Computational Geometry, chapter 2.
///
/// A fault is the first in the rows, or the first rule that their map breaks. Up to that rule it takes n log n steps for n
/// strings; but where two of the d strings of a point lead into one direction, d squared there. The map's tables find
/// numbers by the given hash.
pub fn build(alloc: Global, hash: NumberHash, rows: &PlanRows) -> Result<PlainMap, PlanFault>
    ensures ok { IfOk result (IsBuilt rows.now) }
    ensures err { IfErr result (λ fault. fault ≢ faults.Memory → IsBuildFault rows.now fault) }
{
    match begin(alloc, hash, rows) {
        Ok(begun) => finish(alloc, begun),
        Err(fault) => Err(fault),
    }
}

/// As [`build`], of rows that end: they are given back before the rules are looked at, which takes the most memory.
pub fn build_of(alloc: Global, hash: NumberHash, rows: PlanRows) -> Result<PlainMap, PlanFault>
    ensures ok { IfOk result (IsBuilt rows) }
    ensures err { IfErr result (λ fault. fault ≢ faults.Memory → IsBuildFault rows fault) }
{
    let begun = begin(alloc, hash, &rows);
    drop(rows);
    match begun {
        Ok(begun) => finish(alloc, begun),
        Err(fault) => Err(fault),
    }
}

// Puts the rows of a plan into a map, and finds what follows each side. A fault is the first in the rows.
fn begin(alloc: Global, hash: NumberHash, rows: &PlanRows) -> Result<Begun, PlanFault>
    ensures ok { IfOk result (IsBegun rows.now) }
    ensures err { IfErr result (λ fault. fault ≢ faults.Memory → IsBuildFault rows.now fault) }
{
    are_in_range(rows);
    let mut plain = PlainMap::with_room(alloc, hash, &room_for(rows))?;
    match put_rows(&mut plain, rows) {
        Ok(()) => {}
        Err(fault) => return Err(fault),
    }
    let stars = Stars::of(alloc, plain.hash(), &plain)?;
    let sides = match find_sides(alloc, &plain, &stars, rows) {
        Ok(sides) => sides,
        Err(fault) => return Err(fault),
    };
    Ok(Begun {
        plain,
        sides,
        stars,
    })
}

// Puts the rings into a map that was begun. A fault is the first rule that it breaks.
fn finish(alloc: Global, begun: Begun) -> Result<PlainMap, PlanFault>
    requires { (rows : Rows) × IsBegun rows begun }
    ensures ok { IfOk result (λ map. (rows : Rows) → IsBegun rows begun → IsBuilt rows map) }
    ensures err { IfErr result (λ fault. fault ≢ faults.Memory
        → (rows : Rows) → IsBegun rows begun → IsBuildFault rows fault) }
{
    let Begun {
        mut plain,
        sides,
        stars,
    } = begun;
    drop(stars);
    let rings = rings_of(alloc, sides)?;
    plain.set_boundaries(rings);
    if let Some(rule) = first_broken_swept(alloc, &plain)? {
        return Err(PlanFault::Breaks(rule));
    }
    Ok(plain)
}

// So many, and an eighth more: the first edits then move no table to put a row into it.
fn and_more(rows: usize) -> usize {
    rows.saturating_add(rows / 8)
}

// For how many rows of each kind there is to be room.
fn room_for(rows: &PlanRows) -> Counts {
    Counts {
        sources: and_more(rows.sources.len()),
        points: and_more(rows.points.len()),
        parcels: and_more(rows.parcels.len()),
        strings: and_more(rows.strings.len()),
        retired: and_more(rows.retired.len()),
    }
}

// The rows are in range, by their type.
fn are_in_range(rows: &PlanRows)
    ensures { AreInRange rows.now }
{
    let _ = rows.sources.len();
}
