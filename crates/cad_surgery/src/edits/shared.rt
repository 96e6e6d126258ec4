//! What two parcels share, a chain or a ring round an island, by the halves along it.
ghost use Rattle.std.specs.Prelude.{◌≡◌, true, not, filter, map as map_by, IfOk};
ghost use Rattle.cad_map.specs.SharedChains.{IsSharedChain};
ghost use Rattle.cad_map.specs.declared.shared_chain.SharedChain.TheVariants.{Along, Around};
ghost use Rattle.cad_rows.specs.declared.edits.Edit.TheVariants.{Merge};
ghost use Rattle.cad_rows.specs.declared.names.Face.TheVariants.{Parcel};
ghost use Rattle.half_table.specs.Cycle.{holds};
ghost use Rattle.half_table.specs.Rows.{has, cycle, origin_of};
ghost use Rattle.half_paths.specs.Path.{AreIn, strings_of};
ghost use Rattle.cad_laws.specs.Tried.{IsTried};
ghost use Rattle.cad_surgery.specs.Merging.{HasFound};
ghost use Rattle.map_parts.specs.Parts.{map_of};

use crate::draft::Draft;
use crate::edits::crossing::half_along;
use crate::edits::merging::Way;
use cad_map::{SharedChain, face_place};
use cad_rows::{Face, Memory, Numbers, ParcelNo, PointNo, StringNo};
use half_table::{Half, HalfTable, Tally};
use std::alloc::Global;

/// What a merger goes by: where the strings that the two parcels share lead, the halves along them
/// as the ended parcel has them, those strings and their points, and one half of each other ring of
/// the ended parcel.
#[derive(Drop)]
pub(crate) struct Shared {
    pub(crate) way: Way,
    pub(crate) path: Vec<Half>,
    pub(crate) strings: Vec<StringNo>,
    pub(crate) points: Numbers<PointNo>,
    pub(crate) moved: Vec<Half>,
}

// The halves of the cycle of a half, from it on.
fn halves_round<T: Tally>(
    alloc: Global,
    table: &HalfTable<T>,
    half: &Half,
) -> Result<Vec<Half>, Memory>
    requires { has table.now.rows half.now ≡ true }
    ensures { IfOk result (λ path. path.items ≡ cycle table.now.rows half.now) }
{
    let mut path = Vec::new(alloc);
    for along in table.walk(*half) {
        path.push(along)?;
    }
    Ok(path)
}

// Whether a half is one of these.
fn is_among(halves: &[Half], half: &Half) -> bool
    ensures { result ≡ holds halves.now half.now }
{
    halves.iter().any(|other| half.string == other.string && half.forward == other.forward)
}

// Those of some halves that are not among others.
fn halves_beside(alloc: Global, halves: &[Half], path: &[Half]) -> Result<Vec<Half>, Memory>
    ensures { IfOk result (λ left. left.items ≡ filter (λ h. not (holds path.now h)) halves.now) }
{
    let mut left = Vec::new(alloc);
    for place in 0..halves.len() {
        if !is_among(path, &halves[place]) {
            left.push(halves[place])?;
        }
    }
    Ok(left)
}

// The points at which halves begin.
fn points_round<T: Tally>(
    alloc: Global,
    table: &HalfTable<T>,
    path: &[Half],
) -> Result<Numbers<PointNo>, Memory>
    requires { AreIn table.now.rows path.now }
    ensures { IfOk result (λ points. points ≡ map_by (origin_of table.now.rows) path.now) }
{
    let mut points = Numbers::new(alloc);
    for place in 0..path.len() {
        points.push(table.origin(path[place]))?;
    }
    Ok(points)
}

/// The numbers of the strings of halves.
pub(crate) fn numbers_of(alloc: Global, path: &[Half]) -> Result<Vec<StringNo>, Memory>
    ensures { IfOk result (λ numbers. numbers.items ≡ strings_of path.now) }
{
    let mut numbers = Vec::new(alloc);
    for place in 0..path.len() {
        numbers.push(path[place].string)?;
    }
    Ok(numbers)
}

// The same halves in a list of their own.
fn copied(alloc: Global, halves: &[Half]) -> Result<Vec<Half>, Memory>
    ensures { IfOk result (λ copy. copy.items ≡ halves.now) }
{
    let mut copy = Vec::new(alloc);
    copy.extend_from_slice(halves)?;
    Ok(copy)
}

// The chain that two parcels share, by the first and the last of the kept parcel's sides along it
// and how many they are. It takes time by the sides of the ended parcel's ring, for each ring of
// that parcel.
fn shared_path<T: Tally>(
    draft: &Draft<T>,
    kept: &Face,
    ended: ParcelNo,
    first: (PointNo, PointNo),
    last: (PointNo, PointNo),
    sides: usize,
) -> Result<Shared, Memory>
    requires tried { IsTried (map_of draft.now) (Merge kept.now (Parcel ended)) }
    requires shared { IsSharedChain (map_of draft.now) kept.now (Parcel ended)
        (Along first last sides) }
    ensures path { IfOk result (λ p. HasFound p.way (map_of draft.now) draft.now.table.rows kept.now
        ended p.path.items p.points p.moved.items) }
    ensures strings { IfOk result (λ p. p.strings.items ≡ strings_of p.path.items) }
{
    let alloc = draft.rows.points.allocator();
    let begin = half_along(draft, last.1, last.0);
    let finish = half_along(draft, first.1, first.0);
    let ring = halves_round(alloc, &draft.table, &begin)?;
    let path = copied(alloc, &ring[..sides])?;
    let strings = numbers_of(alloc, path.as_slice())?;
    let points = points_round(alloc, &draft.table, &ring[..sides + 1])?;
    let own = draft.kept.at(face_place(Face::Parcel(ended)));
    let moved = halves_beside(alloc, own, ring.as_slice())?;
    let back = draft.table.twin(begin);
    let start = draft.table.next(back);
    let end = draft.table.next(finish);
    Ok(Shared {
        way: Way::Along { start, end },
        path,
        strings,
        points,
        moved,
    })
}

// The ring that two parcels share round an island, by one of the kept parcel's sides of it. It takes
// time by the ring's sides, for each ring of the ended parcel.
fn shared_ring<T: Tally>(
    draft: &Draft<T>,
    kept: &Face,
    ended: ParcelNo,
    side: (PointNo, PointNo),
) -> Result<Shared, Memory>
    requires tried { IsTried (map_of draft.now) (Merge kept.now (Parcel ended)) }
    requires shared { IsSharedChain (map_of draft.now) kept.now (Parcel ended) (Around side) }
    ensures ring { IfOk result (λ r. HasFound r.way (map_of draft.now) draft.now.table.rows kept.now
        ended r.path.items r.points r.moved.items) }
    ensures strings { IfOk result (λ r. r.strings.items ≡ strings_of r.path.items) }
{
    let alloc = draft.rows.points.allocator();
    let first = draft.half(side.1, side.0).unwrap();
    let path = halves_round(alloc, &draft.table, &first)?;
    let strings = numbers_of(alloc, path.as_slice())?;
    let points = points_round(alloc, &draft.table, path.as_slice())?;
    let own = draft.kept.at(face_place(Face::Parcel(ended)));
    let moved = halves_beside(alloc, own, path.as_slice())?;
    Ok(Shared {
        way: Way::Round,
        path,
        strings,
        points,
        moved,
    })
}

/// What two parcels share, by the chain or the ring that is found of it.
pub(crate) fn shared_by<T: Tally>(
    draft: &Draft<T>,
    kept: &Face,
    ended: ParcelNo,
    chain: SharedChain,
) -> Result<Shared, Memory>
    requires tried { IsTried (map_of draft.now) (Merge kept.now (Parcel ended)) }
    requires shared { IsSharedChain (map_of draft.now) kept.now (Parcel ended) chain }
    ensures found { IfOk result (λ s. HasFound s.way (map_of draft.now) draft.now.table.rows kept.now
        ended s.path.items s.points s.moved.items) }
    ensures strings { IfOk result (λ s. s.strings.items ≡ strings_of s.path.items) }
{
    match chain {
        SharedChain::Along { first, last, sides } => {
            shared_path(draft, kept, ended, first, last, sides)
        }
        SharedChain::Around { side } => shared_ring(draft, kept, ended, side),
    }
}
