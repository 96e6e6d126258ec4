//! The store that a session begins with.
ghost use Rattle.std.specs.Prelude.{◌≢◌, IfOk, IfErr};
ghost use Rattle.cad_files.specs.Building.{IsBuilt, IsBuildFault};
ghost use Rattle.cad_files.specs.declared.faults.PlanFault.TheVariants as faults;
ghost use Rattle.map_parts.specs.Parts.{map_of};

use cad_files::{PlanFault, PlanRows, build_of};
use cad_surgery::HalfMap;
use half_table::Ticks;
use number_hash::NumberHash;
use std::alloc::Global;

/// The map of a plan's rows on half-edges, on which a script is done. A fault is that of [`build_of`].
pub fn store_of(
    alloc: Global,
    hash: NumberHash,
    rows: PlanRows,
) -> Result<HalfMap<Ticks>, PlanFault>
    ensures ok { IfOk result (λ store. IsBuilt rows (map_of store)) }
    ensures err { IfErr result (λ fault. fault ≢ faults.Memory → IsBuildFault rows fault) }
{
    let map = build_of(alloc, hash, rows)?;
    match HalfMap::from_map(alloc, map, Ticks::new()) {
        Ok(store) => Ok(store),
        Err(_) => Err(PlanFault::Memory),
    }
}
