//! A plan, read to its map.
ghost use Rattle.std.specs.Prelude.{IfOk, IfErr, IfSome};
ghost use Rattle.csv.specs.Reading.{strip_bom};
ghost use Rattle.cad_files.specs.Building.{IsBuilt};
ghost use Rattle.cad_views.specs.Reading.{IsPlanOf, IsFaultOf};

use cad_files::{PlanFault, PlanRows, build, read_plan, records_of};
use cad_map::PlainMap;
use number_hash::NumberHash;
use std::alloc::Global;
use std::io::Read;

/// A plan: its rows, and the map of them.
pub struct Plan {
    pub rows: PlanRows,
    pub map: PlainMap,
}

// Written out, so that the end of one is a single call in a caller's proof.
impl Drop for Plan {
    fn drop(self) {
        let Plan {
            rows: _rows,
            map: _map,
        } = self;
    }
}

/// Reads a plan up to its `open` record, and builds its map, whose tables find numbers by the given hash.
pub fn read_map<R: Read + Drop>(
    alloc: Global,
    hash: NumberHash,
    reader: R,
) -> Result<Plan, PlanFault>
    ensures built { IfOk result (λ plan. IsBuilt plan.rows plan.map) }
    // What the text is, where the reader tells its bytes.
    ensures read { IfSome (R.remaining reader)
        (λ text. IfOk result (λ plan. IsPlanOf (strip_bom text) plan.rows)) }
    ensures fault { IfSome (R.remaining reader)
        (λ text. IfErr result (IsFaultOf (strip_bom text))) }
{
    let mut reader = records_of(alloc, reader);
    let rows = match read_plan(alloc, &mut reader) {
        Ok(rows) => rows,
        Err(fault) => return Err(fault),
    };
    let map = match build(alloc, hash, &rows) {
        Ok(map) => map,
        Err(fault) => return Err(fault),
    };
    Ok(Plan { rows, map })
}
