//! A plan's rows, and their map.
ghost use Rattle.std.specs.Prelude.{◌≡◌, ◌≢◌, ◌+◌, [], ℕ, List, IfOk, IfErr};
ghost use Rattle.cad_files.specs.Input.{HasRead, HasStopped};
ghost use Rattle.cad_files.specs.Rows.{plan_limit};
ghost use Rattle.cad_files.specs.Plan.{opened, plan_of, IsPlanFault, IsOfReading};
ghost use Rattle.cad_files.specs.Building.{IsBuilt, IsBuildFault};
ghost use Rattle.cad_files.specs.declared.faults.PlanFault.TheVariants as faults;

use cad_files::{PlanFault, PlanRows, build, read_plan};
use cad_map::PlainMap;
use csv::Reader;
use number_hash::NumberHash;
use std::alloc::Global;
use std::io::Read;

/// The rows of a plan, up to its `open` record and no record further, also where others are at hand.
pub fn rows_of_a_plan<R: Read>(
    alloc: Global,
    reader: &mut Reader<R>,
    _aside: PlanRows,
) -> Result<PlanRows, PlanFault>
    ensures ok { IfOk result (λ plan. (text : List ℕ) → HasRead R.remaining text [] reader.old
        → (rows : List (List (List ℕ))) × HasRead R.remaining text rows reader.new
        × (plan_of rows ≡ opened plan)) }
    ensures err { IfErr result (λ fault. (text : List ℕ) → HasRead R.remaining text [] reader.old
        → IsPlanFault text fault) }
    ensures few { IfErr result (λ fault. IsOfReading fault → (text : List ℕ)
        → HasRead R.remaining text [] reader.old
        → HasStopped R.remaining text (plan_limit + 2) reader.new) }
{
    read_plan(alloc, reader)
}

/// The map of a plan's rows, with the rings that its strings make; else the first fault in them, also where another map
/// is at hand.
pub fn map_of_the_rows(
    alloc: Global,
    hash: NumberHash,
    rows: &PlanRows,
    _aside: PlainMap,
) -> Result<PlainMap, PlanFault>
    ensures ok { IfOk result (IsBuilt rows.now) }
    ensures err { IfErr result (λ fault. fault ≢ faults.Memory → IsBuildFault rows.now fault) }
{
    build(alloc, hash, rows)
}
