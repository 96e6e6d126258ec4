//! A map file is made.
ghost use Rattle.std.specs.Prelude.{◌≡◌, ◌⊎◌, [], OnOk};
ghost use Rattle.sqlite_trees.specs.Tree.{Trees};
ghost use Rattle.sqlite_trees.specs.View.{IsClean, IsQuiet, KeepsSchema};
ghost use Rattle.cad_history.specs.History.{beginning};
ghost use Rattle.cad_map.specs.Map.{Map};
ghost use Rattle.cad_files.specs.Building.{IsBuilt};
ghost use Rattle.map_job.specs.Files.{HoldsMap, IsFresh, PutsMap};

use crate::settings::put_depth;
use cad_files::PlanRows;
use cad_history::Depth;
use map_tables::put_plan_rows;
use sqlite_trees::error::StoreError;
use sqlite_trees::store::Store;
use std::alloc::Global;

/// Puts a plan's rows and the settings into their tables, in the transaction that is open.
fn put_map<S: Store>(
    store: &mut S,
    alloc: Global,
    rows: &PlanRows,
    depth: Depth,
) -> Result<(), StoreError>
    requires fresh { IsClean (S.view store.old) → IsFresh (S.view store.old) }
    ensures put { OnOk result (IsClean (S.view store.new)
        → PutsMap (S.view store.old) rows.now depth (S.view store.new)) }
    ensures schema { KeepsSchema (S.view store.old) (S.view store.new) }
    ensures quiet { IsQuiet S.view S.faults S.recovers S.is_shielded store.old store.new }
{
    put_plan_rows(store, alloc, rows)?;
    put_depth(store, alloc, depth)
}

/// Makes a map file of a plan's rows, in which so many edits can be undone: in a store whose seven tables have no row, and by
/// one commit. A crash at any moment leaves the tables without a row, or the whole file.
pub fn make_map<S: Store>(
    store: &mut S,
    alloc: Global,
    rows: &PlanRows,
    depth: Depth,
) -> Result<(), StoreError>
    requires fresh { IsClean (S.view store.old) → IsFresh (S.view store.old) }
    ensures made { OnOk result (IsClean (S.view store.new) → (m : Map) → IsBuilt rows.now m
        → HoldsMap (S.view store.new).committed [] (beginning m depth)) }
    ensures crash { (db : Trees) → S.recovers store.new db → S.recovers store.old db
        ⊎ ((m : Map) → IsBuilt rows.now m → HoldsMap db [] (beginning m depth)) }
{
    put_map(store, alloc, rows, depth)?;
    store.commit()
}
