//! A map file is opened.
ghost use Rattle.std.specs.Prelude.{◌≡◌, List, length, IfOk, OnOk};
ghost use Rattle.sqlite_trees.specs.Tree.{Trees};
ghost use Rattle.sqlite_trees.specs.View.{IsClean, IsQuiet};
ghost use Rattle.cad_history.specs.History.{History, beginning};
ghost use Rattle.cad_history.specs.Standing.{StandsFor, StandsForSome};
ghost use Rattle.cad_map.specs.Map.{Map};
ghost use Rattle.cad_files.specs.Building.{IsBuilt};
ghost use Rattle.map_parts.specs.Parts.{map_of};
ghost use Rattle.edit_records.specs.Record.{Belongs};
ghost use Rattle.map_journal.specs.Journal.{Line, IsAtRest};
ghost use Rattle.stored_rows.specs.Tables.{OnlyReads};
ghost use Rattle.map_tables.specs.Tables.{HasRows};
ghost use Rattle.map_job.specs.Files.{HasDepth, HoldsMap};

use crate::settings::read_depth;
use cad_files::{PlanFault, PlanRows};
use cad_history::{Depth, Editor};
use cad_session::store_of;
use cad_surgery::HalfMap;
use half_table::Ticks;
use map_journal::open_journal;
use map_session::{ReplayFault, replay};
use map_tables::read_plan_rows;
use number_hash::NumberHash;
use sqlite_trees::error::StoreError;
use sqlite_trees::store::Store;
use std::alloc::Global;
use stored_rows::TableError;

/// Why a map file isn't opened.
#[derive(Clone, Copy, Debug, PartialEq, Eq)]
pub enum OpenFault {
    /// The store failed, memory ran out, or a table holds what none of a map file does.
    Table(TableError),
    /// The tables hold a plan that has this fault.
    Plan(PlanFault),
    /// A line of the journal isn't carried out.
    Journal(ReplayFault),
}

/// A map file that is open: an editor of its map, and how many lines its journal has.
#[derive(Drop)]
pub struct OpenMap {
    pub editor: Editor<HalfMap<Ticks>>,
    pub lines: u64,
}

/// An editor of the map of a plan's rows.
fn editor_of(
    alloc: Global,
    hash: NumberHash,
    rows: PlanRows,
    depth: Depth,
) -> Result<Editor<HalfMap<Ticks>>, OpenFault>
    ensures { IfOk result (λ editor. (m : Map) × IsBuilt rows m
        × StandsFor map_of Belongs editor (beginning m depth)) }
{
    let store = match store_of(alloc, hash, rows) {
        Ok(store) => store,
        Err(fault) => return Err(OpenFault::Plan(fault)),
    };
    match Editor::open(alloc, store, depth) {
        Ok(editor) => Ok(editor),
        Err(_) => Err(OpenFault::Table(TableError::Store(StoreError::OutOfMemory))),
    }
}

/// Opens a map file: reads its tables, makes the map, and carries the lines of its journal out. What the transaction has
/// written is dropped. The map's tables find numbers by the given hash.
pub fn open_map<S: Store>(
    store: &mut S,
    alloc: Global,
    hash: NumberHash,
) -> Result<OpenMap, OpenFault>
    // The editor stands for the history that the file holds, and the file is at rest.
    ensures holds { IfOk result (λ found. IsClean (S.view store.new) → (lines : List Line)
        × (h : History) × IsAtRest (S.view store.new) lines × (length lines ≡ found.lines)
        × HoldsMap (S.view store.new).committed lines h × StandsFor map_of Belongs found.editor h) }
    ensures stands { IfOk result (λ found. StandsForSome map_of Belongs found.editor) }
    ensures crash { (db : Trees) → S.recovers store.new db → S.recovers store.old db }
{
    let lines = match open_journal(store, alloc) {
        Ok(lines) => lines,
        Err(fault) => return Err(OpenFault::Table(fault)),
    };
    let (depth, rows) = match read_tables(store, alloc) {
        Ok(tables) => tables,
        Err(fault) => return Err(OpenFault::Table(fault)),
    };
    let mut editor = editor_of(alloc, hash, rows, depth)?;
    match replay(alloc, &mut editor, lines.as_slice()) {
        Ok(()) => Ok(OpenMap {
            editor,
            lines: lines.len() as u64,
        }),
        Err(fault) => Err(OpenFault::Journal(fault)),
    }
}

/// The depth and the rows that the tables hold.
fn read_tables<S: Store>(store: &mut S, alloc: Global) -> Result<(Depth, PlanRows), TableError>
    ensures read { IfOk result (λ both. IsClean (S.view store.new)
        → HasDepth (S.view store.old).trees both.0 × HasRows (S.view store.old).trees both.1) }
    ensures same { OnOk result (IsClean (S.view store.new)
        → OnlyReads (S.view store.old) (S.view store.new)) }
    ensures quiet { IsQuiet S.view S.faults S.recovers S.is_shielded store.old store.new }
{
    let depth = read_depth(store, alloc)?;
    let rows = read_plan_rows(store, alloc)?;
    Ok((depth, rows))
}
