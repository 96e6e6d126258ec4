//! Records of a script are done on a map file that is open.
ghost use Rattle.std.specs.Prelude.{◌≡◌, ◌≤◌, ◌<◌, ◌+◌, ◌^◌, ◌⊎◌, ◌++◌, ◌∷◌, [], ℕ, List, length, map, IfOk, OnOk};
ghost use Rattle.sqlite_trees.specs.Tree.{Trees};
ghost use Rattle.sqlite_trees.specs.View.{IsClean};
ghost use Rattle.csv.specs.Records.{fields_of};
ghost use Rattle.cad_history.specs.History.{History};
ghost use Rattle.cad_history.specs.Standing.{StandsFor, StandsForSome};
ghost use Rattle.cad_files.specs.Texts.{Record};
ghost use Rattle.map_journal.specs.Journal.{Line, IsAtRest};
ghost use Rattle.map_job.specs.Files.{HoldsMap};
ghost use Rattle.map_job.specs.Batches.{IsBatch, IsServed};

use cad_history::Editor;
use cad_map::MapStore;
use cad_rows::Memory;
use csv::ByteRecord;
use map_journal::keep_batch;
use map_session::{line_of_row, take_row};
use sqlite_trees::error::StoreError;
use sqlite_trees::store::Store;
use sqlite_value::row::Row;
use sqlite_value::value::Bytes;
use std::alloc::Global;

/// Why a batch of records isn't served: the file is opened again, and holds all of the batch or nothing of it.
#[derive(Clone, Copy, Debug, PartialEq, Eq)]
pub enum ServeFault {
    /// The store failed.
    Store(StoreError),
    /// Memory ran out.
    Memory,
}

/// What a batch of records came to: their answers, and how many lines the journal has then.
#[derive(Drop)]
pub struct Served {
    pub answers: Vec<u8>,
    pub lines: u64,
}

/// Records that were done: the lines of those that are kept, and the answers to all.
#[derive(Drop)]
struct Batch {
    lines: Vec<Bytes>,
    answers: Vec<u8>,
}

/// Does a record, and puts its answer, and its line where it is kept, behind the others.
fn do_record<M: MapStore>(
    alloc: Global,
    editor: &mut Editor<M>,
    given: &ByteRecord,
    batch: &mut Batch,
) -> Result<(), Memory>
    requires { StandsForSome M.map M.belongs editor.old }
    ensures done { OnOk result ((first h : History) (script : List Record)
        → IsBatch first script batch.old.lines.items batch.old.answers.items h
        → StandsFor M.map M.belongs editor.old h → (end : History)
        × IsBatch first (script ++ fields_of given.now ∷ []) batch.new.lines.items batch.new.answers.items end
        × StandsFor M.map M.belongs editor.new end) }
    ensures few { OnOk result (length batch.new.lines.items ≤ length batch.old.lines.items + 1) }
    ensures stands { OnOk result (StandsForSome M.map M.belongs editor.new) }
{
    let taken = take_row(alloc, editor, given)?;
    batch.answers.extend_from_slice(taken.answer.as_slice())?;
    if taken.done {
        batch.lines.push(line_of_row(alloc, given)?)?;
    }
    Ok(())
}

/// Does records in turn.
fn do_records<M: MapStore>(
    alloc: Global,
    editor: &mut Editor<M>,
    records: &[ByteRecord],
) -> Result<Batch, Memory>
    requires { StandsForSome M.map M.belongs editor.old }
    ensures done { IfOk result (λ batch. (h : History) → StandsFor M.map M.belongs editor.old h
        → (end : History)
        × IsBatch h (map fields_of records.now) batch.lines.items batch.answers.items end
        × StandsFor M.map M.belongs editor.new end) }
    ensures few { IfOk result (λ batch. length batch.lines.items ≤ length records.now) }
    ensures stands { OnOk result (StandsForSome M.map M.belongs editor.new) }
{
    let mut batch = Batch {
        lines: Vec::new(alloc),
        answers: Vec::new(alloc),
    };
    for record in records {
        do_record(alloc, editor, record, &mut batch)?;
    }
    Ok(batch)
}

/// Does a batch of records on a map file that is open, and keeps by one commit the lines of the commands that were carried
/// out; gives the answers once they are on the disk. A crash at any moment leaves the file as it was, or with all of the batch.
/// After a fault neither editor nor store is used again.
pub fn serve_batch<M: MapStore, S: Store>(
    alloc: Global,
    editor: &mut Editor<M>,
    store: &mut S,
    lines: u64,
    records: &[ByteRecord],
) -> Result<Served, ServeFault>
    requires stands { StandsForSome M.map M.belongs editor.old }
    requires number { lines + length records.now < 2 ^ 63 }
    requires rest { IsClean (S.view store.old)
        → (done : List Line) × IsAtRest (S.view store.old) done × (length done ≡ lines) }

    // The records are answered, and the file holds what they made.
    ensures served { IfOk result (λ served. IsClean (S.view store.new) → (h : History) (done : List Line)
        → StandsFor M.map M.belongs editor.old h → IsAtRest (S.view store.old) done
        → HoldsMap (S.view store.old).committed done h → (end : History) × (all : List Line)
        × IsServed h (map fields_of records.now) served.answers.items (S.view store.new).committed all end
        × IsAtRest (S.view store.new) all × (length all ≡ served.lines)
        × StandsFor M.map M.belongs editor.new end) }

    // So it can go on.
    ensures stands { OnOk result (StandsForSome M.map M.belongs editor.new) }
    ensures few { IfOk result (λ served. served.lines ≤ lines + length records.now) }
    ensures rest { IfOk result (λ served. IsClean (S.view store.new)
        → (all : List Line) × IsAtRest (S.view store.new) all × (length all ≡ served.lines)) }

    // After a crash it holds what it held, or what all of the records made.
    ensures crash { (h : History) (done : List Line) → StandsFor M.map M.belongs editor.old h
        → IsAtRest (S.view store.old) done → HoldsMap (S.view store.old).committed done h
        → (db : Trees) → S.recovers store.new db → HoldsMap db done h
        ⊎ ((end : History) × (text : List ℕ) × (all : List Line)
        × IsServed h (map fields_of records.now) text db all end) }
{
    let batch = match do_records(alloc, editor, records) {
        Ok(batch) => batch,
        Err(Memory) => return Err(ServeFault::Memory),
    };
    let mut row = Row::new(alloc);
    match keep_batch(store, &mut row, lines, batch.lines.as_slice()) {
        Ok(()) => Ok(Served {
            lines: lines + batch.lines.len() as u64,
            answers: batch.answers,
        }),
        Err(fault) => Err(ServeFault::Store(fault)),
    }
}
