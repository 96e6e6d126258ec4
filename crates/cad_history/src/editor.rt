//! The editor.
ghost use Rattle.std.specs.Prelude.{◌≡◌, ◌↔◌, Some, IsTrue, IfOk, IfErr};
ghost use Rattle.cad_map.specs.Map.{Map};
ghost use Rattle.cad_map.specs.Valid.{IsValid};
ghost use Rattle.cad_history.specs.History.{History, beginning, opened, shown_map, standing, CanUndo, CanRedo, LeadAlong};
ghost use Rattle.cad_history.specs.Steps.{edit_answer, undo_answer};
ghost use Rattle.cad_history.specs.Standing.{StandsFor, StandsForSome, Goes};

use crate::commands::{Command, Depth, UndoFault};
use cad_map::{MapStore, MapView};
use cad_rows::{Edit, Refusal};
use circular_buffer::HeapCircularBuffer;
use std::alloc::Global;
use std::marker::Model;

/// A map that can be edited, with the records of its latest edits.
#[derive(Drop)]
pub struct Editor<M: MapStore> {
    store: M,
    records: HeapCircularBuffer<M::Record>,
    place: usize,
}

impl<M: MapStore> Model for Editor<M> {
    ghost use Rattle.cad_history.specs.Standing.{EditorState, editor_code};

    ghost Value = { EditorState M M.Record };

    ghost coded = { editor_code M.code M.Record.code };

    ghost view = { λ e.
        record {
          store = e.store;
          records = e.records.items;
          place = e.place;
          depth = e.records.capacity;
        } };
}

impl<M: MapStore> Editor<M> {
    /// Opens an editor on the store's map. Where memory runs out, the store comes back as it was.
    pub fn open(alloc: Global, store: M, depth: Depth) -> Result<Editor<M>, M>
        requires { IsValid (M.map store) }
        ensures opened { IfOk result
            (λ editor. StandsFor M.map M.belongs editor (beginning (M.map store) depth)) }
        ensures err { IfErr result (λ given_back. given_back ≡ store) }
    {
        match HeapCircularBuffer::with_capacity(alloc, depth.get()) {
            Ok(records) => Ok(Editor {
                store,
                records,
                place: 0,
            }),
            Err(_) => Err(store),
        }
    }

    /// Makes an edit. After a refusal nothing has changed, and undone edits can still be made again.
    pub fn edit(&mut self, edit: &Edit) -> Result<(), Refusal>
        requires { StandsForSome M.map M.belongs self.old }
        ensures { Goes M.map M.belongs self.old (Command.Edit edit.now)
            (edit_answer result) self.new }
    {
        let record = self.store.apply(edit)?;
        self.records.truncate_back(self.place);
        self.records.push_back(record);
        self.place = self.records.len();
        Ok(())
    }

    /// Goes one edit back. `Nothing`: the map is the opened one, or the depth is used up. After either fault
    /// nothing has changed, and no memory is taken for `Nothing`.
    pub fn undo(&mut self) -> Result<(), UndoFault>
        requires { StandsForSome M.map M.belongs self.old }
        ensures { Goes M.map M.belongs self.old Command.Undo (undo_answer result) self.new }
    {
        if self.place == 0 {
            return Err(UndoFault::Nothing);
        }
        let record = self.records.get(self.place - 1).unwrap();
        match self.store.back(record) {
            Ok(()) => {
                self.place -= 1;
                Ok(())
            }
            Err(_) => Err(UndoFault::Memory),
        }
    }

    /// Goes one edit on. `Nothing`: no edit is undone. After either fault nothing has changed, and no memory is
    /// taken for `Nothing`.
    pub fn redo(&mut self) -> Result<(), UndoFault>
        requires { StandsForSome M.map M.belongs self.old }
        ensures { Goes M.map M.belongs self.old Command.Redo (undo_answer result) self.new }
    {
        if self.place >= self.records.len() {
            return Err(UndoFault::Nothing);
        }
        let record = self.records.get(self.place).unwrap();
        match self.store.forward(record) {
            Ok(()) => {
                self.place += 1;
                Ok(())
            }
            Err(_) => Err(UndoFault::Memory),
        }
    }

    /// Whether there is an edit to go back.
    pub fn can_undo(&self) -> bool
        ensures { (h : History) → StandsFor M.map M.belongs self.now h
            → (IsTrue result ↔ CanUndo h) }
    {
        self.place > 0
    }

    /// Whether there is an edit to go on.
    pub fn can_redo(&self) -> bool
        ensures { (h : History) → StandsFor M.map M.belongs self.now h
            → (IsTrue result ↔ CanRedo h) }
    {
        self.place < self.records.len()
    }

    /// The map that is shown.
    pub fn map(&self) -> &M
        ensures store { result.now ≡ self.now.store }
        ensures shown_map { (h : History) → StandsFor M.map M.belongs self.now h
            → shown_map h ≡ Some (M.map result.now) }

        // It is valid.
        ensures valid { StandsForSome M.map M.belongs self.now → IsValid (M.map result.now) }

        // It is the opened map with the standing edits applied in order.
        ensures built { (h : History) (first : Map) → StandsFor M.map M.belongs self.now h
            → opened h ≡ Some first →
            LeadAlong first (standing h) (M.map result.now) }
    {
        &self.store
    }
}
