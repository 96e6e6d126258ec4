//! What is kept between calls.
ghost use Rattle.std.specs.Prelude.{◌≡◌, ◌∷◌, [], ℕ, List, Some, None, option_map, IfOk, IfErr, OnOk, OnErr, drop, false, if◌then◌else◌};
ghost use Rattle.csv.specs.Reading.{strip_bom};
ghost use Rattle.cad_map.specs.Map.{Map, point_of};
ghost use Rattle.cad_history.specs.History.{History, shown_map};
ghost use Rattle.cad_files.specs.Input.{IsWhole};
ghost use Rattle.cad_files.specs.Line.{line_of};
ghost use Rattle.cad_session.specs.Answered.{IsAnswered, IsSubmitFault};
ghost use Rattle.cad_views.specs.Shape.{IsShape};
ghost use Rattle.cad_handle.specs.Sessions.{Shows, ShowsSome};

use cad_history::Editor;
use cad_map::MapView;
use cad_rows::{Memory, ParcelNo, PointNo};
use cad_session::{SubmitFault, submit};
use cad_surgery::HalfMap;
use cad_views::shape_text;
use geo_exact::Pt;
use half_table::Ticks;
use number_hash::NumberHash;
use std::alloc::Global;

/// An editor, its latest answer, and the hash by which tables find numbers.
#[derive(Drop)]
pub struct State {
    pub editor: Editor<HalfMap<Ticks>>,
    pub answer: Vec<u8>,
    pub hash: NumberHash,
}

impl State {
    /// Does the one record of a text, and keeps its answer. After a fault no answer is kept, and the editor can be used on.
    pub fn submit(&mut self, alloc: Global, text: &[u8]) -> Result<(), SubmitFault>
        requires { ShowsSome self.old.editor }

        // From each history that the editor stood for it goes to one in which the record is answered.
        ensures told { OnOk result ((h : History) → Shows self.old.editor h →
            (fields : List (List ℕ)) × (end : History) × IsWhole (strip_bom text.now) (fields ∷ [])
            × IsAnswered h (line_of fields) self.new.answer.items end × Shows self.new.editor end) }

        // Else it stands for the same history, or for that behind the record, as the fault says.
        ensures untold { IfErr result (λ fault. (h : History) → Shows self.old.editor h →
            (end : History) × IsSubmitFault h (strip_bom text.now) fault end
            × Shows self.new.editor end) }
        ensures none { OnErr result (self.new.answer.items ≡ []) }
        ensures usable { ShowsSome self.new.editor }
    {
        match submit(alloc, &mut self.editor, text) {
            Ok(answer) => {
                self.answer = answer;
                Ok(())
            }
            Err(fault) => {
                self.answer = Vec::new(alloc);
                Err(fault)
            }
        }
    }

    /// The latest answer from a place on; nothing past its end.
    pub fn answer_from(&self, from: u64) -> &[u8]
        ensures { result.now ≡ drop from self.now.answer.items }
    {
        let answer = self.answer.as_slice();
        let start = (from as usize).min(answer.len());
        &answer[start..]
    }

    /// Where a point of the map that is shown lies; `None` of a number that no point has.
    pub fn point(&self, number: u32) -> Option<Pt>
        requires { ShowsSome self.now.editor }
        ensures { (h : History) (m : Map) → Shows self.now.editor h → shown_map h ≡ Some m
            → result ≡ option_map (λ r. r.position) (point_of m number) }
    {
        let Some(no) = PointNo::new(number) else {
            return None;
        };
        match self.editor.map().point(no) {
            Some(row) => Some(row.position),
            None => None,
        }
    }

    /// Keeps the shape of a parcel of the map that is shown as the latest answer, and tells whether there is such a parcel.
    /// Where there is none, or memory runs out, no answer is kept.
    pub fn shape(&mut self, alloc: Global, number: u32) -> Result<bool, Memory>
        requires { ShowsSome self.old.editor }
        ensures shape { IfOk result (λ known. (h : History) (m : Map) → Shows self.old.editor h
            → shown_map h ≡ Some m
            → IsShape m number (if known then Some self.new.answer.items else None)) }
        ensures unknown { IfOk result (λ known. known ≡ false → self.new.answer.items ≡ []) }
        ensures none { OnErr result (self.new.answer.items ≡ []) }
        ensures same { self.new.editor ≡ self.old.editor }
    {
        self.answer = Vec::new(alloc);
        let Some(parcel) = ParcelNo::new(number) else {
            return Ok(false);
        };
        match shape_text(alloc, self.hash, self.editor.map(), parcel) {
            Ok(Some(text)) => {
                self.answer = text;
                Ok(true)
            }
            Ok(None) => Ok(false),
            Err(Memory) => Err(Memory),
        }
    }
}
