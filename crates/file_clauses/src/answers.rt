//! Texts of answers and reports.
ghost use Rattle.std.specs.Prelude.{◌≡◌, ◌≤◌, ◌^◌, ◌∷◌, [], IfOk, unsigned_abs};
ghost use Rattle.cad_map.specs.Valid.{IsValid};
ghost use Rattle.cad_files.specs.Texts.{text_of, plan_records};
ghost use Rattle.cad_files.specs.Reports.{hundredths_of, outline_answer};
ghost use Rattle.cad_files.specs.Answers.{answer_record};

use cad_files::{answer_text, hundredths, outline_text, plan_text};
use cad_history::Answer;
use cad_map::MapView;
use cad_rows::{Face, Memory};
use std::alloc::Global;

/// Hundredths of a square metre in doubled square millimetres, rounded half up.
pub fn hundredths_of_an_area(a2: i128) -> i128
    requires { unsigned_abs a2 ≤ 10 ^ 26 }
    ensures { result ≡ hundredths_of a2 }
{
    hundredths(a2)
}

/// The text of the plan of a valid map: each kind of rows in order of entry. `Err` where memory runs out.
pub fn text_of_a_plan<M: MapView>(alloc: Global, view: &M) -> Result<Vec<u8>, Memory>
    requires { IsValid (M.map view.now) }
    ensures { IfOk result (λ text. text.items ≡ text_of (plan_records (M.map view.now))) }
{
    plan_text(alloc, view)
}

/// The rings of a face of a valid map. `Err` where memory runs out.
pub fn text_of_an_outline<M: MapView>(
    alloc: Global,
    view: &M,
    face: Face,
) -> Result<Vec<u8>, Memory>
    requires { IsValid (M.map view.now) }
    ensures { IfOk result (λ text. text.items ≡ text_of (outline_answer (M.map view.now) face)) }
{
    outline_text(alloc, view, face)
}

/// The text of an answer. `Err` where memory runs out.
pub fn text_of_an_answer(alloc: Global, answer: &Answer) -> Result<Vec<u8>, Memory>
    ensures { IfOk result (λ text. text.items ≡ text_of (answer_record answer.now ∷ [])) }
{
    answer_text(alloc, answer)
}
