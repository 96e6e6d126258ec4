//! Writing records.
ghost use Rattle.std.specs.Prelude.{◌≡◌, ◌∷◌, [], ℕ, List, OnOk, IfOk, map};
ghost use Rattle.cad_files.specs.Texts.{HasWritten, HasAppended, record_text, text_of};

use cad_rows::Memory;
use csv::{Writer, WriterBuilder};
use std::alloc::Global;

/// The text of one record.
#[tactic(auto, unfolding(crate::specs::Texts::record_text))]
pub(crate) fn one_record(alloc: Global, fields: &[&[u8]]) -> Result<Vec<u8>, Memory>
    ensures { IfOk result (λ text. text.items ≡ text_of (map (λ f. f.now) fields.now ∷ [])) }
{
    let mut writer = WriterBuilder::new().from_writer(Vec::new(alloc));
    if writer.write_fields(fields).is_err() {
        return Err(Memory);
    }
    match writer.into_inner() {
        Ok(text) => Ok(text),
        Err(_) => Err(Memory),
    }
}

/// Writes one record more. `Err` where memory runs out.
#[tactic(auto, unfolding(crate::specs::Texts::record_text))]
pub fn write_record(writer: &mut Writer<Vec<u8>>, fields: &[&[u8]]) -> Result<(), Memory>
    ensures { OnOk result
        (HasAppended (record_text (map (λ f. f.now) fields.now)) writer.old writer.new) }
{
    match writer.write_fields(fields) {
        Ok(()) => Ok(()),
        Err(_) => Err(Memory),
    }
}

/// The text that was written. `Err` where memory runs out.
pub fn finished(writer: Writer<Vec<u8>>) -> Result<Vec<u8>, Memory>
    ensures { IfOk result (λ text. (written : List ℕ) → HasWritten written writer
        → text.items ≡ written) }
{
    match writer.into_inner() {
        Ok(text) => Ok(text),
        Err(_) => Err(Memory),
    }
}

/// A writer of records that has written nothing.
pub fn writer(alloc: Global) -> Writer<Vec<u8>>
    ensures { HasWritten [] result }
{
    WriterBuilder::new().from_writer(Vec::new(alloc))
}
