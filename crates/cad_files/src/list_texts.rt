//! The fields of lists of numbers.
ghost use Rattle.std.specs.Prelude.{◌≡◌, ◌+◌, ◌<◌, ℕ, List, take, length, slice_index_or, IfOk, OnOk};
ghost use Rattle.cad_files.specs.Texts.{list_field};

use cad_rows::{Memory, Number};
use itoa::Buffer;
use std::alloc::Global;

// Appends the number at a place of a list, with a space before it where it isn't the first.
fn append_number(text: &mut Vec<u8>, place: usize, number: u32) -> Result<(), Memory>
    ensures { OnOk result ((ns : List ℕ) (d : ℕ) → place < length ns
        → number ≡ slice_index_or ns place d
        → text.old.items ≡ list_field (take place ns)
        → text.new.items ≡ list_field (take (place + 1) ns)) }
{
    if place > 0 {
        text.push(b' ')?;
    }
    let mut digits = Buffer::new();
    text.extend_from_slice(digits.format(number).as_bytes())?;
    Ok(())
}

/// The field of a list of numbers. `Err` where memory runs out.
pub fn list_text<Kind>(alloc: Global, numbers: &[Number<Kind>]) -> Result<Vec<u8>, Memory>
    ensures { IfOk result (λ text. text.items ≡ list_field numbers.now) }
{
    let mut text = Vec::new(alloc);
    for i in 0..numbers.len() {
        append_number(&mut text, i, numbers[i].get())?;
    }
    Ok(text)
}
