//! Labels of parcels, and texts of sources.
ghost use Rattle.std.specs.Prelude.{◌≡◌, IfOk};
ghost use Rattle.cad_rows.specs.Limits.{label_of, IsLabel};

use crate::memory::Memory;
use std::alloc::Global;
use std::marker::Model;

/// The most bytes of a label or of a source's text.
pub const LABEL_LIMIT: usize = 80;

/// A text of 1 to 80 bytes of UTF-8.
#[derive(Drop)]
pub struct Label {
    text: String,
}

impl Model for Label {
    ghost use Rattle.std.specs.Prelude.{List, ℕ, string_bytes};
    ghost use Rattle.cad_rows.specs.Limits.{IsLabel};

    ghost Value = { List ℕ };

    ghost view = { λ a. string_bytes a.text };

    ghost invariant = { λ a. IsLabel (string_bytes a.text) };
}

impl Label {
    /// The label of this text, or `None` where it is empty or longer than 80 bytes.
    pub fn new(alloc: Global, text: &str) -> Result<Option<Label>, Memory>
        ensures { IfOk result (λ label. label ≡ label_of text.now) }
    {
        if text.is_empty() || text.len() > LABEL_LIMIT {
            return Ok(None);
        }
        let text = String::from_str(alloc, text)?;
        Ok(Some(Label { text }))
    }

    /// The text.
    pub fn as_str(&self) -> &str
        ensures value { result.now ≡ self.now }
        ensures within { IsLabel result.now }
    {
        self.text.as_str()
    }

    /// An equal label.
    pub fn copy(&self) -> Result<Label, Memory>
        ensures { IfOk result (λ copied. copied ≡ self.now) }
    {
        let text = self.text.clone()?;
        Ok(Label { text })
    }
}
