//! Why a record has no answer.

/// Why a record of a script has no answer's text: memory ran out.
#[derive(Clone, Copy, Debug, PartialEq, Eq)]
pub enum Untold {
    /// Nothing was done.
    Undone,
    /// The command was carried out, or refused, and its answer can't be told.
    Done,
}

/// Why a text that was submitted has no answer.
#[derive(Clone, Copy, Debug, PartialEq, Eq)]
pub enum SubmitFault {
    /// It isn't one record. Nothing was done.
    NotOne,
    /// Memory ran out, and nothing was done.
    Undone,
    /// Memory ran out once the command was carried out, or refused, and its answer can't be told.
    Done,
}
