//! Spans on a line.

/// A span on a line, both ends included, of something that stands at a place elsewhere.
#[derive(Clone, Copy, PartialEq, Eq)]
pub struct Span {
    /// Where it begins.
    pub low: u64,
    /// Where it ends.
    pub high: u64,
    /// The place of what it is a span of.
    pub place: usize,
}
