//! What the early check of an edit finds, by which the edit is made.
use cad_map::{Corner, SharedChain};
use cad_rows::StringNo;

/// What was found of an edit that nothing speaks against at once.
#[derive(Clone, Copy)]
pub struct Admitted {
    /// Of a division, the corners that its chain leaves at its two ends.
    pub corners: Option<(Corner, Corner)>,
    /// Of a join, the numbers of the two strings, the lower first.
    pub strings: Option<(StringNo, StringNo)>,
    /// Of a merger, what the two parcels share.
    pub chain: Option<SharedChain>,
}
