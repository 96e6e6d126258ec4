//! The hash, and where it begins.
ghost use Rattle.std.specs.Prelude.{◌≡◌};
ghost use Rattle.std.specs.Int.{to_le_bytes, w64};
ghost use Rattle.std.specs.Hash.FoldHasher.{initial, write};
ghost use Rattle.number_hash.specs.Start.{start_of};

use crate::hasher::NumberHasher;
use std::hash::{BuildHasher, FoldHasher, Hasher};
use std::random::RandomSource;

/// Makes the hashers of a table of numbers: std's fast hash, from a start of its own.
///
/// Whoever knows the start can choose numbers that fall together in a table and make each look into
/// it slow, but never wrong. So a program draws the start anew for each run, and a stranger's map
/// costs no more than others. What a table answers doesn't depend on it.
#[derive(Clone, Copy)]
pub struct NumberHash {
    start: FoldHasher,
}

impl NumberHash {
    /// From the start that std gives, always the same: for numbers that no stranger chooses.
    pub fn fixed() -> NumberHash
        ensures { start_of result ≡ initial }
    {
        NumberHash {
            start: FoldHasher::default(),
        }
    }

    /// From a start that belongs to a seed.
    pub fn seeded(seed: u64) -> NumberHash
        ensures { start_of result ≡ write initial (to_le_bytes w64 seed) }
    {
        let mut start = FoldHasher::default();
        start.write(&seed.to_le_bytes());
        NumberHash { start }
    }

    /// From a start that the system draws; the fixed one where it can't draw.
    pub fn drawn(rt: &impl RandomSource) -> NumberHash {
        let mut bytes = [0; 8];
        match rt.fill_bytes(&mut bytes) {
            Ok(()) => NumberHash::seeded(u64::from_le_bytes(bytes)),
            Err(_) => NumberHash::fixed(),
        }
    }
}

impl BuildHasher for NumberHash {
    type Hasher = NumberHasher;

    ghost build_hasher = { λ hash. record { start = start_of hash; number = 0 } };

    fn build_hasher(&self) -> NumberHasher {
        NumberHasher {
            start: self.start,
            number: 0,
        }
    }
}
