//! What hashes one number.
ghost use Rattle.std.specs.Prelude.{◌≡◌};
ghost use Rattle.number_hash.specs.Neighbours.{number_in};

use std::hash::{FoldHasher, Hasher};

/// The numbers of a block follow one another, and differ in the place that the block has for them.
const BLOCK: u64 = 4;

/// The place in a block goes into bits 30 and 31: `indexmap` chooses a line of a table by the low bits,
/// and tells apart what stands in one line by bits 24 to 31.
const PLACE: u64 = 1_073_741_824;

/// Hashes one number, of 32 or 64 bits. The numbers of a map are mostly given one after another, and
/// what is near on the map has near numbers. So four that follow one another, from a multiple of four
/// on, have one hash but for two high bits: they stand in one line of a table, and who asks for one
/// mostly has the others at hand. The blocks are hashed by std's fast hash, from a start. Of several
/// numbers that are written the last alone counts, so a key is to be one number.
#[derive(Clone, Copy, Drop)]
pub struct NumberHasher {
    pub(crate) start: FoldHasher,
    pub(crate) number: u64,
}

/// The number of four or eight bytes, the lowest first, and of others their hash from the fixed start.
fn number_of(bytes: &[u8]) -> u64
    ensures { result ≡ number_in bytes.now }
{
    match bytes {
        [a, b, c, d] => u64::from(u32::from_le_bytes([*a, *b, *c, *d])),
        [a, b, c, d, e, f, g, h] => u64::from_le_bytes([*a, *b, *c, *d, *e, *f, *g, *h]),
        _ => {
            let mut long = FoldHasher::default();
            long.write(bytes);
            long.finish()
        }
    }
}

impl Hasher for NumberHasher {
    ghost use Rattle.number_hash.specs.Neighbours.{write, finish};

    ghost write = { write };

    ghost finish = { finish };

    fn finish(&self) -> u64 {
        let mut block = self.start;
        block.write(&(self.number / BLOCK).to_le_bytes());
        block.finish() ^ self.number % BLOCK * PLACE
    }

    fn write(&mut self, bytes: &[u8]) {
        self.number = number_of(bytes);
    }
}
