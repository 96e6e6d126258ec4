//! Hashes of numbers.
use number_hash::NumberHash;
use std::hash::BuildHasher;
use std::io;
use std::random::RandomSource;
use std::test::Fail;

// By fewer than so many lines of a table, the place of a number in its block has no say in its line.
const LINES: u64 = 1_073_741_824;

// A system that draws nothing.
struct Refusing;

impl RandomSource for Refusing {
    fn fill_bytes(&self, _buf: &mut [u8]) -> io::Result<()> {
        Err(io::Error::from(io::ErrorKind::Other))
    }
}

// A system that draws sevens.
struct Sevens;

impl RandomSource for Sevens {
    fn fill_bytes(&self, buf: &mut [u8]) -> io::Result<()> {
        buf.fill(7);
        Ok(())
    }
}

#[test]
fn a_start_is_drawn_where_the_system_draws(rt: HostRuntime) -> Result<(), Fail> {
    let drawn = NumberHash::drawn(&Sevens);
    let told = NumberHash::seeded(0x0707_0707_0707_0707);
    assert_eq!(rt; drawn.hash_one(12u32), told.hash_one(12u32));
    let none = NumberHash::drawn(&Refusing);
    assert_eq!(rt; none.hash_one(12u32), NumberHash::fixed().hash_one(12u32));
    Ok(())
}

#[test]
fn another_start_gives_other_hashes(rt: HostRuntime) -> Result<(), Fail> {
    let first = NumberHash::seeded(1).hash_one(12u32);
    assert!(rt; first != NumberHash::seeded(2).hash_one(12u32));
    assert!(rt; first != NumberHash::fixed().hash_one(12u32));
    Ok(())
}

#[test]
fn four_neighbours_share_a_line(rt: HostRuntime) -> Result<(), Fail> {
    let hash = NumberHash::seeded(1);
    let first = hash.hash_one(12u32);
    for number in 13u32..16 {
        assert!(rt; hash.hash_one(number) != first);
        assert_eq!(rt; hash.hash_one(number) % LINES, first % LINES);
    }
    for number in [8u32, 11, 16, 19] {
        assert!(rt; hash.hash_one(number) % LINES != first % LINES);
    }
    assert_eq!(rt; hash.hash_one(12u64), first);
    Ok(())
}

#[test]
fn other_keys_are_hashed_whole(rt: HostRuntime) -> Result<(), Fail> {
    let hash = NumberHash::seeded(1);
    assert!(rt; hash.hash_one(12u128) != hash.hash_one(13u128));
    assert!(rt; hash.hash_one(12u16) != hash.hash_one(13u16));
    Ok(())
}
