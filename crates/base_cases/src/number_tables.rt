//! Values under numbers, wherever these stand.
use number_hash::NumberHash;
use number_table::NumberTable;
use std::alloc::{AllocError, Global};
use std::process::Abort;
use std::test::Fail;

// Rows of numbers, each with numbers that aren't among them: one after another, with a gap behind
// the first, with gaps, backwards, far apart, and over the end of the range.
const SHAPES: [([u64; 6], [u64; 4]); 6] = [
    ([1, 2, 3, 4, 5, 6], [0, 7, 8, 9_000_000_000]),
    ([0, 5, 6, 7, 8, 9], [1, 4, 10, u64::MAX]),
    ([3, 4, 6, 9, 10, 12], [2, 5, 8, 13]),
    ([6, 5, 4, 3, 2, 1], [0, 7, 11, u64::MAX]),
    (
        [50, u64::MAX, 0, 1_000_000_000_000, 51, 7],
        [1, 49, 52, 999_999_999_999],
    ),
    (
        [u64::MAX - 2, u64::MAX - 1, u64::MAX, 0, 1, 2],
        [3, 4, u64::MAX - 3, 9_000_000_000],
    ),
];

// What is put under a number: no other number has the same.
fn value_of(number: u64) -> u64 {
    !number
}

// The row at a place: its number, which is found there, and the value under it.
fn found_at(rt: &impl Abort, table: &NumberTable<u64>, place: usize) -> Option<(u64, u64)> {
    let (number, value) = table.at(place)?;
    assert_eq!(rt; table.place_of(number), Some(place), "{number}");
    assert_eq!(rt; table.get(number), Some(value), "{number}");
    Some((number, *value))
}

// The first six rows.
fn first_six(rt: &impl Abort, table: &NumberTable<u64>) -> [Option<(u64, u64)>; 6] {
    [
        found_at(rt, table, 0),
        found_at(rt, table, 1),
        found_at(rt, table, 2),
        found_at(rt, table, 3),
        found_at(rt, table, 4),
        found_at(rt, table, 5),
    ]
}

// The number stands at the place, with a value.
fn stands(rt: &impl Abort, table: &NumberTable<u64>, place: usize, number: u64, value: u64) {
    assert_eq!(rt;
        found_at(rt, table, place),
        Some((number, value)),
        "at {place}"
    );
}

// No row has the number.
fn is_absent(rt: &impl Abort, table: &NumberTable<u64>, number: u64) {
    assert!(rt; table.place_of(number).is_none(), "{number}");
    assert!(rt; table.get(number).is_none(), "{number}");
}

// The rows have these numbers, in this order, and each is found.
fn has(rt: &impl Abort, table: &NumberTable<u64>, numbers: &[u64]) {
    assert_eq!(rt; table.len(), numbers.len());
    for (place, number) in numbers.iter().enumerate() {
        stands(rt, table, place, *number, value_of(*number));
    }
    assert!(rt; table.at(numbers.len()).is_none());
}

// Puts a row behind all others. A refused growth leaves the rows as they are, each still found, and
// is tried again.
fn put(rt: &impl Abort, table: &mut NumberTable<u64>, number: u64) -> Result<(), AllocError> {
    let before = first_six(rt, table);
    let len = table.len();
    assert!(rt; table.get(number).is_none());
    if table.push(number, value_of(number)).is_err() {
        assert_eq!(rt; first_six(rt, table), before);
        assert_eq!(rt; table.len(), len);
        assert!(rt; table.get(number).is_none());
        table.push(number, value_of(number))?;
    }
    Ok(())
}

// Rows with these numbers.
fn filled(rt: &impl Abort, alloc: Global, numbers: &[u64]) -> Result<NumberTable<u64>, AllocError> {
    let mut table = NumberTable::new(alloc, NumberHash::fixed());
    for number in numbers {
        put(rt, &mut table, *number)?;
    }
    Ok(table)
}

fn exchange(rt: &impl Abort, table: &mut NumberTable<u64>, a: usize, b: usize) {
    assert!(rt; a < table.len() && b < table.len());
    table.swap(a, b);
}

fn shift(rt: &impl Abort, table: &mut NumberTable<u64>, from: usize, to: usize) {
    assert!(rt; from < table.len() && to < table.len());
    table.move_row(from, to);
}

// Takes out the row at a place, which has this number.
fn take(rt: &impl Abort, table: &mut NumberTable<u64>, place: usize, number: u64) {
    assert!(rt; place < table.len());
    assert_eq!(rt; table.swap_remove(place), (number, value_of(number)));
    is_absent(rt, table, number);
}

#[test]
fn put_and_found(rt: HostRuntime) -> Result<(), Fail> {
    for (numbers, absent) in SHAPES {
        let table = filled(&rt, rt.alloc(), &numbers)?;
        has(&rt, &table, &numbers);
        for number in absent {
            is_absent(&rt, &table, number);
        }
    }
    Ok(())
}

#[test]
fn exchanged(rt: HostRuntime) -> Result<(), Fail> {
    for (numbers, _) in SHAPES {
        let [a, b, c, d, e, f] = numbers;
        let mut table = filled(&rt, rt.alloc(), &numbers)?;
        exchange(&rt, &mut table, 0, 5);
        has(&rt, &table, &[f, b, c, d, e, a]);
        exchange(&rt, &mut table, 3, 1);
        has(&rt, &table, &[f, d, c, b, e, a]);
        exchange(&rt, &mut table, 2, 2);
        has(&rt, &table, &[f, d, c, b, e, a]);
    }
    Ok(())
}

#[test]
fn moved(rt: HostRuntime) -> Result<(), Fail> {
    for (numbers, _) in SHAPES {
        let [a, b, c, d, e, f] = numbers;
        let mut table = filled(&rt, rt.alloc(), &numbers)?;
        shift(&rt, &mut table, 1, 4);
        has(&rt, &table, &[a, c, d, e, b, f]);
        shift(&rt, &mut table, 5, 0);
        has(&rt, &table, &[f, a, c, d, e, b]);
        shift(&rt, &mut table, 3, 3);
        has(&rt, &table, &[f, a, c, d, e, b]);
    }
    Ok(())
}

#[test]
fn taken_out_and_put_anew(rt: HostRuntime) -> Result<(), Fail> {
    for (numbers, _) in SHAPES {
        let [a, b, c, d, e, f] = numbers;
        let mut table = filled(&rt, rt.alloc(), &numbers)?;
        take(&rt, &mut table, 1, b);
        has(&rt, &table, &[a, f, c, d, e]);
        take(&rt, &mut table, 4, e);
        has(&rt, &table, &[a, f, c, d]);
        put(&rt, &mut table, b)?;
        take(&rt, &mut table, 0, a);
        has(&rt, &table, &[b, f, c, d]);
    }
    Ok(())
}

#[test]
fn emptied_and_filled_with_others(rt: HostRuntime) -> Result<(), Fail> {
    for (numbers, others) in SHAPES {
        let [a, b, c, d, e, f] = numbers;
        let mut table = filled(&rt, rt.alloc(), &numbers)?;
        for number in [a, f, e, d, c, b] {
            take(&rt, &mut table, 0, number);
        }
        for number in others {
            put(&rt, &mut table, number)?;
        }
        has(&rt, &table, &others);
    }
    Ok(())
}

// Writes a value at a place, and puts another in the place of the one behind it.
fn write_two(rt: &impl Abort, table: &mut NumberTable<u64>, place: usize, values: [u64; 2]) -> u64 {
    assert!(rt; place < table.len());
    *table.value_at(place) = values[0];
    assert!(rt; place + 1 < table.len());
    table.replace_at(place + 1, values[1])
}

#[test]
fn written(rt: HostRuntime) -> Result<(), Fail> {
    for (numbers, _) in SHAPES {
        let [a, b, c, d, e, f] = numbers;
        let mut table = filled(&rt, rt.alloc(), &numbers)?;
        assert_eq!(rt; write_two(&rt, &mut table, 2, [70, 80]), value_of(d));
        stands(&rt, &table, 2, c, 70);
        stands(&rt, &table, 3, d, 80);
        for (place, number) in [(0, a), (1, b), (4, e), (5, f)] {
            stands(&rt, &table, place, number, value_of(number));
        }
    }
    Ok(())
}

#[test]
fn with_room_and_without(rt: HostRuntime) -> Result<(), Fail> {
    let mut table = NumberTable::with_room(rt.alloc(), NumberHash::fixed(), 3)?;
    has(&rt, &table, &[]);
    is_absent(&rt, &table, 0);
    put(&rt, &mut table, 4)?;
    put(&rt, &mut table, 9)?;
    has(&rt, &table, &[4, 9]);
    let most = NumberTable::<u64>::with_room(rt.alloc(), NumberHash::fixed(), usize::MAX);
    assert!(rt; most.is_err());
    Ok(())
}

const MANY: u64 = 1_000;

// The numbers from 0 on, each once, in an order in which none follows another.
fn shuffled(place: u64) -> u64 {
    place % MANY * 389 % MANY
}

#[test]
fn many_in_any_order(rt: HostRuntime) -> Result<(), Fail> {
    let mut table = NumberTable::new(rt.alloc(), NumberHash::fixed());
    for place in 0..MANY {
        put(&rt, &mut table, shuffled(place))?;
    }
    for place in 0..MANY {
        let number = shuffled(place);
        stands(&rt, &table, place as usize, number, value_of(number));
    }
    is_absent(&rt, &table, MANY);
    Ok(())
}

// A number from anywhere in the range for each place; no two places have the same.
fn wild(place: u64) -> u64 {
    place.wrapping_mul(11_400_714_819_323_198_485)
}

// Rows with wild numbers.
fn filled_wildly(rt: &impl Abort, alloc: Global) -> Result<NumberTable<u64>, AllocError> {
    let mut table = NumberTable::new(alloc, NumberHash::fixed());
    for place in 0..MANY {
        put(rt, &mut table, wild(place))?;
    }
    Ok(table)
}

// The number of the row that comes out where the first row is taken out again and again: the last
// ones, backwards, once the first is out, since each takes its place.
fn number_out(count: u64) -> u64 {
    wild((MANY - count % MANY) % MANY)
}

// Takes out the first row so many times.
fn take_first(rt: &impl Abort, table: &mut NumberTable<u64>, count: u64) {
    for out in 0..count {
        take(rt, table, 0, number_out(out));
    }
}

// Puts the rows that were so taken out behind the others, in the order in which they came out.
fn put_back(rt: &impl Abort, table: &mut NumberTable<u64>, count: u64) -> Result<(), AllocError> {
    for out in 0..count {
        is_absent(rt, table, number_out(out));
        put(rt, table, number_out(out))?;
    }
    Ok(())
}

// The rows before a place are those that were put there, but for the first.
fn has_stayed(rt: &impl Abort, table: &NumberTable<u64>, end: u64) {
    for place in 1..end {
        let number = wild(place);
        stands(rt, table, place as usize, number, value_of(number));
    }
}

// From a place on the rows are those that were put back.
fn has_put_back(rt: &impl Abort, table: &NumberTable<u64>, first: u64, count: u64) {
    for out in 0..count {
        let number = number_out(out);
        let place = first.saturating_add(out) as usize;
        stands(rt, table, place, number, value_of(number));
    }
}

#[test]
fn wild_numbers_come_back(rt: HostRuntime) -> Result<(), Fail> {
    let mut table = filled_wildly(&rt, rt.alloc())?;
    take_first(&rt, &mut table, 300);
    put_back(&rt, &mut table, 300)?;
    assert_eq!(rt; table.len(), 1_000);
    stands(&rt, &table, 0, wild(700), value_of(wild(700)));
    has_stayed(&rt, &table, 700);
    has_put_back(&rt, &table, 700, 300);
    Ok(())
}
