//! Rows in order of entry.
ghost use Rattle.std.specs.Prelude.{OnOk};
ghost use Rattle.entry_list.specs.Slots.{HasSlot};

use entry_list::EntryList;
use number_hash::NumberHash;
use std::alloc::{AllocError, Global};
use std::process::Abort;
use std::test::Fail;

// The numbers of the first four rows, 0 where there is none.
fn first_four(list: &EntryList<u8>) -> [u64; 4] {
    [
        number_at(list, 0),
        number_at(list, 1),
        number_at(list, 2),
        number_at(list, 3),
    ]
}

fn number_at(list: &EntryList<u8>, place: usize) -> u64 {
    match list.at(place) {
        Some((number, _)) => number,
        None => 0,
    }
}

// Gives the number a slot. A refused growth leaves the rows as they are, and is tried again.
fn keep(rt: &impl Abort, list: &mut EntryList<u8>, number: u64) -> Result<(), AllocError>
    ensures { OnOk result (HasSlot list.new number) }
{
    let before = first_four(list);
    let len = list.len();
    if list.keep_slot(number).is_err() {
        assert_eq!(rt; first_four(list), before);
        assert_eq!(rt; list.len(), len);
        list.keep_slot(number)?;
    }
    Ok(())
}

// Adds a spare slot, likewise.
fn spare(rt: &impl Abort, list: &mut EntryList<u8>) -> Result<(), AllocError> {
    let before = first_four(list);
    if list.spare_slot().is_err() {
        assert_eq!(rt; first_four(list), before);
        list.spare_slot()?;
    }
    Ok(())
}

fn put(
    rt: &impl Abort,
    list: &mut EntryList<u8>,
    number: u64,
    row: u8,
    place: usize,
) -> Result<(), AllocError> {
    keep(rt, list, number)?;
    assert!(rt; list.get(number).is_none() && place <= list.len());
    list.put_at(number, row, place);
    Ok(())
}

fn put_behind(
    rt: &impl Abort,
    list: &mut EntryList<u8>,
    number: u64,
    row: u8,
) -> Result<(), AllocError> {
    keep(rt, list, number)?;
    assert!(rt; list.get(number).is_none());
    list.put_last(number, row);
    Ok(())
}

// Rows 10, 20, 30, 40 under the numbers 1 to 4.
fn filled(rt: &impl Abort, alloc: Global) -> Result<EntryList<u8>, AllocError> {
    let mut list = EntryList::new(alloc, NumberHash::fixed());
    assert_eq!(rt; list.len(), 0);
    for (number, row) in [(1, 10), (2, 20), (3, 30), (4, 40)] {
        put_behind(rt, &mut list, number, row)?;
    }
    Ok(list)
}

// The first rows have these numbers.
fn has(rt: &impl Abort, list: &EntryList<u8>, numbers: [u64; 4]) {
    assert_eq!(rt; first_four(list), numbers);
}

// The number has this row.
fn has_row(rt: &impl Abort, list: &EntryList<u8>, number: u64, row: Option<u8>) {
    assert_eq!(rt; list.get(number).copied(), row, "{number}");
}

// At a place stands a row with this number.
fn stands(rt: &impl Abort, list: &EntryList<u8>, place: usize, row: Option<(u64, u8)>) {
    assert_eq!(rt; list.at(place).map(|r| (r.0, *r.1)), row, "at {place}");
}

// Takes a row out, which stood at a place.
fn take(rt: &impl Abort, list: &mut EntryList<u8>, number: u64, row: Option<(usize, u8)>) {
    assert_eq!(rt; list.take(number), row, "{number}");
}

#[test]
fn reads(rt: HostRuntime) -> Result<(), Fail> {
    let list = filled(&rt, rt.alloc())?;
    assert_eq!(rt; list.len(), 4);
    has_row(&rt, &list, 3, Some(30));
    has_row(&rt, &list, 5, None);
    for (number, place) in [(3, Some(2)), (5, None)] {
        assert_eq!(rt; list.place_of(number), place, "{number}");
    }
    stands(&rt, &list, 1, Some((2, 20)));
    stands(&rt, &list, 4, None);
    Ok(())
}

fn push(rt: &impl Abort, list: &mut EntryList<u8>, number: u64, row: u8) -> Result<(), AllocError> {
    assert!(rt; list.get(number).is_none());
    list.push(number, row)
}

#[test]
fn pushed_with_a_slot_and_without(rt: HostRuntime) -> Result<(), Fail> {
    let mut list = EntryList::with_room(rt.alloc(), NumberHash::fixed(), 3)?;
    for (number, row) in [(5, 50), (3, 30), (4, 40)] {
        push(&rt, &mut list, number, row)?;
    }
    take(&rt, &mut list, 5, Some((0, 50)));
    push(&rt, &mut list, 5, 51)?;
    has(&rt, &list, [3, 4, 5, 0]);
    has_row(&rt, &list, 5, Some(51));
    assert_eq!(rt; list.len(), 3);
    Ok(())
}

#[test]
fn back_in_its_own_slot(rt: HostRuntime) -> Result<(), Fail> {
    let mut list = filled(&rt, rt.alloc())?;
    take(&rt, &mut list, 2, Some((1, 20)));
    take(&rt, &mut list, 2, None);
    has(&rt, &list, [1, 3, 4, 0]);
    put(&rt, &mut list, 2, 21, 1)?;
    has(&rt, &list, [1, 2, 3, 4]);
    has_row(&rt, &list, 2, Some(21));
    Ok(())
}

#[test]
fn moved_to_another_place(rt: HostRuntime) -> Result<(), Fail> {
    let mut list = filled(&rt, rt.alloc())?;
    take(&rt, &mut list, 2, Some((1, 20)));
    put_behind(&rt, &mut list, 2, 22)?;
    has(&rt, &list, [1, 3, 4, 2]);
    take(&rt, &mut list, 4, Some((2, 40)));
    put(&rt, &mut list, 4, 41, 0)?;
    has(&rt, &list, [4, 1, 3, 2]);
    assert_eq!(rt; list.place_of(3), Some(2));
    assert_eq!(rt; list.len(), 4);
    Ok(())
}

#[test]
fn in_a_spare_slot(rt: HostRuntime) -> Result<(), Fail> {
    let mut list = filled(&rt, rt.alloc())?;
    spare(&rt, &mut list)?;
    spare(&rt, &mut list)?;
    take(&rt, &mut list, 1, Some((0, 10)));
    take(&rt, &mut list, 3, Some((1, 30)));
    put_behind(&rt, &mut list, 3, 31)?;
    put_behind(&rt, &mut list, 1, 11)?;
    has(&rt, &list, [2, 4, 3, 1]);
    stands(&rt, &list, 3, Some((1, 11)));
    Ok(())
}

#[test]
fn replaced_in_place(rt: HostRuntime) -> Result<(), Fail> {
    let mut list = filled(&rt, rt.alloc())?;
    assert!(rt; list.get(3).is_some());
    assert_eq!(rt; list.replace(3, 33), 30);
    stands(&rt, &list, 2, Some((3, 33)));
    has(&rt, &list, [1, 2, 3, 4]);
    Ok(())
}

const MANY: u64 = 200_000;

fn fill_many(rt: &impl Abort, list: &mut EntryList<u64>) -> Result<(), AllocError> {
    for number in 0..MANY {
        list.keep_slot(number)?;
        assert!(rt; list.get(number).is_none());
        list.put_last(number, number + 1);
    }
    Ok(())
}

// Takes the row with the number out and puts it back at its place.
fn take_and_put(rt: &impl Abort, list: &mut EntryList<u64>, number: u64) {
    match list.take(number) {
        Some((place, row)) => list.put_at(number, row, place),
        None => assert!(rt; false),
    }
}

#[test]
fn many_taken_out_and_put_back(rt: HostRuntime) -> Result<(), Fail> {
    let mut list = EntryList::new(rt.alloc(), NumberHash::fixed());
    fill_many(&rt, &mut list)?;
    for step in 0..MANY {
        take_and_put(&rt, &mut list, step * 77_777 % MANY);
    }
    assert_eq!(rt; list.len(), 200_000);
    for number in 0..MANY {
        let place = number as usize;
        assert_eq!(rt;
            list.at(place).map(|r| (r.0, *r.1)),
            Some((number, number + 1))
        );
    }
    Ok(())
}
