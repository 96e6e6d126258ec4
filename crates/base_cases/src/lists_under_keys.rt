//! Lists under keys.
ghost use Rattle.std.specs.Prelude.{OnOk};
ghost use Rattle.key_lists.specs.Held.{HasRoomAt};

use key_lists::KeyLists;
use number_hash::NumberHash;
use std::alloc::{AllocError, Global};
use std::process::Abort;
use std::test::Fail;

// Makes room under a key. A refused growth leaves all items as they are, and is tried again.
fn make_room(
    rt: &impl Abort,
    lists: &mut KeyLists<u32>,
    key: u64,
    more: usize,
) -> Result<(), AllocError>
    ensures { OnOk result (HasRoomAt lists.new key more) }
{
    let before = [first_at(lists, 7), first_at(lists, 8)];
    let count = lists.at(key).len();
    if lists.reserve(key, more).is_err() {
        assert_eq!(rt; [first_at(lists, 7), first_at(lists, 8)], before);
        assert_eq!(rt; lists.at(key).len(), count);
        lists.reserve(key, more)?;
    }
    Ok(())
}

// The first item under a key, 0 where there is none.
fn first_at(lists: &KeyLists<u32>, key: u64) -> u32 {
    match lists.at(key) {
        [first, ..] => *first,
        [] => 0,
    }
}

fn add(rt: &impl Abort, lists: &mut KeyLists<u32>, key: u64, item: u32) -> Result<(), AllocError> {
    make_room(rt, lists, key, 1)?;
    lists.put(key, item);
    Ok(())
}

// The items 70 to 75 under 7, and 80 under 8.
fn filled(rt: &impl Abort, alloc: Global) -> Result<KeyLists<u32>, AllocError> {
    let mut lists = KeyLists::new(alloc, NumberHash::fixed());
    has(rt, &lists, 7, &[]);
    for item in 70..76 {
        add(rt, &mut lists, 7, item)?;
    }
    add(rt, &mut lists, 8, 80)?;
    Ok(lists)
}

// Under a key are these items.
fn has(rt: &impl Abort, lists: &KeyLists<u32>, key: u64, items: &[u32]) {
    assert_eq!(rt; lists.at(key), items, "under {key}");
}

#[test]
fn put_in_turn(rt: HostRuntime) -> Result<(), Fail> {
    let lists = filled(&rt, rt.alloc())?;
    has(&rt, &lists, 7, &[70, 71, 72, 73, 74, 75]);
    has(&rt, &lists, 8, &[80]);
    has(&rt, &lists, 9, &[]);
    Ok(())
}

#[test]
fn pushed_in_turn(rt: HostRuntime) -> Result<(), Fail> {
    let mut lists = KeyLists::with_room(rt.alloc(), NumberHash::fixed(), 2)?;
    has(&rt, &lists, 7, &[]);
    for item in 70..76 {
        lists.push(7, item)?;
    }
    lists.push(8, 80)?;
    has(&rt, &lists, 7, &[70, 71, 72, 73, 74, 75]);
    has(&rt, &lists, 8, &[80]);
    Ok(())
}

#[test]
fn taken_and_set(rt: HostRuntime) -> Result<(), Fail> {
    let mut lists = filled(&rt, rt.alloc())?;
    assert_eq!(rt; lists.at(7).len(), 6);
    assert_eq!(rt; lists.take(7, 1), 71);
    has(&rt, &lists, 7, &[70, 75, 72, 73, 74]);
    lists.put(7, 76);
    has(&rt, &lists, 7, &[70, 75, 72, 73, 74, 76]);
    lists.set(7, 2, 77);
    has(&rt, &lists, 7, &[70, 75, 77, 73, 74, 76]);
    has(&rt, &lists, 8, &[80]);
    Ok(())
}

#[test]
fn refused_for_want_of_address_space(rt: HostRuntime) -> Result<(), Fail> {
    let mut lists = filled(&rt, rt.alloc())?;
    assert!(rt; lists.reserve(7, usize::MAX).is_err());
    assert!(rt; lists.reserve(9, usize::MAX).is_err());
    has(&rt, &lists, 7, &[70, 71, 72, 73, 74, 75]);
    has(&rt, &lists, 9, &[]);
    assert!(rt; lists.reserve(9, 0).is_ok());
    Ok(())
}
