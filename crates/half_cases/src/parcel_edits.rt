//! Parcels divided, enclosed and merged, on both stores.
use crate::plans::{ISLAND, PINCH, SQUARE};
use crate::plans_after::{DIVIDED, DIVIDED_ISLAND};
use crate::plans_divided::{
    BENT, BENT_TWICE, BESIDE, NOTCHED, PINCH_DIVIDED, POCKET, SURROUNDED, TURNED, TURNED_ISLAND,
    TWO_ISLANDS, WITH_BEND, WITH_NOTCH, WITH_POCKET, WITH_POINT_BESIDE,
};
use crate::plans_enclosed::{FIRST_PARCEL, FRAMED, FREE_CORNERS, WITH_FRAME};
use crate::plans_merged::{
    APART, BENT_MERGED, FRAME_KEPT, FRAME_MERGED, ISLAND_KEPT, ISLAND_MERGED, ISLAND_TAKEN_OVER,
    MERGED, MERGED_INTO_NEW, NOTCH_MERGED, PART_TAKEN_IN, PARTED, PARTS_TAKEN_IN, PINCH_MERGED,
};
use crate::steps::{check_steps, made, refused};
use std::test::Fail;

#[test]
fn divisions_again(rt: HostRuntime) -> Result<(), Fail> {
    check_steps(
        &rt,
        &[
            made(SQUARE, "divide,1,1 3,21,2,C,1", DIVIDED),
            made(SQUARE, "divide,1,3 1,21,2,C,1", TURNED),
            made(WITH_BEND, "divide,1,1 5 3,21 22,2,C,1", BENT),
            made(BENT, "divide,1,1 3,23,3,D,1", BENT_TWICE),
            refused(BENT_TWICE, "move,5,600,400", "18,breaks,V6"),
            made(WITH_POCKET, "divide,1,5 7 6,24 25,3,D,1", POCKET),
        ],
    )
}

#[test]
fn divisions_round_holes_again(rt: HostRuntime) -> Result<(), Fail> {
    check_steps(
        &rt,
        &[
            made(ISLAND, "divide,1,1 3,21,3,C,1", DIVIDED_ISLAND),
            made(ISLAND, "divide,1,3 1,21,3,C,1", TURNED_ISLAND),
            made(WITH_NOTCH, "divide,1,7 9 8,41 42,3,C,1", NOTCHED),
            refused(WITH_NOTCH, "divide,1,8 9 7,41 42,3,C,1", "18,breaks,V7"),
        ],
    )
}

#[test]
fn divisions_of_the_outside_again(rt: HostRuntime) -> Result<(), Fail> {
    check_steps(
        &rt,
        &[
            refused(
                WITH_POINT_BESIDE,
                "divide,0,3 5 2,22 23,2,C,1",
                "18,breaks,V7",
            ),
            made(WITH_POINT_BESIDE, "divide,0,2 5 3,22 23,2,C,1", BESIDE),
            made(TWO_ISLANDS, "divide,0,2 8 9 3,21 22 23,3,C,1", SURROUNDED),
        ],
    )
}

#[test]
fn divisions_refused(rt: HostRuntime) -> Result<(), Fail> {
    check_steps(
        &rt,
        &[
            refused(ISLAND, "divide,1,2 7,21,3,C,1", "11,chain-joins-rings"),
            refused(ISLAND, "divide,1,2 4,21,3,C,1", "18,breaks,V4"),
            refused(SQUARE, "divide,1,1 3,21 22,2,C,1", "9,bad-chain"),
            refused(SQUARE, "divide,1,1 2,21,2,C,1", "10,not-in-parcel,point,1"),
            refused(SQUARE, "divide,1,1 2 3,21 22,2,C,1", "7,not-free,point,2"),
            refused(DIVIDED, "divide,1,1 3,22,2,C,1", "3,taken,parcel,2"),
            refused(MERGED, "divide,1,1 3,21,2,C,1", "4,retired,parcel,2"),
        ],
    )
}

#[test]
fn enclosures_again(rt: HostRuntime) -> Result<(), Fail> {
    check_steps(
        &rt,
        &[
            made(
                FREE_CORNERS,
                "enclose,0,1 2 3 4,11 12 13 14,1,A,1",
                FIRST_PARCEL,
            ),
            made(WITH_FRAME, "enclose,1,9 10 11 12,41 42 43 44,3,C,1", FRAMED),
        ],
    )
}

#[test]
fn enclosures_refused(rt: HostRuntime) -> Result<(), Fail> {
    check_steps(
        &rt,
        &[
            refused(
                FREE_CORNERS,
                "enclose,0,4 3 2 1,11 12 13 14,1,A,1",
                "18,breaks,V7",
            ),
            refused(
                WITH_FRAME,
                "enclose,2,9 10 11 12,41 42 43 44,3,C,1",
                "18,breaks,V8",
            ),
            refused(
                WITH_FRAME,
                "enclose,1,9 10 11,41 42 43,3,C,1",
                "18,breaks,V4",
            ),
            refused(WITH_FRAME, "enclose,1,9 10,41 42,3,C,1", "9,bad-chain"),
            refused(
                SQUARE,
                "enclose,1,1 2 3,21 22 23,2,C,1",
                "7,not-free,point,1",
            ),
        ],
    )
}

#[test]
fn mergers_along_chains_again(rt: HostRuntime) -> Result<(), Fail> {
    check_steps(
        &rt,
        &[
            made(DIVIDED, "merge,1,2", MERGED),
            made(DIVIDED, "merge,2,1", MERGED_INTO_NEW),
            made(BENT, "merge,1,2", BENT_MERGED),
            made(BENT_MERGED, "drop-point,5", MERGED),
            made(DIVIDED_ISLAND, "merge,1,3", ISLAND_TAKEN_OVER),
            made(TURNED_ISLAND, "merge,1,3", ISLAND_TAKEN_OVER),
            made(NOTCHED, "merge,1,3", NOTCH_MERGED),
        ],
    )
}

#[test]
fn mergers_of_islands_again(rt: HostRuntime) -> Result<(), Fail> {
    check_steps(
        &rt,
        &[
            made(ISLAND, "merge,1,2", ISLAND_MERGED),
            made(ISLAND, "merge,2,1", ISLAND_KEPT),
            made(FRAMED, "merge,1,3", FRAME_MERGED),
            made(FRAMED, "merge,3,1", FRAME_KEPT),
            made(PARTED, "merge,1,3", PART_TAKEN_IN),
            made(PART_TAKEN_IN, "merge,1,2", PARTS_TAKEN_IN),
        ],
    )
}

#[test]
fn mergers_refused(rt: HostRuntime) -> Result<(), Fail> {
    check_steps(
        &rt,
        &[
            refused(SQUARE, "merge,9,8", "2,unknown,parcel,9"),
            refused(SQUARE, "merge,1,0", "5,outside"),
            refused(SQUARE, "merge,0,1", "5,outside"),
            refused(SQUARE, "merge,1,1", "12,same-parcel"),
            refused(APART, "merge,2,3", "13,not-neighbours"),
            refused(POCKET, "merge,1,2", "14,not-one-chain"),
        ],
    )
}

#[test]
fn edits_where_a_ring_passes_a_point_twice_again(rt: HostRuntime) -> Result<(), Fail> {
    check_steps(
        &rt,
        &[
            refused(PINCH, "divide,2,1 3,41,9,C,1", "10,not-in-parcel,point,1"),
            made(PINCH, "divide,2,5 3,43,9,C,1", PINCH_DIVIDED),
            made(PINCH_DIVIDED, "merge,2,9", PINCH_MERGED),
            refused(PINCH, "merge,1,3", "13,not-neighbours"),
            refused(PINCH, "merge,1,2", "14,not-one-chain"),
            refused(PINCH, "merge,3,2", "14,not-one-chain"),
        ],
    )
}
