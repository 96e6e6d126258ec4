//! Edits of points, strings and rows, on both stores.
use crate::plans::SQUARE;
use crate::plans_after::{
    DETACHED, EMPTY, JOINED, MOVED, RENAMED, SPLIT, WITH_ATTACHED, WITH_ORIGIN, WITH_POINT,
    WITH_POINTS, WITH_SOURCE,
};
use crate::steps::{check_steps, made, refused};
use std::test::Fail;

#[test]
fn edits_of_strings_again(rt: HostRuntime) -> Result<(), Fail> {
    check_steps(
        &rt,
        &[
            made(SQUARE, "split,11,5,500,0,22,23", SPLIT),
            made(SQUARE, "join,1,21", JOINED),
            refused(JOINED, "join,2,22", "18,breaks,V4"),
        ],
    )
}

#[test]
fn edits_of_points_again(rt: HostRuntime) -> Result<(), Fail> {
    check_steps(
        &rt,
        &[
            refused(SQUARE, "move,3,500,-500", "18,breaks,V4"),
            refused(SQUARE, "move,3,-1000,-1000", "18,breaks,V7"),
            refused(SQUARE, "add-point,6,10000000001,0", "1,range"),
            refused(SQUARE, "add-point,6,1000,1000", "18,breaks,V3"),
            refused(SQUARE, "add-point,6,500,0", "18,breaks,V4"),
            made(SQUARE, "add-point,5,500,500", WITH_POINT),
            made(WITH_POINT, "add-point,6,600,600", WITH_POINTS),
            refused(SQUARE, "drop-point,9", "2,unknown,point,9"),
            made(WITH_POINT, "drop-point,5", SQUARE),
        ],
    )
}

#[test]
fn edits_of_rows_again(rt: HostRuntime) -> Result<(), Fail> {
    check_steps(
        &rt,
        &[
            made(SQUARE, "rename,1,\"North, B\"", RENAMED),
            made(RENAMED, "move,3,1200,1000", MOVED),
            made(MOVED, "detach,point,1,1", DETACHED),
            refused(DETACHED, "detach,point,1,1", "16,not-attached"),
            made(DETACHED, "attach,point,1,1", MOVED),
            made(EMPTY, "add-source,1,Plan 7", WITH_SOURCE),
            made(WITH_SOURCE, "add-point,1,0,0", WITH_ORIGIN),
            made(WITH_ORIGIN, "attach,point,1,1", WITH_ATTACHED),
        ],
    )
}
