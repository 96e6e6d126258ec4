//! Boundaries adjusted: strings split and joined, points moved, labels and sources changed, and each undone.
use crate::cases::check;
use std::test::Fail;

#[test]
fn strings_split_and_joined(rt: HostRuntime) -> Result<(), Fail> {
    let cases = "\
a string split, and undone
> plan,1; SQUARE; open; split,11,5,500,0,22,23; areas; print; undo; print
< ok; area,1,A,2000000,1.00; end; plan,2
< source,1,Plan 7; point,1,0,0,1; point,2,1000,0; point,3,1000,1000; point,4,0,1000
< point,5,500,0; parcel,1,A; string,12,2,3,1,0; string,13,3,4,1,0; string,14,4,1,1,0
< string,22,1,5,1,0; string,23,5,2,1,0; open; ok; plan,2; SQUARE; open

two strings joined, and undone
> plan,1; SQUARE; open; join,1,21; areas; join,2,22; undo; print
< ok; area,1,A,1000000,0.50; end; refused,18,breaks,V4; ok; plan,2; SQUARE; open

the string that two are joined to
> plan,1; SQUARE; open; join,1,21; print
< ok; plan,2; source,1,Plan 7; point,2,1000,0; point,3,1000,1000; point,4,0,1000; parcel,1,A
< string,12,2,3,1,0; string,13,3,4,1,0; string,21,2,4,0,1; open

numbers that the edit itself would free
> plan,1; SQUARE; open; split,11,5,500,0,11,22; split,11,5,500,0,22,11; join,1,11; join,1,14
> split,11,5,500,0,12,12; split,11,5,500,0,22,22
< refused,3,taken,string,11; refused,3,taken,string,11; refused,3,taken,string,11
< refused,3,taken,string,14; refused,3,taken,string,12; refused,9,bad-chain

several numbers in use, and several unknown
> plan,1; SQUARE; open; split,11,1,0,0,12,13; split,11,5,0,0,13,12; split,11,5,0,0,22,12
> split,9,1,0,0,11,12; join,9,11; move,9,99999999999,0; split,99,1,99999999999,0,11,11
< refused,3,taken,point,1; refused,3,taken,string,13; refused,3,taken,string,12
< refused,2,unknown,string,9; refused,2,unknown,point,9; refused,1,range; refused,1,range

the sources of both halves and of two joined strings
> plan,1; SQUARE; open
> add-source,2,Plan 8; attach,string,11,2; attach,string,14,1; attach,string,14,2
> split,11,5,500,0,22,23; join,1,24; print
< ok; ok; ok; ok; ok; ok; plan,2
< source,1,Plan 7; source,2,Plan 8; point,2,1000,0; point,3,1000,1000; point,4,0,1000
< point,5,500,0; parcel,1,A; string,12,2,3,1,0; string,13,3,4,1,0; string,23,5,2,1,0,2
< string,24,4,5,1,0,1 2; open
";
    check(&rt, cases)
}

#[test]
fn points_moved_and_items_changed(rt: HostRuntime) -> Result<(), Fail> {
    let cases = "\
a point moved across a string
> plan,1; SQUARE; open; move,3,500,-500
< refused,18,breaks,V4

a point moved so that the parcel is turned round
> plan,1; SQUARE; open; move,3,-1000,-1000
< refused,18,breaks,V7

one refusal each
> plan,1; SQUARE; open
> move,3,1000,1000; rename,1,A; drop-point,1; add-point,1,5,5; attach,point,1,1
> detach,point,2,1; attach,parcel,1,9; add-point,5,500,500; join,5,21
< refused,6,no-change; refused,6,no-change; refused,7,not-free,point,1
< refused,3,taken,point,1; refused,15,already-attached; refused,16,not-attached
< refused,2,unknown,source,9; ok; refused,8,not-degree-two,point,5

a parcel renamed, a point moved, a source detached
> plan,1; SQUARE; open; frob; split,011,5,500,0,22,23; rename,1,\"North, B\"; move,3,1200,1000
> detach,point,1,1; detach,point,1,1; undo; undo; redo; areas
< syntax; syntax; ok; ok; ok; refused,16,not-attached; ok; ok; ok
< area,1,\"North, B\",2200000,1.10; end

an item before its source
> plan,1; SQUARE; open
> attach,point,9,9; attach,point,1,9; detach,point,1,9; detach,string,9,1; rename,9,X
< refused,2,unknown,point,9; refused,2,unknown,source,9; refused,2,unknown,source,9
< refused,2,unknown,string,9; refused,2,unknown,parcel,9
";
    check(&rt, cases)
}
