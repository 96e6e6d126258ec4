//! Sources, points and attachments.
use crate::cases::{check, check_at};
use std::test::Fail;

#[test]
fn points_and_sources(rt: HostRuntime) -> Result<(), Fail> {
    let cases = "\
an undo on the empty map
> plan,1; open; undo
< nothing

the first run
> plan,1; open; add-source,1,Plan 7; add-point,1,0,0; attach,point,1,1; undo; redo
> undo; undo; undo; undo; print
< ok; ok; ok; ok; ok; ok; ok; ok; nothing; plan,2; open

a seventeenth source attached
> plan,1; source,1,S1; source,2,S2; source,3,S3; source,4,S4; source,5,S5; source,6,S6
> source,7,S7; source,8,S8; source,9,S9; source,10,S10; source,11,S11; source,12,S12
> source,13,S13; source,14,S14; source,15,S15; source,16,S16; source,17,S17
> point,1,0,0,1 2 3 4 5 6 7 8 9 10 11 12 13 14 15 16; open; attach,point,1,17
< refused,17,full

a seventeenth source in a plan
> plan,1; point,1,0,0,1 2 3 4 5 6 7 8 9 10 11 12 13 14 15 16 17; open
! 7 full

a refusal, a record that is none and a print leave redo open
> plan,1; open; add-point,5,500,500; undo; drop-point,9; frob; print; redo
< ok; ok; refused,2,unknown,point,9; syntax; plan,2; open; ok

coordinates and numbers at their limits
> plan,1; open; add-point,5,10000000000,-10000000000; add-point,6,10000000001,0
> add-point,6,0,-10000000001; add-point,6,999999999999999999,0
> add-point,6,1000000000000000000,0; add-point,6,-0,0; add-point,6,+5,0
> add-point,6,,0; add-point,1000000000,5,5; add-point,05,5,5; add-point,999999999,5,5
< ok; refused,1,range; refused,1,range; refused,1,range; syntax; syntax; syntax
< syntax; syntax; syntax; ok

the order of refusals
> plan,1; open; add-source,1,A; add-point,1,0,0; add-point,1,99999999999,0
> add-point,1,5,5; add-source,1,B; add-point,2,0,0; attach,point,9,9; attach,point,1,9
> attach,string,9,1; attach,parcel,9,1; attach,point,1,1; attach,point,1,1
> drop-point,1; drop-point,1
< ok; ok; refused,1,range; refused,3,taken,point,1; refused,3,taken,source,1
< refused,18,breaks,V3; refused,2,unknown,point,9; refused,2,unknown,source,9
< refused,2,unknown,string,9; refused,2,unknown,parcel,9; ok
< refused,15,already-attached; ok; refused,2,unknown,point,1

a row put last where its number stood before, and undone into its old place
> plan,1; open; add-source,2,S; add-source,1,R; add-point,5,5,5; add-point,6,6,7
> attach,point,5,2; attach,point,5,1; drop-point,5; add-point,5,5,5; print; undo; undo; print
< ok; ok; ok; ok; ok; ok; ok; ok; plan,2; source,2,S; source,1,R; point,6,6,7
< point,5,5,5; open; ok; ok; plan,2; source,2,S; source,1,R; point,5,5,5,2 1; point,6,6,7; open
";
    check(&rt, cases)
}

/// Undo reaches as far back as the depth, and no further.
#[test]
fn undo_at_a_depth(rt: HostRuntime) -> Result<(), Fail> {
    let depth_1 = "\
a redo that an edit closes, at depth 1
> plan,1; SQUARE; open; add-point,5,500,500; add-point,6,600,600; undo; undo; redo; redo
< ok; ok; ok; nothing; ok; nothing
";
    check_at(&rt, 1, depth_1)?;
    let depth_2 = "\
undo down to the depth, and a new edit after it
> plan,1; SQUARE; open
> add-point,5,100,500; add-point,6,200,500; add-point,7,300,500; undo; undo; undo
> add-point,8,400,500; undo; undo
< ok; ok; ok; ok; ok; nothing; ok; ok; nothing
";
    check_at(&rt, 2, depth_2)?;
    Ok(())
}
