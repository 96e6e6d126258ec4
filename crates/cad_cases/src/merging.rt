//! Parcels merged along chains and with their islands, the numbers that retire, and what is refused.
use crate::cases::check;
use std::test::Fail;

#[test]
fn parcels_merged_along_chains(rt: HostRuntime) -> Result<(), Fail> {
    let cases = "\
the divided square merged again, printed
> plan,1; SQUARE; open; divide,1,1 3,21,2,C,1; merge,1,2; print
< ok; ok; plan,2; SQUARE; retired,2; open

an inner point that stays as a free point, and the merger undone
> plan,1; SQUARE; open
> add-point,5,400,600; divide,1,1 5 3,21 22,2,C,1; merge,1,2; outline,1; drop-point,5
> undo; undo; outline,2
< ok; ok; ok; ring,1,outer,1 2 3 4; end; ok; ok; ok; ring,2,outer,1 5 3 4; end

an island of the ended parcel that the kept one takes over
> plan,1; SQUARE; ISLAND; open; divide,1,3 1,21,3,C,1; merge,1,3; outline,1
< ok; ok; ring,1,outer,1 2 3 4; ring,1,hole,6 8 7; end

an island of the kept parcel, which keeps it
> plan,1; SQUARE; ISLAND; open; divide,1,1 3,21,3,C,1; merge,1,3; outline,1
< ok; ok; ring,1,outer,1 2 3 4; ring,1,hole,6 8 7; end
";
    check(&rt, cases)
}

#[test]
fn numbers_that_retire(rt: HostRuntime) -> Result<(), Fail> {
    let cases = "\
a number that is free again once the merger is undone
> plan,1; SQUARE; open
> divide,1,1 3,21,2,C,1; merge,1,2; divide,1,1 3,21,2,C,1; undo; divide,1,1 3,22,2,C,1
> undo; divide,1,1 3,22,2,C,1
< ok; ok; refused,4,retired,parcel,2; ok; refused,3,taken,parcel,2; ok; ok

names and numbers in use before a retired number, and that before the corners
> plan,1; SQUARE; open
> divide,1,1 3,21,2,C,1; merge,1,2; divide,1,1 3,11,2,C,1; divide,1,9 3,21,2,C,1
> divide,1,1 2,21,2,C,1
< ok; ok; refused,3,taken,string,11; refused,2,unknown,point,9; refused,4,retired,parcel,2

a number that the plan retired
> plan,1; SQUARE; retired,7; open
> divide,1,1 3,21,7,C,1; divide,1,1 3,21,2,C,1; merge,1,2; undo; undo; undo
> divide,1,1 3,21,7,C,1
< refused,4,retired,parcel,7; ok; ok; ok; ok; nothing; refused,4,retired,parcel,7
";
    check(&rt, cases)
}

#[test]
fn islands_merged(rt: HostRuntime) -> Result<(), Fail> {
    let cases = "\
either parcel may be the kept one
> plan,1; SQUARE; ISLAND; open
> merge,1,2; areas; outline,1; undo; outline,2; merge,2,1; areas; outline,2
< ok; area,1,A,2000000,1.00; end; ring,1,outer,1 2 3 4; end; ok; ring,2,outer,6 7 8
< end; ok; area,2,B,2000000,1.00; end; ring,2,outer,1 2 3 4; end

the island kept, printed
> plan,1; SQUARE; ISLAND; open; merge,2,1; outline,2; print
< ok; ring,2,outer,1 2 3 4; end; plan,2; CORNERS; ISLAND_CORNERS
< parcel,2,B; string,11,1,2,2,0; string,12,2,3,2,0; string,13,3,4,2,0
< string,14,4,1,2,0; retired,1; open

a divided island, taken in part by part
> plan,1; SQUARE; ISLAND; open
> add-point,9,760,350; divide,2,7 9 6,41 42,3,C,1; outline,2; outline,3; merge,1,3
> outline,1; merge,1,2; outline,1; print
< ok; ok; ring,2,outer,6 9 7 8; end; ring,3,outer,6 7 9; end; ok; ring,1,outer,1 2 3 4
< ring,1,hole,6 8 7 9; end; ok; ring,1,outer,1 2 3 4; end; plan,2; CORNERS; ISLAND_CORNERS
< point,9,760,350; parcel,1,A; SIDES; retired,3; retired,2; open
";
    check(&rt, cases)
}

#[test]
fn mergers_refused(rt: HostRuntime) -> Result<(), Fail> {
    let cases = "\
unknown parcels, the outside, and a parcel with itself
> plan,1; SQUARE; open
> merge,9,8; merge,0,8; merge,9,0; merge,0,9; merge,0,0; merge,1,0; merge,1,1
< refused,2,unknown,parcel,9; refused,2,unknown,parcel,8; refused,2,unknown,parcel,9
< refused,2,unknown,parcel,9; refused,5,outside; refused,5,outside; refused,12,same-parcel

a common boundary in two parts
> plan,1; SQUARE; open; add-point,5,300,300; add-point,6,700,700; add-point,7,700,300
> divide,1,1 5 6 3,21 22 23,2,C,1; divide,1,5 7 6,24 25,3,D,1; merge,1,2
< ok; ok; ok; ok; ok; refused,14,not-one-chain

parcels without a common boundary
> plan,1; SQUARE; open
> divide,1,1 3,21,2,C,1; add-point,5,2000,500; divide,0,2 5 3,22 23,3,D,1; merge,2,3
< ok; ok; ok; refused,13,not-neighbours

parcels that meet in a point, and common boundaries that close there
> plan,1; PINCH; open; merge,1,3; merge,1,2; merge,2,1; merge,2,3; merge,3,2
< refused,13,not-neighbours; refused,14,not-one-chain; refused,14,not-one-chain
< refused,14,not-one-chain; refused,14,not-one-chain
";
    check(&rt, cases)
}
