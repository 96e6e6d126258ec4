//! Closed chains made islands: in the outside, in a parcel, round another island, and what is refused.
use crate::cases::check;
use std::test::Fail;

#[test]
fn islands_enclosed(rt: HostRuntime) -> Result<(), Fail> {
    let cases = "\
the first parcel of an empty map
> plan,1; open
> add-source,1,Plan 7; add-point,1,0,0; add-point,2,1000,0; add-point,3,1000,1000
> add-point,4,0,1000
> enclose,0,4 3 2 1,11 12 13 14,1,A,1; enclose,0,1 2 3 4,11 12 13 14,1,A,1; areas
> outline,0; undo; redo; print
< ok; ok; ok; ok; ok; refused,18,breaks,V7; ok; area,1,A,2000000,1.00; end
< ring,0,hole,1 4 3 2; end; ok; ok; plan,2
< source,1,Plan 7; point,1,0,0; point,2,1000,0; point,3,1000,1000; point,4,0,1000
< parcel,1,A,1; string,11,1,2,1,0,1; string,12,2,3,1,0,1; string,13,3,4,1,0,1
< string,14,4,1,1,0,1; open

a parcel round an island, in the one face that fits, and undone
> plan,1; SQUARE; ISLAND; open; add-point,9,600,100; add-point,10,900,100; add-point,11,900,700
> add-point,12,600,700; enclose,2,9 10 11 12,41 42 43 44,3,C,1
> enclose,0,9 10 11 12,41 42 43 44,3,C,1; enclose,1,9 10 11 12,41 42 43 44,3,C,1
> outline,1; outline,3; areas; undo; print
< ok; ok; ok; ok; refused,18,breaks,V8; refused,18,breaks,V8; ok; ring,1,outer,1 2 3 4
< ring,1,hole,9 12 11 10; end; ring,3,outer,9 10 11 12; ring,3,hole,6 8 7; end
< area,1,A,1640000,0.82; area,2,B,20000,0.01; area,3,C,340000,0.17; end; ok; plan,2
< source,1,Plan 7; point,1,0,0,1; point,2,1000,0; point,3,1000,1000; point,4,0,1000
< point,6,700,300; point,7,800,300; point,8,800,500; point,9,600,100; point,10,900,100
< point,11,900,700; point,12,600,700; parcel,1,A; parcel,2,B; string,11,1,2,1,0
< string,12,2,3,1,0; string,13,3,4,1,0; string,14,4,1,1,0; string,31,6,7,2,1
< string,32,7,8,2,1; string,33,8,6,2,1; open

a face where the points don't lie, and a list that runs clockwise
> plan,1; SQUARE; ISLAND; open; add-point,9,100,100; add-point,10,200,100; add-point,11,200,200
> enclose,0,9 10 11,41 42 43,3,C,1; enclose,2,9 10 11,41 42 43,3,C,1
> enclose,1,11 10 9,41 42 43,3,C,1; enclose,1,11 9 10,41 42 43,3,C,1; outline,3
< ok; ok; ok; refused,18,breaks,V8; refused,18,breaks,V8; refused,18,breaks,V7; ok
< ring,3,outer,9 10 11; end

islands of the outside in order of their numbers
> plan,1; open; add-source,1,S; add-point,10,0,0; add-point,11,10,0; add-point,12,0,10
> add-point,9,100,0; add-point,20,110,0; add-point,21,100,10
> enclose,0,10 11 12,1 2 3,1,A,1; enclose,0,9 20 21,4 5 6,2,B,1; outline,0
< ok; ok; ok; ok; ok; ok; ok; ok; ok; ring,0,hole,9 21 20; ring,0,hole,10 12 11; end
";
    check(&rt, cases)
}

#[test]
fn enclosures_refused(rt: HostRuntime) -> Result<(), Fail> {
    let cases = "\
a point on strings, and a list that is too short
> plan,1; SQUARE; open
> enclose,1,1 2 3,21 22 23,2,C,1; enclose,1,1 2,21 22,2,C,1; enclose,1,,,2,C,1
> enclose,1,2,21,2,C,1; add-point,5,500,500; add-point,6,600,500; enclose,1,5 6,21 22,2,C,1
< refused,7,not-free,point,1; refused,7,not-free,point,1; refused,9,bad-chain
< refused,7,not-free,point,2; ok; ok; refused,9,bad-chain

unknown names, numbers in use, a retired number, and lists that are no closed chain
> plan,1; SQUARE; point,5,500,500; point,6,600,500; point,7,600,600; retired,7; open
> enclose,9,5 6 8,11 12 13,1,C,6; enclose,1,5 6 8,11 12 13,1,C,6
> enclose,1,5 6 7,11 12 13,1,C,6; enclose,1,5 6 7,21 12 11,1,C,1
> enclose,1,5 6 7,21 22 23,1,C,1; enclose,1,5 6 1,21 22 23,7,C,1
> enclose,1,5 6 7,21 22,2,C,1; enclose,1,5 6 5,21 22 23,2,C,1
> enclose,1,5 6 7,21 22 21,2,C,1; enclose,1,5 6 7,21 22 23,2,C,1
< refused,2,unknown,parcel,9; refused,2,unknown,point,8; refused,2,unknown,source,6
< refused,3,taken,string,12; refused,3,taken,parcel,1; refused,4,retired,parcel,7
< refused,9,bad-chain; refused,9,bad-chain; refused,9,bad-chain; ok

an island enclosed and merged away, which retires its number
> plan,1; SQUARE; point,5,500,500; point,6,600,500; point,7,600,600; open
> enclose,1,5 6 7,21 22 23,2,C,1; merge,1,2; enclose,1,5 6 7,21 22 23,2,C,1
> drop-point,5; outline,1
< ok; ok; refused,4,retired,parcel,2; ok; ring,1,outer,1 2 3 4; end
";
    check(&rt, cases)
}
