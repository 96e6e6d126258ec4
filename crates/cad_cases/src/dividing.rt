//! Parcels and the outside divided along chains, and what becomes of their holes.
use crate::cases::check;
use std::test::Fail;

#[test]
fn parcels_divided(rt: HostRuntime) -> Result<(), Fail> {
    let cases = "\
the square divided along its diagonal
> plan,1; SQUARE; open; divide,1,1 3,21,2,C,1; areas; outline,2
< ok; area,1,A,1000000,0.50; area,2,C,1000000,0.50; end; ring,2,outer,1 3 4; end

the same diagonal the other way: what is left of it is the new parcel
> plan,1; SQUARE; open; divide,1,3 1,21,2,C,1; outline,2
< ok; ring,2,outer,1 2 3; end

a division undone and redone
> plan,1; SQUARE; open; divide,1,1 3,21,2,C,1; undo; print; redo; outline,2
< ok; ok; plan,2; SQUARE; open; ok; ring,2,outer,1 3 4; end

the divided square, printed
> plan,1; SQUARE; open; divide,1,1 3,21,2,C,1; print
< ok; plan,2; source,1,Plan 7; point,1,0,0,1; point,2,1000,0; point,3,1000,1000; point,4,0,1000
< parcel,1,A; parcel,2,C,1; string,11,1,2,1,0; string,12,2,3,1,0; string,13,3,4,2,0
< string,14,4,1,2,0; string,21,1,3,2,1,1; open

an inner point, a second division, and a point moved past the other line
> plan,1; SQUARE; open
> add-point,5,400,600; divide,1,1 5 3,21 22,2,C,1; divide,1,1 3,23,3,D,1; areas; move,5,600,400
< ok; ok; ok; area,1,A,1000000,0.50; area,2,C,800000,0.40; area,3,D,200000,0.10; end
< refused,18,breaks,V6

a ring that passes a point twice
> plan,1; PINCH; open
> divide,2,1 3,41,9,C,1; outline,1; outline,2; divide,2,5 3,43,9,C,1; outline,2; outline,9
< refused,10,not-in-parcel,point,1; ring,1,outer,1 3 2 1 6 7 8 9; end
< ring,2,outer,1 2 3 1 5 4; end; ok; ring,2,outer,1 2 3 5 4; end; ring,9,outer,1 5 3; end
";
    check(&rt, cases)
}

#[test]
fn holes_of_divided_faces(rt: HostRuntime) -> Result<(), Fail> {
    let cases = "\
an island that stays
> plan,1; SQUARE; ISLAND; open; divide,1,1 3,21,3,C,1; areas; outline,1
< ok; area,1,A,980000,0.49; area,2,B,20000,0.01; area,3,C,1000000,0.50; end
< ring,1,outer,1 2 3; ring,1,hole,6 8 7; end

an island that goes to the new parcel
> plan,1; SQUARE; ISLAND; open; divide,1,3 1,21,3,C,1; areas; outline,1; outline,3
< ok; area,1,A,1000000,0.50; area,2,B,20000,0.01; area,3,C,980000,0.49; end
< ring,1,outer,1 3 4; end; ring,3,outer,1 2 3; ring,3,hole,6 8 7; end

an island that a moved point leaves outside
> plan,1; SQUARE; ISLAND; open; move,3,400,400
< refused,18,breaks,V8

a parcel put on the outside, where the chain's direction matters
> plan,1; SQUARE; open
> add-point,5,2000,500; divide,0,3 5 2,22 23,2,C,1; divide,0,2 5 3,22 23,2,C,1; areas; outline,0
< ok; refused,18,breaks,V7; ok; area,1,A,2000000,1.00; area,2,C,1000000,0.50; end
< ring,0,hole,1 4 3 5 2; end

an island of the outside that the new parcel surrounds
> plan,1; SQUARE
> point,5,1200,300; point,6,1500,300; point,7,1500,600; parcel,2,B; string,15,5,6,2,0
> string,16,6,7,2,0; string,17,7,5,2,0; open
> add-point,8,2000,0; add-point,9,2000,1000; divide,0,2 8 9 3,21 22 23,3,C,1
> outline,0; outline,3
< ok; ok; ok; ring,0,hole,1 4 3 9 8 2; end; ring,3,outer,2 8 9 3; ring,3,hole,5 7 6; end

a chain from a hole to the same hole
> plan,1; SQUARE; ISLAND; open
> add-point,9,900,400; divide,1,7 9 8,41 42,3,C,1; outline,1; outline,3; undo
> divide,1,8 9 7,41 42,3,C,1
< ok; ok; ring,1,outer,1 2 3 4; ring,1,hole,6 8 9 7; end; ring,3,outer,7 9 8; end; ok
< refused,18,breaks,V7

a chain from the outline to a hole
> plan,1; SQUARE; ISLAND; open; divide,1,2 7,21,3,C,1
< refused,11,chain-joins-rings
";
    check(&rt, cases)
}
