//! Plans with parcels: a square of a metre, the same with an island, and their faults.
use crate::cases::check;
use std::test::Fail;

#[test]
fn plans_are_printed(rt: HostRuntime) -> Result<(), Fail> {
    let cases = "\
the square, printed
> plan,1; SQUARE; open; print
< plan,2; SQUARE; open

the text of the square, read again
> plan,2; SQUARE; open; print
< plan,2; SQUARE; open

the island, printed
> plan,1; CORNERS; ISLAND_CORNERS; parcel,1,A; parcel,2,B; SIDES; ISLAND_SIDES; open; print
< plan,2; CORNERS; ISLAND_CORNERS; parcel,1,A; parcel,2,B; SIDES; ISLAND_SIDES; open

records in another order, and a retired number
> plan,1; retired,7; SIDES; parcel,1,A; CORNERS; open; print
< plan,2; SQUARE; retired,7; open

two islands in the outside
> plan,1; CORNERS; point,5,2000,0; point,6,3000,0; point,7,3000,1000; parcel,1,A; parcel,2,B
> SIDES; string,15,5,6,2,0; string,16,6,7,2,0; string,17,7,5,2,0; open
";
    check(&rt, cases)
}

#[test]
fn points_among_strings(rt: HostRuntime) -> Result<(), Fail> {
    let cases = "\
points on points and on strings
> plan,1; SQUARE; open
> add-point,5,10000000000,0; add-point,6,10000000001,0; add-point,6,1000,1000; add-point,6,500,0
< ok; refused,1,range; refused,18,breaks,V3; refused,18,breaks,V4

a refusal between undo and redo
> plan,1; SQUARE; open; add-point,5,500,500; undo; drop-point,9; redo
< ok; ok; refused,2,unknown,point,9; ok

a point on a string isn't dropped, sources go to strings and parcels
> plan,1; SQUARE; open; drop-point,1; attach,string,11,1; attach,string,11,1; attach,string,9,1
> attach,parcel,1,9; attach,parcel,1,1; undo; print
< refused,7,not-free,point,1; ok; refused,15,already-attached
< refused,2,unknown,string,9; refused,2,unknown,source,9; ok; ok; plan,2; CORNERS; parcel,1,A
< string,11,1,2,1,0,1; string,12,2,3,1,0; string,13,3,4,1,0; string,14,4,1,1,0; open
";
    check(&rt, cases)
}

#[test]
fn faults_of_plans(rt: HostRuntime) -> Result<(), Fail> {
    let cases = "\
a string that ends nowhere
> plan,1; SQUARE; point,5,500,500; string,15,1,5,1,1; open
! 8 dangling string 15

an end that no other string has
> plan,1; SQUARE; point,5,500,500; string,15,1,5,1,0; open
! 8 dangling string 15

two strings between the same points
> plan,1; SQUARE; string,15,1,2,1,0; open
! 9 corner point 2

faces exchanged in one string
> plan,1; CORNERS; parcel,1,A
> string,11,1,2,1,0; string,12,2,3,1,0; string,13,3,4,0,1; string,14,4,1,1,0; open
! 10 labels string 12

faces exchanged in all strings
> plan,1; CORNERS; parcel,1,A
> string,11,1,2,0,1; string,12,2,3,0,1; string,13,3,4,0,1; string,14,4,1,0,1; open
! 11 breaks V7

no end of the plan
> plan,1; SQUARE
! 12 no-open

a coordinate past the limit of version 1
> plan,1; source,1,Plan 7; point,5,1000000001,0; open
! 4 range record 3

a point number twice
> plan,1; SQUARE; point,1,5,5; open
! 5 taken point 1

a parcel number twice is told before a string number
> plan,1; SQUARE; string,11,1,3,1,0; parcel,1,B; open
! 5 taken parcel 1

the number of a parcel retired
> plan,1; SQUARE; retired,1; open
! 5 taken parcel 1

a string number twice
> plan,1; SQUARE; string,11,1,3,1,0; retired,1; open
! 5 taken string 11

an unknown source of a string
> plan,1; CORNERS; parcel,1,A
> string,11,1,2,1,0; string,12,2,3,1,0; string,13,3,4,1,0; string,14,4,1,1,0,2; open
! 6 unknown source 2

an unknown face
> plan,1; CORNERS; parcel,1,A; string,11,1,2,9,0; open
! 6 unknown parcel 9

leading zeros in a point
> plan,1; point,05,5,5; SQUARE; open
! 3 syntax record 2

an island whose outer face is the outside
> plan,1; CORNERS; ISLAND_CORNERS; parcel,1,A; parcel,2,B; SIDES
> string,31,6,7,2,0; string,32,7,8,2,0; string,33,8,6,2,0; open
! 11 breaks V8

a parcel without a ring
> plan,1; SQUARE; parcel,2,B; open
! 11 breaks V7

strings that cross
> plan,1; SQUARE
> point,5,-500,300; point,6,500,300; point,7,500,600; parcel,2,B; string,15,5,6,2,0
> string,16,6,7,2,0; string,17,7,5,2,0; open
! 11 breaks V4
";
    check(&rt, cases)
}
