//! Areas and outlines of the square of a metre, and of the same with an island.
use crate::cases::check;
use std::test::Fail;

#[test]
fn areas_of_parcels(rt: HostRuntime) -> Result<(), Fail> {
    let cases = "\
the area of the square
> plan,1; SQUARE; open; areas; undo
< area,1,A,2000000,1.00; end; nothing

the areas of the square and its island
> plan,1; SQUARE; ISLAND; open; areas
< area,1,A,1980000,0.99; area,2,B,20000,0.01; end

parcels in order of entry
> plan,1; parcel,2,B; parcel,1,A; point,1,0,0; point,2,1000,0; point,3,1000,1000; point,4,0,1000
> string,11,1,2,1,0; string,12,2,3,1,0; string,13,3,1,1,2; string,14,3,4,2,0; string,15,4,1,2,0
> open; areas
< area,2,B,1000000,0.50; area,1,A,1000000,0.50; end

the largest square that there can be
> plan,2; point,1,-10000000000,-10000000000; point,2,10000000000,-10000000000
> point,3,10000000000,10000000000; point,4,-10000000000,10000000000; parcel,1,A
> string,11,1,2,1,0; string,12,2,3,1,0; string,13,3,4,1,0; string,14,4,1,1,0; open; areas
< area,1,A,800000000000000000000,400000000000000.00; end

a map without parcels
> plan,1; open; areas; outline,0; areas,1
< end; end; syntax
";
    check(&rt, cases)
}

#[test]
fn outlines_of_faces(rt: HostRuntime) -> Result<(), Fail> {
    let cases = "\
a hole after the outline
> plan,1; SQUARE; ISLAND; open; outline,1
< ring,1,outer,1 2 3 4; ring,1,hole,6 8 7; end

the outside
> plan,1; SQUARE; open; outline,0
< ring,0,hole,1 4 3 2; end

two holes of the outside
> plan,1; SQUARE
> point,5,2000,0; point,6,3000,0; point,7,3000,1000; parcel,2,B; string,15,5,6,2,0
> string,16,6,7,2,0; string,17,7,5,2,0; open; outline,0
< ring,0,hole,1 4 3 2; ring,0,hole,5 7 6; end

an unknown parcel, which changes nothing
> plan,1; SQUARE; open; outline,9; undo; outline,1
< refused,2,unknown,parcel,9; nothing; ring,1,outer,1 2 3 4; end
";
    check(&rt, cases)
}
