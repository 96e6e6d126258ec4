//! Chains that divide nothing: why a division is refused, and in which order that is looked at.
use crate::cases::check;
use std::test::Fail;

#[test]
fn divisions_refused(rt: HostRuntime) -> Result<(), Fail> {
    let cases = "\
a string too many, a border, and an inner point on strings
> plan,1; SQUARE; open
> divide,1,1 3,21 22,2,C,1; divide,1,1 2,21,2,C,1; divide,1,1 2 3,21 22,2,C,1
< refused,9,bad-chain; refused,10,not-in-parcel,point,1; refused,7,not-free,point,2

unknown names, then numbers in use
> plan,1; SQUARE; open; divide,9,8 7,11,1,C,6; divide,1,1 8 7,11,1,C,6; divide,1,1 3,11,1,C,6
> divide,1,1 3,21 12 11,1,C,1; divide,1,1 3,21,1,C,1
< refused,2,unknown,parcel,9; refused,2,unknown,point,8; refused,2,unknown,source,6
< refused,3,taken,string,12; refused,3,taken,parcel,1

inner points on strings, then lists that are no chain
> plan,1; SQUARE; open
> add-point,5,500,500; divide,1,1 5 2 5 3,21,2,C,1; divide,1,1 5 5 3,21 22 23,2,C,1
> divide,1,1 2 1,21 22,2,C,1; divide,1,1 5 1,21 22,2,C,1; divide,1,1 1,21,2,C,1
> divide,1,1,,2,C,1; divide,1,,,2,C,1; divide,1,1 5 3,21 21,2,C,1
< ok; refused,7,not-free,point,2; refused,9,bad-chain; refused,7,not-free,point,2
< refused,9,bad-chain; refused,9,bad-chain; refused,9,bad-chain; refused,9,bad-chain
< refused,9,bad-chain

chains that begin or end at a free point or in another face
> plan,1; SQUARE; open; add-point,5,500,500; divide,1,5 3,21,2,C,1; divide,1,1 5,21,2,C,1
> divide,0,1 3,21,2,C,1; divide,1,1 3,21,2,C,1
< ok; refused,10,not-in-parcel,point,5; refused,10,not-in-parcel,point,5
< refused,10,not-in-parcel,point,1; refused,18,breaks,V4

chains that leave the parcel
> plan,1; SQUARE; open
> add-point,5,1500,500; add-point,6,500,700; divide,1,1 5 6 3,21 22 23,2,C,1
> divide,1,1 5 3,21 22,2,C,1; add-point,7,-500,500; divide,1,1 7 6 3,21 22 23,2,C,1
< ok; ok; refused,18,breaks,V4; refused,10,not-in-parcel,point,3; ok
< refused,10,not-in-parcel,point,1

lists with other blanks or zeros, and the outside as a new parcel
> plan,1; SQUARE; open; divide,1,1 3 ,21,2,C,1; divide,1,1 03,21,2,C,1; divide,1,0,21,2,C,1
> divide,1,1  3,21,2,C,1; divide,1,1 3,21,0,C,1; divide,1,1 3,21,2,C
< syntax; syntax; syntax; syntax; syntax; syntax
";
    check(&rt, cases)
}
