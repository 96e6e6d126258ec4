//! Records, fields and plan faults.
use crate::cases::{check, check_bytes};
use cad_files::PlanFault;
use cad_job::JobFault;
use std::test::Fail;

#[test]
fn records_and_fields(rt: HostRuntime) -> Result<(), Fail> {
    let cases = "\
an empty script
> plan,2; open

words that are none
> plan,1; open; Undo; undo ; attach,source,1,1; undo,,,,,,0; plan,1; open
> add-source,0,A; attach,parcel,0,1; drop-point,0; rename,0,X; outline,00
< syntax; syntax; syntax; syntax; syntax; syntax; syntax; syntax; syntax; syntax; syntax

quotes and commas in texts
> plan,1; open; add-source,1,\"North, 7\"; add-source,2,\"a\"\"b\"; add-source,3,\" \"
> add-source,4,\"\"; \"undo\",\"\"; print
< ok; ok; ok; syntax; ok; plan,2; source,1,\"North, 7\"; source,2,\"a\"\"b\"; open

a plan of version 1 past its limit
> plan,1; point,5,1000000001,0; open
! 4 range record 2

a plan of version 2 at its limit, and the wider limit of edits
> plan,2; point,5,10000000000,-10000000000; open; add-point,6,-10000000000,0; print
< ok; plan,2; point,5,10000000000,-10000000000; point,6,-10000000000,0; open

a plan of version 2 past its limit
> plan,2; point,5,0,10000000001; open
! 4 range record 2

version 3
> plan,3; open
! 2 version

no plan at all
> open
! 2 version

a field too many in the first record
> plan,1,x
! 2 version

leading zeros
> plan,1; point,05,5,5; open
! 3 syntax record 2

syntax before range and full, in one record
> plan,1; point,5,1000000001,0,1 1; open
! 3 syntax record 2

range before full, in one record
> plan,1; point,5,1000000001,0,1 2 3 4 5 6 7 8 9 10 11 12 13 14 15 16 17; open
! 4 range record 2

a second plan record
> plan,1; source,1,A; plan,1; open
! 3 syntax record 3

a parcel without a label
> plan,1; parcel,1; open
! 3 syntax record 2

no open
> plan,1; source,1,A
! 12 no-open

an empty input
! 12 no-open

two points at one position
> plan,1; point,1,5,5; point,2,5,5; open
! 11 breaks V3
";
    check(&rt, cases)
}

#[test]
fn faults_that_name_a_row(rt: HostRuntime) -> Result<(), Fail> {
    let cases = "\
a source number twice, before an unknown source
> plan,1; source,1,A; source,1,B; point,1,0,0,9; open
! 5 taken source 1

a point number twice, before an unknown source
> plan,1; point,1,0,0,9; point,1,5,5; open
! 5 taken point 1

an unknown source, before two points at one position
> plan,1; point,1,0,0,9; point,2,0,0; open
! 6 unknown source 9
";
    check(&rt, cases)
}

/// Lines of other lengths, blank lines, a byte order mark, other line ends, and bytes that are no text.
#[test]
fn lines_of_all_kinds(rt: HostRuntime) -> Result<(), Fail> {
    for (job, answers, end) in [
        (
            b"plan,1,,,,,\n\n\n\npoint,05,5,5,,,\n".as_slice(),
            b"".as_slice(),
            Err(JobFault::Plan(PlanFault::Syntax(2))),
        ),
        (
            b"\xef\xbb\xbfplan,1,,,,,\r\nopen,,,,,,\rundo,,,,,,".as_slice(),
            b"nothing,,,,,,\n".as_slice(),
            Ok(()),
        ),
        (
            b"plan,1\n".as_slice(),
            b"".as_slice(),
            Err(JobFault::Plan(PlanFault::Syntax(1))),
        ),
        (
            b"plan,1,,,,,\npoint,05,5,5,,,\nx\n".as_slice(),
            b"".as_slice(),
            Err(JobFault::Plan(PlanFault::Syntax(2))),
        ),
        (
            b"plan,1,,,,,\nx\npoint,05,5,5,,,\n".as_slice(),
            b"".as_slice(),
            Err(JobFault::Length),
        ),
        (
            b"plan,1,,,,,\nopen,,,,,,\nx\n".as_slice(),
            b"".as_slice(),
            Err(JobFault::Length),
        ),
        (
            b"plan,1,,,,,\nopen,,,,,,\nundo,,,,,,\nundo,,,,,\nundo,,,,,,\n".as_slice(),
            b"nothing,,,,,,\n".as_slice(),
            Err(JobFault::Length),
        ),
        (
            b"plan,1,,,,,\nsource,1,\xff,,,,\nopen,,,,,,\n".as_slice(),
            b"".as_slice(),
            Err(JobFault::Plan(PlanFault::Syntax(2))),
        ),
        (
            b"plan,1,,,,,\nopen,,,,,,\nadd-source,1,\xff,,,,\n".as_slice(),
            b"syntax,,,,,,\n".as_slice(),
            Ok(()),
        ),
    ] {
        check_bytes(&rt, job, answers, &end)?;
    }
    Ok(())
}
