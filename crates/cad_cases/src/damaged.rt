//! Jobs that are cut off, mistyped or hostile, each answered as the formats say.
use crate::bases::{OPEN, PLAN, SQUARE};
use crate::cases::{check, check_bytes, lines};
use cad_files::PlanFault;
use cad_job::JobFault;
use std::alloc::Global;
use std::test::Fail;

/// The first so many lines of a text.
pub(crate) fn first_lines(text: &[u8], count: usize) -> &[u8] {
    let mut left = count;
    for (place, byte) in text.iter().enumerate() {
        if left == 0 {
            return &text[..place];
        }
        if *byte == b'\n' {
            left -= 1;
        }
    }
    text
}

/// The lines of a text after so many.
fn later_lines(text: &[u8], count: usize) -> &[u8] {
    let front = first_lines(text, count).len();
    text.split_at(front.min(text.len())).1
}

#[test]
fn plans_cut_after_a_record(rt: HostRuntime) -> Result<(), Fail> {
    let plan = lines(rt.alloc(), &[PLAN, SQUARE])?;
    for count in 0..12 {
        let cut = first_lines(plan.as_slice(), count);
        check_bytes(&rt, cut, b"", &Err(JobFault::Plan(PlanFault::NoOpen)))?;
    }
    Ok(())
}

#[test]
fn jobs_cut_in_a_record(rt: HostRuntime) -> Result<(), Fail> {
    for (cut, answers, end) in [
        (
            b"divide,1,1 3,21,2,C,".as_slice(),
            b"syntax,,,,,,\n".as_slice(),
            Ok(()),
        ),
        (
            b"divide,1,1 3".as_slice(),
            b"".as_slice(),
            Err(JobFault::Length),
        ),
    ] {
        let mut job = lines(rt.alloc(), &[PLAN, SQUARE, OPEN])?;
        job.extend_from_slice(cut)?;
        check_bytes(&rt, job.as_slice(), answers, &end)?;
    }
    Ok(())
}

/// The plan of the square with a line more, the third.
fn with_third(alloc: Global, third: &[u8]) -> Result<Vec<u8>, Fail> {
    let plan = lines(alloc, &[PLAN, SQUARE, OPEN])?;
    let mut job = Vec::new(alloc);
    job.extend_from_slice(first_lines(plan.as_slice(), 2))?;
    job.extend_from_slice(third)?;
    job.extend_from_slice(later_lines(plan.as_slice(), 2))?;
    Ok(job)
}

/// 81 bytes of text, one too many.
const LONG_TEXT: &str =
    "123456789012345678901234567890123456789012345678901234567890123456789012345678901";

#[test]
fn texts_in_a_plan_that_are_none(rt: HostRuntime) -> Result<(), Fail> {
    let fault = Err(JobFault::Plan(PlanFault::Syntax(3)));
    for third in [
        b"source,2,\xff,,,,\n".as_slice(),
        b"parcel,2,\xc3,,,,\n".as_slice(),
        b"parcel,2,\xed\xa0\x80,,,,\n".as_slice(),
    ] {
        let job = with_third(rt.alloc(), third)?;
        check_bytes(&rt, job.as_slice(), b"", &fault)?;
    }
    for kind in ["source,2,", "parcel,2,"] {
        let text = LONG_TEXT;
        let third = format!(in rt.alloc(); "{kind}{text},,,,\n")?;
        let job = with_third(rt.alloc(), third.as_bytes())?;
        check_bytes(&rt, job.as_slice(), b"", &fault)?;
    }
    Ok(())
}

#[test]
fn texts_in_a_script_that_are_none(rt: HostRuntime) -> Result<(), Fail> {
    for record in [
        b"rename,1,\xff,,,,\n".as_slice(),
        b"rename,1,A\xc3,,,,\n".as_slice(),
        b"rename,1,\xf5\x80\x80\x80,,,,\n".as_slice(),
    ] {
        let mut job = lines(rt.alloc(), &[PLAN, SQUARE, OPEN])?;
        job.extend_from_slice(record)?;
        check_bytes(&rt, job.as_slice(), b"syntax,,,,,,\n", &Ok(()))?;
    }
    let mut job = lines(rt.alloc(), &[PLAN, SQUARE, OPEN])?;
    let text = LONG_TEXT;
    let long = format!(in rt.alloc(); "rename,1,{text},,,,\n")?;
    job.extend_from_slice(long.as_bytes())?;
    check_bytes(&rt, job.as_slice(), b"syntax,,,,,,\n", &Ok(()))
}

#[test]
fn records_in_other_places_and_forms(rt: HostRuntime) -> Result<(), Fail> {
    let cases = "\
a second plan record
> plan,1; source,1,Plan 7; point,1,0,0,1; point,2,1000,0; plan,1; point,3,1000,1000; ISLAND
> open
! 3 syntax record 5

coordinates of the right form, and of another
> plan,1; SQUARE; open; add-point,5,999999999999999999,0; add-point,5,1000000000000000000,0
> add-point,5,-0,0; add-point,1000000000,5,5
< refused,1,range; syntax; syntax; syntax

two spaces in a list
> plan,1; SQUARE; open; divide,1,1  3,21,2,C,1
< syntax

a plan's records in a script
> plan,1; SQUARE; open; open; plan,1
< syntax; syntax
";
    check(&rt, cases)
}

#[test]
fn first_records_of_another_length(rt: HostRuntime) -> Result<(), Fail> {
    let fault = Err(JobFault::Plan(PlanFault::Syntax(1)));
    check_bytes(&rt, b"plan,1,,\n", b"", &fault)?;
    check_bytes(&rt, b"plan,1,,,,,,\n", b"", &fault)
}
