//! Jobs that stop at the first record which isn't carried out.
use crate::cases::{deep, lines};
use cad_files::MemSink;
use cad_job::{JobFault, Stopped, run_job_until_refused};
use number_hash::NumberHash;
use std::test::Fail;

#[test]
fn after_the_first_record_that_is_not_carried_out(rt: HostRuntime) -> Result<(), Fail> {
    for (script, answers, stopped) in [
        ("undo; add-source,1,A", "nothing", Some(1u32)),
        (
            "add-source,1,A; frob; add-source,2,B",
            "ok; syntax",
            Some(2),
        ),
        (
            "add-source,1,A; undo; add-source,1,B; add-source,1,C; undo",
            "ok; ok; ok; refused,3,taken,source,1",
            Some(4),
        ),
        (
            "areas; outline,7; areas",
            "end; refused,2,unknown,parcel,7",
            Some(2),
        ),
        (
            "add-source,1,refused; undo; redo; areas",
            "ok; ok; ok; end",
            None,
        ),
    ] {
        let job = lines(rt.alloc(), &["plan,1; open", script])?;
        let wanted = lines(rt.alloc(), &[answers])?;
        let mut sink = MemSink::new(rt.alloc(), u64::MAX);
        let hash = NumberHash::fixed();
        let end = run_job_until_refused(rt.alloc(), hash, job.as_slice(), &mut sink, deep(&rt));
        assert_eq!(rt; end, Ok(stopped));
        assert!(rt; sink.bytes() == wanted.as_slice(), "{script}");
    }
    Ok(())
}

#[test]
fn a_plan_at_fault(rt: HostRuntime) -> Result<(), Fail> {
    let job = lines(rt.alloc(), &["plan,1; point,1,0"])?;
    let mut sink = MemSink::new(rt.alloc(), u64::MAX);
    let hash = NumberHash::fixed();
    let end = run_job_until_refused(rt.alloc(), hash, job.as_slice(), &mut sink, deep(&rt));
    assert!(rt; matches!(end, Err(JobFault::Plan(_))));
    assert!(rt; sink.bytes().is_empty());
    Ok(())
}

#[test]
fn the_line_on_standard_error(rt: HostRuntime) -> Result<(), Fail> {
    let told = format!(in rt.alloc(); "{}", Stopped(27))?;
    assert!(rt; told.as_str() == "cadedit: stopped after record 27 of the script");
    Ok(())
}
