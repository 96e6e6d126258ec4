//! Readers and sinks that fail, and how a fault is told.
use crate::bases::{ISLAND, ISLAND_ANSWERS, ISLAND_COUNTS, ISLAND_SCRIPT, OPEN, PLAN, SQUARE};
use crate::cases::{check_bytes, lines, run_deep};
use crate::damaged::first_lines;
use cad_files::{MemSink, PlanFault, Sink, SinkFault};
use cad_job::{JobFault, status};
use cad_rows::{Name, PointNo};
use std::alloc::Global;
use std::io::{self, Read};
use std::test::Fail;

const JOB: &[&str] = &[PLAN, SQUARE, ISLAND, OPEN, ISLAND_SCRIPT];

/// How many records its plan has.
const PLAN_RECORDS: usize = 19;

/// A reader that gives one byte in each read, and fails at one of them.
#[derive(Drop)]
struct Failing<'a> {
    bytes: &'a [u8],
    fails_at: u32,
}

impl<'a> Read for Failing<'a> {
    fn read(&mut self, buffer: &mut [u8]) -> io::Result<usize> {
        if self.fails_at == 0 {
            return Err(io::Error::from(io::ErrorKind::Other));
        }
        self.fails_at -= 1;
        let count = buffer.len().min(1);
        self.bytes.read(&mut buffer[..count])
    }
}

/// A sink that takes one byte in each call.
#[derive(Drop)]
struct ByteByByte {
    inner: MemSink,
}

impl Sink for ByteByByte {
    ghost use Rattle.std.specs.Prelude.{Some};

    ghost taken = { λ s. Some s.inner.bytes };

    ghost failures = { λ s. s.inner.failures };

    fn write(&mut self, bytes: &[u8]) -> Result<usize, SinkFault> {
        let count = bytes.len().min(1);
        self.inner.write(&bytes[..count])
    }

    fn flush(&mut self) -> Result<(), SinkFault> {
        self.inner.flush()
    }
}

/// A sink that takes nothing from a call on, and says so.
#[derive(Drop)]
struct Idle {
    inner: MemSink,
    takes: u32,
    failures: u64,
}

impl Sink for Idle {
    ghost use Rattle.std.specs.Prelude.{Some};

    ghost taken = { λ s. Some s.inner.bytes };

    ghost failures = { λ s. s.failures };

    fn write(&mut self, bytes: &[u8]) -> Result<usize, SinkFault> {
        if self.takes == 0 {
            if !bytes.is_empty() {
                self.failures = self.failures.saturating_add(1);
            }
            return Ok(0);
        }
        self.takes -= 1;
        match self.inner.write(bytes) {
            Ok(count) => Ok(count),
            Err(SinkFault) => {
                self.failures = self.failures.saturating_add(1);
                Err(SinkFault)
            }
        }
    }

    fn flush(&mut self) -> Result<(), SinkFault> {
        match self.inner.flush() {
            Ok(()) => Ok(()),
            Err(SinkFault) => {
                self.failures = self.failures.saturating_add(1);
                Err(SinkFault)
            }
        }
    }
}

/// The answers to the first so many records of the script.
fn answers_to(alloc: Global, records: usize) -> Result<Vec<u8>, Fail> {
    let answers = lines(alloc, &[ISLAND_ANSWERS])?;
    let count = ISLAND_COUNTS.get(records).copied().unwrap_or(12);
    let mut given = Vec::new(alloc);
    given.extend_from_slice(first_lines(answers.as_slice(), count))?;
    Ok(given)
}

/// How many lines end in a text.
fn count_of_lines(text: &[u8]) -> usize {
    let mut count = 0usize;
    for byte in text {
        if *byte == b'\n' {
            count = count.saturating_add(1);
        }
    }
    count
}

/// A reader that fails at its k-th read, for each k: the answers to the records that were read whole are given.
#[test]
fn a_read_that_fails(rt: HostRuntime) -> Result<(), Fail> {
    let job = lines(rt.alloc(), JOB)?;
    for fails_at in 0..415u32 {
        let reader = Failing {
            bytes: job.as_slice(),
            fails_at,
        };
        let given = job.len().min(fails_at as usize);
        let read = count_of_lines(&job.as_slice()[..given]);
        let answers = answers_to(rt.alloc(), read.saturating_sub(PLAN_RECORDS))?;
        let mut sink = MemSink::new(rt.alloc(), u64::MAX);
        let end = run_deep(&rt, reader, &mut sink);
        assert_eq!(rt; end, Err(JobFault::Read), "at read {fails_at}");
        assert!(rt; sink.bytes() == answers.as_slice(), "at read {fails_at}");
    }
    Ok(())
}

/// A sink whose k-th call fails, for each k: it has the answers that it took before.
#[test]
fn a_sink_that_fails(rt: HostRuntime) -> Result<(), Fail> {
    let job = lines(rt.alloc(), JOB)?;
    for fails_from in 1..7u32 {
        let answers = answers_to(rt.alloc(), (fails_from - 1) as usize)?;
        let mut sink = MemSink::new(rt.alloc(), u64::from(fails_from));
        let end = run_deep(&rt, job.as_slice(), &mut sink);
        assert_eq!(rt; end, Err(JobFault::Write), "from call {fails_from}");
        assert!(rt;
            sink.bytes() == answers.as_slice(),
            "from call {fails_from}"
        );
    }
    Ok(())
}

/// The same of a sink that takes nothing from a call on.
#[test]
fn a_sink_that_takes_nothing(rt: HostRuntime) -> Result<(), Fail> {
    let job = lines(rt.alloc(), JOB)?;
    for takes in 0..5u32 {
        let answers = answers_to(rt.alloc(), takes as usize)?;
        let mut sink = Idle {
            inner: MemSink::new(rt.alloc(), u64::MAX),
            takes,
            failures: 0,
        };
        let end = run_deep(&rt, job.as_slice(), &mut sink);
        assert_eq!(rt; end, Err(JobFault::Write), "after {takes} calls");
        assert!(rt;
            sink.inner.bytes() == answers.as_slice(),
            "after {takes} calls"
        );
    }
    Ok(())
}

#[test]
fn a_sink_of_single_bytes(rt: HostRuntime) -> Result<(), Fail> {
    let job = lines(rt.alloc(), JOB)?;
    let answers = answers_to(rt.alloc(), 5)?;
    let mut sink = ByteByByte {
        inner: MemSink::new(rt.alloc(), u64::MAX),
    };
    let end = run_deep(&rt, job.as_slice(), &mut sink);
    assert_eq!(rt; end, Ok(()));
    assert!(rt; sink.inner.bytes() == answers.as_slice());
    Ok(())
}

/// A record that is short ends the job after the answers before it, and a flush that fails then is told in its place.
#[test]
fn a_short_record_and_a_flush_that_fails(rt: HostRuntime) -> Result<(), Fail> {
    let mut job = lines(rt.alloc(), JOB)?;
    job.extend_from_slice(b"undo,,,,\nundo,,,,,,\n")?;
    let answers = answers_to(rt.alloc(), 5)?;
    for (fails_from, fault) in [(u64::MAX, JobFault::Length), (6, JobFault::Write)] {
        let mut sink = MemSink::new(rt.alloc(), fails_from);
        let end = run_deep(&rt, job.as_slice(), &mut sink);
        assert_eq!(rt; end, Err(fault));
        assert!(rt; sink.bytes() == answers.as_slice());
    }
    Ok(())
}

/// A growth that is refused, also one of the sink's own, ends a job with a front of its answers. Done again, it gives all.
#[test]
fn a_job_done_again(rt: HostRuntime) -> Result<(), Fail> {
    let job = lines(rt.alloc(), JOB)?;
    let answers = answers_to(rt.alloc(), 5)?;
    let mut sink = MemSink::new(rt.alloc(), u64::MAX);
    let end = run_deep(&rt, job.as_slice(), &mut sink);
    if end == Ok(()) {
        assert!(rt; sink.bytes() == answers.as_slice());
        return Ok(());
    }
    assert!(rt; matches!(end, Err(JobFault::Memory | JobFault::Write)));
    assert!(rt; answers.as_slice().starts_with(sink.bytes()));
    check_bytes(&rt, job.as_slice(), answers.as_slice(), &Ok(()))
}

fn tells(alloc: Global, fault: JobFault, number: u8, line: &str) -> Result<bool, Fail> {
    let text = fault.to_string(alloc)?;
    Ok(status(&fault) == number && text.as_str() == line)
}

#[test]
fn statuses_and_lines(rt: HostRuntime) -> Result<(), Fail> {
    let point = PointNo::new(4).expect(&rt, "a number");
    for (fault, number, line) in [
        (
            JobFault::Plan(PlanFault::Version),
            2,
            "cadedit: plan fault 2 version",
        ),
        (
            JobFault::Plan(PlanFault::Syntax(4)),
            2,
            "cadedit: plan fault 3 syntax record 4",
        ),
        (
            JobFault::Plan(PlanFault::Range(4)),
            2,
            "cadedit: plan fault 4 range record 4",
        ),
        (
            JobFault::Plan(PlanFault::Taken(Name::Point(point))),
            2,
            "cadedit: plan fault 5 taken point 4",
        ),
        (
            JobFault::Plan(PlanFault::NoOpen),
            2,
            "cadedit: plan fault 12 no-open",
        ),
        (JobFault::Read, 3, "cadedit: read fault"),
        (JobFault::Length, 3, "cadedit: read fault"),
        (JobFault::Write, 3, "cadedit: write fault"),
        (JobFault::Long, 4, "cadedit: too many records"),
        (JobFault::Memory, 5, "cadedit: out of memory"),
    ] {
        assert!(rt; tells(rt.alloc(), fault, number, line)?, "{line}");
    }
    Ok(())
}
