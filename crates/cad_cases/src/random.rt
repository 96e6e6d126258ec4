//! Edits, undos and redos drawn by chance near the numbers of a plan: on half-edges and on the plain store they come to
//! the same bytes.
use crate::bases::{ISLAND, OPEN, PINCH, PLAN, SQUARE};
use crate::cases::{deep, lines};
use crate::stores::run_plain;
use cad_files::MemSink;
use cad_job::run_job;
use number_hash::NumberHash;
use std::alloc::Global;
use std::process::Abort;
use std::test::Fail;

/// Four parcels of half a metre, two by two.
const FOUR: &str =
    "source,1,Plan 7; point,1,0,0; point,2,500,0; point,3,1000,0; point,4,0,500; point,5,500,500; \
    point,6,1000,500; point,7,0,1000; point,8,500,1000; point,9,1000,1000; parcel,1,A; \
    parcel,2,B; parcel,3,C; parcel,4,D; string,11,1,2,1,0; string,12,2,3,2,0; string,13,4,5,3,1; \
    string,14,5,6,4,2; string,15,7,8,0,3; string,21,8,9,0,4; string,22,1,4,0,1; \
    string,23,4,7,0,3; string,24,2,5,1,2; string,25,5,8,3,4; string,31,3,6,2,0; \
    string,32,6,9,4,0";

/// What is drawn from: records with letters, for each of which a number is drawn as `drawn` says.
const PATTERNS: &[&str] = &[
    "split,1#,5#,X00,X50,4#,6#",
    "split,1#,5#,X50,X00,4#,6#; split,4#,1#,X50,X50,1#,7#",
    "split,2#,P,X50,X00,4#,7#",
    "join,5#,1#",
    "join,1#,4#",
    "join,P,9#",
    "divide,1,# Q,9#,5,L,1; merge,Q,5",
    "divide,1,# Q,9#,N,L,1",
    "divide,1,P #,9#,N,L,1",
    "divide,Q,5 P,9#,N,L,1",
    "add-point,3#,X00,X50; divide,1,# 3# Q,7# 8#,N,L,1",
    "add-point,3#,X50,X00; divide,Q,P 3# P,7# 8#,N,L,1; move,3#,X50,X50",
    "add-point,7#,#10,#20; add-point,8#,#60,#20; add-point,9#,#60,#80; \
    enclose,1,7# 8# 9#,7# 8# 9#,N,L,1",
    "enclose,Q,7# 8# 9#,7# 8# 9#,N,L,1; merge,Q,N",
    "merge,Q,Q",
    "merge,1,Q",
    "merge,N,Q",
    "merge,Q,Q; divide,Q,P P,9#,N,L,1",
    "move,#,X00,X00",
    "move,P,X50,X50",
    "move,5#,X50,X50",
    "add-point,P,X00,X50",
    "add-point,3#,X00,X50; drop-point,3#",
    "drop-point,3#",
    "add-source,C,L",
    "attach,point,P,C; detach,point,#,1",
    "attach,string,1#,1; detach,string,1#,C",
    "attach,parcel,Q,1; detach,parcel,Q,1",
    "rename,Q,L",
    "undo",
    "undo; undo; undo; redo; redo",
    "undo; redo",
    "redo",
];

/// The kinds of records that are drawn.
const KINDS: [&str; 14] = [
    "split,",
    "join,",
    "divide,",
    "enclose,",
    "merge,",
    "move,",
    "add-point,",
    "drop-point,",
    "add-source,",
    "attach,",
    "detach,",
    "rename,",
    "undo,",
    "redo,",
];

/// What each list ends with: what it came to, some of it taken back, and made again.
const LAST: &str =
    "areas; outline,0; print; undo; undo; undo; undo; undo; undo; undo; undo; areas; outline,1; \
    print; redo; redo; redo; redo; redo; redo; redo; redo; print";

/// Numbers drawn one after another from a seed: a linear congruential generator with Knuth's factor and summand.
#[derive(Drop)]
struct Draws {
    state: u64,
}

impl Draws {
    /// Draws one of so many numbers, the first of which is given.
    fn draw(&mut self, first: u64, count: u64) -> u64 {
        self.state = self
            .state
            .wrapping_mul(6_364_136_223_846_793_005)
            .wrapping_add(1_442_695_040_888_963_407);
        first.wrapping_add((self.state >> 32).wrapping_mul(count) >> 32)
    }
}

/// The records of a pattern: for each letter a number is drawn, and one for all the `#`.
fn drawn(alloc: Global, draws: &mut Draws, pattern: &str) -> Result<String, Fail> {
    let common = draws.draw(1, 5);
    let mut records = String::new(alloc);
    for sign in pattern.chars() {
        let number = match sign {
            '#' => common,
            'P' => draws.draw(1, 9),
            'Q' => draws.draw(1, 4),
            'N' => draws.draw(5, 2),
            'C' => draws.draw(1, 2),
            'L' => draws.draw(1, 3),
            'X' => draws.draw(1, 10),
            _ => {
                records.push(sign)?;
                continue;
            }
        };
        write!(records, "{number}")?;
    }
    Ok(records)
}

/// The records of so many patterns, as lines.
fn drawn_script(alloc: Global, draws: &mut Draws, count: u32) -> Result<Vec<u8>, Fail> {
    let mut script = Vec::new(alloc);
    for _ in 0..count {
        let place = draws.draw(0, PATTERNS.len() as u64) as usize;
        let pattern = PATTERNS.get(place).ok_or("a pattern")?;
        let records = drawn(alloc, draws, pattern)?;
        let more = lines(alloc, &[records.as_str()])?;
        script.extend_from_slice(more.as_slice())?;
    }
    Ok(script)
}

/// What a script on a plan writes, where both stores write the same.
fn written_by_both<R: Abort + AllocGlobal>(
    rt: &R,
    plan: &[&str],
    script: &[u8],
) -> Result<MemSink, Fail> {
    let mut job = lines(rt.alloc(), plan)?;
    job.extend_from_slice(script)?;
    let last = lines(rt.alloc(), &[LAST])?;
    job.extend_from_slice(last.as_slice())?;
    let mut halves = MemSink::new(rt.alloc(), u64::MAX);
    let mut plain = MemSink::new(rt.alloc(), u64::MAX);
    let ended = run_job(
        rt.alloc(),
        NumberHash::seeded(7),
        job.as_slice(),
        &mut halves,
        deep(rt),
    );
    assert_eq!(rt; ended, Ok(()));
    let ended = run_plain(rt.alloc(), job.as_slice(), &mut plain, deep(rt));
    assert_eq!(rt; ended, Ok(()));
    assert!(rt; halves.bytes() == plain.bytes());
    Ok(halves)
}

/// How many records of a kind are answered by `ok`, where each record has an answer of one line.
fn accepted(script: &[u8], answers: &[u8], kind: &str) -> usize {
    let mut count = 0usize;
    let answers = answers.split(|byte| *byte == b'\n');
    for (record, answer) in script.split(|byte| *byte == b'\n').zip(answers) {
        if record.starts_with(kind.as_bytes()) && answer.starts_with(b"ok,") {
            count = count.saturating_add(1);
        }
    }
    count
}

/// Adds to the count of each kind what is accepted of it.
fn add_accepted(counts: &mut [usize; 14], script: &[u8], answers: &[u8]) {
    for (kind, count) in KINDS.iter().zip(counts.iter_mut()) {
        *count = count.saturating_add(accepted(script, answers, kind));
    }
}

/// Draws lists on a plan, and counts what is accepted.
fn check_lists<R: Abort + AllocGlobal>(
    rt: &R,
    plan: &[&str],
    draws: &mut Draws,
    counts: &mut [usize; 14],
) -> Result<(), Fail> {
    for _ in 0..4u32 {
        let script = drawn_script(rt.alloc(), draws, 50)?;
        let answers = written_by_both(rt, plan, script.as_slice())?;
        add_accepted(counts, script.as_slice(), answers.bytes());
    }
    Ok(())
}

#[test]
fn lists_drawn_by_chance(rt: HostRuntime) -> Result<(), Fail> {
    let mut draws = Draws { state: 1 };
    let mut counts = [0usize; 14];
    check_lists(&rt, &[PLAN, FOUR, OPEN], &mut draws, &mut counts)?;
    check_lists(&rt, &[PLAN, SQUARE, ISLAND, OPEN], &mut draws, &mut counts)?;
    check_lists(&rt, &[PLAN, PINCH, OPEN], &mut draws, &mut counts)?;
    for (kind, count) in KINDS.iter().zip(counts) {
        assert!(rt; count > 0, "{kind}");
    }
    Ok(())
}
