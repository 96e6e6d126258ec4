use cad_files::{
    Line, LineFault, MemSink, OutSink, PlanFault, PlanRows, PlanString, Sink, SinkFault,
    answer_text, build, hundredths, next_row, plan_text, read_line, read_plan, syntax_text,
    write_all,
};
use cad_history::{Answer, Command};
use cad_map::PlainMap;
use cad_rows::{
    Edit, Face, Item, Memory, Name, ParcelNo, PointNo, Refusal, Rule, SourceNo, StringNo,
};
use csv::{ByteRecord, ReaderBuilder};
use number_hash::NumberHash;
use std::alloc::{AllocError, Global};
use std::process::Abort;
use std::test::Fail;

// The rows of a plan, or its fault.
fn plan_rows(alloc: Global, plan: &str) -> Result<PlanRows, PlanFault> {
    let mut reader = ReaderBuilder::new()
        .has_headers(false)
        .from_reader(alloc, plan.as_bytes());
    read_plan(alloc, &mut reader)
}

// The fault of a plan's records, where they have one.
fn fault_of(alloc: Global, plan: &str) -> Option<PlanFault> {
    plan_rows(alloc, plan).err()
}

// The text of a fault.
fn text_of(alloc: Global, fault: PlanFault) -> Result<Vec<u8>, AllocError> {
    let text = fault.to_string(alloc)?;
    Vec::from_slice(alloc, text.as_bytes())
}

// The plan text of a plan's map, or the text of its fault.
fn plan_or_fault(alloc: Global, plan: &str) -> Result<Vec<u8>, AllocError> {
    let rows = match plan_rows(alloc, plan) {
        Ok(rows) => rows,
        Err(fault) => return text_of(alloc, fault),
    };
    let map = match build(alloc, NumberHash::fixed(), &rows) {
        Ok(map) => map,
        Err(fault) => return text_of(alloc, fault),
    };
    match plan_text(alloc, &map) {
        Ok(text) => Ok(text),
        Err(Memory) => Err(AllocError),
    }
}

#[test]
fn plans(rt: HostRuntime) -> Result<(), Fail> {
    for (plan, want) in [
        (
            "plan,1,,,,,\npoint,9,0,-5,1 2,,\nsource,1,\"Plan, 7\",,,,\npoint,1,1000,0,,,\nsource,2, a ,,,,\nopen,,,,,,\nundo,,,,,,\n",
            "plan,2,,,,,\nsource,1,\"Plan, 7\",,,,\nsource,2, a ,,,,\npoint,9,0,-5,1 2,,\npoint,1,1000,0,,,\nopen,,,,,,\n",
        ),
        (
            "plan,2,,,,,\npoint,5,10000000000,-10000000000,,,\nopen,,,,,,\n",
            "plan,2,,,,,\npoint,5,10000000000,-10000000000,,,\nopen,,,,,,\n",
        ),
        ("plan,1,,,,,\nopen,,,,,,\n", "plan,2,,,,,\nopen,,,,,,\n"),
        ("", "12 no-open"),
        ("plan,1,,,,,\n", "12 no-open"),
        ("open,,,,,,\n", "2 version"),
        ("plan,3,,,,,\n", "2 version"),
        ("plan,1,x,,,,\n", "2 version"),
        ("plan,1\n", "3 syntax record 1"),
        ("plan,1,,,,,\nplan,1,,,,,\n", "3 syntax record 2"),
        ("plan,1,,,,,\npoint,05,5,5,,,\n", "3 syntax record 2"),
        ("plan,1,,,,,\npoint,5,-0,5,,,\n", "3 syntax record 2"),
        (
            "plan,1,,,,,\npoint,5,1000000001,5,1 1,,\n",
            "3 syntax record 2",
        ),
        ("plan,1,,,,,\npoint,5,1000000001,5,,,\n", "4 range record 2"),
        (
            "plan,2,,,,,\npoint,5,5,10000000001,,,\n",
            "4 range record 2",
        ),
        (
            "plan,1,,,,,\npoint,5,5,5,1 2 3 4 5 6 7 8 9 10 11 12 13 14 15 16 17,,\n",
            "7 full",
        ),
        (
            "plan,1,,,,,\npoint,1,0,0,9,,\npoint,1,5,5,,,\nsource,7,a,,,,\nsource,7,b,,,,\nopen,,,,,,\n",
            "5 taken source 7",
        ),
        (
            "plan,1,,,,,\npoint,1,0,0,9,,\npoint,1,0,0,,,\nopen,,,,,,\n",
            "5 taken point 1",
        ),
        (
            "plan,1,,,,,\npoint,1,0,0,,,\npoint,2,0,0,9,,\nopen,,,,,,\n",
            "6 unknown source 9",
        ),
        (
            "plan,1,,,,,\npoint,1,0,0,,,\npoint,2,0,0,,,\nopen,,,,,,\n",
            "11 breaks V3",
        ),
        ("plan,1,,,,,\npoint,5,5,5,,\n", "1 read"),
    ] {
        match plan_or_fault(rt.alloc(), plan) {
            Ok(text) => assert!(rt; text.as_slice() == want.as_bytes(), "{plan}"),
            Err(AllocError) => assert!(rt; false, "memory"),
        }
    }
    Ok(())
}

// What a face is, as a number.
fn face_number(face: Face) -> u32 {
    match face {
        Face::Outside => 0,
        Face::Parcel(parcel) => parcel.get(),
    }
}

// Whether a plan's parcels are these.
fn check_parcels(rt: &impl Abort, rows: &PlanRows) {
    assert_eq!(rt; rows.parcels.len(), 2);
    for (parcel, (number, label, sources)) in rows
        .parcels
        .iter()
        .zip([(2, "North, B", 2), (1, "A", 0)])
    {
        let is_this = parcel.number.get() == number && parcel.label.as_str() == label;
        assert!(rt; is_this && parcel.sources.len() == sources, "{label}");
    }
}

// The number of a string, its ends and its faces.
fn numbers_of(string: &PlanString) -> [u32; 5] {
    [
        string.row.number.get(),
        string.row.from.get(),
        string.row.to.get(),
        face_number(string.left),
        face_number(string.right),
    ]
}

// Whether a plan's strings are these.
fn check_strings(rt: &impl Abort, rows: &PlanRows) {
    assert_eq!(rt; rows.strings.len(), 2);
    for (string, (numbers, sources)) in rows
        .strings
        .iter()
        .zip([([14, 4, 1, 0, 2], 2), ([11, 1, 1, 999_999_999, 0], 0)])
    {
        let is_this = numbers_of(string) == numbers && string.row.sources.len() == sources;
        assert!(rt; is_this, "string {}", numbers[0]);
    }
}

// Whether a plan's retired numbers are these.
fn check_retired(rt: &impl Abort, rows: &PlanRows) {
    assert_eq!(rt; rows.retired.len(), 2);
    for (parcel, number) in rows.retired.iter().zip([7, 999_999_999]) {
        assert_eq!(rt; parcel.get(), number);
    }
}

#[test]
fn rows_of_parcels_and_strings(rt: HostRuntime) -> Result<(), Fail> {
    let plan =
        "plan,1,,,,,\nretired,7,,,,,\nstring,14,4,1,0,2,1 3\nparcel,2,\"North, B\",3 1,,,\nstring,11,1,1,999999999,0,\nretired,999999999,,,,,\nparcel,1,A,,,,\nopen,,,,,,\n";
    let Ok(rows) = plan_rows(rt.alloc(), plan) else {
        panic!(rt; "a fault");
    };
    check_parcels(&rt, &rows);
    check_strings(&rt, &rows);
    check_retired(&rt, &rows);
    Ok(())
}

#[test]
fn records_of_parcels_and_strings(rt: HostRuntime) -> Result<(), Fail> {
    for (record, want) in [
        ("parcel,0,A,,,,", PlanFault::Syntax(2)),
        ("parcel,1,,,,,", PlanFault::Syntax(2)),
        (
            "parcel,1,12345678901234567890123456789012345678901234567890123456789012345678901234567890,,,,",
            PlanFault::NoOpen,
        ),
        (
            "parcel,1,123456789012345678901234567890123456789012345678901234567890123456789012345678901,,,,",
            PlanFault::Syntax(2),
        ),
        ("parcel,1,A,1 1,,,", PlanFault::Syntax(2)),
        ("parcel,1,A,1,1,,", PlanFault::Syntax(2)),
        (
            "parcel,1,A,1 2 3 4 5 6 7 8 9 10 11 12 13 14 15 16,,,",
            PlanFault::NoOpen,
        ),
        (
            "parcel,1,A,1 2 3 4 5 6 7 8 9 10 11 12 13 14 15 16 17,,,",
            PlanFault::Full,
        ),
        (
            "parcel,1,A,1 2 3 4 5 6 7 8 9 10 11 12 13 14 15 16 17 1,,,",
            PlanFault::Syntax(2),
        ),
        ("Parcel,1,A,,,,", PlanFault::Syntax(2)),
        ("string,1,2,2,1,1,", PlanFault::NoOpen),
        ("string,0,1,2,1,0,", PlanFault::Syntax(2)),
        ("string,1,0,2,1,0,", PlanFault::Syntax(2)),
        ("string,1,1,,1,0,", PlanFault::Syntax(2)),
        ("string,1,1,2,00,0,", PlanFault::Syntax(2)),
        ("string,1,1,2,0,,", PlanFault::Syntax(2)),
        ("string,1,1,2,1,-0,", PlanFault::Syntax(2)),
        ("string,1,1,2,1000000000,0,", PlanFault::Syntax(2)),
        ("string,1,1,2,1,0,1  2", PlanFault::Syntax(2)),
        ("string,1,1,2,1,0,2 2", PlanFault::Syntax(2)),
        (
            "string,1,1,2,1,0,1 2 3 4 5 6 7 8 9 10 11 12 13 14 15 16 17",
            PlanFault::Full,
        ),
        ("retired,1,,,,,", PlanFault::NoOpen),
        ("retired,0,,,,,", PlanFault::Syntax(2)),
        ("retired,1,,,,,1", PlanFault::Syntax(2)),
        ("retired,,,,,,", PlanFault::Syntax(2)),
    ] {
        match format!(in rt.alloc(); "plan,1,,,,,\n{record}\n") {
            Ok(plan) => {
                assert_eq!(rt; fault_of(rt.alloc(), plan.as_str()), Some(want), "{record}");
            }
            Err(AllocError) => assert!(rt; false, "memory"),
        }
    }
    Ok(())
}

// A plan of so many copies of a record.
fn plan_of_copies(alloc: Global, record: &str, copies: u32) -> Result<String, AllocError> {
    let mut plan = String::new(alloc);
    plan.push_str("plan,1,,,,,\n")?;
    for _ in 0..copies {
        plan.push_str(record)?;
    }
    plan.push_str("open,,,,,,\n")?;
    Ok(plan)
}

#[test]
fn most_rows(rt: HostRuntime) -> Result<(), Fail> {
    for (record, copies, want) in [
        ("parcel,1,A,,,,\n", 100_001, Some(PlanFault::Full)),
        ("string,1,1,2,0,0,\n", 200_000, None),
        ("string,1,1,2,0,0,\n", 200_001, Some(PlanFault::Full)),
        ("retired,1,,,,,\n", 100_001, Some(PlanFault::Full)),
    ] {
        match plan_of_copies(rt.alloc(), record, copies) {
            Ok(plan) => {
                assert_eq!(rt;
                    fault_of(rt.alloc(), plan.as_str()),
                    want,
                    "{copies} {record}"
                );
            }
            Err(AllocError) => assert!(rt; false, "memory"),
        }
    }
    Ok(())
}

#[test]
fn fault_texts(rt: HostRuntime) -> Result<(), Fail> {
    let (Some(point), Some(string), Some(parcel)) = (
        PointNo::new(4),
        StringNo::new(4),
        ParcelNo::new(4),
    ) else {
        return Ok(());
    };
    for (fault, want) in [
        (PlanFault::Dangling(string), "8 dangling string 4"),
        (PlanFault::Corner(point), "9 corner point 4"),
        (PlanFault::Labels(string), "10 labels string 4"),
        (PlanFault::Taken(Name::String(string)), "5 taken string 4"),
        (
            PlanFault::Unknown(Name::Parcel(parcel)),
            "6 unknown parcel 4",
        ),
        (PlanFault::Breaks(Rule::V4), "11 breaks V4"),
        (PlanFault::Breaks(Rule::V6), "11 breaks V6"),
        (PlanFault::Breaks(Rule::V7), "11 breaks V7"),
        (PlanFault::Breaks(Rule::V8), "11 breaks V8"),
        (PlanFault::Memory, "13 memory"),
    ] {
        match fault.to_string(rt.alloc()) {
            Ok(text) => assert!(rt; text.as_str() == want, "{want}"),
            Err(AllocError) => assert!(rt; false, "memory"),
        }
    }
    Ok(())
}

// Whether the answer is told by this text.
fn is_text_of(alloc: Global, answer: Answer, want: &str) -> bool {
    match answer_text(alloc, &answer) {
        Ok(text) => text.as_slice() == want.as_bytes(),
        Err(Memory) => false,
    }
}

#[test]
fn answers(rt: HostRuntime) -> Result<(), Fail> {
    let (Some(point), Some(string), Some(parcel), Some(source)) = (
        PointNo::new(1),
        StringNo::new(12),
        ParcelNo::new(2),
        SourceNo::new(999_999_999),
    ) else {
        return Ok(());
    };
    assert!(rt; is_text_of(rt.alloc(), Answer::Done, "ok,,,,,,\n"));
    assert!(rt; is_text_of(rt.alloc(), Answer::Nothing, "nothing,,,,,,\n"));
    for (refusal, want) in [
        (Refusal::Range, "refused,1,range,,,,\n"),
        (
            Refusal::Unknown(Name::Source(source)),
            "refused,2,unknown,source,999999999,,\n",
        ),
        (
            Refusal::Taken(Name::String(string)),
            "refused,3,taken,string,12,,\n",
        ),
        (Refusal::Retired(parcel), "refused,4,retired,parcel,2,,\n"),
        (Refusal::Outside, "refused,5,outside,,,,\n"),
        (Refusal::NoChange, "refused,6,no-change,,,,\n"),
        (Refusal::NotFree(point), "refused,7,not-free,point,1,,\n"),
        (
            Refusal::NotDegreeTwo(point),
            "refused,8,not-degree-two,point,1,,\n",
        ),
        (Refusal::BadChain, "refused,9,bad-chain,,,,\n"),
        (
            Refusal::NotInParcel(point),
            "refused,10,not-in-parcel,point,1,,\n",
        ),
        (
            Refusal::ChainJoinsRings,
            "refused,11,chain-joins-rings,,,,\n",
        ),
        (Refusal::SameParcel, "refused,12,same-parcel,,,,\n"),
        (Refusal::NotNeighbours, "refused,13,not-neighbours,,,,\n"),
        (Refusal::NotOneChain, "refused,14,not-one-chain,,,,\n"),
        (
            Refusal::AlreadyAttached,
            "refused,15,already-attached,,,,\n",
        ),
        (Refusal::NotAttached, "refused,16,not-attached,,,,\n"),
        (Refusal::Full, "refused,17,full,,,,\n"),
        (Refusal::Breaks(Rule::V8), "refused,18,breaks,V8,,,\n"),
        (Refusal::Memory, "refused,19,memory,,,,\n"),
    ] {
        assert!(rt;
            is_text_of(rt.alloc(), Answer::Refused(refusal), want),
            "{want}"
        );
    }
    match syntax_text(rt.alloc()) {
        Ok(text) => assert!(rt; text.as_slice() == b"syntax,,,,,,\n".as_slice()),
        Err(Memory) => assert!(rt; false, "memory"),
    }
    Ok(())
}

// What a script's record is read as: a letter of its kind and the number that it names first.
fn letter(line: &Result<Line, LineFault>) -> (char, u32) {
    match line {
        Ok(Line::Areas) => ('a', 0),
        Ok(Line::Outline(face)) => ('o', face_number(*face)),
        Ok(Line::Print) => ('p', 0),
        Ok(Line::Command(Command::Undo)) => ('u', 0),
        Ok(Line::Command(Command::Redo)) => ('r', 0),
        Ok(Line::Command(Command::Edit(edit))) => match edit {
            Edit::AddSource { source, .. } => ('S', source.get()),
            Edit::AddPoint { point, .. } => ('P', point.get()),
            Edit::DropPoint { point } => ('D', point.get()),
            Edit::Split { string, .. } => ('s', string.get()),
            Edit::Join { point, .. } => ('j', point.get()),
            Edit::Move { point, .. } => ('m', point.get()),
            Edit::Rename { parcel, .. } => ('n', parcel.get()),
            Edit::Divide { parcel, .. } => ('v', parcel.get()),
            Edit::Merge { kept, .. } => ('g', face_number(*kept)),
            Edit::Enclose { parcel, .. } => ('c', parcel.get()),
            Edit::Detach { item, .. } => match item {
                Item::Point(no) => ('d', no.get()),
                Item::String(no) => ('e', no.get()),
                Item::Parcel(no) => ('f', no.get()),
            },
            Edit::Attach { item, .. } => match item {
                Item::Point(no) => ('A', no.get()),
                Item::String(no) => ('B', no.get()),
                Item::Parcel(no) => ('C', no.get()),
            },
        },
        Err(LineFault::Syntax) => ('x', 0),
        Err(LineFault::Memory) => ('?', 0),
    }
}

// Lines of scripts, with the letter and the number that `letter` tells of each.
const LINES: &[(&str, char, u32)] = &[
    ("add-source,7,\"a, b\",,,,\n", 'S', 7),
    ("add-point,5,0,-999999999999999999,,,\n", 'P', 5),
    ("drop-point,999999999,,,,,\n", 'D', 999_999_999),
    ("split,11,5,500,-500,22,23\n", 's', 11),
    ("split,11,5,500,0,22,\n", 'x', 0),
    ("split,011,5,500,0,22,23\n", 'x', 0),
    ("join,2,21,,,,\n", 'j', 2),
    ("join,2,21,,,,1\n", 'x', 0),
    ("move,3,-1000,1200,,,\n", 'm', 3),
    ("move,3,-1000,+1200,,,\n", 'x', 0),
    ("detach,point,1,2,,,\n", 'd', 1),
    ("detach,string,3,2,,,\n", 'e', 3),
    ("detach,parcel,4,2,,,\n", 'f', 4),
    ("detach,source,4,2,,,\n", 'x', 0),
    ("rename,1,\"North, B\",,,,\n", 'n', 1),
    ("rename,0,X,,,,\n", 'x', 0),
    ("divide,1,1 3,21,2,C,1\n", 'v', 2),
    ("divide,1,,,2,C,1\n", 'v', 2),
    ("divide,1,1 3 ,21,2,C,1\n", 'x', 0),
    ("divide,1,1 03,21,2,C,1\n", 'x', 0),
    ("divide,1,1 3,21,0,C,1\n", 'x', 0),
    ("merge,1,0,,,,\n", 'g', 1),
    ("merge,1,2,,,,1\n", 'x', 0),
    ("enclose,0,1 2 3,11 12 13,7,A,1\n", 'c', 7),
    ("enclose,0,0,11,7,A,1\n", 'x', 0),
    ("rename,1,,,,,\n", 'x', 0),
    ("attach,point,1,2,,,\n", 'A', 1),
    ("attach,string,3,2,,,\n", 'B', 3),
    ("attach,parcel,4,2,,,\n", 'C', 4),
    ("undo,,,,,,\n", 'u', 0),
    ("redo,,,,,,\n", 'r', 0),
    ("print,,,,,,\n", 'p', 0),
    ("areas,,,,,,\n", 'a', 0),
    ("outline,0,,,,,\n", 'o', 0),
    ("outline,4,,,,,\n", 'o', 4),
    ("areas,0,,,,,\n", 'x', 0),
    ("outline,,,,,,\n", 'x', 0),
    ("outline,00,,,,,\n", 'x', 0),
    ("outline,4,4,,,,\n", 'x', 0),
    ("attach,source,1,1,,,\n", 'x', 0),
    ("add-point,5,1000000000000000000,0,,,\n", 'x', 0),
    ("add-point,5,+5,0,,,\n", 'x', 0),
    ("add-source,7,,,,,\n", 'x', 0),
    ("drop-point,1000000000,,,,,\n", 'x', 0),
    ("Undo,,,,,,\n", 'x', 0),
    ("undo,,,,,,0\n", 'x', 0),
    ("frob,,,,,,\n", 'x', 0),
    ("undo\n", 'x', 0),
];

// What `letter` tells of a script's line.
fn letter_of(rt: &impl Abort, alloc: Global, text: &str) -> (char, u32) {
    let mut reader = ReaderBuilder::new()
        .has_headers(false)
        .from_reader(alloc, text.as_bytes());
    let mut row = ByteRecord::new(alloc);
    assert_eq!(rt; next_row(&mut reader, &mut row), Ok(true));
    letter(&read_line(alloc, &row))
}

#[test]
fn lines(rt: HostRuntime) -> Result<(), Fail> {
    for (text, kind, number) in LINES {
        assert_eq!(rt;
            letter_of(&rt, rt.alloc(), text),
            (*kind, *number),
            "{text}"
        );
    }
    Ok(())
}

// The plan of a square with an island, printed of a copy of its map.
fn copied(alloc: Global, plan: &str) -> Result<Vec<u8>, Memory> {
    let Ok(rows) = plan_rows(alloc, plan) else {
        return Err(Memory);
    };
    let Ok(map) = build(alloc, NumberHash::fixed(), &rows) else {
        return Err(Memory);
    };
    let copied = PlainMap::of_view(alloc, &map)?;
    plan_text(alloc, &copied)
}

#[test]
fn a_map_copied_from_a_view(rt: HostRuntime) -> Result<(), Fail> {
    let plan =
        "plan,2,,,,,\nsource,1,Plan 7,,,,\npoint,1,0,0,1,,\npoint,2,1000,0,,,\npoint,3,1000,1000,,,\npoint,4,0,1000,,,\npoint,6,700,300,,,\npoint,7,800,300,,,\npoint,8,800,500,,,\nparcel,1,A,,,,\nparcel,2,B,,,,\nstring,11,1,2,1,0,\nstring,12,2,3,1,0,\nstring,13,3,4,1,0,\nstring,14,4,1,1,0,\nstring,31,6,7,2,1,\nstring,32,7,8,2,1,\nstring,33,8,6,2,1,\nretired,9,,,,,\nopen,,,,,,\n";
    match copied(rt.alloc(), plan) {
        Ok(text) => assert!(rt; text.as_slice() == plan.as_bytes()),
        Err(Memory) => assert!(rt; false, "memory"),
    }
    Ok(())
}

#[test]
fn hundredths_of_areas(rt: HostRuntime) -> Result<(), Fail> {
    for (doubled, want) in [
        (0, 0),
        (9_999, 0),
        (10_000, 1),
        (2_000_000, 100),
        (-10_000, 0),
        (-10_001, -1),
        (-30_000, -1),
        (8_000_000_000_000_000_000, 400_000_000_000_000),
        (800_000_000_000_000_000_000, 40_000_000_000_000_000),
    ] {
        assert_eq!(rt; hundredths(doubled), want, "{doubled}");
    }
    Ok(())
}

#[test]
fn a_sink_in_memory(rt: HostRuntime) -> Result<(), Fail> {
    let mut sink = MemSink::new(rt.alloc(), 4);
    assert_eq!(rt; write_all(&mut sink, b"ok".as_slice()), Ok(()));
    assert_eq!(rt; sink.write(b",,".as_slice()), Ok(2));
    assert_eq!(rt; sink.flush(), Ok(()));
    assert_eq!(rt; sink.write(b"lost".as_slice()), Err(SinkFault));
    assert_eq!(rt; sink.flush(), Err(SinkFault));
    assert!(rt; sink.bytes() == b"ok,,".as_slice());
    Ok(())
}

#[test]
fn a_sink_with_little_room(rt: HostRuntime) -> Result<(), Fail> {
    let mut room = [0u8; 3];
    let mut out = OutSink::new(room.as_mut_slice());
    assert_eq!(rt; write_all(&mut out, b"ok".as_slice()), Ok(()));
    assert_eq!(rt; out.flush(), Ok(()));
    assert_eq!(rt; write_all(&mut out, b"no".as_slice()), Err(SinkFault));
    assert!(rt; room.as_slice() == b"okn".as_slice());
    Ok(())
}
