//! Records are done, the lines of those that are kept, and journals carried out again.
ghost use Rattle.std.specs.Prelude.{OnOk};
ghost use Rattle.cad_history.specs.Standing.{StandsForSome};
ghost use Rattle.cad_map.specs.Valid.{IsValid};

use crate::journals::lines;
use crate::plans::{PLAN, map_of, rows};
use cad_edit::PlainStore;
use cad_files::{next_row, plan_text, records_of};
use cad_history::{Depth, Editor};
use cad_map::MapStore;
use csv::ByteRecord;
use map_session::{ReplayFault, line_of_row, replay, take_row};
use sqlite_value::value::Bytes;
use std::alloc::Global;
use std::process::Abort;
use std::test::Fail;

/// An editor of a store.
fn open<M: MapStore + Drop>(rt: &impl Abort, alloc: Global, store: M) -> Editor<M>
    requires { IsValid (M.map store) }
    ensures { StandsForSome M.map M.belongs result }
{
    let depth = Depth::new(100).expect(rt, "a depth");
    match Editor::open(alloc, store, depth) {
        Ok(editor) => editor,
        Err(_) => panic!(rt; "no memory"),
    }
}

/// The map of the plan.
fn store_of_plan(rt: &impl Abort, alloc: Global) -> PlainStore
    ensures { IsValid result.map }
{
    let rows = rows(rt, alloc, PLAN);
    PlainStore {
        map: map_of(rt, alloc, &rows),
    }
}

/// The one record of a text.
pub(crate) fn row_of(rt: &impl Abort, alloc: Global, record: &str) -> ByteRecord {
    let mut row = ByteRecord::new(alloc);
    let read = next_row(&mut records_of(alloc, record.as_bytes()), &mut row);
    assert!(rt; matches!(read, Ok(true)), "{record}");
    row
}

/// Does a record that is told by an answer that begins with this word; where there is a line, it is kept by that.
fn does<M: MapStore>(
    rt: &impl Abort,
    alloc: Global,
    editor: &mut Editor<M>,
    record: &str,
    word: &str,
    line: Option<&str>,
) -> Result<(), Fail>
    requires { StandsForSome M.map M.belongs editor.old }
    ensures { OnOk result (StandsForSome M.map M.belongs editor.new) }
{
    let row = row_of(rt, alloc, record);
    let taken = take_row(alloc, editor, &row)?;
    assert!(rt;
        taken.answer.as_slice().starts_with(word.as_bytes()),
        "{record}"
    );
    assert_eq!(rt; taken.done, line.is_some(), "{record}");
    if let Some(line) = line {
        let told = line_of_row(alloc, &row)?;
        assert!(rt; told.as_slice() == line.as_bytes(), "{record}");
    }
    Ok(())
}

/// The map that is shown has this plan.
fn shows<M: MapStore>(
    rt: &impl Abort,
    alloc: Global,
    editor: &Editor<M>,
    plan: &[u8],
) -> Result<(), Fail>
    requires { StandsForSome M.map M.belongs editor.now }
{
    let text = plan_text(alloc, editor.map())?;
    assert!(rt; text.as_slice() == plan);
    Ok(())
}

/// Does a script, and gives the plan of the map that is shown then.
fn serve<M: MapStore>(
    rt: &impl Abort,
    alloc: Global,
    editor: &mut Editor<M>,
) -> Result<Vec<u8>, Fail>
    requires { StandsForSome M.map M.belongs editor.old }
{
    let point = "add-point,9,70000,0,,,";
    does(rt, alloc, editor, point, "ok,", Some(point))?;
    does(rt, alloc, editor, point, "refused,3,taken,", None)?;
    does(
        rt,
        alloc,
        editor,
        "\"undo\",,,,,,",
        "ok,",
        Some("undo,,,,,,"),
    )?;
    does(rt, alloc, editor, "undo,,,,,,", "nothing,", None)?;
    does(
        rt,
        alloc,
        editor,
        "redo,,,,,,\r\n",
        "ok,",
        Some("redo,,,,,,"),
    )?;
    does(rt, alloc, editor, "areas,,,,,,", "area,101,", None)?;
    does(rt, alloc, editor, "outline,102,,,,,", "ring,102,", None)?;
    does(rt, alloc, editor, "print,,,,,,", "plan,2,", None)?;
    does(rt, alloc, editor, "nonsense,,,,,,", "syntax,", None)?;
    let name = "rename,101,\"Mill, Lane\",,,,";
    does(rt, alloc, editor, name, "ok,", Some(name))?;
    Ok(plan_text(alloc, editor.map())?)
}

/// Carries all lines of a journal out.
fn replay_whole<M: MapStore>(
    alloc: Global,
    editor: &mut Editor<M>,
    journal: &[Bytes],
) -> Result<(), ReplayFault>
    requires { StandsForSome M.map M.belongs editor.old }
    ensures { OnOk result (StandsForSome M.map M.belongs editor.new) }
{
    replay(alloc, editor, journal)
}

#[test]
fn a_journal_makes_the_map_again(rt: HostRuntime) -> Result<(), Fail> {
    let mut editor = open(&rt, rt.alloc(), store_of_plan(&rt, rt.alloc()));
    let plan = serve(&rt, rt.alloc(), &mut editor)?;
    let journal = lines(
        rt.alloc(),
        &[
            "add-point,9,70000,0,,,",
            "undo,,,,,,",
            "redo,,,,,,",
            "rename,101,\"Mill, Lane\",,,,",
        ],
    )?;
    let mut again = open(&rt, rt.alloc(), store_of_plan(&rt, rt.alloc()));
    replay_whole(rt.alloc(), &mut again, journal.as_slice())?;
    shows(&rt, rt.alloc(), &again, plan.as_slice())
}

/// What replaying these lines on the map of the plan tells.
fn replayed(rt: &impl Abort, alloc: Global, texts: &[&str]) -> Result<Option<ReplayFault>, Fail> {
    let journal = lines(alloc, texts)?;
    let mut editor = open(rt, alloc, store_of_plan(rt, alloc));
    Ok(replay(alloc, &mut editor, journal.as_slice()).err())
}

#[test]
fn lines_that_are_not_carried_out_are_told(rt: HostRuntime) -> Result<(), Fail> {
    let point = "add-point,9,70000,0,,,";
    let second = Some(ReplayFault::Line(1));
    assert_eq!(&rt;
        replayed(&rt, rt.alloc(), &["undo,,,,,,"])?,
        Some(ReplayFault::Line(0))
    );
    assert_eq!(&rt; replayed(&rt, rt.alloc(), &[point, point])?, second);
    assert_eq!(&rt; replayed(&rt, rt.alloc(), &[point, "areas,,,,,,"])?, second);
    assert_eq!(&rt; replayed(&rt, rt.alloc(), &[point, "nonsense"])?, second);
    assert_eq!(&rt; replayed(&rt, rt.alloc(), &[point, ""])?, second);
    assert_eq!(&rt;
        replayed(&rt, rt.alloc(), &[point, "\"undo\",,,,,,"])?,
        second
    );
    assert_eq!(&rt;
        replayed(&rt, rt.alloc(), &[point, "undo,,,,,,\n"])?,
        second
    );
    assert_eq!(&rt; replayed(&rt, rt.alloc(), &[point, "undo,,,,,,"])?, None);
    Ok(())
}
