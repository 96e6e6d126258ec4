//! Editors that are opened, and lists of commands that are run, again where a growth was refused. Where it was that of one
//! command, the others are answered as if that one weren't in the list.
ghost use Rattle.std.specs.Prelude.{IfOk};
ghost use Rattle.cad_history.specs.Standing.{StandsForSome};
ghost use Rattle.cad_map.specs.Valid.{IsValid};
ghost use Rattle.map_parts.specs.Parts.{map_of as map_that_stands};

use crate::editors::{DONE, check_command, open_again, run_again};
use crate::plans::{Plan, SQUARE, append, command_of, map_of, text_of};
use crate::plans_after::{DIVIDED, DIVIDED_ANEW, WITH_POINT};
use crate::sights::{Seen, check_text};
use cad_edit::PlainStore;
use cad_files::answer_text;
use cad_history::{Answer, Command, Depth, Editor};
use cad_map::MapStore;
use cad_rows::Memory;
use cad_surgery::HalfMap;
use half_table::Ticks;
use std::alloc::{AllocError, Global};
use std::process::Abort;
use std::test::Fail;

/// Commands on the square that take memory or are refused at once.
const COMMANDS: &str =
    "divide,1,1 3,21,2,C,1; merge,1,2; divide,1,1 3,21,2,C,1; undo; divide,1,1 3,22,2,C,1; undo; \
    divide,1,1 3,22,2,C,1; undo; redo";

/// What they are answered and lead to, first where no growth is refused, and then where one of them wants for memory.
const OUTCOMES: [(&str, Plan); 8] = [
    (
        "ok; ok; refused,4,retired,parcel,2; ok; refused,3,taken,parcel,2; ok; ok; ok; ok",
        DIVIDED_ANEW,
    ),
    (
        "refused,19,memory; refused,2,unknown,parcel,2; ok; ok; ok; ok; ok; ok; ok",
        DIVIDED_ANEW,
    ),
    (
        "ok; refused,19,memory; refused,3,taken,string,21; ok; ok; ok; ok; ok; ok",
        DIVIDED_ANEW,
    ),
    (
        "ok; ok; refused,4,retired,parcel,2; refused,19,memory; refused,4,retired,parcel,2; ok; \
        refused,3,taken,parcel,2; ok; ok",
        DIVIDED,
    ),
    (
        "ok; ok; refused,4,retired,parcel,2; ok; refused,3,taken,parcel,2; refused,19,memory; \
        refused,3,taken,parcel,2; ok; ok",
        DIVIDED,
    ),
    (
        "ok; ok; refused,4,retired,parcel,2; ok; refused,3,taken,parcel,2; ok; refused,19,memory; \
        nothing; ok",
        DIVIDED,
    ),
    (
        "ok; ok; refused,4,retired,parcel,2; ok; refused,3,taken,parcel,2; ok; ok; \
        refused,19,memory; nothing",
        DIVIDED_ANEW,
    ),
    (
        "ok; ok; refused,4,retired,parcel,2; ok; refused,3,taken,parcel,2; ok; ok; ok; \
        refused,19,memory",
        SQUARE,
    ),
];

/// Commands on the square none of which takes memory.
const IDLE_COMMANDS: &str =
    "undo; redo; merge,1,1; drop-point,9; move,3,1000,1000; add-point,6,10000000001,0";

/// What they are answered.
const IDLE_ANSWERS: &str =
    "nothing; nothing; refused,12,same-parcel; refused,2,unknown,point,9; refused,6,no-change; \
    refused,1,range";

/// The commands that records ask for.
fn commands_of(alloc: Global, records: &str) -> Result<Vec<Command>, Fail> {
    let mut commands = Vec::new(alloc);
    for record in records.split("; ") {
        commands.push(command_of(alloc, record)?)?;
    }
    Ok(commands)
}

/// Records as lines.
fn lines_of(alloc: Global, records: &str) -> Result<String, AllocError> {
    let mut text = String::new(alloc);
    for record in records.split("; ") {
        append(&mut text, record)?;
    }
    Ok(text)
}

/// Answers as lines.
fn text_of_answers(alloc: Global, answers: &[Answer]) -> Result<Vec<u8>, Memory> {
    let mut text = Vec::new(alloc);
    for answer in answers {
        let more = answer_text(alloc, answer)?;
        text.extend_from_slice(more.as_slice())?;
    }
    Ok(text)
}

/// The plan that the commands lead to that are answered so.
fn plan_after(alloc: Global, told: &[u8]) -> Result<Option<Plan>, AllocError> {
    for (answers, plan) in OUTCOMES {
        if lines_of(alloc, answers)?.as_bytes() == told {
            return Ok(Some(plan));
        }
    }
    Ok(None)
}

/// Opens an editor of great depth.
pub(crate) fn editor_of<M: MapStore + Drop>(alloc: Global, store: M) -> Result<Editor<M>, Fail>
    requires { IsValid (M.map store) }
    ensures { IfOk result (StandsForSome M.map M.belongs) }
{
    let depth = Depth::new(100).ok_or("a depth")?;
    match Editor::open(alloc, store, depth) {
        Ok(editor) => Ok(editor),
        Err(_) => Err(Fail::from(Memory)),
    }
}

/// Runs the commands on a store of the square, and looks at their answers and at what they lead to.
fn check_commands<R: Abort + AllocGlobal, M: Seen + Drop>(rt: &R, store: M) -> Result<(), Fail>
    requires { IsValid (M.map store) }
{
    let mut editor = editor_of(rt.alloc(), store)?;
    let commands = commands_of(rt.alloc(), COMMANDS)?;
    let answers = run_again(rt, &mut editor, commands.as_slice())?;
    let told = text_of_answers(rt.alloc(), answers.as_slice())?;
    let plan = plan_after(rt.alloc(), told.as_slice())?.expect(rt, "answers that are worked out");
    let wanted = text_of(rt.alloc(), plan)?;
    check_text(rt, editor.map(), wanted.as_str())?;
    Ok(())
}

/// Runs the idle commands on a store of the square. All that may be refused for memory is to run them.
fn check_idle_commands<R: Abort + AllocGlobal, M: Seen + Drop>(rt: &R, store: M) -> Result<(), Fail>
    requires { IsValid (M.map store) }
{
    let mut editor = editor_of(rt.alloc(), store)?;
    let commands = commands_of(rt.alloc(), IDLE_COMMANDS)?;
    let answers = run_again(rt, &mut editor, commands.as_slice())?;
    let told = text_of_answers(rt.alloc(), answers.as_slice())?;
    let wanted = lines_of(rt.alloc(), IDLE_ANSWERS)?;
    assert!(rt; told.as_slice() == wanted.as_bytes());
    Ok(())
}

/// Opens an editor of a store of the square, and makes an edit.
fn check_opened<R: Abort + AllocGlobal, M: Seen + Drop>(rt: &R, store: M) -> Result<(), Fail>
    requires { IsValid (M.map store) }
{
    let mut editor = open_again(rt, store)?;
    let command = command_of(rt.alloc(), "add-point,5,500,500")?;
    let after = text_of(rt.alloc(), WITH_POINT)?;
    check_command(rt, &mut editor, &command, DONE, after.as_str())?;
    Ok(())
}

/// The plain store of the square.
fn plain_square(alloc: Global) -> Result<PlainStore, Fail>
    ensures { IfOk result (λ store. IsValid store.map) }
{
    let text = text_of(alloc, SQUARE)?;
    let map = map_of(alloc, text.as_str())?;
    Ok(PlainStore { map })
}

/// The square on half-edges.
fn square_on_halves(alloc: Global) -> Result<HalfMap<Ticks>, Fail>
    ensures { IfOk result (λ store. IsValid (map_that_stands store)) }
{
    let plain = plain_square(alloc)?;
    let halves = HalfMap::from_map(alloc, plain.map, Ticks::new())?;
    Ok(halves)
}

#[test]
fn lists_of_commands_run_again(rt: HostRuntime) -> Result<(), Fail> {
    check_commands(&rt, square_on_halves(rt.alloc())?)?;
    check_commands(&rt, plain_square(rt.alloc())?)
}

#[test]
fn lists_that_take_no_memory_run_again(rt: HostRuntime) -> Result<(), Fail> {
    check_idle_commands(&rt, square_on_halves(rt.alloc())?)?;
    check_idle_commands(&rt, plain_square(rt.alloc())?)
}

#[test]
fn editors_opened_again(rt: HostRuntime) -> Result<(), Fail> {
    check_opened(&rt, square_on_halves(rt.alloc())?)?;
    check_opened(&rt, plain_square(rt.alloc())?)
}
