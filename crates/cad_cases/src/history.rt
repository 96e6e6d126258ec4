//! Lists of commands, each carried out by one call of the editor of a plain map.
ghost use Rattle.std.specs.Prelude.{IfOk};
ghost use Rattle.cad_history.specs.Standing.{StandsForSome};
ghost use Rattle.cad_map.specs.Valid.{IsValid};

use crate::bases::{OPEN, PLAN, SQUARE};
use crate::cases::{AMPLE_DEPTH, lines};
use cad_edit::PlainStore;
use cad_files::{Line, answer_text, build, next_row, read_line, read_plan};
use cad_history::{Answer, Command, Depth, Editor, run};
use cad_map::{MapStore, PlainMap};
use cad_rows::Memory;
use csv::{ByteRecord, ReaderBuilder};
use number_hash::NumberHash;
use std::alloc::Global;
use std::test::Fail;

/// A list of commands on the square of a metre, as parts of a script, and the answers to them.
#[derive(Drop)]
struct List {
    name: &'static str,
    depth: usize,
    commands: &'static [&'static str],
    answers: &'static [&'static str],
}

/// The map of a plan.
pub(crate) fn map_of(alloc: Global, plan: &[u8]) -> Result<PlainMap, Fail>
    ensures { IfOk result IsValid }
{
    let mut reader = ReaderBuilder::new()
        .has_headers(false)
        .from_reader(alloc, plan);
    let rows = read_plan(alloc, &mut reader).ok().ok_or("a plan")?;
    match build(alloc, NumberHash::fixed(), &rows) {
        Ok(map) => Ok(map),
        Err(_) => Err(Fail::from("a map")),
    }
}

/// An editor of the store's map.
fn editor_of<M: MapStore + Drop>(alloc: Global, store: M, depth: Depth) -> Result<Editor<M>, Memory>
    requires { IsValid (M.map store) }
    ensures { IfOk result (StandsForSome M.map M.belongs) }
{
    match Editor::open(alloc, store, depth) {
        Ok(editor) => Ok(editor),
        Err(_) => Err(Memory),
    }
}

/// The command that a record asks for.
fn command_of(alloc: Global, record: &str) -> Result<Command, Fail> {
    let text = lines(alloc, &[record])?;
    let mut reader = ReaderBuilder::new()
        .has_headers(false)
        .from_reader(alloc, text.as_slice());
    let mut row = ByteRecord::new(alloc);
    let _ = next_row(&mut reader, &mut row);
    match read_line(alloc, &row) {
        Ok(Line::Command(command)) => Ok(command),
        _ => Err(Fail::from("a command")),
    }
}

/// The commands that the records of all parts ask for.
fn commands_of(alloc: Global, parts: &[&str]) -> Result<Vec<Command>, Fail> {
    let mut commands = Vec::new(alloc);
    for part in parts {
        for record in part.split("; ") {
            commands.push(command_of(alloc, record)?)?;
        }
    }
    Ok(commands)
}

/// The text of answers.
fn text_of(alloc: Global, answers: &[Answer]) -> Result<Vec<u8>, Fail> {
    let mut text = Vec::new(alloc);
    for answer in answers {
        let more = answer_text(alloc, answer)?;
        text.extend_from_slice(more.as_slice())?;
    }
    Ok(text)
}

/// What an editor opened on a plan's map answers to a list of commands.
fn answers_to(
    alloc: Global,
    plan: &[u8],
    depth: Depth,
    commands: &[Command],
) -> Result<Vec<Answer>, Fail> {
    let map = map_of(alloc, plan)?;
    let mut editor = editor_of(alloc, PlainStore { map }, depth)?;
    let answers = run(alloc, &mut editor, commands)?;
    Ok(answers)
}

#[test]
fn lists_of_commands(rt: HostRuntime) -> Result<(), Fail> {
    let lists = [
        List {
            name: "one edit back at depth one",
            depth: 1,
            commands: &["add-point,5,500,500; add-point,6,600,600; undo; undo; redo; redo"],
            answers: &["ok; ok; ok; nothing; ok; nothing"],
        },
        List {
            name: "two edits back at depth two",
            depth: 2,
            commands: &[
                "add-point,5,100,500; add-point,6,200,500; add-point,7,300,500; undo; undo; undo",
                "add-point,8,400,500; undo; undo",
            ],
            answers: &["ok; ok; ok; ok; ok; nothing; ok; ok; nothing"],
        },
        List {
            name: "a refused edit leaves what can be made again",
            depth: AMPLE_DEPTH,
            commands: &["add-point,5,500,500; undo; drop-point,9; redo"],
            answers: &["ok; ok; refused,2,unknown,point,9; ok"],
        },
        List {
            name: "a number retired by a merger until it is undone",
            depth: AMPLE_DEPTH,
            commands: &[
                "divide,1,1 3,21,2,C,1; merge,1,2; divide,1,1 3,21,2,C,1; undo; divide,1,1 3,22,2,C,1",
                "undo; divide,1,1 3,22,2,C,1",
            ],
            answers: &["ok; ok; refused,4,retired,parcel,2; ok; refused,3,taken,parcel,2; ok; ok"],
        },
    ];
    let alloc = rt.alloc();
    let plan = lines(alloc, &[PLAN, SQUARE, OPEN])?;
    for list in &lists {
        let depth = Depth::new(list.depth).ok_or("a depth")?;
        let commands = commands_of(alloc, list.commands)?;
        let answers = answers_to(alloc, plan.as_slice(), depth, commands.as_slice())?;
        let text = text_of(alloc, answers.as_slice())?;
        let wanted = lines(alloc, list.answers)?;
        assert!(rt;
            text.as_slice() == wanted.as_slice(),
            "what {} answers",
            list.name
        );
    }
    Ok(())
}
