//! Calls of an editor that are made again where a growth was refused: nothing has changed by then, and each answers as it
//! would have at first.
ghost use Rattle.std.specs.Prelude.{IfOk, OnOk};
ghost use Rattle.cad_history.specs.Standing.{StandsForSome};
ghost use Rattle.cad_map.specs.Valid.{IsValid};

use crate::sights::{Seen, Sight, check_same, check_text};
use cad_files::answer_text;
use cad_history::{Answer, Command, Depth, Editor, run, step};
use cad_rows::{Memory, Refusal};
use std::process::Abort;

/// What is seen of an editor: its store, and whether there is an edit to go back or on.
#[derive(Drop)]
struct Shown {
    store: Sight,
    can_undo: bool,
    can_redo: bool,
}

/// The texts of an edit's answer, and of the plans before it and after it.
#[derive(Clone, Copy)]
pub(crate) struct Texts<'a> {
    pub before: &'a str,
    pub answer: &'a str,
    pub after: &'a str,
}

/// The answer to a command that is carried out.
pub(crate) const DONE: &str = "ok,,,,,,\n";

/// The answer to an undo or a redo where there is no edit.
const NOTHING: &str = "nothing,,,,,,\n";

fn shown_by<R: Abort + AllocGlobal, M: Seen>(rt: &R, editor: &Editor<M>) -> Result<Shown, Memory>
    requires { StandsForSome M.map M.belongs editor.now }
{
    Ok(Shown {
        store: editor.map().sight(rt)?,
        can_undo: editor.can_undo(),
        can_redo: editor.can_redo(),
    })
}

/// Fails where something else is seen of an editor than before.
fn check_unchanged<R: Abort + AllocGlobal, M: Seen>(
    rt: &R,
    editor: &Editor<M>,
    before: &Shown,
) -> Result<(), Memory>
    requires { StandsForSome M.map M.belongs editor.now }
{
    let now = shown_by(rt, editor)?;
    check_same(rt, &now.store, &before.store);
    assert_eq!(rt; now.can_undo, before.can_undo);
    assert_eq!(rt; now.can_redo, before.can_redo);
    Ok(())
}

/// Opens an editor at the least depth. Where a growth is refused, the store comes back, and is opened again.
pub(crate) fn open_again<R: Abort + AllocGlobal, M: Seen + Drop>(
    rt: &R,
    store: M,
) -> Result<Editor<M>, Memory>
    requires { IsValid (M.map store) }
    ensures { IfOk result (StandsForSome M.map M.belongs) }
{
    let before = store.sight(rt)?;
    let depth = Depth::new(1).expect(rt, "a depth");
    match Editor::open(rt.alloc(), store, depth) {
        Ok(editor) => Ok(editor),
        Err(given_back) => {
            check_same(rt, &given_back.sight(rt)?, &before);
            match Editor::open(rt.alloc(), given_back, depth) {
                Ok(editor) => Ok(editor),
                Err(_) => Err(Memory),
            }
        }
    }
}

/// Carries a command out; where a growth is refused, once more.
fn step_again<R: Abort + AllocGlobal, M: Seen>(
    rt: &R,
    editor: &mut Editor<M>,
    command: &Command,
) -> Result<Answer, Memory>
    requires { StandsForSome M.map M.belongs editor.old }
    ensures { OnOk result (StandsForSome M.map M.belongs editor.new) }
{
    let before = shown_by(rt, editor)?;
    let answer = step(editor, command);
    if answer != Answer::Refused(Refusal::Memory) {
        return Ok(answer);
    }
    check_unchanged(rt, editor, &before)?;
    Ok(step(editor, command))
}

/// Carries commands out; where the growth for their answers is refused, no command was, and all are carried out then.
pub(crate) fn run_again<R: Abort + AllocGlobal, M: Seen>(
    rt: &R,
    editor: &mut Editor<M>,
    commands: &[Command],
) -> Result<Vec<Answer>, Memory>
    requires { StandsForSome M.map M.belongs editor.old }
    ensures { OnOk result (StandsForSome M.map M.belongs editor.new) }
{
    let before = shown_by(rt, editor)?;
    match run(rt.alloc(), editor, commands) {
        Ok(answers) => Ok(answers),
        Err(_) => {
            check_unchanged(rt, editor, &before)?;
            run(rt.alloc(), editor, commands)
        }
    }
}

/// Fails where another answer was given.
pub(crate) fn check_answer<R: Abort + AllocGlobal>(
    rt: &R,
    answer: &Answer,
    wanted: &str,
) -> Result<(), Memory> {
    let text = answer_text(rt.alloc(), answer)?;
    assert!(rt; text.as_slice() == wanted.as_bytes());
    Ok(())
}

/// Carries a command out, which is answered so and leads to this plan.
pub(crate) fn check_command<R: Abort + AllocGlobal, M: Seen>(
    rt: &R,
    editor: &mut Editor<M>,
    command: &Command,
    answer: &str,
    after: &str,
) -> Result<(), Memory>
    requires { StandsForSome M.map M.belongs editor.old }
    ensures { OnOk result (StandsForSome M.map M.belongs editor.new) }
{
    let given = step_again(rt, editor, command)?;
    check_answer(rt, &given, answer)?;
    check_text(rt, editor.map(), after)
}

/// Makes an edit through an editor and takes it back, twice, and redoes it. Where it is refused there is nothing to take
/// back or to redo.
pub(crate) fn check_in_editor<R: Abort + AllocGlobal, M: Seen + Drop>(
    rt: &R,
    store: M,
    edit: &Command,
    texts: &Texts<'_>,
) -> Result<(), Memory>
    requires { IsValid (M.map store) }
{
    let back = if texts.answer == DONE { DONE } else { NOTHING };
    let mut editor = open_again(rt, store)?;
    check_command(rt, &mut editor, edit, texts.answer, texts.after)?;
    check_command(rt, &mut editor, &Command::Undo, back, texts.before)?;
    check_command(rt, &mut editor, edit, texts.answer, texts.after)?;
    check_command(rt, &mut editor, &Command::Undo, back, texts.before)?;
    check_command(rt, &mut editor, &Command::Redo, back, texts.after)
}
