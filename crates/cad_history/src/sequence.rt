//! Commands in turn.
ghost use Rattle.std.specs.Prelude.{◌≡◌, length, Some, IfOk, OnErr};
ghost use Rattle.cad_map.specs.Map.{Map};
ghost use Rattle.cad_history.specs.History.{History, opened, standing, LeadAlong};
ghost use Rattle.cad_history.specs.Steps.{Run, undo_answer};
ghost use Rattle.cad_history.specs.Standing.{StandsFor, StandsForSome, Goes, GoesAlong};

use crate::commands::{Answer, Command, UndoFault};
use crate::editor::Editor;
use cad_map::MapStore;
use cad_rows::{Memory, Refusal};
use std::alloc::Global;

/// Carries commands out in turn, and tells the answer to each. Where memory runs out for the answers, no command
/// is carried out.
pub fn run<M: MapStore>(
    alloc: Global,
    editor: &mut Editor<M>,
    commands: &[Command],
) -> Result<Vec<Answer>, Memory>
    requires { StandsForSome M.map M.belongs editor.old }

    // The answers are those of each history that the editor stood for, and it stands for the history after them.
    ensures run { IfOk result
        (λ answers. GoesAlong M.map M.belongs editor.old commands.now answers.items editor.new) }

    // Each command has its answer.
    ensures each { IfOk result (λ answers. length answers.items ≡ length commands.now) }

    // The map is then the opened one with the standing edits applied in order.
    ensures built { IfOk result
        (λ answers. (h end : History) (first : Map) → StandsFor M.map M.belongs editor.old h →
        Run h commands.now answers.items end → opened h ≡ Some first →
        LeadAlong first (standing end) (M.map editor.new.store)) }
    ensures err { OnErr result (editor.new ≡ editor.old) }
{
    let Ok(mut answers) = Vec::with_capacity(alloc, commands.len()) else {
        return Err(Memory);
    };
    for command in commands {
        let answer = step(editor, command);
        answers.push(answer).unwrap();
    }
    Ok(answers)
}

/// Carries one command out.
pub fn step<M: MapStore>(editor: &mut Editor<M>, command: &Command) -> Answer
    requires { StandsForSome M.map M.belongs editor.old }
    ensures { Goes M.map M.belongs editor.old command.now result editor.new }
{
    match command {
        Command::Edit(edit) => match editor.edit(edit) {
            Ok(()) => Answer::Done,
            Err(refusal) => Answer::Refused(refusal),
        },
        Command::Undo => answer_of(editor.undo()),
        Command::Redo => answer_of(editor.redo()),
    }
}

fn answer_of(outcome: Result<(), UndoFault>) -> Answer
    ensures { result ≡ undo_answer outcome }
{
    match outcome {
        Ok(()) => Answer::Done,
        Err(UndoFault::Nothing) => Answer::Nothing,
        Err(UndoFault::Memory) => Answer::Refused(Refusal::Memory),
    }
}
