//! Laws of histories.
ghost use Rattle.std.specs.Prelude.{◌≡◌, ℕ, List, Some};
ghost use Rattle.cad_rows.specs.declared.refusals.Refusal.TheVariants as refusal;
ghost use Rattle.cad_history.specs.declared.commands.Command.{Command};
ghost use Rattle.cad_history.specs.declared.commands.Answer.{Answer};
ghost use Rattle.cad_history.specs.declared.commands.Answer.TheVariants as answer;
ghost use Rattle.cad_map.specs.Map.{Map};
ghost use Rattle.cad_map.specs.Valid.{IsValid};
ghost use Rattle.cad_history.specs.History.{History, IsHistory, beginning, shown_map};
ghost use Rattle.cad_history.specs.Steps.{Step, Run};

/// To a command there is one answer beside want of memory, and after given answers there is one history.
pub fn one_history()
    ensures answer { (h x y : History) (c : Command) (a b : Answer) → Step h c a x → Step h c b y →
        ¬ (a ≡ answer.Refused refusal.Memory) → ¬ (b ≡ answer.Refused refusal.Memory) → a ≡ b }
    ensures after { (commands : List Command) (answers : List Answer) (h x y : History) →
        Run h commands answers x → Run h commands answers y → x ≡ y }
{}

/// What is opened on a valid map is a history, each command leaves one, and the map that is shown is valid.
pub fn histories_stay()
    ensures beginning { (m : Map) (depth : ℕ) → IsValid m → IsHistory (beginning m depth) }
    ensures step { (h new : History) (c : Command) (a : Answer) → IsHistory h → Step h c a new
        → IsHistory new }
    ensures shown_map { (h : History) (m : Map) → IsHistory h → shown_map h ≡ Some m → IsValid m }
{}
