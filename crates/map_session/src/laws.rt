//! Laws of journals.
ghost use Rattle.std.specs.Prelude.{◌≡◌, ◌++◌, List};
ghost use Rattle.cad_history.specs.History.{History};
ghost use Rattle.cad_files.specs.Line.{line_of};
ghost use Rattle.cad_files.specs.Texts.{Record};
ghost use Rattle.map_journal.specs.Journal.{Line};
ghost use Rattle.map_session.specs.Session.{IsLineOf, Replays};

/// A line is of one record that means something.
pub fn one_meaning()
    ensures { (line : Line) (a b : Record) → IsLineOf line a → IsLineOf line b → line_of a ≡ line_of b }
{}

/// A journal makes one history of that which it begins with, and lines behind others go on with what these made.
pub fn journal_laws()
    ensures one { (lines : List Line) (h x y : History) → Replays h lines x → Replays h lines y → x ≡ y }
    ensures on { (first mid end : History) (done more : List Line) → Replays first done mid
        → Replays mid more end → Replays first (done ++ more) end }
{}
