//! Edits of rows alone on a map on half-edges: table, halves of rings, stars and grid stay.
ghost use Rattle.std.specs.Prelude.{◌≡◌, IsTrue, IsOk, IfOk, OnOk, OnErr};
ghost use Rattle.cad_map.specs.Effects.{after};
ghost use Rattle.cad_map.specs.Map.{Map};
ghost use Rattle.cad_laws.specs.Tried.{IsTried};
ghost use Rattle.map_parts.specs.Parts.{map_of};
ghost use Rattle.edit_records.specs.Record.{edit_of, Holds, IsMadeOf, IsPlaced};
ghost use Rattle.cad_surgery.specs.RowEdits.{is_of_rows, KeepsBeside};

use crate::draft::Draft;
use crate::edits::rows::{make, remake, unmake};
use cad_rows::{Edit, Memory};
use edit_records::SmallRecord;
use half_table::Tally;

impl<T: Tally> Draft<T> {
    /// Makes an edit of rows alone, and gives its record. The map after it may break a rule. Where
    /// memory runs out the map stays.
    pub(crate) fn make_rows(&mut self, edit: &Edit) -> Result<SmallRecord, Memory>
        requires alone { IsTrue (is_of_rows edit.now) }
        requires tried { IsTried (map_of self.old) edit.now }
        ensures made { OnOk result (map_of self.new ≡ after (map_of self.old) edit.now) }
        ensures err { OnErr result (map_of self.new ≡ map_of self.old) }
        ensures edit { IfOk result (λ r. edit_of r ≡ edit.now) }
        ensures holds { IfOk result (λ r. Holds r (map_of self.old)) }
        ensures beside { KeepsBeside self.old self.new }
    {
        make(&mut self.rows, edit)
    }

    /// Takes an edit of rows alone back. Where memory runs out the map stays. A point that came, or
    /// lies elsewhere, is taken back without memory.
    pub(crate) fn unmake_rows(&mut self, change: &SmallRecord) -> Result<(), Memory>
        requires alone { IsTrue (is_of_rows (edit_of change.now)) }
        requires made { (m : Map) × IsMadeOf change.now m
            × (map_of self.old ≡ after m (edit_of change.now)) }
        ensures before { OnOk result ((m : Map) → IsMadeOf change.now m
            → map_of self.old ≡ after m (edit_of change.now) → map_of self.new ≡ m) }
        ensures err { OnErr result (map_of self.new ≡ map_of self.old) }
        ensures sure { IsPlaced change.now → IsOk result }
        ensures beside { KeepsBeside self.old self.new }
    {
        unmake(&mut self.rows, change)
    }

    /// Makes an edit of rows alone again. Where memory runs out the map stays.
    pub(crate) fn remake_rows(&mut self, change: &SmallRecord) -> Result<(), Memory>
        requires alone { IsTrue (is_of_rows (edit_of change.now)) }
        requires made { IsMadeOf change.now (map_of self.old) }
        ensures after { OnOk result
            (map_of self.new ≡ after (map_of self.old) (edit_of change.now)) }
        ensures err { OnErr result (map_of self.new ≡ map_of self.old) }
        ensures beside { KeepsBeside self.old self.new }
    {
        remake(&mut self.rows, change)
    }
}
