//! A map on half-edges as a store: edits, taken back and made again by their records. Each call tells beside what a store
//! owes how small the record is and how much work was done on the half-edges.
ghost use Rattle.std.specs.Prelude.{◌≡◌, ◌≤◌, IsSome, IfOk, IfErr, OnOk, OnErr};
ghost use Rattle.cad_map.specs.Costs.{weight_bound, work_bound};
ghost use Rattle.cad_map.specs.Effects.{after};
ghost use Rattle.cad_map.specs.Map.{Map};
ghost use Rattle.cad_map.specs.Outcome.{LeadsTo, MayRefuse};
ghost use Rattle.cad_map.specs.Refusals.{first_refusal as first_refusal_of};
ghost use Rattle.cad_map.specs.Valid.{IsValid};
ghost use Rattle.map_parts.specs.Parts.{map_of};
ghost use Rattle.edit_records.specs.Record.{Belongs, weight};
ghost use Rattle.cad_surgery.specs.Work.{TakesWork};

use crate::ahead::read_ahead;
use crate::half_map::HalfMap;
use crate::play::{play, play_again, play_back};
use cad_edit::{admit, are_in_range};
use cad_map::MapStore;
use cad_rows::{Edit, Memory, Refusal};
use edit_records::{SmallRecord, are_in_range as gives_in_range};
use half_table::Tally;

impl<T: Tally> MapStore for HalfMap<T> {
    type Record = SmallRecord;

    ghost belongs = { λ r b a. Belongs r b a };

    /// Makes an edit, and gives its record. A refused one leaves the map as it was.
    fn apply(&mut self, edit: &Edit) -> Result<SmallRecord, Refusal>
        requires valid { IsValid (map_of self.old) }
        // The outcome is that of the edit, both ways.
        ensures made { OnOk result (LeadsTo (map_of self.old) edit.now (map_of self.new)) }
        ensures refused { IfErr result (MayRefuse (map_of self.old) edit.now) }
        ensures recorded { IfOk result (λ r. Belongs r (map_of self.old) (map_of self.new)) }
        ensures err { OnErr result (map_of self.new ≡ map_of self.old) }
        // The record is small, and so is the work.
        ensures weight { IfOk result
            (λ r. weight r ≤ weight_bound (map_of self.old) (map_of self.new)) }
        ensures work { TakesWork self.old.table self.new.table
            (work_bound (map_of self.old) (after (map_of self.old) edit.now)) }
        ensures at_once { IsSome (first_refusal_of (map_of self.old) edit.now)
            → self.new.table.work ≡ self.old.table.work }
    {
        self.ahead = read_ahead(&self.draft, edit);
        let found = admit(&self.draft, edit)?;
        are_in_range(edit);
        play(&mut self.draft, &mut self.areas, edit, found.corners)
    }

    /// Goes from the map after an edit to the map before it. Where memory runs out the map stays.
    fn back(&mut self, change: &SmallRecord) -> Result<(), Memory>
        requires made { (before : Map) × Belongs change.now before (map_of self.old) }
        ensures before { OnOk result ((before : Map) → Belongs change.now before (map_of self.old)
            → map_of self.new ≡ before) }
        ensures err { OnErr result (map_of self.new ≡ map_of self.old) }
        ensures work { (before : Map) → Belongs change.now before (map_of self.old)
            → TakesWork self.old.table self.new.table (work_bound before (map_of self.old)) }
    {
        gives_in_range(change);
        play_back(&mut self.draft, &mut self.areas, change)
    }

    /// Goes from the map before an edit to the map after it. Where memory runs out the map stays.
    fn forward(&mut self, change: &SmallRecord) -> Result<(), Memory>
        requires made { (after : Map) × Belongs change.now (map_of self.old) after }
        ensures after { OnOk result ((after : Map) → Belongs change.now (map_of self.old) after
            → map_of self.new ≡ after) }
        ensures err { OnErr result (map_of self.new ≡ map_of self.old) }
        ensures work { (after : Map) → Belongs change.now (map_of self.old) after
            → TakesWork self.old.table self.new.table (work_bound (map_of self.old) after) }
    {
        gives_in_range(change);
        play_again(&mut self.draft, &mut self.areas, change)
    }
}
