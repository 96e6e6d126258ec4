//! The same on plain rows, which an edit in must-fail/ can change beside.
ghost use Rattle.std.specs.Prelude.{◌≡◌, IfErr, OnOk, OnErr};
ghost use Rattle.cad_map.specs.Outcome.{LeadsTo, MayRefuse};
ghost use Rattle.cad_map.specs.Valid.{IsValid};

use cad_edit::{PlainStore, WholeMaps};
use cad_map::MapStore;
use cad_rings::Ring;
use cad_rows::{Edit, Memory, Refusal};

/// Makes an edit on plain rows, or tells the first reason against it, or want of memory, also where other rings are at hand.
pub fn make_on_rows(
    store: &mut PlainStore,
    edit: &Edit,
    _rings: Vec<Ring>,
) -> Result<WholeMaps, Refusal>
    requires { IsValid store.old.map }
    ensures made { OnOk result (LeadsTo store.old.map edit.now store.new.map) }
    ensures refused { IfErr result (MayRefuse store.old.map edit.now) }
    ensures err { OnErr result (store.new.map ≡ store.old.map) }
{
    store.apply(edit)
}

/// Goes from the map after an edit to the map before it.
pub fn take_back_on_rows(store: &mut PlainStore, change: &WholeMaps) -> Result<(), Memory>
    requires { change.now.after ≡ store.old.map }
    ensures before { OnOk result (store.new.map ≡ change.now.before) }
    ensures err { OnErr result (store.new.map ≡ store.old.map) }
{
    store.back(change)
}
