//! An edit that is taken back, or made again, by its record.
ghost use Rattle.std.specs.Prelude.{◌≡◌, OnOk, OnErr};
ghost use Rattle.cad_map.specs.Map.{Map};

use cad_map::MapStore;
use cad_rows::Memory;

/// Goes from the map after an edit to the map before it.
pub fn take_back<M: MapStore>(store: &mut M, change: &M::Record) -> Result<(), Memory>
    requires { (before : Map) × M.belongs change.now before (M.map store.old) }
    ensures before { OnOk result ((before : Map) → M.belongs change.now before (M.map store.old)
        → M.map store.new ≡ before) }
    ensures err { OnErr result (M.map store.new ≡ M.map store.old) }
{
    store.back(change)
}

/// Goes from the map before an edit to the map after it.
pub fn go_forward<M: MapStore>(store: &mut M, change: &M::Record) -> Result<(), Memory>
    requires { (after : Map) × M.belongs change.now (M.map store.old) after }
    ensures after { OnOk result ((after : Map) → M.belongs change.now (M.map store.old) after
        → M.map store.new ≡ after) }
    ensures err { OnErr result (M.map store.new ≡ M.map store.old) }
{
    store.forward(change)
}
