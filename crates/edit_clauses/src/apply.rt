//! An edit that is made, or refused.
ghost use Rattle.std.specs.Prelude.{◌≡◌, IfOk, IfErr, OnOk, OnErr};
ghost use Rattle.cad_map.specs.Outcome.{LeadsTo, MayRefuse};
ghost use Rattle.cad_map.specs.Valid.{IsValid};

use cad_map::MapStore;
use cad_rows::{Edit, Refusal};

/// Makes an edit on a store, or tells the first reason against it, or want of memory.
pub fn make<M: MapStore>(store: &mut M, edit: &Edit) -> Result<M::Record, Refusal>
    requires { IsValid (M.map store.old) }
    ensures made { OnOk result (LeadsTo (M.map store.old) edit.now (M.map store.new)) }
    ensures refused { IfErr result (MayRefuse (M.map store.old) edit.now) }
    ensures recorded { IfOk result (λ r. M.belongs r (M.map store.old) (M.map store.new)) }
    ensures err { OnErr result (M.map store.new ≡ M.map store.old) }
{
    store.apply(edit)
}
