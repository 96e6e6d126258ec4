//! The first rule that a map breaks, looked for everywhere.
ghost use Rattle.std.specs.Prelude.{IfSome, IfNone};
ghost use Rattle.cad_map.specs.Valid.{CanBeTested, KeepsAll, FirstBroken};

use cad_map::MapView;
use cad_rows::Rule;
use cad_valid::first_broken;

/// The first rule that a map breaks, if it breaks one.
pub fn first_broken_anywhere<M: MapView>(map: &M) -> Option<Rule>
    requires { CanBeTested (M.map map.now) }
    ensures broken { IfSome result (FirstBroken (M.map map.now)) }
    ensures kept { IfNone result (KeepsAll (M.map map.now)) }
{
    first_broken(map)
}
