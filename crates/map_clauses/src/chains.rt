//! What two faces have in common.
ghost use Rattle.std.specs.Prelude.{◌≡◌, [], IfSome, IfNone};
ghost use Rattle.cad_map.specs.Merger.{is_shared as is_shared_of, shared_chains};
ghost use Rattle.cad_map.specs.SharedChains.{IsSharedChain};
ghost use Rattle.cad_map.specs.Valid.{IsValid};

use cad_map::{MapView, SharedChain, find_shared_chain, is_shared};
use cad_rows::{Face, StringRow};

/// The one chain or the one ring that two faces have in common, and `None` where it is neither.
pub fn one_shared_chain<M: MapView>(map: &M, kept: &Face, ended: &Face) -> Option<SharedChain>
    requires { IsValid (M.map map.now) }
    ensures some { IfSome result (IsSharedChain (M.map map.now) kept.now ended.now) }
    ensures none { IfNone result (shared_chains (M.map map.now) kept.now ended.now ≡ []) }
{
    find_shared_chain(map, kept, ended)
}

/// Whether a string lies between two faces.
pub fn string_lies_between<M: MapView>(
    map: &M,
    kept: &Face,
    ended: &Face,
    string: &StringRow,
) -> bool
    requires { IsValid (M.map map.now) }
    ensures { result ≡ is_shared_of (M.map map.now) kept.now ended.now string.now }
{
    is_shared(map, kept, ended, string)
}
