//! What differs between two maps.
ghost use Rattle.std.specs.Prelude.{◌≡◌, IfOk};
ghost use Rattle.cad_map.specs.Valid.{IsValid};
ghost use Rattle.cad_files.specs.Texts.{text_of};
ghost use Rattle.cad_views.specs.Differences.{differing as differing_of, differences as differences_of, told_of};

use cad_map::PlainMap;
use cad_rows::{Memory, Name};
use cad_views::{difference_text, differing, told};
use std::alloc::Global;

/// The names of which two valid maps don't have the same. `Err` where memory runs out.
pub fn names_that_differ(alloc: Global, old: &PlainMap, new: &PlainMap) -> Result<Vec<Name>, Memory>
    requires old_valid { IsValid old.now }
    requires new_valid { IsValid new.now }
    ensures { IfOk result (λ names. names.items ≡ differing_of old.now new.now) }
{
    differing(alloc, old, new)
}

/// What differs between two valid maps, a record for each name. `Err` where memory runs out.
pub fn differences_of_two_maps(
    alloc: Global,
    old: &PlainMap,
    new: &PlainMap,
) -> Result<Vec<u8>, Memory>
    requires old_valid { IsValid old.now }
    requires new_valid { IsValid new.now }
    ensures { IfOk result (λ text. text.items ≡ text_of (differences_of old.now new.now)) }
{
    difference_text(alloc, old, new)
}

/// What a valid map tells of a name beside another map. `Err` where memory runs out.
pub fn told_of_a_name(
    alloc: Global,
    map: &PlainMap,
    other: &PlainMap,
    name: &Name,
) -> Result<Vec<u8>, Memory>
    requires { IsValid map.now }
    ensures { IfOk result (λ text. text.items ≡ told_of map.now other.now name.now) }
{
    told(alloc, map, other, name)
}
