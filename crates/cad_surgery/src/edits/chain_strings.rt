//! What a record keeps of strings that went with a chain, or an island.
ghost use Rattle.std.specs.Prelude.{◌≡◌, ◌+◌, ◌≤◌, [], length};
ghost use Rattle.std.specs.Vec.{vec_len, vec_capacity};
ghost use Rattle.cad_surgery.specs.ChainStrings.{with_halves};

use edit_records::ChainString;
use half_table::Half;
use map_parts::PlacedString;

/// Lists strings that went, with the halves along them. It takes no memory.
pub(crate) fn chain_strings(path: &[Half], gone: Vec<PlacedString>, strings: &mut Vec<ChainString>)
    requires as_many { length path.now ≡ length gone.items }
    requires none { strings.old.items ≡ [] }
    requires room { vec_len strings.old + length gone.items ≤ vec_capacity strings.old }
    ensures { strings.new.items ≡ with_halves path.now gone.items }
{
    let mut along = 0;
    for string in gone {
        let half = path[along];
        strings.push_reserved(ChainString {
            half,
            place: string.place,
            sources: string.row.sources,
        });
        along += 1;
    }
}
