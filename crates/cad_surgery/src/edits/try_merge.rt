//! A merger on a map on half-edges, along a chain or round an island: tried, and taken back where it
//! breaks a rule.
ghost use Rattle.std.specs.Prelude.{◌≡◌};
ghost use Rattle.cad_rows.specs.declared.edits.Edit.TheVariants.{Merge};
ghost use Rattle.cad_rows.specs.declared.names.Face.TheVariants.{Parcel};
ghost use Rattle.cad_map.specs.SharedChains.{IsSharedChain};
ghost use Rattle.cad_surgery.specs.ToldMergers.{merger_record};
ghost use Rattle.cad_surgery.specs.Trials.{IsReadyFor, IsTrialOf};
ghost use Rattle.map_parts.specs.Parts.{map_of};

use crate::draft::Draft;
use crate::edits::chain_strings::chain_strings;
use crate::edits::counted::is_work_in_range;
use crate::edits::merging::{Merger, Way, merge_within_rules};
use crate::edits::shared::{Shared, shared_by};
use cad_map::{SharedChain, find_shared_chain};
use cad_near::{FaceAreas, Touched};
use cad_rows::{Face, ParcelNo, ParcelRow, Refusal};
use edit_records::{ChainString, SmallRecord};
use half_table::Tally;
use map_parts::EndedParcel;

// The record of a merger that went by what the two shared.
fn record_of_merger(
    kept: Face,
    row: ParcelRow,
    place: usize,
    shared: Shared,
    strings: Vec<ChainString>,
) -> SmallRecord
    ensures { result ≡ merger_record shared.way kept row place shared.points strings shared.moved }
{
    let Shared {
        way,
        points,
        moved,
        ..
    } = shared;
    match way {
        Way::Along { start, end } => SmallRecord::MergeAlong {
            kept,
            row,
            place,
            chain: points,
            strings,
            start,
            end,
            moved,
        },
        Way::Round => SmallRecord::MergeIsland {
            kept,
            row,
            place,
            points,
            strings,
            moved,
        },
    }
}

// Merges a parcel into a face, and takes it back where it breaks a rule. Gives its record.
fn merge_recording<T: Tally>(
    draft: &mut Draft<T>,
    kept: Face,
    ended: ParcelNo,
    chain: SharedChain,
    areas: &FaceAreas,
    touched: &Touched,
) -> Result<SmallRecord, Refusal>
    requires ready { IsReadyFor (Merge kept (Parcel ended)) draft.old areas.now touched.now }
    requires shared { IsSharedChain (map_of draft.old) kept (Parcel ended) chain }
    ensures { IsTrialOf (Merge kept (Parcel ended)) draft.old draft.new result }
{
    is_work_in_range(&draft.table);
    let Ok(shared) = shared_by(draft, &kept, ended, chain) else {
        return Err(Refusal::Memory);
    };
    let alloc = draft.rows.points.allocator();
    let Ok(mut strings) = Vec::with_capacity(alloc, shared.path.len()) else {
        return Err(Refusal::Memory);
    };
    let merger = Merger {
        kept,
        ended,
        way: shared.way,
        path: shared.path.as_slice(),
        strings: shared.strings.as_slice(),
        moved: shared.moved.as_slice(),
    };
    let gone = merge_within_rules(draft, &merger, areas, touched)?;
    let EndedParcel {
        row,
        place,
        strings: placed,
    } = gone;
    chain_strings(shared.path.as_slice(), placed, &mut strings);
    Ok(record_of_merger(kept, row, place, shared, strings))
}

/// Merges a parcel into a face along the chain or round the ring that they share, and takes it back
/// where it breaks a rule. The grid holds the strings and points of the map after it.
pub(crate) fn try_merge<T: Tally>(
    draft: &mut Draft<T>,
    kept: Face,
    ended: Face,
    areas: &FaceAreas,
    touched: &Touched,
) -> Result<SmallRecord, Refusal>
    requires { IsReadyFor (Merge kept ended) draft.old areas.now touched.now }
    ensures { IsTrialOf (Merge kept ended) draft.old draft.new result }
{
    let Face::Parcel(parcel) = ended else {
        unreachable!()
    };
    let chain = find_shared_chain(draft, &kept, &ended).unwrap();
    merge_recording(draft, kept, parcel, chain, areas, touched)
}
