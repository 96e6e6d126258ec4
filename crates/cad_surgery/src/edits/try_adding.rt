//! A division or an enclosure on a map on half-edges: tried, and taken back where it breaks a rule.
ghost use Rattle.std.specs.Prelude.{◌≡◌};
ghost use Rattle.cad_edit.specs.Admitted.{HasCorners};
ghost use Rattle.cad_surgery.specs.AddedParcels.{added_record};
ghost use Rattle.cad_surgery.specs.NewParcels.{BringsParcel, Comes, edit_by, kept_by};
ghost use Rattle.cad_surgery.specs.Trials.{IsReadyFor, IsTrialOf};
ghost use Rattle.map_parts.specs.Parts.{map_of};

use crate::draft::Draft;
use crate::edits::adding::add_within_rules;
use crate::edits::coming::{Coming, Lead, coming_by, course_of};
use crate::edits::counted::is_work_in_range;
use crate::edits::given::{Given, Kept, NewParcel, given_by};
use crate::edits::merging::Way;
use cad_map::Corner;
use cad_near::{FaceAreas, Touched};
use cad_rows::{Edit, Refusal};
use edit_records::SmallRecord;
use half_table::Tally;

// The record of a parcel that came so, with what it keeps of the edit.
fn record_of_parcel(new: &NewParcel<'_>, kept: Kept, lead: Lead) -> SmallRecord
    requires { kept ≡ kept_by new.now }
    ensures { result ≡ added_record lead.way new.now lead.moved }
{
    let Lead { way, moved, .. } = lead;
    match way {
        Way::Along { start, end } => SmallRecord::Divide {
            face: new.face,
            chain: kept.points,
            strings: kept.strings,
            parcel: new.parcel,
            label: kept.label,
            source: new.source,
            start,
            end,
            moved,
        },
        Way::Round => SmallRecord::Enclose {
            face: new.face,
            points: kept.points,
            strings: kept.strings,
            parcel: new.parcel,
            label: kept.label,
            source: new.source,
            moved,
        },
    }
}

// Puts a parcel in with what comes, and takes it back where it breaks a rule. Gives its record.
fn add_recording<T: Tally>(
    draft: &mut Draft<T>,
    new: &NewParcel<'_>,
    kept: Kept,
    coming: Coming,
    areas: &FaceAreas,
    touched: &Touched,
) -> Result<SmallRecord, Refusal>
    requires ready { IsReadyFor (edit_by coming.lead.way new.now) draft.old areas.now touched.now }
    requires comes { Comes coming.lead.way (map_of draft.old) draft.old.table.rows new.now
        coming.strings.items coming.parcel coming.lead.path.items coming.lead.moved.items }
    requires kept { kept ≡ kept_by new.now }
    ensures { IsTrialOf (edit_by coming.lead.way new.now) draft.old draft.new result }
{
    is_work_in_range(&draft.table);
    let Coming {
        strings,
        parcel,
        lead,
    } = coming;
    let course = course_of(&lead);
    add_within_rules(draft, new, &course, strings, parcel, areas, touched)?;
    Ok(record_of_parcel(new, kept, lead))
}

/// Divides a face, between the corners that were found, or encloses a part of it, and takes it back
/// where it breaks a rule. The grid holds the strings and points of the map after it.
pub(crate) fn try_adding<T: Tally>(
    draft: &mut Draft<T>,
    edit: &Edit,
    corners: Option<(Corner, Corner)>,
    areas: &FaceAreas,
    touched: &Touched,
) -> Result<SmallRecord, Refusal>
    requires parcel { BringsParcel edit.now }
    requires ready { IsReadyFor edit.now draft.old areas.now touched.now }
    requires corners { HasCorners (map_of draft.old) edit.now corners }
    ensures { IsTrialOf edit.now draft.old draft.new result }
{
    let Ok(given) = given_by(edit) else {
        return Err(Refusal::Memory);
    };
    let Given { kind, new, kept } = given;
    let Ok(coming) = coming_by(draft, kind, &new, corners) else {
        return Err(Refusal::Memory);
    };
    add_recording(draft, &new, kept, coming, areas, touched)
}
